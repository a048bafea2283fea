//! Words that are letters of rights.
ghost use Rattle.std.specs.Prelude.{◌≡◌};
ghost use Rattle.words.specs.Letters.{with_letter, letters_of, LettersAsSets};

use label::rights::Rights;

// The set with one letter more: none where this is no letter, or one that the set has.
#[tactic(auto, unfolding(crate::specs::Letters::with_letter))]
fn with_letter(set: Rights, letter: char) -> Option<Rights>
    ensures { result ≡ with_letter set letter }
{
    if set.has(letter) {
        None
    } else {
        Rights::of(letter).map(|right| set.union(right))
    }
}

// The set of the letters that the bytes are: one or more, each once.
#[tactic(auto, unfolding(crate::specs::Letters::letters_of, crate::specs::Letters::with_letters))]
pub fn letters_of(bytes: &[u8]) -> Option<Rights>
    ensures { result ≡ letters_of bytes.now }
{
    if bytes.is_empty() {
        return None;
    }
    let mut set = Rights::none();
    // The first byte that is no letter, or stands twice, ends the loop.
    for b in bytes {
        set = with_letter(set, *b as char)?;
    }
    Some(set)
}

// Bytes are taken exactly where they are letters, one or more, each once.
// The set has these letters and no others, whatever their order.
pub fn letters_are_sets() -> bool
    ensures { LettersAsSets }
{
    true
}
