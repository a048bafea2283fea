//! The flags of a rule.
ghost use Rattle.std.specs.Prelude.{◌≡◌, [], ◌∷◌};
ghost use Rattle.words.specs.Flags.{flag_of, flag_text, flags, flag_read_back};
ghost use Rattle.words.specs.Spelled.{ReadAsSpelled};

use crate::spelled::{Spelled, words_are_spellings};
use rules::rule::Flag;

impl Spelled for Flag {
    ghost spelling = { flag_text };

    ghost every = { flags };

    ghost own = { flag_read_back };

    fn text(self) -> &'static str {
        match self {
            Flag::E => "-e",
            Flag::U => "-u",
            Flag::R => "-r",
        }
    }

    fn every() -> &'static [Flag] {
        &[Flag::E, Flag::U, Flag::R]
    }
}

// The flag that is a dash and this letter.
#[tactic(auto, unfolding(crate::specs::Flags::flag_of))]
fn flag_by(letter: u8) -> Option<Flag>
    ensures { result ≡ flag_of (45 ∷ letter ∷ []) }
{
    match letter {
        b'e' => Some(Flag::E),
        b'u' => Some(Flag::U),
        b'r' => Some(Flag::R),
        _ => None,
    }
}

// The flag that the word is, if it is one: a dash and a letter.
#[tactic(auto, unfolding(crate::specs::Flags::flag_of))]
pub fn flag_of(word: &[u8]) -> Option<Flag>
    ensures { result ≡ flag_of word.now }
{
    let [b'-', letter] = word else {
        return None;
    };
    flag_by(*letter)
}

// A word is a flag exactly where it is spelled as one.
#[tactic(auto, unfolding(crate::specs::Flags::flag_of))]
pub fn flags_are_their_spellings() -> bool
    ensures { ReadAsSpelled flag_text flag_of }
{
    words_are_spellings::<Flag>()
}
