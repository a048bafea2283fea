//! Letters, and sets of letters.
ghost use Rattle.std.specs.Prelude.{◌≡◌};
ghost use Rattle.std.specs.Option.{option_map};
ghost use Rattle.label.specs.Letters.{bit, has, union, none};
ghost use Rattle.label.specs.Sets.{Sets};

// The letters in the order in which they are written: read, write, append, execute, create and remove, descend.
pub const LETTERS: [char; 6] = ['r', 'w', 'a', 'x', 'c', 'd'];

// A set of letters, a bit each.
#[derive(Clone, Copy, PartialEq, Eq, Debug)]
pub struct Rights {
    bits: u8,
}

// The bit of a letter. Letters stand as they are written in the rules.
fn bit(letter: char) -> Option<u8>
    ensures { result ≡ bit letter }
{
    match letter {
        'r' => Some(1),
        'w' => Some(2),
        'a' => Some(4),
        'x' => Some(8),
        'c' => Some(16),
        'd' => Some(32),
        _ => None,
    }
}

impl Rights {
    // No letter.
    pub fn none() -> Rights
        ensures { result ≡ none }
    {
        Rights { bits: 0 }
    }

    // The set of one letter, if it is a letter.
    pub fn of(letter: char) -> Option<Rights>
        ensures { option_map (λ s. s.bits) result ≡ bit letter }
    {
        bit(letter).map(|bits| Rights { bits })
    }

    // The letters of either set.
    pub fn union(self, other: Rights) -> Rights
        ensures { result ≡ union self other }
    {
        Rights {
            bits: self.bits | other.bits,
        }
    }

    // Whether the letter is in the set; what is no letter is in none.
    pub fn has(self, letter: char) -> bool
        ensures { result ≡ has self letter }
    {
        bit(letter).is_some_and(|b| self.bits & b != 0)
    }
}

// Rights are sets of letters.
pub fn rights_are_sets() -> bool
    ensures { Sets }
{
    true
}
