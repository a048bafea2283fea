//! Why a call is refused.
ghost use Rattle.std.specs.Prelude.{◌≡◌};
ghost use Rattle.label.specs.Refusals.{number, refuses_more};

use std::alloc::{AllocError, AllocFailed};

#[derive(Clone, Copy, PartialEq, Eq, Debug)]
pub enum Refusal {
    // no name, or no path
    Misshapen,
    // a name, object, rule, entry path or default that was there before
    Repeated,
    // a domain or a type that is not declared
    Undeclared,
    // not a letter that stands for a right
    NoLetter,
    // a table has as many entries as it may have
    Full,
    // tables without a default domain or without a -r rule on `/`
    Incomplete,
    // no object of the policy has the number
    NoObject,
    // no domain of the policy has the number
    NoDomain,
    // a buffer that is too short for what might be written
    SmallBuffer,
    // no type of the policy has the number
    NoType,
    // the length of the first path that failed, and the letter that is lacking there
    Denied((usize, char)),
    // no passage leads there
    NoPassage,
    // want of memory
    Memory,
}

impl Refusal {
    // The number by which the refusal is known; want of memory has none.
    pub fn number(self) -> Option<u8>
        ensures { result ≡ number self }
    {
        match self {
            Refusal::Misshapen => Some(3),
            Refusal::Repeated => Some(4),
            Refusal::Undeclared => Some(5),
            Refusal::Full => Some(6),
            Refusal::NoLetter => Some(7),
            Refusal::Incomplete => Some(10),
            Refusal::NoObject => Some(22),
            Refusal::NoDomain => Some(24),
            Refusal::SmallBuffer => Some(26),
            Refusal::NoType => Some(27),
            Refusal::Denied(_) => Some(30),
            Refusal::NoPassage => Some(31),
            Refusal::Memory => None,
        }
    }
}

// Why one more entry is refused: it is there already, or there are as many as there may be.
pub fn refuses_more(there: bool, count: usize, most: usize) -> Option<Refusal>
    ensures { result ≡ refuses_more there count most }
{
    if there {
        return Some(Refusal::Repeated);
    }
    (count >= most).then_some(Refusal::Full)
}

// Want of memory is a refusal.
impl From<AllocError> for Refusal {
    ghost use Rattle.label.specs.declared.refusal.Refusal.TheVariants.{Memory};

    ghost from_gives = { λ _ r. r ≡ Memory };

    fn from(_wanting: AllocError) -> Refusal {
        Refusal::Memory
    }
}

// What was to be stored is let go.
impl<T: Drop> From<AllocFailed<T>> for Refusal {
    ghost use Rattle.label.specs.declared.refusal.Refusal.TheVariants.{Memory};

    ghost from_gives = { λ _ r. r ≡ Memory };

    fn from(wanting: AllocFailed<T>) -> Refusal {
        AllocError::from(wanting).into()
    }
}
