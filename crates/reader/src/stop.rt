//! Why a reader stops.
ghost use Rattle.std.specs.Prelude.{◌≡◌};
ghost use Rattle.reader.specs.Stops.{stop_of, halt_at};
ghost use Rattle.reader.specs.Reasons.{reason_of};
ghost use Rattle.reader.specs.declared.stop.Halt.TheVariants as halt;
ghost use Rattle.reader.specs.declared.stop.Stop.TheVariants as stop;

use crate::reason::Reason;
use label::refusal::Refusal;
use std::alloc::AllocError;

// A token is refused, or memory is wanting. Each of the three enums of a stop, `Stop`, `Halt` and a draft's `Failure`, names its own stage.
#[derive(Clone, Copy)]
pub enum Stop {
    Memory,
    Refused(Reason),
}

// The first fault of a text, with its place, or want of memory.
#[derive(Clone, Copy)]
pub enum Halt {
    Memory,
    At(Reason, usize),
}

impl From<Reason> for Stop {
    ghost from_gives = { λ e r. r ≡ stop.Refused e };

    fn from(reason: Reason) -> Stop {
        Stop::Refused(reason)
    }
}

impl From<Refusal> for Reason {
    ghost from_gives = { λ e r. r ≡ reason_of e };

    fn from(refusal: Refusal) -> Reason {
        match refusal {
            Refusal::Misshapen => Reason::Misshapen,
            Refusal::Repeated => Reason::Repeated,
            Refusal::Undeclared => Reason::Undeclared,
            Refusal::Full => Reason::Full,
            Refusal::NoLetter => Reason::Letters,
            Refusal::Incomplete => Reason::Incomplete,
            _ => Reason::Misfit,
        }
    }
}

impl From<Refusal> for Stop {
    ghost from_gives = { λ e r. r ≡ stop_of e };

    fn from(refusal: Refusal) -> Stop {
        match refusal {
            Refusal::Memory => Stop::Memory,
            _ => Stop::Refused(refusal.into()),
        }
    }
}

impl From<AllocError> for Halt {
    ghost from_gives = { λ _ h. h ≡ halt.Memory };

    fn from(_error: AllocError) -> Halt {
        Halt::Memory
    }
}

impl Stop {
    // The same with the place of the token.
    pub(crate) fn at(self, place: usize) -> Halt
        ensures { result ≡ halt_at self place }
    {
        match self {
            Stop::Memory => Halt::Memory,
            Stop::Refused(reason) => Halt::At(reason, place),
        }
    }
}
