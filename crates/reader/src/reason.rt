//! Why a module text is refused.
ghost use Rattle.std.specs.Prelude.{◌≡◌};
ghost use Rattle.reader.specs.Reasons.{number, layer};

use label::numbers::{Dom, Typ};

#[derive(Clone, Copy, PartialEq, Eq, Debug)]
pub enum Reason {
    // a byte that may not stand outside a comment
    Stray,
    // an unknown or misshapen statement, or a word that lacks its arrow
    Misfit,
    // not a name, or not a path
    Misshapen,
    // given before
    Repeated,
    // a name that is not declared
    Undeclared,
    // a table has as many entries as it may have
    Full,
    // letters of which one is no right's, or stands twice, or there is none
    Letters,
    // a word in the group of signals
    Signals,
    // some domain has auto passages to both of these, and they share an entry path
    Clash((Dom, Dom)),
    // no default domain, or no -r rule on `/`
    Incomplete,
    // a chain leads from an object of the one type to one of the other, which are to be kept apart
    Chain((Typ, Typ)),
    // a ninth module, or a text of more than 16,384 bytes
    TooMuch,
}

impl Reason {
    // The number by which the fault is known.
    pub fn number(self) -> u8
        ensures { result ≡ number self }
    {
        match self {
            Reason::Stray => 1,
            Reason::Misfit => 2,
            Reason::Misshapen => 3,
            Reason::Repeated => 4,
            Reason::Undeclared => 5,
            Reason::Full => 6,
            Reason::Letters => 7,
            Reason::Signals => 8,
            Reason::Clash(_) => 9,
            Reason::Incomplete => 10,
            Reason::Chain(_) => 11,
            Reason::TooMuch => 12,
        }
    }

    // What the fault is found in: 1 bytes, 2 statement, 3 tables, 4 flow.
    pub fn layer(self) -> u8
        ensures { result ≡ layer self }
    {
        match self {
            Reason::Stray => 1,
            Reason::Misfit | Reason::Misshapen | Reason::Letters | Reason::Signals => 2,
            Reason::Chain(_) => 4,
            _ => 3,
        }
    }
}
