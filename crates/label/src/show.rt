// Names, paths, rights and refusals as text.
ghost use Rattle.std.specs.Prelude.{Some};
ghost use Rattle.label.specs.Shown.{letters};
ghost use Rattle.label.specs.Texts.{text, name_text};

use crate::name::Name;
use crate::path::Path;
use crate::refusal::Refusal;
use crate::rights::{LETTERS, Rights};
use std::fmt;

impl fmt::Display for Name {
    ghost output = { λ n. Some (name_text n) };

    fn fmt<W: fmt::Write>(&self, f: &mut fmt::Formatter<W>) -> fmt::Result {
        fmt::Display::fmt(&self.text, f)
    }
}

impl fmt::Display for Path {
    ghost output = { λ p. Some (text p) };

    fn fmt<W: fmt::Write>(&self, f: &mut fmt::Formatter<W>) -> fmt::Result {
        fmt::Display::fmt(&self.text, f)
    }
}

impl fmt::Debug for Name {
    fn fmt<W: fmt::Write>(&self, f: &mut fmt::Formatter<W>) -> fmt::Result {
        fmt::Debug::fmt(&self.text, f)
    }
}

impl fmt::Debug for Path {
    fn fmt<W: fmt::Write>(&self, f: &mut fmt::Formatter<W>) -> fmt::Result {
        fmt::Debug::fmt(&self.text, f)
    }
}

// The letters in their order; a dash stands for none.
impl fmt::Display for Rights {
    ghost output = { λ s. Some (letters s) };

    fn fmt<W: fmt::Write>(&self, f: &mut fmt::Formatter<W>) -> fmt::Result {
        if *self == Rights::none() {
            return f.write_str("-");
        }
        // Each letter may fail to be written, and the first that does ends the loop.
        for letter in LETTERS {
            if self.has(letter) {
                f.write_char(letter)?;
            }
        }
        Ok(())
    }
}

impl fmt::Display for Refusal {
    fn fmt<W: fmt::Write>(&self, f: &mut fmt::Formatter<W>) -> fmt::Result {
        match self {
            Refusal::Misshapen => f.write_str("not a name or a path"),
            Refusal::Repeated => f.write_str("given before"),
            Refusal::Undeclared => f.write_str("not declared"),
            Refusal::Full => f.write_str("a limit is passed"),
            Refusal::NoLetter => f.write_str("not a letter that stands for a right"),
            Refusal::Incomplete => f.write_str("no default domain, or no -r rule on /"),
            Refusal::NoObject => f.write_str("no such object"),
            Refusal::NoDomain => f.write_str("no such domain"),
            Refusal::SmallBuffer => f.write_str("the buffer is too short"),
            Refusal::NoType => f.write_str("no such type"),
            Refusal::Denied((n, letter)) => {
                write!(
                    f,
                    "denied: {letter} lacking on the first {n} bytes of the path"
                )
            }
            Refusal::NoPassage => f.write_str("no passage leads there"),
            Refusal::Memory => f.write_str("out of memory"),
        }
    }
}

impl std::error::Error for Refusal {}
