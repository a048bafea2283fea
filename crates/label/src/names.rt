//! Names of types and domains.
ghost use Rattle.std.specs.Prelude.{◌≡◌, Decides};
ghost use Rattle.label.specs.Names.{NameByte, IsName};
ghost use Rattle.std.specs.Option.{ok_or};
ghost use Rattle.label.specs.Held.{named};
ghost use Rattle.label.specs.Texts.{name_text, ReadsName};
ghost use Rattle.label.specs.declared.refusal.Refusal.TheVariants.{Misshapen};

use crate::name::Name;
use crate::refusal::Refusal;
use crate::short::Short;
use std::convert::AsSlice;

fn is_name_byte(b: u8) -> bool
    ensures { Decides result (NameByte b) }
{
    matches!(b, b'a'..=b'z' | b'0'..=b'9' | b'_')
}

// Whether the bytes are a name: 1 to 24 of a to z, 0 to 9 and underscore, the first a letter.
pub fn is_name(s: &[u8]) -> bool
    ensures { Decides result (IsName s.now) }
{
    match s {
        [first, ..] => {
            s.len() <= 24 && first.is_ascii_lowercase() && s.iter().copied().all(is_name_byte)
        },
        [] => false,
    }
}

impl Name {
    // The name that the bytes are.
    pub fn parse(s: &[u8]) -> Result<Name, Refusal>
        ensures reads { ReadsName s.now result }
        ensures value { result ≡ ok_or (named s.now) Misshapen }
    {
        if !is_name(s) {
            return Err(Refusal::Misshapen);
        }
        Ok(Name { text: Short::of(s) })
    }

    pub fn as_bytes(&self) -> &[u8]
        ensures value { result.now ≡ name_text self.now }
        ensures name { ∥ IsName result.now ∥₁ }
    {
        self.text.as_bytes()
    }
}

impl AsSlice<u8> for Name {
    ghost items = { name_text };

    fn as_slice(&self) -> &[u8] {
        self.as_bytes()
    }
}
