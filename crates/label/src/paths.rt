//! Paths: their form, and the lengths of their ancestors.
ghost use Rattle.std.specs.Prelude.{◌≡◌, ◌≤◌, length, Some, codes, Decides};
ghost use Rattle.label.specs.Paths.{PathByte, Component, IsRest, IsPath, Ancestors, ancestor};
ghost use Rattle.std.specs.Option.{ok_or};
ghost use Rattle.label.specs.Held.{pathed};
ghost use Rattle.label.specs.Texts.{text, ReadsPath};
ghost use Rattle.label.specs.declared.refusal.Refusal.TheVariants.{Misshapen};

use crate::path::Path;
use crate::refusal::Refusal;
use crate::short::Short;
use std::convert::AsSlice;

fn is_path_byte(b: u8) -> bool
    ensures { Decides result (PathByte b) }
{
    match b {
        b'/' | b'(' | b')' | b'#' | b'\\' => false,
        0x21..=0x7e => true,
        _ => false,
    }
}

fn is_component(c: &[u8]) -> bool
    ensures { Decides result (Component c.now) }
{
    match c {
        [] | b"." | b".." => false,
        _ => c.iter().copied().all(is_path_byte),
    }
}

// Whether these are one component or more, with a slash between them.
fn are_components(s: &[u8]) -> bool
    ensures { Decides result (IsRest s.now) }
{
    s.split(|b| *b == b'/').all(is_component)
}

// Whether the bytes are a path: its leading slash, and the components after it.
pub fn is_path(s: &[u8]) -> bool
    ensures { Decides result (IsPath s.now) }
{
    match s {
        [b'/', rest @ ..] => s.len() <= 64 && (rest.is_empty() || are_components(rest)),
        _ => false,
    }
}

// Whether the first `n` bytes of a path are an ancestor of it.
pub fn is_ancestor(s: &[u8], n: usize) -> bool
    ensures { result ≡ ancestor s.now n }
{
    0 < n && n < s.len() && (n == 1 || s[n] == b'/')
}

// The test of an ancestor says what an ancestor is.
pub fn ancestor_test_is_the_relation() -> bool
    ensures { Ancestors }
{
    true
}

impl Path {
    // The path that the bytes are.
    pub fn parse(s: &[u8]) -> Result<Path, Refusal>
        ensures reads { ReadsPath s.now result }
        ensures value { result ≡ ok_or (pathed s.now) Misshapen }
    {
        if !is_path(s) {
            return Err(Refusal::Misshapen);
        }
        Ok(Path { text: Short::of(s) })
    }

    // The path without components.
    pub fn root() -> Path
        ensures text { text result ≡ codes "/" }
        ensures value { Some result ≡ pathed (codes "/") }
    {
        Path {
            text: Short::of(b"/"),
        }
    }

    pub fn as_bytes(&self) -> &[u8]
        ensures value { result.now ≡ text self.now }
        ensures path { ∥ IsPath result.now ∥₁ }
        ensures short { length result.now ≤ 64 }
    {
        self.text.as_bytes()
    }
}

impl AsSlice<u8> for Path {
    ghost items = { text };

    fn as_slice(&self) -> &[u8] {
        self.as_bytes()
    }
}
