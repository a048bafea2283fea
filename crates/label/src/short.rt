//! Short texts.
ghost use Rattle.std.specs.Prelude.{◌≡◌, ◌≤◌, length, take, nat_eq, Some};
ghost use Rattle.std.specs.Ordering.{on};
ghost use Rattle.std.specs.Cmp.Lexicographic.{pointwise};
ghost use Rattle.std.specs.Cmp.Rules.{comparing};
ghost use Rattle.std.proofs.Common.{rules};
ghost use Rattle.label.specs.Shorts.{padded};

use std::fmt;

// A text of at most N bytes. It is copied and allocates nothing, so it is an array with its length beside it.
#[derive(Clone, Copy)]
pub(crate) struct Short<const N: usize> {
    bytes: [u8; N],
    len: usize,
    ghost fits: { len ≤ N },
}

impl<const N: usize> Short<N> {
    // The text that the bytes are, with zeros behind it.
    pub(crate) fn of(s: &[u8]) -> Short<N>
        requires { length s.now ≤ N }
        ensures bytes { result.bytes ≡ padded N s.now }
        ensures len { result.len ≡ length s.now }
    {
        let mut bytes = [0; N];
        bytes[..s.len()].copy_from_slice(s);
        Short {
            bytes,
            len: s.len(),
        }
    }

    pub(crate) fn as_bytes(&self) -> &[u8]
        ensures { result.now ≡ take self.now.len self.now.bytes }
    {
        &self.bytes[..self.len]
    }
}

// Texts are equal where their bytes are.
impl<const N: usize> PartialEq for Short<N> {
    ghost eq = { on (λ s. take s.len s.bytes) (pointwise nat_eq) };

    ghost laws = { Prim.search (comparing, rules) };

    fn eq(&self, other: &Short<N>) -> bool {
        self.as_bytes() == other.as_bytes()
    }
}

impl<const N: usize> fmt::Display for Short<N> {
    ghost output = { λ s. Some (take s.len s.bytes) };

    fn fmt<W: fmt::Write>(&self, f: &mut fmt::Formatter<W>) -> fmt::Result {
        f.pad(std::str::from_utf8(self.as_bytes()).map_err(|_| fmt::Error)?)
    }
}

impl<const N: usize> fmt::Debug for Short<N> {
    fn fmt<W: fmt::Write>(&self, f: &mut fmt::Formatter<W>) -> fmt::Result {
        fmt::Display::fmt(self, f)
    }
}
