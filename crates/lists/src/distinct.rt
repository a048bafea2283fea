// At most N labels, numbered from 0 in the order in which they came, no two with the same text.
// They are few and each is its place, so a text is looked for in turn; a set that hashes would need a hasher.
ghost use Rattle.std.specs.Prelude.{◌≤◌, vec_len};

use std::convert::AsSlice;

#[derive(Drop)]
pub struct Distinct<T: AsSlice<u8> + Copy, const N: usize> {
    pub(crate) list: Vec<T>,
    ghost few: { vec_len list ≤ N },
}
