// A path that is held: at most 64 bytes, known to be a path.
ghost use Rattle.std.specs.Prelude.{take};
ghost use Rattle.label.specs.Paths.{IsPath};

use crate::short::Short;

#[derive(Clone, Copy, PartialEq)]
pub struct Path {
    pub(crate) text: Short<64>,
    ghost ok: { ∥ IsPath (take text.len text.bytes) ∥₁ },
}
