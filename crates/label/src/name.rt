// A name that is held: at most 24 bytes, known to be a name.
// Names and paths are two types, so that neither is taken for the other. What they share is in `Short`, and each calls it in a line.
ghost use Rattle.std.specs.Prelude.{take};
ghost use Rattle.label.specs.Names.{IsName};

use crate::short::Short;

#[derive(Clone, Copy, PartialEq)]
pub struct Name {
    pub(crate) text: Short<24>,
    ghost ok: { ∥ IsName (take text.len text.bytes) ∥₁ },
}
