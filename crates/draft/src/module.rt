// The text of a module, and how many modules were kept before it.
ghost use Rattle.std.specs.Prelude.{◌≤◌};

#[derive(Clone, Copy)]
pub(crate) struct Module<'a> {
    pub(crate) kept: usize,
    pub(crate) text: &'a [u8],
    ghost few: { kept ≤ 8 },
}
