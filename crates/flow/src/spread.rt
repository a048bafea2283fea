//! What one exploration of a chart finds.
use reach::table::Reach;

// How far every node is from a set of objects.
#[derive(Drop)]
pub struct Spread {
    pub(crate) reach: Reach,
}

// An object, and the number of links of a shortest chain to it.
#[derive(Clone, Copy)]
pub(crate) struct Near {
    pub(crate) obj: usize,
    pub(crate) links: usize,
}
