// What a search has found.
ghost use Rattle.reach.specs.Rooted.{Short, Rooted};

use crate::graph::NODES;

// How far a node is from the nearest source, and the node before it on a shortest walk.
#[derive(Clone, Copy)]
pub(crate) struct Step {
    pub(crate) dist: u8,
    pub(crate) parent: u8,
}

// The last step to each node; none where no walk leads.
#[derive(Drop)]
pub struct Reach {
    pub(crate) steps: [Option<Step>; NODES],
    ghost short: { Short steps },
    ghost rooted: { Rooted steps },
}
