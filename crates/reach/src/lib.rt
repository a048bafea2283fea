//! Breadth-first search over at most 160 nodes.
#![tactic(auto)]

ghost use Rattle.reach.specs.TrailLaws.{ShortestWalks};

pub mod graph;
pub mod search;
pub mod table;
pub mod tracing;

// The nodes that a trace writes are those of a shortest walk.
pub fn traces_are_shortest_walks() -> bool
    ensures { ShortestWalks }
{
    true
}
