//! Which nodes are linked. Objects are the nodes 0 to 127, and the domain d is the node 128 + d.
ghost use Rattle.flow.specs.Rows.{linked as linked_in};

use reach::graph::{Graph, NODES};

// The nodes that each node leads to.
// A type of its own, since `Graph` is of another crate.
#[derive(Drop)]
pub struct Links(pub(crate) [[bool; NODES]; NODES]);

// The links of a policy, and how many objects it has.
// A chart is data and does not hold its policy, so a promise about it names the policy as a premise.
#[derive(Drop)]
pub struct Chart {
    pub(crate) objects: usize,
    pub(crate) links: Links,
}

impl Graph for Links {
    ghost edge = { linked_in };

    fn linked(&self, u: usize, v: usize) -> bool {
        self.0.get(u).is_some_and(|row| row.get(v) == Some(&true))
    }
}
