//! What was found of a node: its distance, and a shortest walk to it.
ghost use Rattle.std.specs.Prelude.{◌≡◌, length};
ghost use Rattle.reach.specs.Distances.{distance_of};
ghost use Rattle.reach.specs.Steps.{step_at};
ghost use Rattle.reach.specs.Trails.{traced, written};

use crate::graph::NODES;
use crate::table::{Reach, Step};

impl Reach {
    // The last step to `v`. None where no walk leads, or `v` is no node.
    fn step(&self, v: usize) -> Option<Step>
        ensures { result ≡ step_at self.now.steps v }
    {
        self.steps.get(v).copied().flatten()
    }

    // How many edges a shortest walk to `v` has. None where no walk leads, or `v` is no node.
    pub fn distance(&self, v: usize) -> Option<usize>
        ensures { result ≡ distance_of self.now v }
    {
        self.step(v).map(|step| step.dist as usize)
    }

    // Writes the nodes of a shortest walk to `to`, in order, into the front of `nodes`. How many edges it has.
    // None, and nothing is written, where no walk leads, `to` is no node, or `nodes` has not room for all nodes.
    pub fn trace(&self, to: usize, nodes: &mut [u8]) -> Option<usize>
        ensures answer { result ≡ traced self.now to (length nodes.old) }
        ensures nodes { nodes.new ≡ written self.now to nodes.old result }
    {
        if nodes.len() < NODES {
            return None;
        }
        let n = self.distance(to)?;
        nodes[n] = to as u8;
        // Each node is the parent of the one that was written behind it, so the loop reads one place and writes the one before.
        for k in (0..n).rev() {
            nodes[k] = self.step(nodes[k + 1] as usize).unwrap().parent;
        }
        Some(n)
    }
}
