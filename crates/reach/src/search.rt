//! The search: each node that is found is put into a queue, and the nodes in the queue are expanded in turn.
ghost use Rattle.std.specs.Prelude.{◌≡◌, ◌+◌, ◌<◌};
ghost use Rattle.reach.specs.Distances.{distance_of, parent_of};
ghost use Rattle.reach.specs.Queue.{finding, Started, Queue, SameSources};
ghost use Rattle.reach.specs.Walks.{among, Found};

use crate::graph::{Graph, NODES};
use crate::table::{Reach, Step};

// A search under way: the last step to each node that is found, and those nodes in the order in which they were found.
// The crate rests on std alone, so the queue is an array with its count beside it, and a search allocates nothing.
#[derive(Drop)]
struct Search {
    steps: [Option<Step>; NODES],
    queue: [u8; NODES],
    count: usize,
}

impl Search {
    // Finds a node by a step.
    fn find(&mut self, v: usize, step: Step)
        requires node { v < 160 }
        requires room { self.old.count < 160 }
        ensures { self.new ≡ finding self.old v step }
    {
        self.steps[v] = Some(step);
        self.queue[self.count] = v as u8;
        self.count += 1;
    }
}

// The search in which only the sources are found.
fn start(from: &[bool; NODES]) -> Search
    ensures { Started (among from.now) 160 result }
{
    let mut search = Search {
        steps: [None; NODES],
        queue: [0; NODES],
        count: 0,
    };
    for (v, &is_source) in from.iter().enumerate() {
        if is_source {
            let step = Step {
                dist: 0,
                parent: v as u8,
            };
            search.find(v, step);
        }
    }
    search
}

// Finds each node that an edge leads to from the node at a place of the queue, and that was not found.
fn expand<G: Graph>(graph: &G, place: usize, search: &mut Search)
    requires place { place < search.old.count }
    requires queue { Queue (G.edge graph.now) place 0 search.old }
    ensures queue { Queue (G.edge graph.now) (place + 1) 0 search.new }
    ensures sources { SameSources search.old search.new }
{
    let u = search.queue[place];
    let level = search.steps[u as usize].unwrap().dist;
    // A node that is found is written into the table that is read, so the loop goes over numbers.
    for v in 0..NODES {
        if search.steps[v].is_none() && graph.linked(u as usize, v) {
            search.find(
                v,
                Step {
                    dist: level + 1,
                    parent: u,
                },
            );
        }
    }
}

// Searches the nodes that walks from the nodes in `from` lead to.
pub fn explore<G: Graph>(graph: &G, from: &[bool; NODES]) -> Reach
    ensures { Found (among from.now) (G.edge graph.now) (distance_of result) (parent_of result) }
{
    let mut search = start(from);
    // The queue grows while it is gone through, so its places are counted.
    let mut place = 0;
    while place < search.count {
        expand(graph, place, &mut search);
        place += 1;
    }
    Reach {
        steps: search.steps,
    }
}
