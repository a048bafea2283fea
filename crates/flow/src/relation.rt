//! Relations between nodes, and their tables.
ghost use Rattle.std.specs.Prelude.{◌≡◌, ◌<◌};
ghost use Rattle.machine.specs.Flow.{Node as Meant, number};
ghost use Rattle.flow.specs.Nodes.{Numbered, meant};
ghost use Rattle.flow.specs.Tables.{LeadsTo, RowOf, TableOf};

use crate::chart::Links;
use crate::node::Node;
use reach::graph::NODES;
use std::array;

pub(crate) trait Relation {
    ghost holds: { Self → Meant → Meant → Type 0 };

    // The nodes to which the node is related, as one row: what rules out all of them is asked first.
    fn row(&self, from: Node) -> [bool; NODES]
        ensures { RowOf (holds self.now (meant from)) result };
}

// The row that leads to the marked domains, and to no object.
pub(crate) fn to_domains(marks: &[bool; 32]) -> [bool; NODES]
    ensures { LeadsTo marks.now result }
{
    let mut row = [false; NODES];
    row[128..].copy_from_slice(marks);
    row
}

// The nodes to which the node of a number is related.
fn row<R: Relation>(relation: &R, u: u8) -> [bool; NODES]
    ensures { (x : Meant) → Numbered x → number x ≡ u → RowOf (R.holds relation.now x) result }
{
    relation.row(Node::from(u))
}

impl Links {
    // The table of a relation.
    pub(crate) fn of<R: Relation>(relation: &R) -> Links
        ensures { TableOf (R.holds relation.now) result }
    {
        Links(array::from_fn(
            |u|
                requires { u < 256 }
                ensures { (x : Meant) → Numbered x → number x ≡ u → RowOf (R.holds relation.entry.now x) result }
            { row(relation, u as u8) },
        ))
    }
}
