//! The domains that a seat can come to.
ghost use Rattle.policy.specs.Abstract.{asked};
ghost use Rattle.flow.specs.Passages.{Alive, Passage};
ghost use Rattle.flow.specs.Tables.{TableOf};

use crate::chart::Links;
use crate::node::Node;
use label::numbers::Dom;
use policy::sealed::Sealed;
use reach::graph::NODES;
use reach::search::explore;
use std::array;

// Which domains are live: the default domain, and those that a live domain may pass to.
pub(crate) fn live_domains(policy: &Sealed, passages: &Links) -> [bool; 32]
    requires { TableOf (Passage (asked policy.now.policy)) passages.now }
    ensures { Alive (asked policy.now.policy) result }
{
    let mut from = [false; NODES];
    from[usize::from(Node::Domain(policy.policy().first()))] = true;
    let reached = explore(passages, &from);
    array::from_fn(|d| {
        let node = Node::Domain(Dom(d as u8));
        reached.distance(node.into()).is_some()
    })
}
