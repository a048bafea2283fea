//! The links of a policy, one by one.
ghost use Rattle.std.specs.Prelude.{◌≡◌, ℕ, ◌<◌, true, false, ◌↔◌, slice_index_or};
ghost use Rattle.machine.specs.Flow.{Node as Meant, obj as object, dom as domain, number};
ghost use Rattle.flow.specs.Grounds.{Linked};
ghost use Rattle.flow.specs.Nodes.{Numbered, meant};
ghost use Rattle.flow.specs.Tables.{RowOf};

use crate::asking::{may_change, may_read};
use crate::chart::Links;
use crate::node::Node;
use crate::relation::{Relation, to_domains};
use label::numbers::{Dom, Obj};
use policy::sealed::Sealed;
use reach::graph::{Graph, NODES};
use std::array;

// What the links of a policy rest on: the passages between its domains, and which of them are live.
#[derive(Drop)]
pub(crate) struct Linking<'a> {
    pub(crate) policy: &'a Sealed,
    pub(crate) passages: Links,
    pub(crate) live: [bool; 32],
}

impl Linking<'_> {
    fn is_live(&self, dom: Dom) -> bool
        ensures { result ≡ slice_index_or self.now.live dom.0 false }
    {
        self.live.get(dom.0 as usize) == Some(&true)
    }
}

impl Linking<'_> {
    // Live domains learn, alter and pass.
    fn relates(&self, from: Node, to: Node) -> bool
        ensures { (result ≡ true) ↔ Linked self.now (meant from) (meant to) }
    {
        match (from, to) {
            (Node::Object(_), Node::Object(_)) => false,
            (Node::Object(obj), Node::Domain(dom)) => {
                self.is_live(dom) && may_read(self.policy, dom, obj)
            }
            (Node::Domain(dom), Node::Object(obj)) => {
                self.is_live(dom) && may_change(self.policy, dom, obj)
            }
            (Node::Domain(dom), Node::Domain(_)) => {
                self.is_live(dom) && self.passages.linked(from.into(), to.into())
            }
        }
    }

    // The domains to which an object is related.
    fn learners(&self, obj: Obj) -> [bool; 32]
        ensures { (d : ℕ) → d < 32 → (slice_index_or result d false ≡ true) ↔ Linked self.now (object obj.0) (domain d) }
    {
        array::from_fn(
            |d|
                requires { d < 32 }
                ensures { (result ≡ true) ↔ Linked self.entry.now (object obj.0) (domain d) }
            { self.relates(Node::Object(obj), Node::Domain(Dom(d as u8))) },
        )
    }

    // The nodes to which a domain is related.
    fn effects(&self, dom: Dom) -> [bool; NODES]
        ensures { RowOf (Linked self.now (domain dom.0)) result }
    {
        let from = Node::Domain(dom);
        array::from_fn(
            |v|
                requires { v < 256 }
                ensures { (y : Meant) → Numbered y → number y ≡ v → (result ≡ true) ↔ Linked self.entry.now (meant from) y }
            { self.relates(from, Node::from(v as u8)) },
        )
    }
}

impl Relation for Linking<'_> {
    ghost holds = { Linked };

    // Objects lead to domains alone, and a domain that is not live leads nowhere.
    fn row(&self, from: Node) -> [bool; NODES] {
        match from {
            Node::Object(obj) => to_domains(&self.learners(obj)),
            Node::Domain(dom) if self.is_live(dom) => self.effects(dom),
            Node::Domain(_) => [false; NODES],
        }
    }
}
