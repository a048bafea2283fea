//! What the number of a node stands for.
ghost use Rattle.std.specs.Prelude.{◌≡◌};
ghost use Rattle.machine.specs.Flow.{number};
ghost use Rattle.flow.specs.Nodes.{meant, StandsFor};

use label::numbers::{Dom, Obj};

// An object, or a domain.
#[derive(Clone, Copy)]
pub(crate) enum Node {
    Object(Obj),
    Domain(Dom),
}

impl From<u8> for Node {
    ghost from_gives = { StandsFor };

    fn from(v: u8) -> Node {
        match v.checked_sub(128) {
            None => Node::Object(Obj(v)),
            Some(d) => Node::Domain(Dom(d)),
        }
    }
}

impl From<Node> for usize {
    ghost from_gives = { λ node v. v ≡ number (meant node) };

    fn from(node: Node) -> usize {
        match node {
            Node::Object(obj) => usize::from(obj.0),
            Node::Domain(dom) => 128 + usize::from(dom.0),
        }
    }
}
