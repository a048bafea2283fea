//! The passages between domains.
ghost use Rattle.std.specs.Prelude.{◌≡◌, ◌<◌, false, ◌||◌, slice_index_or};
ghost use Rattle.policy.specs.Abstract.{asked};
ghost use Rattle.policy.specs.Holds.{model_of};
ghost use Rattle.policy.specs.Passages.{pass};
ghost use Rattle.flow.specs.Passages.{Passage, TargetsOf};

use crate::asking::may_run;
use crate::node::Node;
use crate::relation::{Relation, to_domains};
use label::numbers::{Dom, Obj};
use policy::sealed::Sealed;
use reach::graph::NODES;
use std::array;

// The domains to which a domain, live or not, may pass by some object. An object that it may not run is asked about once, and not for
// each of them.
fn targets_of(policy: &Sealed, dom: Dom) -> [bool; 32]
    ensures { TargetsOf (asked policy.now.policy) dom.0 128 result }
{
    let mut targets = [false; 32];
    for o in 0..128u8 {
        let obj = Obj(o);
        if may_run(policy, dom, obj) {
            targets = array::from_fn(
                |e|
                    requires { e < 32 }
                    ensures { result ≡ (slice_index_or targets e false || pass (model_of policy.entry.now.policy) dom.0 obj.0 e) }
                { targets[e] || policy.passes(dom, obj, Dom(e as u8)) },
            );
        }
    }
    targets
}

// That a domain, live or not, may pass to another by some object.
#[derive(Drop)]
pub(crate) struct Passing<'a>(pub(crate) &'a Sealed);

impl Relation for Passing<'_> {
    ghost holds = { λ s. Passage (asked s.0.now.policy) };

    fn row(&self, from: Node) -> [bool; NODES] {
        match from {
            Node::Object(_) => [false; NODES],
            Node::Domain(dom) => to_domains(&targets_of(self.0, dom)),
        }
    }
}
