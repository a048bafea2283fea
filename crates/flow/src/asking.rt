//! What a sealed policy allows, in the machine's words.
ghost use Rattle.std.specs.Prelude.{◌≡◌};
ghost use Rattle.machine.specs.Policy.{reading, running};
ghost use Rattle.policy.specs.Abstract.{asked};
ghost use Rattle.flow.specs.Allows.{allowed, changed};

use label::numbers::{Dom, Obj};
use policy::sealed::Sealed;

// Whether the domain may read the object.
pub(crate) fn may_read(policy: &Sealed, dom: Dom, obj: Obj) -> bool
    ensures { result ≡ allowed (asked policy.now.policy) reading dom.0 obj.0 }
{
    policy.decide_read(dom, obj).is_ok()
}

// Whether the domain may change the object: write it, append to it, or create and remove it.
pub(crate) fn may_change(policy: &Sealed, dom: Dom, obj: Obj) -> bool
    ensures { result ≡ changed (asked policy.now.policy) dom.0 obj.0 }
{
    policy.decide(dom, obj, 'w').is_ok()
        || policy.decide(dom, obj, 'a').is_ok()
        || policy.decide(dom, obj, 'c').is_ok()
}

// Whether the domain may run the object.
pub(crate) fn may_run(policy: &Sealed, dom: Dom, obj: Obj) -> bool
    ensures { result ≡ allowed (asked policy.now.policy) running dom.0 obj.0 }
{
    policy.decide(dom, obj, 'x').is_ok()
}
