//! Sets of objects.
ghost use Rattle.std.specs.Prelude.{◌≡◌, ℕ, ◌<◌, false};
ghost use Rattle.machine.specs.Flow.{of_type};
ghost use Rattle.policy.specs.Abstract.{asked};
ghost use Rattle.flow.specs.Sets.{among, joined, within};

use label::numbers::{Obj, Typ};
use policy::sealed::Sealed;
use std::array;

// A set of the objects 0 to 127. A search allocates nothing, so each object has its mark.
#[derive(Clone, Copy)]
pub struct Objects {
    pub(crate) members: [bool; 128],
}

impl Objects {
    pub fn none() -> Objects
        ensures { (o : ℕ) → among result o ≡ false }
    {
        Objects {
            members: [false; 128],
        }
    }

    // Puts the object in; a number above 127 changes nothing.
    pub fn add(&mut self, obj: Obj)
        ensures { (o : ℕ) → among self.new o ≡ joined (among self.old) obj.0 o }
    {
        if obj.0 < 128 {
            self.members[obj.0 as usize] = true;
        }
    }

    pub fn has(&self, obj: Obj) -> bool
        ensures { result ≡ among self.now obj.0 }
    {
        self.members.get(obj.0 as usize) == Some(&true)
    }

    // The objects of the type.
    pub fn of_type(policy: &Sealed, typ: Typ) -> Objects
        ensures { (o : ℕ) → among result o ≡ within (asked policy.now.policy) (of_type (asked policy.now.policy) typ.0) o }
    {
        Objects {
            members: array::from_fn(
                |o|
                    requires { o < 128 }
                    ensures { result ≡ within (asked policy.entry.now.policy) (of_type (asked policy.entry.now.policy) typ.0) o }
                { has_type(policy, Obj(o as u8), typ) },
            ),
        }
    }
}

// Whether there is such an object, and it has the type.
fn has_type(policy: &Sealed, obj: Obj, typ: Typ) -> bool
    ensures { result ≡ within (asked policy.now.policy) (of_type (asked policy.now.policy) typ.0) obj.0 }
{
    policy.type_of(obj) == Ok(typ)
}
