//! Charting a policy: the passages between domains, the live domains, and then the links of every node.
ghost use Rattle.policy.specs.Abstract.{asked};
ghost use Rattle.flow.specs.Charts.{Charts};

use crate::chart::{Chart, Links};
use crate::linking::Linking;
use crate::live::live_domains;
use crate::passages::Passing;
use policy::sealed::Sealed;

impl Chart {
    // The chart of the policy.
    pub fn of(policy: &Sealed) -> Chart
        ensures { Charts (asked policy.now.policy) result }
    {
        let passages = Links::of(&Passing(policy));
        let live = live_domains(policy, &passages);
        Chart {
            objects: policy.policy().tables().object_count() as usize,
            links: Links::of(&Linking {
                policy,
                passages,
                live,
            }),
        }
    }
}
