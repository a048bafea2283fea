// What the modules that a draft has taken come to.
use crate::sealed_policy::SealedPolicy;

#[derive(Drop)]
pub struct Composed {
    pub(crate) policy: SealedPolicy,
    // the domains that had their `spec_domain`, by number
    pub(crate) specified: [bool; 32],
}
