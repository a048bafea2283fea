// A policy that was composed: its decisions and the chart of its links.
ghost use Rattle.flow.specs.Charts.{Charts};
ghost use Rattle.policy.specs.Abstract.{asked};
ghost use Rattle.policy.specs.Holds.{model_of};
ghost use Rattle.draft.specs.Endings.{Settled};

use flow::chart::Chart;
use policy::sealed::Sealed;

#[derive(Drop)]
pub struct SealedPolicy {
    pub(crate) decisions: Sealed,
    pub(crate) chart: Chart,
    ghost charted: { ∥ Charts (asked decisions.policy) chart ∥₁ },
    ghost settled: { ∥ Settled (model_of decisions.policy) ∥₁ },
}
