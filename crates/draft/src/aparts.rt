//! Separations.
ghost use Rattle.std.specs.Prelude.{ℕ, true, false};
ghost use Rattle.flow.specs.Charts.{Charts};
ghost use Rattle.policy.specs.Abstract.{asked};
ghost use Rattle.policy.specs.Holds.{model_of};
ghost use Rattle.draft.specs.Breaks.{Chained, Breaks};

use flow::chart::Chart;
use flow::objects::Objects;
use label::numbers::Typ;
use policy::sealed::Sealed;
use tables::table::Apart;

// Whether a chain leads from the one type to the other.
fn is_broken(decisions: &Sealed, chart: &Chart, apart: Apart) -> bool
    requires { Charts (asked decisions.now.policy) chart.now }
    ensures { Chained (asked decisions.now.policy) apart result }
{
    let from = Objects::of_type(decisions, apart.from);
    let to = Objects::of_type(decisions, apart.to);
    chart.spread(&from).links_to(&to).is_some()
}

// The types of the earliest separation that is broken.
pub(crate) fn first_broken(decisions: &Sealed, chart: &Chart) -> Option<(Typ, Typ)>
    requires { Charts (asked decisions.now.policy) chart.now }
    ensures { Breaks (asked decisions.now.policy) (model_of decisions.now.policy).aparts result }
{
    // A chain tells nothing of the separations that it passed over but a function type, so each is looked at in turn.
    for apart in decisions.policy().tables().aparts() {
        if is_broken(decisions, chart, *apart) {
            return Some((apart.from, apart.to));
        }
    }
    None
}
