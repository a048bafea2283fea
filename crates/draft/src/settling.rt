//! The checks at the end of a text.
ghost use Rattle.std.specs.Prelude.{◌≡◌};
ghost use Rattle.reader.specs.Composed.{composed};
ghost use Rattle.draft.specs.Settling.{Settles};

use crate::aparts::first_broken;
use crate::sealed_policy::SealedPolicy;
use crate::settled::Composed;
use clash::clash;
use flow::chart::Chart;
use policy::complete::Policy;
use reader::composition::Composition;
use reader::reason::Reason;

// The policy that the tables are, if all is well with them.
pub(crate) fn settle(composition: Composition) -> Result<Composed, Reason>
    ensures { Settles (composed composition) result }
{
    // 10, 9 and 11 are looked for in this order, and each ends the reading with what it is about.
    let (tables, specified) = composition.into_parts();
    let policy = Policy::of(tables).map_err(|_| Reason::Incomplete)?;
    if let Some(pair) = clash(policy.tables()) {
        return Err(Reason::Clash(pair));
    }
    let decisions = policy.seal();
    let chart = Chart::of(&decisions);
    if let Some(pair) = first_broken(&decisions, &chart) {
        return Err(Reason::Chain(pair));
    }
    Ok(Composed {
        policy: SealedPolicy { decisions, chart },
        specified,
    })
}
