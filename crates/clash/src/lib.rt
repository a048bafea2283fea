//! Auto passages of one domain that share an entry path.
#![tactic(auto)]

ghost use Rattle.std.specs.Prelude.{◌≡◌};
ghost use Rattle.tables.specs.Model.{model};
ghost use Rattle.clash.specs.Clashes.{clash};
ghost use Rattle.clash.specs.Laws.{Laws};

use crate::sharing::Sharing;
use label::numbers::Dom;
use tables::table::Tables;

pub mod pairs;
pub mod sharing;

// The two targets of a clash, the lower first: of the lowest domain that has one, its lowest pair.
pub fn clash(tables: &Tables) -> Option<(Dom, Dom)>
    ensures { result ≡ clash (model tables.now) }
{
    let sharing = Sharing::of(tables);
    (0..tables.domain_count()).find_map(|d| sharing.pair(Dom(d)))
}

// Tables have no clash exactly where each auto passage is the only one of its domain by its path.
pub fn none_clash_exactly_when_each_auto_passage_is_the_only_one() -> bool
    ensures { Laws }
{
    true
}
