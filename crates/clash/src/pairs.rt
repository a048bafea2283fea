//! The lowest pair of targets of one domain that clash.
ghost use Rattle.std.specs.Prelude.{◌≡◌, ◌<◌, ◌&&◌, length, nat_lt};
ghost use Rattle.std.specs.Option.{option_map};
ghost use Rattle.tables.specs.Model.{model};
ghost use Rattle.clash.specs.Clashes.{clashing, second, pair};

use crate::sharing::Sharing;
use label::numbers::Dom;
use tables::holding::Passage;

impl Sharing<'_> {
    // Whether auto passages of a domain to these two clash, the lower target first.
    fn clashes(&self, dom: Dom, low: Dom, high: Dom) -> bool
        requires low { low.0 < 32 }
        requires high { high.0 < 32 }
        ensures { result ≡ (nat_lt low.0 high.0 && clashing (model self.now.tables.now) dom.0 low.0 high.0) }
    {
        low.0 < high.0
            && self.rows[usize::from(low.0)][usize::from(high.0)]
            && self.tables.lists(dom, Passage::Auto, low)
            && self.tables.lists(dom, Passage::Auto, high)
    }

    // The lowest target above the given one that clashes with it.
    fn second(&self, dom: Dom, low: Dom) -> Option<Dom>
        requires { low.0 < length (model self.now.tables.now).domains }
        ensures { result ≡ option_map (λ f. record { 0 = f }) (second (model self.now.tables.now) dom.0 low.0) }
    {
        (0..self.tables.domain_count())
            .find(|&f| self.clashes(dom, low, Dom(f)))
            .map(Dom)
    }

    // The lowest pair of targets of the domain that clash.
    pub(crate) fn pair(&self, dom: Dom) -> Option<(Dom, Dom)>
        ensures { result ≡ pair (model self.now.tables.now) dom.0 }
    {
        (0..self.tables.domain_count()).find_map(|e| {
            let low = Dom(e);
            self.second(dom, low).map(|high| (low, high))
        })
    }
}
