//! Shortest chains from one set of objects to another.
ghost use Rattle.std.specs.Prelude.{◌≡◌, ℕ, ◌<◌, ◌&&◌, length, nat_lt};
ghost use Rattle.machine.specs.Flow.{Objects as Set};
ghost use Rattle.machine.specs.Policy.{Policy as Asked};
ghost use Rattle.reach.specs.Distances.{distance_of};
ghost use Rattle.flow.specs.Charts.{Charts};
ghost use Rattle.flow.specs.Nearest.{end_at, Nearest};
ghost use Rattle.flow.specs.Searches.{Fewest, Refused, Searched};
ghost use Rattle.flow.specs.Sets.{among};
ghost use Rattle.flow.specs.Sources.{Sources};
ghost use Rattle.flow.specs.Spreads.{SpreadOf};

use crate::chart::Chart;
use crate::objects::Objects;
use crate::spread::{Near, Spread};
use label::numbers::Obj;
use label::refusal::Refusal;
use reach::graph::NODES;
use reach::search::explore;
use std::array;

impl Spread {
    // The object as the end of a chain, where it is in the set and a chain leads there.
    fn end(&self, to: &Objects, o: u8) -> Option<Near>
        ensures { result ≡ end_at (distance_of self.now.reach) (among to.now) o }
    {
        if !to.has(Obj(o)) {
            return None;
        }
        let obj = o as usize;
        self.reach.distance(obj).map(|links| Near { obj, links })
    }

    // An object of the set to which a chain has fewest links.
    fn nearest(&self, to: &Objects) -> Option<Near>
        ensures { Nearest (distance_of self.now.reach) (among to.now) result }
    {
        (0..128u8)
            .filter_map(|o| self.end(to, o))
            .min_by_key(|near| near.links)
    }

    // The least number of links of a chain to an object of the set, if one leads there.
    pub fn links_to(&self, to: &Objects) -> Option<usize>
        ensures { (P : Asked) (From : Set) → SpreadOf P From self.now → Fewest P From (among to.now) result }
    {
        self.nearest(to).map(|near| near.links)
    }

    // A shortest chain to an object of the set, if one leads there: how many links it has, with the numbers of its nodes
    // in the front of the buffer.
    pub fn chain_to(&self, to: &Objects, nodes: &mut [u8]) -> Result<Option<usize>, Refusal>
        ensures small { length nodes.old < 160 → Refused nodes.old result nodes.new }
        ensures answer { (P : Asked) (From : Set) → SpreadOf P From self.now → Searched P From (among to.now) nodes.old result nodes.new }
    {
        if nodes.len() < NODES {
            return Err(Refusal::SmallBuffer);
        }
        // `and_then` promises nothing of a buffer in a closure that it does not call, so the trace stands in an arm.
        match self.nearest(to) {
            Some(near) => Ok(self.reach.trace(near.obj, nodes)),
            None => Ok(None),
        }
    }
}

impl Chart {
    // Whether the node is an object of the set, and exists.
    fn is_source(&self, from: &Objects, v: u8) -> bool
        ensures { result ≡ (nat_lt v self.now.objects && among from.now v) }
    {
        (v as usize) < self.objects && from.has(Obj(v))
    }

    // The objects of the set that exist, as nodes.
    fn sources(&self, from: &Objects) -> [bool; NODES]
        ensures { Sources self.now.objects (among from.now) result }
    {
        array::from_fn(|v| self.is_source(from, v as u8))
    }

    // Explores the links from the objects of the set.
    pub fn spread(&self, from: &Objects) -> Spread
        ensures { (P : Asked) → Charts P self.now → SpreadOf P (among from.now) result }
    {
        let sources = self.sources(from);
        Spread {
            reach: explore(&self.links, &sources),
        }
    }

    // A shortest chain from an object of the one set to an object of the other, if one leads there: how many links it has,
    // with the numbers of its nodes in the front of the buffer.
    pub fn search(
        &self,
        from: &Objects,
        to: &Objects,
        nodes: &mut [u8],
    ) -> Result<Option<usize>, Refusal>
        ensures small { length nodes.old < 160 → Refused nodes.old result nodes.new }
        ensures answer { (P : Asked) → Charts P self.now → Searched P (among from.now) (among to.now) nodes.old result nodes.new }
    {
        self.spread(from).chain_to(to, nodes)
    }
}
