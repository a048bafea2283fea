//! Rules, and the types that they give to paths.
#![tactic(auto)]

ghost use Rattle.std.specs.Prelude.{◌≡◌, ◌≤◌, [], ◌∷◌, ◌++◌, IfOk, vec_len};
ghost use Rattle.label.specs.Refusals.{Takes};
ghost use Rattle.label.specs.Texts.{text};
ghost use Rattle.rules.specs.Typing.{stands_on, rule_on, deciding, type_of};
ghost use Rattle.rules.specs.Held.{rules_of, refusal_of};
ghost use Rattle.rules.specs.Ranks.{reaches, covers, strength, claim};
ghost use Rattle.rules.specs.Laws.{Laws};

use crate::rule::{Flag, Rule};
use crate::table::Rules;
use label::numbers::Typ;
use label::paths::is_ancestor;
use label::refusal::{Refusal, refuses_more};
use std::alloc::{AllocError, Global};

pub mod rule;
pub mod table;

// Whether the first `n` bytes are the path or an ancestor of it.
fn reaches(path: &[u8], n: usize) -> bool
    ensures { result ≡ reaches path.now n }
{
    n == path.len() || is_ancestor(path, n)
}

impl Rule {
    // Whether the rule has this flag, and stands on exactly this path.
    fn stands_on(&self, flag: Flag, path: &[u8]) -> bool
        ensures { result ≡ stands_on self.now flag path.now }
    {
        self.flag == flag && self.path.as_bytes() == path
    }

    // Whether the rule's path is this path or one of its ancestors.
    fn covers(&self, path: &[u8]) -> bool
        ensures { result ≡ covers self.now path.now }
    {
        let own = self.path.as_bytes();
        reaches(path, own.len()) && path.starts_with(own)
    }

    // How strongly the rule speaks on the type of the path, if it covers the path.
    fn claim(&self, path: &[u8]) -> usize
        ensures { result ≡ claim self.now path.now }
    {
        let n = self.path.as_bytes().len();
        if !reaches(path, n) {
            return 0;
        }
        strength(self.flag, n == path.len(), n)
    }
}

// Not at all, or more the longer the rule's path is, and at one length more where the rule goes before an -r rule.
// The rank of a rule is a number in the definitions, 0 where it does not speak of the path, and the code has the same.
fn strength(flag: Flag, whole: bool, n: usize) -> usize
    requires { n ≤ 64 }
    ensures { result ≡ strength flag whole n }
{
    match (flag, whole) {
        (Flag::R, _) => 2 * n + 1,
        (Flag::E, true) | (Flag::U, false) => 2 * n + 2,
        (Flag::E, false) | (Flag::U, true) => 0,
    }
}

impl Rules {
    pub fn new(heap: Global) -> Rules
        ensures { rules_of result ≡ [] }
    {
        Rules {
            list: Vec::new(heap),
        }
    }

    // The rules in the order in which they were added.
    pub fn as_slice(&self) -> &[Rule]
        ensures { result.now ≡ rules_of self.now }
    {
        self.list.as_slice()
    }

    // The rule with this flag on exactly this path.
    pub fn find(&self, flag: Flag, path: &[u8]) -> Option<Rule>
        ensures { result ≡ rule_on (rules_of self.now) flag path.now }
    {
        self.list
            .iter()
            .find(|rule| rule.stands_on(flag, path))
            .copied()
    }

    // Why one more rule is refused: one has its flag and path, or there are 256.
    // It answers the refusal itself, since a rule may be asked about before its type is known.
    pub fn refuses(&self, rule: Rule) -> Option<Refusal>
        ensures { result ≡ refusal_of (rules_of self.now) rule }
    {
        let there = self.find(rule.flag, rule.path.as_bytes()).is_some();
        refuses_more(there, self.list.len(), 256)
    }

    // Adds a rule, unless it is refused.
    pub fn add(&mut self, rule: Rule) -> Result<(), Refusal>
        ensures { Takes (refusal_of (rules_of self.old) rule) (rules_of self.old) (rules_of self.old ++ rule ∷ []) result (rules_of self.new) }
    {
        match self.refuses(rule) {
            Some(refusal) => Err(refusal),
            None => Ok(self.list.push(rule)?),
        }
    }

    // The rule that decides the type of the path. Bytes are compared last, and only where the rule would be the best so far.
    pub fn deciding(&self, path: &[u8]) -> Option<Rule>
        ensures { result ≡ deciding (rules_of self.now) path.now }
    {
        let mut best = None;
        // The claim of the best so far, so that it is reckoned once for each rule.
        let mut most = 0;
        for rule in self.list.iter() {
            let claim = rule.claim(path);
            if claim > most && rule.covers(path) {
                most = claim;
                best = Some(*rule);
            }
        }
        best
    }

    // The type of the path, where a rule decides it.
    pub fn type_of(&self, path: &[u8]) -> Option<Typ>
        ensures { result ≡ type_of (rules_of self.now) path.now }
    {
        self.deciding(path).map(|rule| rule.typ)
    }

    // A copy of the rules, in memory of its own. The caller names the memory, which `clone` has no way to take.
    pub fn copy(&self, heap: Global) -> Result<Rules, AllocError>
        ensures { IfOk result (λ c. rules_of c ≡ rules_of self.now) }
    {
        let list = Vec::from_slice(heap, self.list.as_slice())?;
        Ok(Rules { list })
    }
}

// How a path comes by its type.
pub fn typing_follows_the_rules() -> bool
    ensures { Laws }
{
    true
}
