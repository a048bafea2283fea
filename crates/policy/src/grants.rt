//! Types, grants and passages on paths that are handed in.
ghost use Rattle.std.specs.Prelude.{◌≡◌, ℕ, ◌<◌, ◌≤◌, true, false, ◌||◌, length, take, Some, None, MatchResult};
ghost use Rattle.label.specs.Letters.{has, letter_r, letter_x};
ghost use Rattle.label.specs.Paths.{ancestor};
ghost use Rattle.label.specs.Texts.{text};
ghost use Rattle.label.specs.declared.refusal.Refusal.TheVariants.{Incomplete};
ghost use Rattle.tables.specs.Entries.{enters};
ghost use Rattle.tables.specs.Model.{model};
ghost use Rattle.policy.specs.Grants.{type_at, letters_on, barred, barrier, verdict, grant, grant_read, Above};
ghost use Rattle.policy.specs.Passages.{leads, target};
ghost use Rattle.policy.specs.Cells.{cell_of};
ghost use Rattle.policy.specs.Holds.{model_of, complete};

use crate::cell::Cell;
use crate::complete::Policy;
use crate::site::Site;
use label::numbers::{Dom, Typ};
use label::path::Path;
use label::paths::is_ancestor;
use label::refusal::Refusal;
use label::rights::Rights;
use rules::rule::Flag;
use tables::holding::Passage;
use tables::table::Tables;

impl Cell {
    // Granted where nothing bars the path and the domain holds what is asked, or the denial, which names the letter where the path itself failed.
    fn verdict(self, held: bool, letter: char) -> Result<(), (usize, char)>
        ensures { result ≡ verdict self.barrier held self.long letter }
    {
        match self.barrier {
            Some(n) => Err((usize::from(n), 'd')),
            None if held => Ok(()),
            None => Err((usize::from(self.long), letter)),
        }
    }

    // Whether the letter is granted, or the denial.
    pub(crate) fn grant(self, letter: char) -> Result<(), (usize, char)>
        ensures { result ≡ verdict self.barrier (has self.letters letter) self.long letter }
    {
        self.verdict(self.letters.has(letter), letter)
    }

    // The same for reading, which r or x grants.
    pub(crate) fn grant_read(self) -> Result<(), (usize, char)>
        ensures { result ≡ verdict self.barrier (has self.letters letter_r || has self.letters letter_x) self.long letter_r }
    {
        self.verdict(self.letters.has('r') || self.letters.has('x'), 'r')
    }
}

impl Policy {
    // Tables that have a default domain and an -r rule on `/`; others come back.
    pub fn of(tables: Tables) -> Result<Policy, (Tables, Refusal)>
        ensures { MatchResult result (λ p. (complete (model tables) ≡ true) × (p.tables ≡ tables)) (λ e. (complete (model tables) ≡ false) × ((e.0 ≡ tables) × (e.1 ≡ Incomplete))) }
    {
        if tables.first().is_none() || tables.rules().find(Flag::R, b"/").is_none() {
            return Err((tables, Refusal::Incomplete));
        }
        Ok(Policy { tables })
    }

    pub fn tables(&self) -> &Tables
        ensures { result.now ≡ self.now.tables }
    {
        &self.tables
    }

    // The default domain.
    pub fn first(&self) -> Dom
        ensures { Some result ≡ (model_of self.now).first }
    {
        self.tables.first().unwrap()
    }

    // The type of the path.
    pub fn type_of(&self, path: &Path) -> Typ
        ensures { Some result ≡ type_at (model_of self.now) (text path.now) }
    {
        self.tables.rules().type_of(path.as_bytes()).unwrap()
    }

    // The type of the first `n` bytes, where they are an ancestor of the path.
    fn type_above(&self, path: &[u8], n: usize) -> Option<Typ>
        ensures { ancestor path.now n ≡ true → result ≡ type_at (model_of self.now) (take n path.now) }
    {
        if is_ancestor(path, n) {
            self.tables.rules().type_of(&path[..n])
        } else {
            None
        }
    }

    // The type of each ancestor, by its length. Most paths are short, so no more lengths are gone through than the path has.
    // A decision allocates nothing, so the types are a fixed array.
    fn types_above(&self, path: &[u8]) -> [Option<Typ>; 64]
        requires { length path.now ≤ 64 }
        ensures { Above (model_of self.now) path.now result (length path.now) }
    {
        let mut types = [None; 64];
        for n in 1..path.len() {
            types[n] = self.type_above(path, n);
        }
        types
    }

    // What the tables say of the path.
    pub(crate) fn site<'a>(&'a self, path: &'a Path) -> Site<'a>
        ensures policy { result.policy.now ≡ self.now }
        ensures path { result.path.now ≡ text path.now }
    {
        let bytes = path.as_bytes();
        Site {
            policy: self,
            path: bytes,
            above: self.types_above(bytes),
            typ: self.type_of(path),
            entered: self.tables.entries().entered_by(bytes),
        }
    }

    // The letters that the domain holds on the type.
    fn letters_on(&self, dom: Dom, typ: Option<Typ>) -> Rights
        ensures { result ≡ letters_on (model_of self.now) dom.0 typ }
    {
        typ.map_or(Rights::none(), |typ| self.tables.rights(dom, typ))
    }

    fn cell(&self, dom: Dom, path: &Path) -> Cell
        ensures { result ≡ cell_of (model_of self.now) dom.0 (text path.now) (type_at (model_of self.now) (text path.now)) }
    {
        self.site(path).cell(dom)
    }

    // Whether the domain is granted the letter on the path, or the denial.
    #[tactic(auto, unfolding(crate::specs::Cells::cell_of))]
    pub fn grant(&self, dom: Dom, path: &Path, letter: char) -> Result<(), (usize, char)>
        ensures { result ≡ grant (model_of self.now) dom.0 (text path.now) (type_at (model_of self.now) (text path.now)) letter }
    {
        self.cell(dom, path).grant(letter)
    }

    // Whether the domain may read at the path, by r or x, or the denial.
    #[tactic(auto, unfolding(crate::specs::Cells::cell_of))]
    pub fn grant_read(&self, dom: Dom, path: &Path) -> Result<(), (usize, char)>
        ensures { result ≡ grant_read (model_of self.now) dom.0 (text path.now) (type_at (model_of self.now) (text path.now)) }
    {
        self.cell(dom, path).grant_read()
    }
}

impl Site<'_> {
    // Whether the first `n` bytes are an ancestor of the path, and the domain lacks d on its type.
    fn bars(&self, dom: Dom, n: usize) -> bool
        ensures { result ≡ barred (model_of self.now.policy.now) dom.0 self.now.path.now n }
    {
        is_ancestor(self.path, n) && !self.policy.letters_on(dom, self.above[n]).has('d')
    }

    // The length of the first ancestor, from `/` downward, on whose type the domain lacks d.
    fn barrier(&self, dom: Dom) -> Option<u8>
        ensures { result ≡ barrier (model_of self.now.policy.now) dom.0 self.now.path.now }
    {
        (0..self.path.len() as u8).find(|&n| self.bars(dom, usize::from(n)))
    }

    // Whether the path is an entry path of the domain.
    fn enters(&self, dom: Dom) -> bool
        ensures { result ≡ enters (model_of self.now.policy.now).entries dom.0 self.now.path.now }
    {
        self.entered
            .get(usize::from(dom.0))
            .copied()
            .unwrap_or_else(|| self.policy.tables.entries().enters(dom, self.path))
    }

    // Whether an auto passage of the domain leads to the other by the path.
    fn leads(&self, dom: Dom, to: Dom) -> bool
        ensures { result ≡ leads (model_of self.now.policy.now) dom.0 self.now.path.now to.0 }
    {
        self.policy.tables.lists(dom, Passage::Auto, to) && self.enters(to)
    }

    // The lowest domain to which an auto passage leads by the path.
    fn target(&self, dom: Dom) -> Option<Dom>
        ensures { result ≡ target (model_of self.now.policy.now) dom.0 self.now.path.now }
    {
        (0..self.policy.tables.domain_count())
            .find(|&e| self.leads(dom, Dom(e)))
            .map(Dom)
    }

    // What is decided about the domain and the path.
    pub(crate) fn cell(&self, dom: Dom) -> Cell
        ensures { result ≡ cell_of (model_of self.now.policy.now) dom.0 self.now.path.now (type_at (model_of self.now.policy.now) self.now.path.now) }
    {
        Cell {
            barrier: self.barrier(dom),
            long: self.path.len() as u8,
            letters: self.policy.letters_on(dom, Some(self.typ)),
            enters: self.enters(dom),
            target: self.target(dom),
        }
    }
}
