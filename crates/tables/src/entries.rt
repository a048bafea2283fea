ghost use Rattle.std.specs.Prelude.{◌≡◌, [], ◌∷◌, ◌++◌, length, IfOk};
ghost use Rattle.label.specs.Refusals.{refuses_more, Takes};
ghost use Rattle.label.specs.Texts.{text};
ghost use Rattle.tables.specs.Entries.{is_for, enters, count_of, Entered};

use crate::entry::{Entries, Entry};
use label::numbers::Dom;
use label::refusal::{Refusal, refuses_more};
use std::alloc::{AllocError, Global};

impl Entry {
    // Whether this is the entry path of the domain.
    fn is_for(&self, dom: Dom, path: &[u8]) -> bool
        ensures { result ≡ is_for self.now dom.0 path.now }
    {
        self.dom == dom && self.path.as_bytes() == path
    }
}

impl Entries {
    #[tactic(auto, unfolding(crate::specs::Entries::count_of))]
    pub(crate) fn new(heap: Global) -> Entries
        ensures { result.list.items ≡ [] }
    {
        Entries {
            list: Vec::new(heap),
        }
    }

    // The entry paths of all domains, in the order in which they were added.
    pub fn as_slice(&self) -> &[Entry]
        ensures { result.now ≡ self.now.list.items }
    {
        self.list.as_slice()
    }

    // Whether the path is an entry path of the domain.
    pub fn enters(&self, dom: Dom, path: &[u8]) -> bool
        ensures { result ≡ enters self.now.list.items dom.0 path.now }
    {
        self.list.iter().any(|entry| entry.is_for(dom, path))
    }

    // The domains that have this entry path, by number. One pass marks them all, so that each path is compared once.
    pub fn entered_by(&self, path: &[u8]) -> [bool; 32]
        ensures { Entered self.now.list.items path.now result }
    {
        let mut entered = [false; 32];
        for entry in self.list.iter() {
            let e = entry.dom.0 as usize;
            if e < 32 && entry.path.as_bytes() == path {
                entered[e] = true;
            }
        }
        entered
    }

    // How many entry paths the domain has.
    #[tactic(auto, unfolding(crate::specs::Entries::count_of))]
    fn count(&self, dom: Dom) -> usize
        ensures { result ≡ count_of self.now.list.items dom.0 }
    {
        self.list.iter().filter(|entry| entry.dom == dom).count()
    }

    // Adds an entry path, unless the domain has it, or has 8.
    pub(crate) fn add(&mut self, entry: Entry) -> Result<(), Refusal>
        ensures { Takes (refuses_more (enters self.old.list.items entry.dom.0 (text entry.path)) (count_of self.old.list.items entry.dom.0) 8) self.old.list.items (self.old.list.items ++ entry ∷ []) result self.new.list.items }
    {
        let there = self.enters(entry.dom, entry.path.as_bytes());
        match refuses_more(there, self.count(entry.dom), 8) {
            Some(refusal) => Err(refusal),
            None => Ok(self.list.push(entry)?),
        }
    }

    // A copy of the entry paths, in memory of its own. The caller names the memory, which `clone` has no way to take.
    pub(crate) fn copy(&self, heap: Global) -> Result<Entries, AllocError>
        ensures { IfOk result (λ c. c.list.items ≡ self.now.list.items) }
    {
        let list = Vec::from_slice(heap, self.list.as_slice())?;
        Ok(Entries { list })
    }
}
