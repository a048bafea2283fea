//! Lists of labels in which no text stands twice.
#![tactic(auto)]

ghost use Rattle.std.specs.Prelude.{◌≡◌, ◌<◌, ◌≤◌, [], ◌∷◌, ◌++◌, map, length, is_some, IfSome, IfOk};
ghost use Rattle.label.specs.Refusals.{refuses_more, Takes};
ghost use Rattle.lists.specs.Places.{place_of};

use crate::distinct::Distinct;
use label::refusal::{Refusal, refuses_more};
use std::alloc::{AllocError, Global};
use std::convert::AsSlice;

pub mod distinct;

impl<T: AsSlice<u8> + Copy, const N: usize> Distinct<T, N> {
    pub fn new(heap: Global) -> Distinct<T, N>
        ensures { result.list.items ≡ [] }
    {
        Distinct {
            list: Vec::new(heap),
        }
    }

    // The number of the label with this text.
    pub fn find(&self, text: &[u8]) -> Option<usize>
        ensures place { result ≡ place_of (map T.items self.now.list.items) text.now }
        ensures within { IfSome result (λ i. i < N) }
    {
        self.list.iter().position(|label| label.as_slice() == text)
    }

    // Adds a label, unless one has its text, or there are N.
    pub fn add(&mut self, label: T) -> Result<(), Refusal>
        ensures { Takes (refuses_more (is_some (place_of (map T.items self.old.list.items) (T.items label))) (length self.old.list.items) N) self.old.list.items (self.old.list.items ++ label ∷ []) result self.new.list.items }
    {
        let there = self.find(label.as_slice()).is_some();
        match refuses_more(there, self.list.len(), N) {
            Some(refusal) => Err(refusal),
            None => Ok(self.list.push(label)?),
        }
    }

    // The labels in the order of their numbers.
    pub fn as_slice(&self) -> &[T]
        ensures { result.now ≡ self.now.list.items }
    {
        self.list.as_slice()
    }

    // How many labels there are.
    pub fn count(&self) -> usize
        ensures count { result ≡ length self.now.list.items }
        ensures few { result ≤ N }
    {
        self.list.len()
    }

    // A copy of the labels, in memory of its own. The caller names the memory, which `clone` has no way to take.
    pub fn copy(&self, heap: Global) -> Result<Distinct<T, N>, AllocError>
        ensures { IfOk result (λ c. c.list.items ≡ self.now.list.items) }
    {
        let list = Vec::from_slice(heap, self.list.as_slice())?;
        Ok(Distinct { list })
    }
}
