//! A store keeps small contents by place. This crate says what every store means, and makes one over a memory of any layout; the
//! layouts are crates of their own.
#![tactic(auto)]

ghost use Rattle.std.specs.Prelude.{◌≡◌, ℕ, ◌≤◌, List, length, Some, None, Option};
ghost use Rattle.store.specs.Meaning.{Contents, Short, AllOctets};
ghost use Rattle.store.specs.Answers.{get_answer, get_buffer, put_answer, put_contents, clear_answer, clear_contents};
ghost use Rattle.store.specs.Laws.{LowestRefuses, RefusalChangesNothing, OnePlaceChanges};
ghost use Rattle.store.specs.Number.{number};
ghost use Rattle.store.specs.Texts.{printed};

use std::fmt;

/// The most bytes that a place can hold, and the least length of a buffer for a get.
pub const LONGEST: usize = 64;

/// The most places that a store can have.
pub const MOST_PLACES: usize = 128;

/// Why a store refuses a call. A refused call changes no place and no buffer.
#[derive(Clone, Copy, PartialEq, Eq, Debug)]
pub enum StoreRefusal {
    /// 22: the store has no such place.
    NoPlace,
    /// 23: more than 64 bytes.
    TooLong,
    /// 26: a buffer of fewer than 64 bytes.
    SmallBuffer,
}

impl StoreRefusal {
    /// The number that the refusal is known by.
    pub fn number(self) -> u8
        ensures { result ≡ number self }
    {
        match self {
            StoreRefusal::NoPlace => 22,
            StoreRefusal::TooLong => 23,
            StoreRefusal::SmallBuffer => 26,
        }
    }
}

impl fmt::Display for StoreRefusal {
    ghost output = { λ e. Some (printed e) };

    fn fmt<W: fmt::Write>(&self, f: &mut fmt::Formatter<W>) -> fmt::Result {
        let number = self.number();
        let reason = match self {
            StoreRefusal::NoPlace => "the store has no such place",
            StoreRefusal::TooLong => "more than 64 bytes",
            StoreRefusal::SmallBuffer => "a buffer of fewer than 64 bytes",
        };
        write!(f, "refused {number}: {reason}")
    }
}

impl std::error::Error for StoreRefusal {}

/// Memory that is not a store's, handed back as it was.
#[derive(Drop, Debug)]
pub struct NotAStore {
    pub memory: Vec<u8>,
}

/// Places numbered from 0, each absent or holding 0 to 64 bytes.
pub trait Store {
    ghost places: { Self → ℕ };

    // what each place holds; absent, at every number that is no place's
    ghost contents: { Self → Contents };

    // Facts that each make owes, and that code over any store may count on.
    ghost few: { (s : Self) → places s ≤ 128 };

    ghost short: { (s : Self) (k : ℕ) → Short (contents s k) };

    ghost octets: { (s : Self) → AllOctets (contents s) };

    ghost beyond: { (s : Self) (k : ℕ) → places s ≤ k → contents s k ≡ None };

    fn place_count(&self) -> usize
        ensures { result ≡ places self.now };

    /// The length of what the place holds, whose bytes are then the buffer's first, or `None` for an absent place.
    fn get(&self, place: usize, buffer: &mut [u8]) -> Result<Option<usize>, StoreRefusal>
        ensures answer { result ≡ get_answer (places self.now) (contents self.now) place (length buffer.old) }
        ensures buffer { buffer.new ≡ get_buffer (places self.now) (contents self.now) place buffer.old };

    /// Makes the place present with these bytes.
    fn put(&mut self, place: usize, bytes: &[u8]) -> Result<(), StoreRefusal>
        ensures answer { result ≡ put_answer (places self.old) place (length bytes.now) }
        ensures contents { contents self.new ≡ put_contents (places self.old) (contents self.old) place bytes.now }
        ensures places { places self.new ≡ places self.old };

    /// Makes the place absent.
    fn clear(&mut self, place: usize) -> Result<(), StoreRefusal>
        ensures answer { result ≡ clear_answer (places self.old) place }
        ensures contents { contents self.new ≡ clear_contents (places self.old) (contents self.old) place }
        ensures places { places self.new ≡ places self.old };
}

pub mod memory;

/// What the answers and contents that every store's promises speak of come to.
pub fn meaning_stands() -> bool
    ensures refusals { LowestRefuses }
    ensures refused { RefusalChangesNothing }
    ensures taken { OnePlaceChanges }
{
    true
}
