// A store over a memory, whatever its layout.
ghost use Rattle.std.specs.Prelude.{◌≡◌, ℕ, ◌<◌, ◌≤◌, List, length, Some, None, IfNone, nat_eq, MatchBool, MatchResult};
ghost use Rattle.std.specs.Map.{update};
ghost use Rattle.std.specs.Option.{option_map};
ghost use Rattle.store.specs.Meaning.{Contents, Short, Octets, AllOctets, all_absent};
ghost use Rattle.store.specs.Answers.{laid, get_answer, get_buffer, put_answer, put_contents, clear_answer, clear_contents};
ghost use Rattle.store.specs.Memory.{places_in};
ghost use Rattle.store.specs.MemoryLaws.{few_places};

use super::{LONGEST, MOST_PLACES, NotAStore, Store, StoreRefusal};
use std::marker::PhantomData;

/// How many places a memory has, if so many bytes are counted for a place; none, if no bytes are.
pub fn place_count(all: &[u8], bytes: usize) -> usize
    ensures { result ≡ places_in bytes all.now }
{
    all.len().checked_div(bytes).unwrap_or(0).min(MOST_PLACES)
}

/// How the bytes of a memory say what each place holds. A call for a place that the memory does not have, with too many bytes or with too small a
/// buffer finds and changes nothing; what other calls find and change is promised of sound memory.
pub trait Layout {
    /// The bytes of memory that are counted for a place.
    const PLACE: u8;

    ghost PLACE: { ℕ };

    // what a memory holds at each place; absent, at every number that is no place's
    ghost contents: { List ℕ → Contents };

    // the memory is of this layout
    ghost Sound: { List ℕ → Type 0 };

    // and it is not
    ghost Foreign: { List ℕ → Type 0 };

    // the bytes of the memory say what it holds, in the way of the layout
    ghost Exact: { List ℕ → Type 0 };

    // Facts that each layout owes. The first lets a store keep soundness in a ghost field.
    ghost fact: { (xs : List ℕ) → IsProp (Sound xs) };

    ghost some: { 0 < PLACE };

    ghost short: { (xs : List ℕ) → Sound xs → (k : ℕ) → Short (contents xs k) };

    ghost octets: { (xs : List ℕ) → Octets xs → AllOctets (contents xs) };

    ghost beyond: { (xs : List ℕ) (k : ℕ) → places_in PLACE xs ≤ k → contents xs k ≡ None };

    ghost exact: { (xs : List ℕ) → Sound xs → Exact xs };

    ghost apart: { (xs : List ℕ) → Foreign xs → Sound xs → ⊥ };

    // What is promised of contents takes soundness as a premise, since beside a `&mut` no ghost field is covered by the borrow checker; `MemoryStore` keeps it.

    /// The length of what the place holds, whose bytes are then the buffer's first, or `None` for an absent place.
    fn read(all: &[u8], place: usize, buffer: &mut [u8]) -> Option<usize>
        ensures length { Sound all.now → 64 ≤ length buffer.old → result ≡ option_map length (contents all.now place) }
        ensures buffer { Sound all.now → 64 ≤ length buffer.old → buffer.new ≡ laid (contents all.now place) buffer.old }
        ensures no_place { places_in PLACE all.now ≤ place → result ≡ None }
        ensures small { length buffer.old < 64 → result ≡ None }
        ensures untouched { IfNone result (buffer.new ≡ buffer.old) };

    /// Makes the place present with these bytes.
    fn write(all: &mut [u8], place: usize, bytes: &[u8])
        ensures contents { Sound all.old → place < places_in PLACE all.old → length bytes.now ≤ 64 → contents all.new ≡ update nat_eq (contents all.old) place (Some bytes.now) }
        ensures sound { Sound all.old → Sound all.new }
        ensures no_place { places_in PLACE all.old ≤ place → all.new ≡ all.old }
        ensures long { 64 < length bytes.now → all.new ≡ all.old };

    /// Makes the place absent.
    fn erase(all: &mut [u8], place: usize)
        ensures contents { Sound all.old → place < places_in PLACE all.old → contents all.new ≡ update nat_eq (contents all.old) place None }
        ensures sound { Sound all.old → Sound all.new }
        ensures no_place { places_in PLACE all.old ≤ place → all.new ≡ all.old };

    /// Makes every place absent, whatever the memory held.
    fn erase_all(all: &mut [u8])
        ensures contents { contents all.new ≡ all_absent }
        ensures sound { Sound all.new };

    /// Whether the memory is of this layout.
    fn is_sound(all: &[u8]) -> bool
        ensures { MatchBool result (Sound all.now) (Foreign all.now) };
}

/// A store over a memory that the host hands in and gets back.
#[derive(Drop)]
pub struct MemoryStore<L: Layout> {
    memory: Vec<u8>,
    layout: PhantomData<L>,
    ghost sound: { L.Sound memory.items } by { L.fact memory.items },
    ghost octets: { AllOctets (L.contents memory.items) },
}

impl<L: Layout> Store for MemoryStore<L> {
    ghost places = { λ s. places_in L.PLACE s.memory.items };

    ghost contents = { λ s. L.contents s.memory.items };

    ghost few = { λ s. few_places L.PLACE s.memory.items };

    ghost short = { λ s k. L.short s.memory.items s.sound k };

    ghost octets = { λ s. s.octets };

    ghost beyond = { λ s k. L.beyond s.memory.items k };

    fn place_count(&self) -> usize {
        place_count(self.memory.as_slice(), L::PLACE as usize)
    }

    fn get(&self, place: usize, buffer: &mut [u8]) -> Result<Option<usize>, StoreRefusal> {
        self.needs_place(place)?;
        if buffer.len() < LONGEST {
            return Err(StoreRefusal::SmallBuffer);
        }
        Ok(L::read(self.memory.as_slice(), place, buffer))
    }

    fn put(&mut self, place: usize, bytes: &[u8]) -> Result<(), StoreRefusal> {
        self.needs_place(place)?;
        if bytes.len() > LONGEST {
            return Err(StoreRefusal::TooLong);
        }
        L::write(self.memory.as_mut_slice(), place, bytes);
        Ok(())
    }

    fn clear(&mut self, place: usize) -> Result<(), StoreRefusal> {
        self.needs_place(place)?;
        L::erase(self.memory.as_mut_slice(), place);
        Ok(())
    }
}

impl<L: Layout> MemoryStore<L> {
    // That the store has the place.
    fn needs_place(&self, place: usize) -> Result<(), StoreRefusal>
        ensures { result ≡ clear_answer (places_in L.PLACE self.now.memory.items) place }
    {
        if place >= self.place_count() {
            return Err(StoreRefusal::NoPlace);
        }
        Ok(())
    }

    /// A store over the memory with every place absent, whatever the memory held.
    pub fn fresh(mut memory: Vec<u8>) -> MemoryStore<L>
        ensures length { length result.memory.items ≡ length memory.items }
        ensures contents { L.contents result.memory.items ≡ all_absent }
    {
        L::erase_all(memory.as_mut_slice());
        MemoryStore {
            memory,
            layout: PhantomData,
        }
    }

    /// The store whose contents the memory holds, as after a power cut. Memory that is not of the layout is handed back.
    pub fn open(memory: Vec<u8>) -> Result<MemoryStore<L>, NotAStore>
        ensures { MatchResult result (λ s. (s.memory ≡ memory) × (L.Sound memory.items × L.Exact memory.items)) (λ e. (e.memory ≡ memory) × L.Foreign memory.items) }
    {
        if !L::is_sound(memory.as_slice()) {
            return Err(NotAStore { memory });
        }
        Ok(MemoryStore {
            memory,
            layout: PhantomData,
        })
    }

    /// The memory, whose bytes say what the store holds, in the way of the layout. It can be opened again.
    pub fn into_memory(self) -> Vec<u8>
        ensures same { result ≡ self.memory }
        ensures opens { L.Sound result.items }
        ensures layout { L.Exact result.items }
    {
        let MemoryStore { memory, layout: _ } = self;
        memory
    }
}
