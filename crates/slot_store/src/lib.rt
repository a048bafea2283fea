//! A store that gives each place 65 bytes of its memory: a mark and room for 64 bytes.
#![tactic(auto)]

ghost use Rattle.slot_store.specs.Laws.{MarkedIsLaid, OneReading};

use store::memory::MemoryStore;

pub mod slots;

/// A store over a memory of slots.
pub type SlotStore = MemoryStore<slots::Slots>;

/// What a memory holds can be read off its bytes, in one way.
pub fn layout_stands() -> bool
    ensures marked { MarkedIsLaid }
    ensures reading { OneReading }
{
    true
}
