//! A store that keeps a record for each present place, one behind the other, in a memory that has room for all.
#![tactic(auto)]

ghost use Rattle.packed_store.specs.Laws.{OneTable, HeldIsRead};

use store::memory::MemoryStore;

pub mod records;

/// A store over a memory of records.
pub type PackedStore = MemoryStore<records::Records>;

/// What a memory holds can be read off its bytes, in one way.
pub fn layout_stands() -> bool
    ensures one_table { OneTable }
    ensures reading { HeldIsRead }
{
    true
}
