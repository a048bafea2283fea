// Slots in a memory.
ghost use Rattle.std.specs.Prelude.{◌≡◌, ℕ, ◌+◌, ◌*◌, ◌<◌, ◌≤◌, length, take, drop, Some, None, IfNone, nat_eq, MatchBool};
ghost use Rattle.std.specs.Map.{update};
ghost use Rattle.std.specs.Option.{option_map};
ghost use Rattle.store.specs.Answers.{laid};
ghost use Rattle.std.proofs.Common.{lit≤};
ghost use Rattle.std.proofs.Props.{props};
ghost use Rattle.store.specs.Memory.{places_in};
ghost use Rattle.slot_store.specs.Layout.{slot_places, mark, slot_bytes, slot_at, slot_contents, Marked, MarkedAt, Laid};
ghost use Rattle.slot_store.specs.LayoutLaws.{contents_short, contents_octets, beyond_absent, contents_are_laid};
ghost use Rattle.slot_store.specs.Frame.{Wrote, Unmarked};

use store::LONGEST;
use store::memory::{Layout, place_count};

const SLOT: usize = 65;

/// Each place has a slot of 65 bytes: a mark and room for 64. Memory with a mark above 65 is no store's.
pub struct Slots;

impl Layout for Slots {
    const PLACE: u8 = SLOT as u8;

    ghost PLACE = { 65 };

    ghost contents = { slot_contents };

    ghost Sound = { Marked };

    ghost Foreign = { λ xs. Marked xs → ⊥ };

    ghost Exact = { λ xs. Laid xs (slot_contents xs) };

    ghost fact = { λ xs. Prim.hlevel props };

    ghost some = { lit≤ tt };

    ghost short = { contents_short };

    ghost octets = { contents_octets };

    ghost beyond = { beyond_absent };

    ghost exact = { contents_are_laid };

    ghost apart = { λ xs no. no };

    // A read asks for no more soundness than that of its own slot.
    fn read(all: &[u8], place: usize, buffer: &mut [u8]) -> Option<usize>
        ensures length { MarkedAt all.now place → 64 ≤ length buffer.old → result ≡ option_map length (slot_contents all.now place) }
        ensures buffer { MarkedAt all.now place → 64 ≤ length buffer.old → buffer.new ≡ laid (slot_contents all.now place) buffer.old }
        ensures no_place { slot_places all.now ≤ place → result ≡ None }
        ensures small { length buffer.old < 64 → result ≡ None }
        ensures untouched { IfNone result (buffer.new ≡ buffer.old) }
    {
        if place >= place_count(all, SLOT) || buffer.len() < LONGEST {
            return None;
        }
        let at = SLOT * place;
        // A mark of memory that is no store's may be above 65.
        let len = (all[at] as usize).checked_sub(1)?.min(LONGEST);
        buffer[..len].copy_from_slice(&all[at + 1..at + 1 + len]);
        Some(len)
    }

    // What is written to a slot, and that no byte outside the slot changes, is promised of any memory.
    fn write(all: &mut [u8], place: usize, bytes: &[u8])
        ensures frame { place < slot_places all.old → length bytes.now ≤ 64 → Wrote all.old all.new place (length bytes.now + 1) }
        ensures bytes { place < slot_places all.old → length bytes.now ≤ 64 → slot_bytes all.new place (length bytes.now) ≡ bytes.now }
        ensures contents { Marked all.old → place < slot_places all.old → length bytes.now ≤ 64 → slot_contents all.new ≡ update nat_eq (slot_contents all.old) place (Some bytes.now) }
        ensures sound { Marked all.old → Marked all.new }
        ensures no_place { slot_places all.old ≤ place → all.new ≡ all.old }
        ensures long { 64 < length bytes.now → all.new ≡ all.old }
    {
        if place >= place_count(all, SLOT) || bytes.len() > LONGEST {
            return;
        }
        let start = SLOT * place;
        let len = bytes.len();
        all[start] = (len + 1) as u8;
        all[start + 1..start + 1 + len].copy_from_slice(bytes);
    }

    fn erase(all: &mut [u8], place: usize)
        ensures frame { place < slot_places all.old → Wrote all.old all.new place 0 }
        ensures contents { Marked all.old → place < slot_places all.old → slot_contents all.new ≡ update nat_eq (slot_contents all.old) place None }
        ensures sound { Marked all.old → Marked all.new }
        ensures no_place { slot_places all.old ≤ place → all.new ≡ all.old }
    {
        if place < place_count(all, SLOT) {
            all[SLOT * place] = 0;
        }
    }

    fn erase_all(all: &mut [u8]) {
        // Chunks lent to be written tell nothing of the memory after them, so each mark is named by its slot.
        for slot in 0..place_count(all, SLOT) {
            all[SLOT * slot] = 0;
        }
    }

    fn is_sound(all: &[u8]) -> bool {
        let count = place_count(all, SLOT);
        (0..count).all(|slot| all[SLOT * slot] as usize <= LONGEST + 1)
    }
}
