// Records in a memory.
ghost use Rattle.std.specs.Prelude.{◌≡◌, ℕ, ◌+◌, ◌<◌, ◌≤◌, true, length, drop, Some, None, IfNone, MatchOption, nat_eq, slice_set};
ghost use Rattle.std.specs.Map.{update};
ghost use Rattle.std.specs.Option.{option_map};
ghost use Rattle.store.specs.Answers.{laid};
ghost use Rattle.std.proofs.Common.{lit≤};
ghost use Rattle.std.proofs.Props.{props};
ghost use Rattle.store.specs.Memory.{places_in};
ghost use Rattle.packed_store.specs.Layout.{packed_places, Table, Holds};
ghost use Rattle.packed_store.specs.Reading.{record_at, table, intact, packed_contents};
ghost use Rattle.packed_store.specs.ReadingLaws.{contents_short, contents_octets, beyond_absent, intact_holds};
ghost use Rattle.packed_store.specs.Scan.{Found, Stands, Opened};

use store::LONGEST;
use store::memory::{Layout, place_count};

// The bytes that are counted for a place: its number, its length and the most that it can hold.
const RECORD: usize = 66;

// Stands behind the last record, unless that ends the memory. It is no place's number.
const END: u8 = 255;

/// A record for each present place: its number, its length and its bytes. Memory that holds no table's records is no store's.
pub struct Records;

impl Layout for Records {
    const PLACE: u8 = RECORD as u8;

    ghost PLACE = { 66 };

    ghost contents = { packed_contents };

    ghost Sound = { λ xs. intact xs ≡ true };

    ghost Foreign = { λ xs. (t : Table) → Holds xs t → ⊥ };

    ghost Exact = { λ xs. Holds xs (table xs) };

    ghost fact = { λ xs. Prim.hlevel props };

    ghost some = { lit≤ tt };

    ghost short = { λ xs ok k. contents_short xs k };

    ghost octets = { contents_octets };

    ghost beyond = { beyond_absent };

    ghost exact = { intact_holds };

    ghost apart = { λ xs no ok. no (table xs) (intact_holds xs ok) };

    // These three keep their promises over any memory, sound or not: a scan goes as far as it finds records.
    fn read(all: &[u8], place: usize, buffer: &mut [u8]) -> Option<usize>
        ensures length { 64 ≤ length buffer.old → result ≡ option_map length (packed_contents all.now place) }
        ensures buffer { 64 ≤ length buffer.old → buffer.new ≡ laid (packed_contents all.now place) buffer.old }
        ensures no_place { packed_places all.now ≤ place → result ≡ None }
        ensures small { length buffer.old < 64 → result ≡ None }
        ensures untouched { IfNone result (buffer.new ≡ buffer.old) }
    {
        if place >= place_count(all, RECORD) || buffer.len() < LONGEST {
            return None;
        }
        let start = find(all, place);
        let len = record_length(all, start, place)?;
        buffer[..len].copy_from_slice(&all[start + 2..start + 2 + len]);
        Some(len)
    }

    fn write(all: &mut [u8], place: usize, bytes: &[u8])
        ensures held { place < packed_places all.old → length bytes.now ≤ 64 → Holds all.new (slice_set (table all.old) place (Some bytes.now)) }
        ensures contents { place < packed_places all.old → length bytes.now ≤ 64 → packed_contents all.new ≡ update nat_eq (packed_contents all.old) place (Some bytes.now) }
        ensures sound { intact all.old ≡ true → intact all.new ≡ true }
        ensures no_place { packed_places all.old ≤ place → all.new ≡ all.old }
        ensures long { 64 < length bytes.now → all.new ≡ all.old }
    {
        if place >= place_count(all, RECORD) || bytes.len() > LONGEST {
            return;
        }
        let len = bytes.len();
        let start = open_gap(all, place, 2 + len);
        all[start] = place as u8;
        all[start + 1] = len as u8;
        all[start + 2..start + 2 + len].copy_from_slice(bytes);
    }

    fn erase(all: &mut [u8], place: usize)
        ensures held { place < packed_places all.old → Holds all.new (slice_set (table all.old) place None) }
        ensures contents { place < packed_places all.old → packed_contents all.new ≡ update nat_eq (packed_contents all.old) place None }
        ensures sound { intact all.old ≡ true → intact all.new ≡ true }
        ensures no_place { packed_places all.old ≤ place → all.new ≡ all.old }
    {
        if place < place_count(all, RECORD) {
            let _ = open_gap(all, place, 0);
        }
    }

    fn erase_all(all: &mut [u8]) {
        mark_end(all, 0);
    }

    fn is_sound(all: &[u8]) -> bool {
        let end = find(all, place_count(all, RECORD));
        end == all.len() || all[end] == END
    }
}

// The length of what the place holds, whose record, if it has one, begins at `start`.
fn record_length(all: &[u8], start: usize, place: usize) -> Option<usize>
    requires { start ≤ length all.now }
    ensures { MatchOption result (record_at place (drop start all.now) ≡ None) (λ len. Found all.now start place len) }
{
    let [name, len, rest @ ..] = &all[start..] else {
        return None;
    };
    let len = *len as usize;
    if *name as usize != place || len > rest.len().min(LONGEST) {
        return None;
    }
    Some(len)
}

// Where the records of the places from `to` on begin, if those of the places from `from` on begin at `start`.
fn seek(all: &[u8], from: usize, start: usize, to: usize) -> usize
    requires rising { from ≤ to }
    requires in_range { to ≤ packed_places all.now }
    requires begins { Stands all.now from start }
    ensures { Stands all.now to result }
{
    let mut at = start;
    // A record says where the next one begins. Reading one asks that its place lies within the memory, which the loop's invariant tells.
    for place in from..to {
        if let Some(len) = record_length(all, at, place) {
            at += 2 + len;
        }
    }
    at
}

// Where the records of the places from `place` on begin.
fn find(all: &[u8], place: usize) -> usize
    requires { place ≤ packed_places all.now }
    ensures { Stands all.now place result }
{
    seek(all, 0, 0, place)
}

fn mark_end(all: &mut [u8], end: usize)
    ensures { all.new ≡ slice_set all.old end 255 }
{
    // A byte lent by `get_mut` tells nothing of the memory after it, so the end is written by its number.
    if end < all.len() {
        all[end] = END;
    }
}

// Makes a gap of `size` bytes where the record of the place is or would be, and says where that is.
fn open_gap(all: &mut [u8], place: usize, size: usize) -> usize
    requires in_range { place < packed_places all.old }
    requires small { size ≤ 66 }
    ensures { Opened all.old all.new place size result }
{
    let count = place_count(all, RECORD);
    let gap = find(all, place);
    let tail = seek(all, place, gap, place + 1);
    let end = seek(all, place + 1, tail, count);
    let to = gap + size;
    all.copy_within(tail..end, to);
    mark_end(all, to + (end - tail));
    gap
}
