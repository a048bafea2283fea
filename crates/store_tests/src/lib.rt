//! Tests of both makes of store, through one table of calls.
#![tactic(auto)]

#[cfg(test)]
mod tests {
    // Cases are gone through in turn, and the first that fails ends the test.

    use packed_store::PackedStore;
    use packed_store::records::Records;
    use slot_store::SlotStore;
    use slot_store::slots::Slots;
    use std::alloc::{AllocError, Global};
    use std::process::Abort;
    use std::test::Fail;
    use store::memory::{Layout, MemoryStore};
    use store::{NotAStore, Store, StoreRefusal};
    use store_report::Make;

    // What a buffer holds before a get.
    const STALE: u8 = 0xEE;

    #[derive(Clone, Copy)]
    enum Call {
        // the place, and the bytes' number and value
        Put(usize, usize, u8),
        Clear(usize),
        // the place, and the buffer's length
        Get(usize, usize),
    }

    // One type for the answers of all three calls, so that a table can hold them; a refusal is its number.
    #[derive(Clone, Copy, PartialEq, Eq, Debug)]
    enum Answer {
        Taken,
        Absent,
        // the bytes' number and value, and whether the buffer behind them is as it was
        Present(usize, u8, bool),
        Refused(u8),
    }

    // How many bytes at the front of the buffer have the value.
    fn run_of(value: u8, buffer: &[u8]) -> usize {
        buffer.iter().take_while(|byte| **byte == value).count()
    }

    fn unchanged_behind(len: usize, buffer: &[u8]) -> bool {
        buffer.iter().skip(len).all(|byte| *byte == STALE)
    }

    fn taken(answer: Result<(), StoreRefusal>) -> Answer {
        match answer {
            Ok(()) => Answer::Taken,
            Err(e) => Answer::Refused(e.number()),
        }
    }

    fn put<S: Store>(store: &mut S, place: usize, len: usize, value: u8) -> Answer {
        let bytes = [value; 80];
        taken(store.put(place, &bytes[0..len.min(80)]))
    }

    fn clear<S: Store>(store: &mut S, place: usize) -> Answer {
        taken(store.clear(place))
    }

    fn get_into<S: Store>(store: &S, place: usize, buffer: &mut [u8]) -> Answer {
        match store.get(place, buffer) {
            Ok(None) => Answer::Absent,
            Ok(Some(0)) => Answer::Present(0, 0, unchanged_behind(0, buffer)),
            Ok(Some(len)) => {
                let value = buffer.first().copied().unwrap_or(0);
                Answer::Present(run_of(value, buffer), value, unchanged_behind(len, buffer))
            }
            Err(e) => Answer::Refused(e.number()),
        }
    }

    fn get<S: Store>(store: &S, place: usize, room: usize) -> Answer {
        let mut block = [STALE; 80];
        get_into(store, place, &mut block[0..room.min(80)])
    }

    fn perform<S: Store>(store: &mut S, call: Call) -> Answer {
        match call {
            Call::Put(place, len, value) => put(store, place, len, value),
            Call::Clear(place) => clear(store, place),
            Call::Get(place, room) => get(store, place, room),
        }
    }

    // Three places. Each line is a call and its answer.
    const TABLE: [(Call, Answer); 25] = [
        (Call::Get(0, 64), Answer::Absent),
        (Call::Get(2, 80), Answer::Absent),
        (Call::Get(3, 64), Answer::Refused(22)),
        (Call::Get(3, 63), Answer::Refused(22)),
        (Call::Get(2, 63), Answer::Refused(26)),
        (Call::Put(2, 64, 7), Answer::Taken),
        (Call::Put(0, 1, 5), Answer::Taken),
        (Call::Put(1, 63, 6), Answer::Taken),
        (Call::Get(0, 64), Answer::Present(1, 5, true)),
        (Call::Get(1, 80), Answer::Present(63, 6, true)),
        (Call::Get(2, 64), Answer::Present(64, 7, true)),
        (Call::Put(1, 65, 9), Answer::Refused(23)),
        (Call::Put(3, 65, 9), Answer::Refused(22)),
        (Call::Get(1, 64), Answer::Present(63, 6, true)),
        (Call::Put(0, 64, 4), Answer::Taken),
        (Call::Put(1, 2, 3), Answer::Taken),
        (Call::Get(2, 64), Answer::Present(64, 7, true)),
        (Call::Put(1, 0, 3), Answer::Taken),
        (Call::Get(1, 64), Answer::Present(0, 0, true)),
        (Call::Clear(1), Answer::Taken),
        (Call::Clear(1), Answer::Taken),
        (Call::Clear(3), Answer::Refused(22)),
        (Call::Get(0, 64), Answer::Present(64, 4, true)),
        (Call::Get(1, 64), Answer::Absent),
        (Call::Get(2, 64), Answer::Present(64, 7, true)),
    ];

    fn run_table<S: Store>(rt: &impl Abort, store: &mut S, make: &str) {
        for (call, expected) in TABLE {
            assert_eq!(rt; perform(store, call), expected, "{make}");
        }
    }

    #[test]
    fn both_makes_answer_alike(rt: HostRuntime) -> Result<(), Fail> {
        let heap = rt.alloc();
        let mut slot = SlotStore::fresh(vec![in heap; 9; 195]?);
        run_table(&rt, &mut slot, "slot store");
        let mut packed = PackedStore::fresh(vec![in heap; 9; 198]?);
        run_table(&rt, &mut packed, "packed store");
        Ok(())
    }

    #[test]
    fn places_are_the_quotient(rt: HostRuntime) -> Result<(), Fail> {
        let heap = rt.alloc();
        for (length, slots, records) in [
            (0, 0, 0),
            (64, 0, 0),
            (65, 1, 0),
            (66, 1, 1),
            (130, 2, 1),
            (132, 2, 2),
            (8548, 128, 128),
        ] {
            let slot = SlotStore::fresh(vec![in heap; 9; length]?);
            assert_eq!(rt; slot.place_count(), slots);
            assert_eq!(rt; slot.into_memory().len(), length);
            let packed = PackedStore::fresh(vec![in heap; 9; length]?);
            assert_eq!(rt; packed.place_count(), records);
            assert_eq!(rt; packed.into_memory().len(), length);
        }
        Ok(())
    }

    // Fills every place from the last down, and reads them all.
    fn fill<S: Store>(rt: &impl Abort, store: &mut S) {
        for place in (0..128).rev() {
            assert_eq!(rt; put(store, place, 64, place as u8), Answer::Taken);
        }
        for place in 0..128 {
            assert_eq!(rt;
                get(store, place, 64),
                Answer::Present(64, place as u8, true)
            );
        }
        assert_eq!(rt; put(store, 128, 0, 0), Answer::Refused(22));
    }

    #[test]
    fn every_place_can_be_full(rt: HostRuntime) -> Result<(), Fail> {
        let heap = rt.alloc();
        fill(&rt, &mut SlotStore::fresh(vec![in heap; 9; 8320]?));
        fill(&rt, &mut PackedStore::fresh(vec![in heap; 9; 8448]?));
        Ok(())
    }

    // A memory with these bytes in front and the value 9 behind them.
    fn image(heap: Global, front: &[u8], length: usize) -> Result<Vec<u8>, AllocError> {
        let mut memory = Vec::new(heap);
        memory.extend_from_slice(front)?;
        memory.resize(length.max(front.len()), 9)?;
        Ok(memory)
    }

    #[test]
    fn memory_is_laid_out_as_promised(rt: HostRuntime) -> Result<(), Fail> {
        let heap = rt.alloc();
        let mut slot = SlotStore::fresh(vec![in heap; 9; 195]?);
        let mut packed = PackedStore::fresh(vec![in heap; 9; 198]?);
        for (place, len) in [(2, 2), (1, 0), (0, 1)] {
            assert_eq!(rt; put(&mut slot, place, len, 7), Answer::Taken);
            assert_eq!(rt; put(&mut packed, place, len, 7), Answer::Taken);
        }
        let memory = packed.into_memory();
        assert!(rt;
            memory
                .as_slice()
                .starts_with(&[0, 1, 7, 1, 0, 2, 2, 7, 7, 255, 9])
        );
        let memory = slot.into_memory();
        assert!(rt; memory.len() == 195);
        assert!(rt; memory.as_slice().starts_with(&[2, 7, 9]));
        assert!(rt; memory[65..195].starts_with(&[1, 9]));
        assert!(rt; memory[130..195].starts_with(&[3, 7, 7, 9]));
        Ok(())
    }

    // The answers to a put, to a get when the memory is opened again, and to a get when it is made fresh.
    fn closed_and_opened<L: Layout>(heap: Global) -> Result<[Answer; 3], Fail> {
        let mut store = MemoryStore::<L>::fresh(vec![in heap; 9; 200]?);
        let first = put(&mut store, 1, 3, 7);
        let store = MemoryStore::<L>::open(store.into_memory())?;
        let second = get(&store, 1, 64);
        let store = MemoryStore::<L>::fresh(store.into_memory());
        Ok([first, second, get(&store, 1, 64)])
    }

    #[test]
    fn a_closed_store_opens_again(rt: HostRuntime) -> Result<(), Fail> {
        let heap = rt.alloc();
        let expected = [Answer::Taken, Answer::Present(3, 7, true), Answer::Absent];
        assert_eq!(rt; closed_and_opened::<Slots>(heap)?, expected);
        assert_eq!(rt; closed_and_opened::<Records>(heap)?, expected);
        Ok(())
    }

    // That what was refused is the memory that was handed in.
    fn check_returned(rt: &impl Abort, memory: Vec<u8>, front: &[u8], length: usize, why: &str) {
        assert_eq!(rt; memory.len(), length, "{why}");
        assert!(rt; memory.as_slice().starts_with(front), "{why}");
    }

    fn check_refused<L: Layout>(
        rt: &impl Abort,
        heap: Global,
        front: &[u8],
        length: usize,
        why: &str,
    ) -> Result<(), Fail> {
        match MemoryStore::<L>::open(image(heap, front, length)?) {
            Ok(_) => Err(Fail::new(format_args!("{why}: damaged memory was opened"))),
            Err(e) => {
                let NotAStore { memory } = e;
                check_returned(rt, memory, front, length, why);
                Ok(())
            }
        }
    }

    #[test]
    fn damaged_records_are_refused(rt: HostRuntime) -> Result<(), Fail> {
        let heap = rt.alloc();
        check_refused::<Records>(&rt, heap, &[0, 65, 255], 132, "more than 64 bytes")?;
        check_refused::<Records>(&rt, heap, &[1, 0, 0, 0, 255], 132, "a falling place")?;
        check_refused::<Records>(&rt, heap, &[1, 0, 1, 0, 255], 132, "a place twice")?;
        check_refused::<Records>(
            &rt,
            heap,
            &[0, 0, 2, 0, 255],
            132,
            "a place beyond the places",
        )?;
        check_refused::<Records>(&rt, heap, &[0, 1, 7, 254], 132, "no end")?;
        check_refused::<Records>(&rt, heap, &[0], 1, "a byte and no place")?;
        check_refused::<Records>(&rt, heap, &[0, 64, 7], 65, "a record and no place")
    }

    #[test]
    fn sound_records_are_opened(rt: HostRuntime) -> Result<(), Fail> {
        let heap = rt.alloc();
        assert_eq!(rt; PackedStore::open(image(heap, &[], 0)?)?.place_count(), 0);
        assert_eq!(rt;
            PackedStore::open(image(heap, &[255], 132)?)?.place_count(),
            2
        );
        let packed = PackedStore::open(image(heap, &[1, 2, 7, 7, 255, 0, 0], 132)?)?;
        assert_eq!(rt; get(&packed, 0, 64), Answer::Absent);
        assert_eq!(rt; get(&packed, 1, 64), Answer::Present(2, 7, true));
        // one record that ends with the memory
        let full = PackedStore::open(image(heap, &[0, 64], 66)?)?;
        assert_eq!(rt; get(&full, 0, 64), Answer::Present(64, 9, true));
        Ok(())
    }

    #[test]
    fn a_mark_above_65_is_refused(rt: HostRuntime) -> Result<(), Fail> {
        let heap = rt.alloc();
        let slot = SlotStore::open(image(heap, &[65], 65)?)?;
        assert_eq!(rt; get(&slot, 0, 64), Answer::Present(64, 9, true));
        check_refused::<Slots>(&rt, heap, &[66], 130, "a mark above 65")
    }

    #[test]
    fn images_are_changed_and_listed(rt: HostRuntime) -> Result<(), Fail> {
        let heap = rt.alloc();
        for make in [Make::Slot, Make::Packed] {
            let image = store_report::fresh_image(heap, make, 3)?;
            let image = store_report::put_in_image(make, image, 2, &[0, 0xab, 0xff])?;
            let image = store_report::put_in_image(make, image, 0, &[])?;
            let image = store_report::put_in_image(make, image, 1, &[1])?;
            let image = store_report::clear_in_image(make, image, 1)?;
            let text = store_report::list_image(heap, make, image)?;
            assert_eq!(rt;
                text.as_str(),
                "place 0 present -\nplace 1 absent\nplace 2 present 00abff\n"
            );
        }
        Ok(())
    }
}
