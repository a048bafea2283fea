//! Composing a module with those that were kept.
ghost use Rattle.std.specs.Prelude.{◌≡◌, ◌≤◌};
ghost use Rattle.std.specs.Option.{option_map};
ghost use Rattle.reader.specs.Composed.{composed};
ghost use Rattle.reader.specs.Reading.{read as reading_after, tables};
ghost use Rattle.reader.specs.Stops.{Reads as ReadsText};
ghost use Rattle.draft.specs.Composing.{tabled, outcome, Composes, Reads, located, unread};
ghost use Rattle.draft.specs.Drafts.{base as base_of};
ghost use Rattle.draft.specs.declared.fault.Failure.TheVariants.{Faulty};

use crate::fault::{Failure, Fault};
use crate::module::Module;
use crate::settled::Composed;
use crate::settling::settle;
use reader::composition::Composition;
use reader::reading::read;
use reader::reason::Reason;
use reader::stop::Halt;
use scan::lines::line_of;
use std::alloc::Global;
use tables::table::Tables;

// What the text comes to after what was kept.
fn read_after(heap: Global, base: Option<&Composed>, text: &[u8]) -> Result<Composition, Halt>
    ensures { ReadsText (reading_after (base_of (option_map (λ c. tabled c.now) base.entry)) text.now) result }
{
    // A first module is read after tables that are made for it.
    match base {
        Some(composed) => read(
            heap,
            composed.policy.decisions.policy().tables(),
            &composed.specified,
            text,
        ),
        None => {
            let tables = Tables::new(heap);
            read(heap, &tables, &[false; 32], text)
        }
    }
}

impl Module<'_> {
    // The fault at a place of the text.
    fn locate(&self, reason: Reason, place: usize) -> Failure
        ensures { result ≡ Faulty (located self.now.kept self.now.text.now reason place) }
    {
        Failure::Faulty(Fault {
            reason,
            module: self.kept + 1,
            line: line_of(self.text, place),
            place,
        })
    }

    // The fault of a text that is not read.
    fn leave_unread(&self) -> Failure
        ensures { result ≡ Faulty (unread self.now.kept) }
    {
        Failure::Faulty(Fault {
            reason: Reason::TooMuch,
            module: self.kept + 1,
            line: 0,
            place: 0,
        })
    }

    // The checks at the text's end.
    fn finish(&self, composition: Composition) -> Result<Composed, Failure>
        ensures { Reads self.now.kept self.now.text.now (tables (composed composition)) (outcome result) }
    {
        // A closure for `map_err` would need a clause of its own, longer than this match.
        match settle(composition) {
            Ok(composed) => Ok(composed),
            Err(reason) => Err(self.locate(reason, self.text.len())),
        }
    }

    // Reads the text and checks what it comes to.
    fn take_in(&self, heap: Global, base: Option<&Composed>) -> Result<Composed, Failure>
        ensures { Reads self.now.kept self.now.text.now (reading_after (base_of (option_map (λ c. tabled c.now) base.entry)) self.now.text.now) (outcome result) }
    {
        // Want of memory, a fault on the way and a whole text end differently.
        match read_after(heap, base, self.text) {
            Ok(composition) => self.finish(composition),
            Err(Halt::Memory) => Err(Failure::Memory),
            Err(Halt::At(reason, place)) => Err(self.locate(reason, place)),
        }
    }

    // What the module comes to after those that were kept.
    pub(crate) fn compose(&self, heap: Global, base: Option<&Composed>) -> Result<Composed, Failure>
        ensures { Composes self.now.kept (base_of (option_map (λ c. tabled c.now) base.entry)) self.now.text.now (outcome result) }
    {
        if self.kept >= 8 || self.text.len() > 16384 {
            return Err(self.leave_unread());
        }
        self.take_in(heap, base)
    }
}
