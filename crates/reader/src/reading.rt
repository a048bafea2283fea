//! Reading a whole text.
ghost use Rattle.std.specs.Prelude.{◌≡◌};
ghost use Rattle.scan.specs.Tokens.{said, piece, is_last};
ghost use Rattle.tables.specs.Model.{model};
ghost use Rattle.reader.specs.Composed.{composed};
ghost use Rattle.reader.specs.Reading.{read as read_after};
ghost use Rattle.reader.specs.Statements as due;
ghost use Rattle.reader.specs.Stops.{Steps, Ends, Reads};

use crate::composition::Composition;
use crate::marks::on_mark;
use crate::position::Position;
use crate::stop::{Halt, Stop};
use scan::scanner::Scanner;
use scan::token::{Mark, Placed, Token};
use std::alloc::Global;
use tables::table::Tables;

impl Composition {
    // The tables, and which domains had their `spec_domain`.
    pub fn into_parts(self) -> (Tables, [bool; 32])
        ensures { record { tables = model result.0; specified = result.1 } ≡ composed self }
    {
        let Composition { tables, specified } = self;
        (tables, specified)
    }

    // The token at the position.
    fn take(&mut self, position: Position, token: Token) -> Result<Position, Stop>
        ensures { Steps (due.on_token (composed self.old) position (said token.entry)) result (composed self.new) }
    {
        match token {
            Token::Word(word) => self.on_word(position, word),
            Token::Sign(mark) => Ok(on_mark(position, mark)?),
        }
    }

    // Joins what the text says.
    pub(crate) fn join(&mut self, text: &[u8]) -> Result<(), Halt>
        ensures { Ends (read_after (composed self.old) text.now) result (composed self.new) }
    {
        let mut scanner = Scanner::new(text);
        let mut position = Position::Start;
        loop {
            let placed = scanner.next();
            // What goes on and what stops are one match, as the loop's invariant tells them apart.
            match self.take(position, placed.token) {
                Ok(next) => position = next,
                Err(stop) => return Err(stop.at(placed.place)),
            }
            if is_last(placed) {
                return Ok(());
            }
        }
    }
}

fn is_last(placed: Placed) -> bool
    ensures { result ≡ is_last (piece placed.entry) }
{
    matches!(placed.token, Token::Sign(Mark::Last))
}

// The tables with what the text says joined to a copy of them, or the text's first fault. `specified` has the domains that
// had their `spec_domain` before.
pub fn read(
    heap: Global,
    tables: &Tables,
    specified: &[bool; 32],
    text: &[u8],
) -> Result<Composition, Halt>
    ensures { Reads (read_after (record { tables = model tables.now; specified = specified.now }) text.now) result }
{
    let mut composition = Composition {
        tables: tables.copy(heap)?,
        specified: *specified,
    };
    composition.join(text)?;
    Ok(composition)
}
