//! What reading module texts comes to.
//! There is nothing to run: each function stands for the law that its contract names.
#![tactic(auto)]

ghost use Rattle.std.specs.Prelude.{◌≡◌, true};
ghost use Rattle.reading_laws.specs.Ahead.{FirstFaultDoesNotLookAhead};
ghost use Rattle.reading_laws.specs.Exact.{ReadingIsExact};
ghost use Rattle.reading_laws.specs.Turns.{TextsJoinedByALineFeedAreReadInTurn};

use scan::laws::{lines_are_read_one_by_one, tokens_are_in_order};

// Tables say that every token was taken, and a fault that its token is the first to be refused.
pub fn reading_is_exact() -> bool
    ensures exact { ReadingIsExact }
    ensures answer { result ≡ true }
{
    tokens_are_in_order()
}

// What stands behind the line of the first fault plays no part.
pub fn first_fault_does_not_look_ahead() -> bool
    ensures ahead { FirstFaultDoesNotLookAhead }
    ensures answer { result ≡ true }
{
    lines_are_read_one_by_one()
}

// Texts may be joined by a line feed and read as one, or read one after the other.
pub fn texts_joined_by_a_line_feed_are_read_in_turn() -> bool
    ensures turns { TextsJoinedByALineFeedAreReadInTurn }
    ensures answer { result ≡ true }
{
    let _ = tokens_are_in_order();
    lines_are_read_one_by_one()
}
