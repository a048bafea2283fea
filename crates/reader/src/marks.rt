//! Brackets and ends of lines.
ghost use Rattle.std.specs.Prelude.{◌≡◌, Ok, Err};
ghost use Rattle.reader.specs.Statements.{behind, meet, fit, misfit, on_mark};

use crate::position::{Group, Position};
use crate::reason::Reason;
use label::numbers::Dom;
use scan::token::Mark;

// What comes behind a group of the domain.
fn behind(group: Group, dom: Dom) -> Position
    ensures { result ≡ behind group dom }
{
    match group {
        Group::Entries => Position::Open(Group::Rights, dom),
        Group::Rights => Position::Open(Group::Passages, dom),
        Group::Passages => Position::Open(Group::Signals, dom),
        Group::Signals => Position::LineEnd,
    }
}

// Where the mark leads, if it fits.
fn meets(position: Position, mark: Mark) -> Option<Position>
    ensures { result ≡ meet (fit position) mark }
{
    match (position, mark) {
        (Position::Start | Position::MoreNames(_) | Position::LineEnd, Mark::End | Mark::Last) =>
            Some(Position::Start),
        (Position::Open(group, dom), Mark::Open) => Some(Position::Within(group, dom)),
        (Position::Within(group, dom), Mark::Close) => Some(behind(group, dom)),
        _ => None,
    }
}

fn misfit(mark: Mark) -> Reason
    ensures { result ≡ misfit mark }
{
    match mark {
        Mark::Stray => Reason::Stray,
        _ => Reason::Misfit,
    }
}

// Where the mark leads from the position, or why it is refused there.
pub(crate) fn on_mark(position: Position, mark: Mark) -> Result<Position, Reason>
    ensures { result ≡ on_mark position mark }
{
    // What is read stands in front, and the fault beside it.
    let Some(next) = meets(position, mark) else {
        return Err(misfit(mark));
    };
    Ok(next)
}
