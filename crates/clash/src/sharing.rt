//! Which domains have an entry path in common.
ghost use Rattle.std.specs.Prelude.{◌≡◌, ◌<◌, Decides};
ghost use Rattle.tables.specs.Model.{model};
ghost use Rattle.clash.specs.Sharing.{Entered, Sharers, Shared};

use label::numbers::Dom;
use std::array;
use tables::entry::Entry;
use tables::table::Tables;

// Tables, and for each domain the higher ones with which it has an entry path in common.
#[derive(Clone, Copy)]
pub struct Sharing<'a> {
    pub(crate) tables: &'a Tables,
    pub(crate) rows: [[bool; 32]; 32],
    ghost shared: { Shared (model tables.now).entries rows },
}

// Whether the paths are the same. Most paths that differ begin alike, so the last bytes are looked at first.
fn are_same(path: &[u8], other: &[u8]) -> bool
    ensures { Decides result (path.now ≡ other.now) }
{
    path.len() == other.len() && path.last() == other.last() && path == other
}

// Marks the domains above the given one that have the path as an entry path.
fn mark_entered(row: &mut [bool; 32], entries: &[Entry], low: Dom, path: &[u8])
    ensures { Entered entries.now low.0 path.now row.old row.new }
{
    for entry in entries {
        let dom = entry.dom.0;
        if low.0 < dom && dom < 32 && are_same(entry.path.as_bytes(), path) {
            row[usize::from(dom)] = true;
        }
    }
}

// Which of the higher domains have an entry path in common with this one. A pass for each of its entry paths marks them all at once.
fn sharers(tables: &Tables, low: Dom) -> [bool; 32]
    ensures { Sharers (model tables.now).entries low.0 result }
{
    let entries = tables.entries().as_slice();
    let mut row = [false; 32];
    for entry in entries {
        if entry.dom == low {
            mark_entered(&mut row, entries, low, entry.path.as_bytes());
        }
    }
    row
}

impl Sharing<'_> {
    // Which of all domains have an entry path in common. Each domain's passages are looked up in it, so it is made once.
    pub(crate) fn of(tables: &Tables) -> Sharing<'_>
        ensures { result.tables.now ≡ tables.now }
    {
        Sharing {
            tables,
            rows: array::from_fn(
                |e|
                    requires { e < 32 }
                    ensures { Sharers (model tables.entry.now).entries e result }
                { sharers(tables, Dom(e as u8)) },
            ),
        }
    }
}
