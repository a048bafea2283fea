// Entry paths: the programs by which a domain may be entered.
ghost use Rattle.std.specs.Prelude.{ℕ, ◌≤◌};
ghost use Rattle.tables.specs.Entries.{count_of};

use label::numbers::Dom;
use label::path::Path;

#[derive(Clone, Copy)]
pub struct Entry {
    pub dom: Dom,
    pub path: Path,
}

// At most 8 for each domain.
#[derive(Drop)]
pub struct Entries {
    pub(crate) list: Vec<Entry>,
    ghost few: { (d : ℕ) → count_of list.items d ≤ 8 },
}
