// The tables of a policy.
ghost use Rattle.std.specs.Prelude.{◌≡◌, ◌≤◌, true, vec_len};
ghost use Rattle.tables.specs.Begins.{declared_in};

use crate::entry::Entries;
use crate::holding::Holding;
use label::name::Name;
use label::numbers::{Dom, Typ};
use label::path::Path;
use lists::distinct::Distinct;
use rules::table::Rules;

// A demand that no chain of flow leads from an object of the one type to an object of the other.
#[derive(Clone, Copy)]
pub struct Apart {
    pub from: Typ,
    pub to: Typ,
}

#[derive(Drop)]
pub struct Tables {
    pub(crate) types: Distinct<Name, 64>,
    pub(crate) domains: Distinct<Name, 32>,
    pub(crate) first: Option<Dom>,
    pub(crate) rules: Rules,
    pub(crate) objects: Distinct<Path, 128>,
    pub(crate) entries: Entries,
    pub(crate) holdings: [Holding; 32],
    pub(crate) aparts: Vec<Apart>,
    ghost few: { vec_len aparts ≤ 128 },
    ghost begins: { declared_in first (vec_len domains.list) ≡ true },
}
