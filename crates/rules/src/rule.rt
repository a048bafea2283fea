// A rule that gives a path its type.
use label::numbers::Typ;
use label::path::Path;

// What a rule speaks of: -e exactly its path, -u what lies under it, -r both.
#[derive(Clone, Copy, PartialEq, Eq, Debug)]
pub enum Flag {
    E,
    U,
    R,
}

#[derive(Clone, Copy)]
pub struct Rule {
    pub flag: Flag,
    pub path: Path,
    pub typ: Typ,
}
