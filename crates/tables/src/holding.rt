// What a domain holds: rights by the number of the type, passages by the number of the domain that they lead to.
use label::rights::Rights;

// How a passage is taken: `auto` by every run of an entry path, `exec` only where the run wishes for it.
#[derive(Clone, Copy, PartialEq, Eq, Debug)]
pub enum Passage {
    Auto,
    Exec,
}

// The ways in which a passage to one domain is listed: none, one or both.
#[derive(Clone, Copy, Default)]
pub struct Ways {
    pub(crate) auto: bool,
    pub(crate) exec: bool,
}

// Its arrays are of fixed size, so that asking and granting allocate nothing.
#[derive(Clone, Copy)]
pub struct Holding {
    pub(crate) rights: [Rights; 64],
    pub(crate) passages: [Ways; 32],
}
