use label::numbers::{Dom, Typ};
use label::rights::Rights;

// What is decided once about a domain and an object.
#[derive(Clone, Copy)]
pub struct Cell {
    // the length of the first ancestor on whose type the domain lacks d
    pub(crate) barrier: Option<u8>,
    // the length of the object's path
    pub(crate) long: u8,
    // the letters that the domain holds on the object's type
    pub(crate) letters: Rights,
    // whether the object's path is an entry path of the domain
    pub(crate) enters: bool,
    // where an auto passage of the domain leads by the object
    pub(crate) target: Option<Dom>,
}

// What is decided once about an object: its type, and a cell for each domain.
#[derive(Clone, Copy)]
pub struct Sheet {
    pub(crate) typ: Typ,
    // a decision allocates nothing, so every domain that there may be has its cell
    pub(crate) cells: [Cell; 32],
}
