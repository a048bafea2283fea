//! Numbers that cannot be taken for one another.
//! Any number may stand in them: what it names, if anything, is for the tables to say.

// The number of a domain, in the order of declaration.
#[derive(Clone, Copy, PartialEq, Eq, Debug)]
pub struct Dom(pub u8);

// The number of a type, in the order of declaration.
#[derive(Clone, Copy, PartialEq, Eq, Debug)]
pub struct Typ(pub u8);

// The number of an object, in the order of declaration.
#[derive(Clone, Copy, PartialEq, Eq, Debug)]
pub struct Obj(pub u8);

// The number of a seat: a place in the machine that one program at a time runs in.
#[derive(Clone, Copy, PartialEq, Eq, Debug)]
pub struct Seat(pub u8);
