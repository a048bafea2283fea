//! A fault of a module, and where it was found.
use reader::reason::Reason;

#[derive(Clone, Copy)]
pub struct Fault {
    pub reason: Reason,
    // the number of the module, from 1: one more than the modules that were kept before
    pub module: usize,
    // the number of the line, from 1; 0 where the text was not read
    pub line: usize,
    // the place in the text, from 0
    pub place: usize,
}

// Why a module is not taken.
#[derive(Clone, Copy)]
pub enum Failure {
    Memory,
    Faulty(Fault),
}
