//! The phases of a draft, as contracts name them.

#[derive(Clone, Copy)]
pub enum Phase {
    Blank,
    Rest,
    Trial,
}
