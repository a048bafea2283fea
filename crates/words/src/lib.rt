//! The words of a module text: statement words, flags, arrows, letters.
#![tactic(auto)]

pub mod arrow;
pub mod flag;
pub mod keyword;
pub mod letters;
pub mod passage;
pub mod spelled;
