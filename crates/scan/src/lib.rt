//! The tokens of a module text, with their places.
//! A module text is any bytes. Blank space is space, tab, or a backslash directly before a line feed, which then ends no line.
//! `#` starts a comment up to the line feed or the text's end. `(` and `)` stand for themselves.
//! A word is the longest run of other bytes 0x21 to 0x7E without `#` and `\`. Every other byte outside a comment is stray.
#![tactic(auto)]

pub mod laws;
pub mod lines;
pub mod scanner;
pub mod step;
pub mod token;
