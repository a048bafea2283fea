//! Reads a module text into the tables of a policy, or finds its first fault.
#![tactic(auto)]

pub mod composition;
pub mod marks;
pub mod names;
pub mod position;
pub mod reading;
pub mod reason;
pub mod statements;
pub mod stop;
