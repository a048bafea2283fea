//! Labels of subjects and objects: numbers, letters and rights, names, paths.
#![tactic(auto)]

pub mod name;
pub mod names;
pub mod numbers;
pub mod path;
pub mod paths;
pub mod refusal;
pub mod rights;
mod short;
pub mod show;
