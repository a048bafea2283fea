//! The tables of a policy: types, domains, rules, objects, entry paths, rights, passages and separations.
#![tactic(auto)]

pub mod building;
pub mod entries;
pub mod entry;
pub mod holding;
pub mod holdings;
pub mod reading;
pub mod table;
