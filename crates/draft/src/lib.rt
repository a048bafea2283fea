//! Drafts: modules are tried one by one, kept or withdrawn, and what they come to is sealed.
#![tactic(auto)]

pub mod aparts;
pub mod composing;
pub mod draft;
pub mod drafting;
pub mod fault;
pub mod module;
pub mod phase;
pub mod sealed_policy;
pub mod settled;
pub mod settling;
pub mod tokens;
