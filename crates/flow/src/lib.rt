//! Live domains, links and shortest chains of a sealed policy.
#![tactic(auto)]

mod asking;
pub mod chart;
pub mod charting;
mod linking;
mod live;
mod node;
pub mod objects;
mod passages;
mod relation;
pub mod searching;
pub mod spread;
