//! Decisions of a policy: types, grants and passages.
#![tactic(auto)]

ghost use Rattle.policy.specs.Asks.{Asks};
ghost use Rattle.policy.specs.Laws.{Laws};

pub mod cell;
pub mod complete;
pub mod grants;
pub mod sealed;
pub mod sealing;
pub mod site;

// What grants and passages come to.
pub fn grants_and_passages_are_lawful() -> bool
    ensures { Laws }
{
    true
}

// A policy is one that the machine can ask, and it is told what the tables say.
pub fn the_machine_is_told_what_the_tables_say() -> bool
    ensures { Asks }
{
    true
}
