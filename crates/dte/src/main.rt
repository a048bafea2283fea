//! The program `dte`: questions to a policy that is composed from module files, an account of the example policy,
//! and a look into the memory image of a store.
#![tactic(auto)]

use anyhow::anyhow;
use draft::fault::Failure;
use label::refusal::Refusal;
use std::env;
use std::process::ExitCode;

mod account;
mod advice;
mod commands;
mod composing;
mod example;
mod excerpt;
mod faults;
mod files;
mod names;
mod people;
mod plain;
mod report;
mod rows;
mod stores;

use crate::composing::compose;
use crate::people::People;
use crate::plain::Plain;

fn write_example(rt: &HostRuntime) -> anyhow::Result<()> {
    let policy = compose(rt.alloc(), example::MODULE.as_bytes(), &[]).map_err(
        |failure| match failure {
            Failure::Memory => Refusal::Memory.into(),
            Failure::Faulty(_) => anyhow!("the example policy is refused"),
        },
    )?;
    account::write(rt, policy.decisions())?;
    Ok(())
}

fn run(rt: &HostRuntime) -> anyhow::Result<()> {
    let words: Vec<String> = env::args(rt)?.skip(1).collect(rt.alloc())?;
    match words.as_slice() {
        [] => write_example(rt),
        [command, rest @ ..] if command.as_str() == "store" => stores::run(rt, rest),
        [option, rest @ ..] if option.as_str() == "--plain" => commands::run::<Plain>(rt, rest),
        words => commands::run::<People>(rt, words),
    }
}

fn main(rt: HostRuntime) -> anyhow::Result<ExitCode> {
    // An error is one line behind the name of the program.
    match run(&rt) {
        Ok(()) => Ok(ExitCode::SUCCESS),
        Err(error) => {
            eprintln!(rt; "dte: {error}")?;
            Ok(ExitCode::FAILURE)
        }
    }
}
