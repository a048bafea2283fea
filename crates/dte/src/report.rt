// For whom the program answers: each report is a type, and writes in its own way.
use crate::files::Module;
use crate::rows::Rows;
use draft::fault::Failure;
use label::numbers::{Dom, Obj};
use label::path::Path;
use label::refusal::Refusal;
use policy::complete::Policy;
use policy::sealed::Sealed;
use std::io;

// A domain asks for a letter on an object.
#[derive(Clone, Copy)]
pub(crate) struct Question {
    pub(crate) dom: Dom,
    pub(crate) letter: char,
    pub(crate) obj: Obj,
}

pub(crate) trait Report: Rows {
    // Why the modules are refused.
    fn failure(rt: &HostRuntime, modules: &[Module], failure: Failure) -> anyhow::Result<()>;

    // The type of a path.
    fn path_type(rt: &HostRuntime, policy: &Policy, path: &Path) -> io::Result<()>;

    // A word that is no path.
    fn no_path(rt: &HostRuntime, word: &str, refusal: Refusal) -> io::Result<()>;

    // Words that are no question, said before the program fails on them.
    fn no_question(_rt: &HostRuntime, _refusal: Refusal) -> io::Result<()> {
        Ok(())
    }

    fn answer(rt: &HostRuntime, sealed: &Sealed, asked: Question) -> io::Result<()>;
}
