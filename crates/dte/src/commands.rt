// Commands on a policy that is composed from module files.
use crate::composing::compose;
use crate::files::read_modules;
use crate::names::{domain_of, letter_of, object_of};
use crate::report::{Question, Report};
use crate::rows::write_tables;
use anyhow::bail;
use draft::sealed_policy::SealedPolicy;
use label::path::Path;
use label::refusal::Refusal;
use tables::table::Tables;

const USAGE: &str =
    "usage: dte [--plain] tables MODULE.. | type MODULE.. -- PATH.. | access MODULE.. -- DOMAIN LETTER OBJECT | store ..";

// The words before and behind the first `--`.
fn split_query(words: &[String]) -> Option<(&[String], &[String])> {
    let place = words.iter().position(|word| word.as_str() == "--")?;
    Some((&words[..place], &words[place + 1..]))
}

fn compose_files<R: Report>(rt: &HostRuntime, files: &[String]) -> anyhow::Result<SealedPolicy> {
    let modules = read_modules(rt, files)?;
    let [first, further @ ..] = modules.as_slice() else {
        bail!(USAGE);
    };
    compose(rt.alloc(), first.text.as_slice(), further).or_else(|failure| {
        R::failure(rt, modules.as_slice(), failure)?;
        bail!("the modules are refused")
    })
}

fn tables<R: Report>(rt: &HostRuntime, files: &[String]) -> anyhow::Result<()> {
    let sealed = compose_files::<R>(rt, files)?;
    write_tables::<R>(rt, sealed.decisions().policy())?;
    Ok(())
}

fn types<R: Report>(rt: &HostRuntime, words: &[String]) -> anyhow::Result<()> {
    let Some((files, paths @ [_, ..])) = split_query(words) else {
        bail!(USAGE);
    };
    let sealed = compose_files::<R>(rt, files)?;
    for word in paths {
        match Path::parse(word.as_str().as_bytes()) {
            Ok(path) => R::path_type(rt, sealed.decisions().policy(), &path)?,
            Err(refusal) => R::no_path(rt, word.as_str(), refusal)?,
        }
    }
    Ok(())
}

fn read_question(tables: &Tables, dom: &str, letter: &str, obj: &str) -> Result<Question, Refusal> {
    Ok(Question {
        dom: domain_of(tables, dom)?,
        letter: letter_of(letter)?,
        obj: object_of(tables, obj)?,
    })
}

fn access<R: Report>(rt: &HostRuntime, words: &[String]) -> anyhow::Result<()> {
    let Some((files, [dom, letter, obj])) = split_query(words) else {
        bail!(USAGE);
    };
    let policy = compose_files::<R>(rt, files)?;
    let sealed = policy.decisions();
    match read_question(
        sealed.policy().tables(),
        dom.as_str(),
        letter.as_str(),
        obj.as_str(),
    ) {
        Ok(asked) => {
            R::answer(rt, sealed, asked)?;
            Ok(())
        }
        Err(refusal) => {
            R::no_question(rt, refusal)?;
            Err(refusal.into())
        }
    }
}

// A command and the words behind it.
pub(crate) fn run<R: Report>(rt: &HostRuntime, words: &[String]) -> anyhow::Result<()> {
    let [command, rest @ ..] = words else {
        bail!(USAGE);
    };
    match command.as_str() {
        "tables" => tables::<R>(rt, rest),
        "type" => types::<R>(rt, rest),
        "access" => access::<R>(rt, rest),
        _ => bail!(USAGE),
    }
}
