// Answers in lines of a fixed form, by number, for scripts.
use crate::files::Module;
use crate::report::{Question, Report};
use crate::rows::Rows;
use draft::fault::{Failure, Fault};
use label::name::Name;
use label::numbers::{Dom, Typ};
use label::path::Path;
use label::refusal::Refusal;
use label::rights::Rights;
use policy::complete::Policy;
use policy::sealed::Sealed;
use reader::reason::Reason;
use rules::rule::Rule;
use std::io;
use tables::entry::Entry;
use tables::holding::Passage;
use tables::table::{Apart, Tables};
use words::spelled::Spelled;

pub(crate) struct Plain;

impl Rows for Plain {
    fn type_name(rt: &HostRuntime, number: usize, name: &Name) -> io::Result<()> {
        println!(rt; "type {number} {name}")
    }

    fn domain_name(rt: &HostRuntime, number: usize, name: &Name) -> io::Result<()> {
        println!(rt; "domain {number} {name}")
    }

    fn first(rt: &HostRuntime, dom: Dom) -> io::Result<()> {
        println!(rt; "default {}", dom.0)
    }

    fn rule(rt: &HostRuntime, _tables: &Tables, rule: &Rule) -> io::Result<()> {
        println!(rt; "rule {} {} {}", rule.flag.text(), rule.path, rule.typ.0)
    }

    fn entry(rt: &HostRuntime, entry: &Entry) -> io::Result<()> {
        println!(rt; "entry {} {}", entry.dom.0, entry.path)
    }

    fn right(
        rt: &HostRuntime,
        _tables: &Tables,
        dom: Dom,
        typ: Typ,
        rights: Rights,
    ) -> io::Result<()> {
        println!(rt; "right {} {} {rights}", dom.0, typ.0)
    }

    fn passage(
        rt: &HostRuntime,
        _tables: &Tables,
        dom: Dom,
        how: Passage,
        to: Dom,
    ) -> io::Result<()> {
        println!(rt; "{} {} {}", how.text(), dom.0, to.0)
    }

    fn object(
        rt: &HostRuntime,
        _tables: &Tables,
        number: usize,
        path: &Path,
        typ: Typ,
    ) -> io::Result<()> {
        println!(rt; "object {number} {path} {}", typ.0)
    }

    fn apart(rt: &HostRuntime, _tables: &Tables, apart: &Apart) -> io::Result<()> {
        println!(rt; "apart {} {}", apart.from.0, apart.to.0)
    }
}

fn write_fault(rt: &HostRuntime, fault: Fault) -> io::Result<()> {
    let Fault {
        reason,
        module,
        line,
        place,
    } = fault;
    print!(rt;
        "fault {} layer {} module {module} line {line} place {place}",
        reason.number(),
        reason.layer()
    )?;
    match reason {
        Reason::Clash((Dom(x), Dom(y))) => println!(rt; " domains {x} {y}"),
        Reason::Chain((Typ(x), Typ(y))) => println!(rt; " types {x} {y}"),
        _ => println!(rt),
    }
}

fn write_refusal(rt: &HostRuntime, refusal: Refusal) -> io::Result<()> {
    match (refusal, refusal.number()) {
        (Refusal::Denied((length, letter)), _) => println!(rt; "denied {length} {letter}"),
        (_, Some(number)) => println!(rt; "refused {number}"),
        (_, None) => println!(rt; "fault memory"),
    }
}

impl Report for Plain {
    fn failure(rt: &HostRuntime, _modules: &[Module], failure: Failure) -> anyhow::Result<()> {
        match failure {
            Failure::Memory => println!(rt; "fault memory")?,
            Failure::Faulty(fault) => write_fault(rt, fault)?,
        }
        Ok(())
    }

    fn path_type(rt: &HostRuntime, policy: &Policy, path: &Path) -> io::Result<()> {
        println!(rt; "path {path} {}", policy.type_of(path).0)
    }

    fn no_path(rt: &HostRuntime, _word: &str, refusal: Refusal) -> io::Result<()> {
        write_refusal(rt, refusal)
    }

    fn no_question(rt: &HostRuntime, refusal: Refusal) -> io::Result<()> {
        write_refusal(rt, refusal)
    }

    fn answer(rt: &HostRuntime, sealed: &Sealed, asked: Question) -> io::Result<()> {
        match sealed.decide(asked.dom, asked.obj, asked.letter) {
            Ok(()) => println!(rt; "granted"),
            Err(refusal) => write_refusal(rt, refusal),
        }
    }
}
