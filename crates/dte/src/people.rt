// Answers written out for people.
use crate::files::Module;
use crate::names::{Named, manner};
use crate::report::{Question, Report};
use crate::rows::Rows;
use crate::{account, faults};
use draft::fault::Failure;
use label::name::Name;
use label::numbers::{Dom, Typ};
use label::path::Path;
use label::refusal::Refusal;
use label::rights::Rights;
use policy::complete::Policy;
use policy::sealed::Sealed;
use rules::rule::Rule;
use std::io;
use tables::entry::Entry;
use tables::holding::Passage;
use tables::table::{Apart, Tables};
use words::spelled::Spelled;

pub(crate) struct People;

// The length of the longest path, for a column that holds them all.
fn widest(paths: &[Path]) -> usize {
    paths
        .iter()
        .map(|path| path.as_bytes().len())
        .max()
        .unwrap_or(0)
}

impl Rows for People {
    fn heading(rt: &HostRuntime, text: &str) -> io::Result<()> {
        println!(rt; "{text}")
    }

    fn gap(rt: &HostRuntime) -> io::Result<()> {
        println!(rt)
    }

    fn type_name(rt: &HostRuntime, _number: usize, name: &Name) -> io::Result<()> {
        println!(rt; "  {name}")
    }

    fn rule(rt: &HostRuntime, tables: &Tables, rule: &Rule) -> io::Result<()> {
        println!(rt;
            "  {} {:<20} {}",
            rule.flag.text(),
            rule.path,
            Named(tables.types(), rule.typ.0)
        )
    }

    fn domain(rt: &HostRuntime, tables: &Tables, dom: Dom) -> io::Result<()> {
        let name = Named(tables.domains(), dom.0);
        if tables.first() == Some(dom) {
            println!(rt; "Domain {name}, in which programs start")
        } else {
            println!(rt; "Domain {name}")
        }
    }

    fn entry(rt: &HostRuntime, entry: &Entry) -> io::Result<()> {
        println!(rt; "  is entered by {}", entry.path)
    }

    fn right(
        rt: &HostRuntime,
        tables: &Tables,
        _dom: Dom,
        typ: Typ,
        rights: Rights,
    ) -> io::Result<()> {
        // Rights are not padded by themselves, so the column is made of their text.
        let letters = format!(in rt.alloc(); "{rights}")?;
        println!(rt; "  has {letters:<6} on {}", Named(tables.types(), typ.0))
    }

    fn passage(
        rt: &HostRuntime,
        tables: &Tables,
        _dom: Dom,
        how: Passage,
        to: Dom,
    ) -> io::Result<()> {
        println!(rt;
            "  passes to {}, {}",
            Named(tables.domains(), to.0),
            manner(how)
        )
    }

    fn object(
        rt: &HostRuntime,
        tables: &Tables,
        _number: usize,
        path: &Path,
        typ: Typ,
    ) -> io::Result<()> {
        let width = widest(tables.objects());
        println!(rt; "  {path:<width$} {}", Named(tables.types(), typ.0))
    }

    fn apart(rt: &HostRuntime, tables: &Tables, apart: &Apart) -> io::Result<()> {
        let from = Named(tables.types(), apart.from.0);
        let to = Named(tables.types(), apart.to.0);
        println!(rt; "  no chain leads from {from} to {to}")
    }
}

impl Report for People {
    fn failure(rt: &HostRuntime, modules: &[Module], failure: Failure) -> anyhow::Result<()> {
        faults::write_failure(rt, modules, failure)
    }

    fn path_type(rt: &HostRuntime, policy: &Policy, path: &Path) -> io::Result<()> {
        account::write_type(rt, policy, path)
    }

    fn no_path(rt: &HostRuntime, word: &str, _refusal: Refusal) -> io::Result<()> {
        println!(rt; "  {word:<14} is not a path")
    }

    fn answer(rt: &HostRuntime, sealed: &Sealed, asked: Question) -> io::Result<()> {
        account::write_answer(rt, sealed, asked)
    }
}
