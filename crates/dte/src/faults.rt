// A fault shown to people: where it is, what it is, and what to do.
use crate::advice::{advice_on, form};
use crate::excerpt::Spot;
use crate::files::Module;
use crate::names::Named;
use draft::fault::{Failure, Fault};
use label::numbers::{Dom, Typ};
use reader::reading::read;
use reader::reason::Reason;
use std::alloc::Global;
use std::io;
use tables::table::Tables;
use words::keyword::keyword_of;

// What the modules come to before the checks at their end.
fn read_all(heap: Global, modules: &[Module]) -> Option<Tables> {
    let mut tables = Tables::new(heap);
    let mut specified = [false; 32];
    // Each text is read after what the texts before it gave, and may be refused.
    for module in modules {
        (tables, specified) = read(heap, &tables, &specified, module.text.as_slice())
            .ok()?
            .into_parts();
    }
    Some(tables)
}

// The two domains or types that the fault is about.
fn write_pair(rt: &HostRuntime, tables: &Tables, reason: Reason) -> io::Result<()> {
    match reason {
        Reason::Clash((Dom(x), Dom(y))) => {
            let one = Named(tables.domains(), x);
            let other = Named(tables.domains(), y);
            eprintln!(rt; "  = the domains are {one} and {other}")
        }
        Reason::Chain((Typ(x), Typ(y))) => {
            let from = Named(tables.types(), x);
            let to = Named(tables.types(), y);
            eprintln!(rt; "  = the chain leads from {from} to {to}")
        }
        _ => Ok(()),
    }
}

// The line, and under it a caret at the place.
fn write_line(rt: &HostRuntime, file: &str, spot: Spot, number: usize) -> anyhow::Result<()> {
    let line = spot.line(rt.alloc())?;
    let column = spot.column();
    eprintln!(rt; " --> {file}:{number}:{column}")?;
    eprintln!(rt; "{number:>5} | {line}")?;
    eprintln!(rt; "{:>5} | {:>column$}", "", "^")?;
    Ok(())
}

// The form of the statement that the fault is in.
fn write_form(rt: &HostRuntime, spot: Spot) -> anyhow::Result<()> {
    let word = spot.first_word(rt.alloc())?;
    if let Some(keyword) = keyword_of(word.as_slice()) {
        eprintln!(rt; "  = the statement's form: {}", form(keyword))?;
    }
    Ok(())
}

// Where the fault is: a place of the text, or the text as a whole.
fn write_where(rt: &HostRuntime, module: &Module, fault: Fault) -> anyhow::Result<()> {
    let file = module.file;
    match fault.reason {
        Reason::Clash(_) | Reason::Incomplete | Reason::Chain(_) => {
            eprintln!(rt; " --> {file}, at its end")?;
        }
        Reason::TooMuch => eprintln!(rt; " --> {file}")?,
        _ => {
            let spot = Spot {
                text: module.text.as_slice(),
                place: fault.place,
            };
            write_line(rt, file, spot, fault.line)?;
            write_form(rt, spot)?;
        }
    }
    Ok(())
}

fn write_fault(rt: &HostRuntime, modules: &[Module], fault: Fault) -> anyhow::Result<()> {
    let advice = advice_on(fault.reason);
    eprintln!(rt; "fault {}: {}", fault.reason.number(), advice.complaint)?;
    // Modules are numbered from 1.
    if let Some(module) = modules.get(fault.module.saturating_sub(1)) {
        write_where(rt, module, fault)?;
    }
    let read = &modules[..fault.module.min(modules.len())];
    if let Some(tables) = read_all(rt.alloc(), read) {
        write_pair(rt, &tables, fault.reason)?;
    }
    eprintln!(rt; "  = expected: {}", advice.expected)?;
    eprintln!(rt; "  = help: {}", advice.help)?;
    Ok(())
}

pub(crate) fn write_failure(
    rt: &HostRuntime,
    modules: &[Module],
    failure: Failure,
) -> anyhow::Result<()> {
    match failure {
        Failure::Memory => eprintln!(rt; "there is not enough memory for the modules")?,
        Failure::Faulty(fault) => write_fault(rt, modules, fault)?,
    }
    Ok(())
}
