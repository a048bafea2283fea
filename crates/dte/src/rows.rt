// The tables of a policy, row by row, in one order for every report.
use label::name::Name;
use label::numbers::{Dom, Typ};
use label::path::Path;
use label::rights::Rights;
use policy::complete::Policy;
use rules::rule::Rule;
use std::io;
use tables::entry::Entry;
use tables::holding::Passage;
use tables::table::{Apart, Tables};

// How a report writes each row; a row with a body here is one that a report may leave out.
pub(crate) trait Rows {
    // What stands over the rows of one kind.
    fn heading(_rt: &HostRuntime, _text: &str) -> io::Result<()> {
        Ok(())
    }

    // What parts the rows of one kind from the next.
    fn gap(_rt: &HostRuntime) -> io::Result<()> {
        Ok(())
    }

    fn type_name(rt: &HostRuntime, number: usize, name: &Name) -> io::Result<()>;

    fn domain_name(_rt: &HostRuntime, _number: usize, _name: &Name) -> io::Result<()> {
        Ok(())
    }

    fn first(_rt: &HostRuntime, _dom: Dom) -> io::Result<()> {
        Ok(())
    }

    fn rule(rt: &HostRuntime, tables: &Tables, rule: &Rule) -> io::Result<()>;

    // What stands over the rows of a domain.
    fn domain(_rt: &HostRuntime, _tables: &Tables, _dom: Dom) -> io::Result<()> {
        Ok(())
    }

    fn entry(rt: &HostRuntime, entry: &Entry) -> io::Result<()>;

    fn right(
        rt: &HostRuntime,
        tables: &Tables,
        dom: Dom,
        typ: Typ,
        rights: Rights,
    ) -> io::Result<()>;

    fn passage(
        rt: &HostRuntime,
        tables: &Tables,
        dom: Dom,
        how: Passage,
        to: Dom,
    ) -> io::Result<()>;

    fn object(
        rt: &HostRuntime,
        tables: &Tables,
        number: usize,
        path: &Path,
        typ: Typ,
    ) -> io::Result<()>;

    fn apart(rt: &HostRuntime, tables: &Tables, apart: &Apart) -> io::Result<()>;
}

fn write_names<R: Rows>(rt: &HostRuntime, tables: &Tables) -> io::Result<()> {
    R::heading(rt, "Types")?;
    for (number, name) in tables.types().iter().enumerate() {
        R::type_name(rt, number, name)?;
    }
    R::gap(rt)?;
    for (number, name) in tables.domains().iter().enumerate() {
        R::domain_name(rt, number, name)?;
    }
    Ok(())
}

fn write_rules<R: Rows>(rt: &HostRuntime, tables: &Tables) -> io::Result<()> {
    R::heading(rt, "Rules")?;
    for rule in tables.rules().as_slice() {
        R::rule(rt, tables, rule)?;
    }
    R::gap(rt)
}

fn write_entries<R: Rows>(rt: &HostRuntime, tables: &Tables, dom: Dom) -> io::Result<()> {
    for entry in tables.entries().as_slice() {
        if entry.dom == dom {
            R::entry(rt, entry)?;
        }
    }
    Ok(())
}

// The tables are asked for rights and passages by number.
fn write_rights<R: Rows>(rt: &HostRuntime, tables: &Tables, dom: Dom) -> io::Result<()> {
    for t in 0..64u8 {
        let rights = tables.rights(dom, Typ(t));
        if rights != Rights::none() {
            R::right(rt, tables, dom, Typ(t), rights)?;
        }
    }
    Ok(())
}

fn write_passages<R: Rows>(
    rt: &HostRuntime,
    tables: &Tables,
    dom: Dom,
    how: Passage,
) -> io::Result<()> {
    for e in 0..tables.domain_count() {
        if tables.lists(dom, how, Dom(e)) {
            R::passage(rt, tables, dom, how, Dom(e))?;
        }
    }
    Ok(())
}

fn write_domain<R: Rows>(rt: &HostRuntime, tables: &Tables, dom: Dom) -> io::Result<()> {
    R::domain(rt, tables, dom)?;
    write_entries::<R>(rt, tables, dom)?;
    write_rights::<R>(rt, tables, dom)?;
    write_passages::<R>(rt, tables, dom, Passage::Auto)?;
    write_passages::<R>(rt, tables, dom, Passage::Exec)?;
    R::gap(rt)
}

fn write_objects<R: Rows>(rt: &HostRuntime, policy: &Policy) -> io::Result<()> {
    let tables = policy.tables();
    R::heading(rt, "Objects")?;
    for (number, path) in tables.objects().iter().enumerate() {
        R::object(rt, tables, number, path, policy.type_of(path))?;
    }
    Ok(())
}

fn write_aparts<R: Rows>(rt: &HostRuntime, tables: &Tables) -> io::Result<()> {
    if tables.aparts().is_empty() {
        return Ok(());
    }
    R::gap(rt)?;
    R::heading(rt, "Kept apart")?;
    for apart in tables.aparts() {
        R::apart(rt, tables, apart)?;
    }
    Ok(())
}

pub(crate) fn write_tables<R: Rows>(rt: &HostRuntime, policy: &Policy) -> io::Result<()> {
    let tables = policy.tables();
    write_names::<R>(rt, tables)?;
    if let Some(dom) = tables.first() {
        R::first(rt, dom)?;
    }
    write_rules::<R>(rt, tables)?;
    for d in 0..tables.domain_count() {
        write_domain::<R>(rt, tables, Dom(d))?;
    }
    write_objects::<R>(rt, policy)?;
    write_aparts::<R>(rt, tables)
}
