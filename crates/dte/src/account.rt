// What a policy decides, written out for people.
use crate::names::{Named, manner};
use crate::report::Question;
use label::numbers::{Dom, Obj};
use label::path::Path;
use label::refusal::Refusal;
use label::rights::{LETTERS, Rights};
use policy::complete::Policy;
use policy::sealed::Sealed;
use std::io;
use tables::holding::Passage;
use words::spelled::Spelled;

// Paths that are no objects, to show how rules reach.
const PATHS: [&str; 5] = ["/", "/bin", "/log", "/limits", "/log/day/noon"];

const ASKED: [Question; 3] = [
    Question {
        dom: Dom(2),
        letter: 'r',
        obj: Obj(2),
    },
    Question {
        dom: Dom(1),
        letter: 'x',
        obj: Obj(0),
    },
    Question {
        dom: Dom(1),
        letter: 'w',
        obj: Obj(3),
    },
];

pub(crate) fn write_type(rt: &HostRuntime, policy: &Policy, path: &Path) -> io::Result<()> {
    let tables = policy.tables();
    let name = Named(tables.types(), policy.type_of(path).0);
    print!(rt; "  {path:<14} {name:<7} ")?;
    match tables.rules().deciding(path.as_bytes()) {
        Some(rule) => println!(rt; "by {} {}", rule.flag.text(), rule.path),
        None => println!(rt),
    }
}

fn write_types(rt: &HostRuntime, policy: &Policy) -> io::Result<()> {
    println!(rt; "Types of the objects, and the rules that decide them")?;
    for path in policy.tables().objects() {
        write_type(rt, policy, path)?;
    }
    println!(rt)?;
    println!(rt; "Types of some other paths")?;
    for text in PATHS {
        if let Ok(path) = Path::parse(text.as_bytes()) {
            write_type(rt, policy, &path)?;
        }
    }
    println!(rt)
}

// The letters that the domain is granted on the object.
fn granted(sealed: &Sealed, dom: Dom, obj: Obj) -> Rights {
    LETTERS
        .iter()
        .filter(|&&letter| sealed.decide(dom, obj, letter).is_ok())
        .filter_map(|&letter| Rights::of(letter))
        .fold(Rights::none(), Rights::union)
}

fn write_grants(rt: &HostRuntime, sealed: &Sealed) -> io::Result<()> {
    let tables = sealed.policy().tables();
    println!(rt; "Letters granted on each object")?;
    print!(rt; "  {:<14}", "")?;
    for name in tables.domains() {
        print!(rt; "{name:>9}")?;
    }
    println!(rt)?;
    for (o, path) in (0..tables.object_count()).zip(tables.objects()) {
        print!(rt; "  {path:<14}")?;
        // The tables are asked by number.
        for d in 0..tables.domain_count() {
            let rights = granted(sealed, Dom(d), Obj(o));
            let letters = format!(in rt.alloc(); "{rights}")?;
            print!(rt; "{letters:>9}")?;
        }
        println!(rt)?;
    }
    println!(rt)
}

// The passages that a run of the object by the domain may take.
fn write_passages_of(
    rt: &HostRuntime,
    sealed: &Sealed,
    dom: Dom,
    obj: Obj,
    path: &Path,
) -> io::Result<()> {
    let domains = sealed.policy().tables().domains();
    let from = Named(domains, dom.0);
    // Passages are asked for by number.
    for e in 0..sealed.policy().tables().domain_count() {
        if sealed.passes(dom, obj, Dom(e)) {
            let how = if sealed.auto(dom, obj) == Some(Dom(e)) {
                Passage::Auto
            } else {
                Passage::Exec
            };
            println!(rt;
                "  {from} running {path} passes to {}, {}",
                Named(domains, e),
                manner(how)
            )?;
        }
    }
    Ok(())
}

fn write_passages(rt: &HostRuntime, sealed: &Sealed) -> io::Result<()> {
    let tables = sealed.policy().tables();
    println!(rt; "Passages")?;
    // Passages are asked for by number.
    for d in 0..tables.domain_count() {
        for (o, path) in (0..tables.object_count()).zip(tables.objects()) {
            write_passages_of(rt, sealed, Dom(d), Obj(o), path)?;
        }
    }
    println!(rt)
}

// The path, and under it a caret at the end of the part that failed.
fn write_denial(rt: &HostRuntime, path: &Path, n: usize, letter: char) -> io::Result<()> {
    println!(rt; "      {path}")?;
    println!(rt; "      {:>n$} {letter} is lacking here", "^")
}

pub(crate) fn write_answer(rt: &HostRuntime, sealed: &Sealed, asked: Question) -> io::Result<()> {
    let Question { dom, letter, obj } = asked;
    let tables = sealed.policy().tables();
    let (Some(name), Some(path)) = (
        tables.domains().get(dom.0 as usize),
        tables.objects().get(obj.0 as usize),
    ) else {
        return Ok(());
    };
    print!(rt; "  {name} asks for {letter} on {path}: ")?;
    match sealed.decide(dom, obj, letter) {
        Ok(()) => println!(rt; "granted"),
        Err(Refusal::Denied((n, lacking))) => {
            println!(rt; "denied")?;
            write_denial(rt, path, n, lacking)
        }
        Err(refusal) => println!(rt; "{refusal}"),
    }
}

pub(crate) fn write(rt: &HostRuntime, sealed: &Sealed) -> io::Result<()> {
    write_types(rt, sealed.policy())?;
    write_grants(rt, sealed)?;
    write_passages(rt, sealed)?;
    println!(rt; "Some questions")?;
    for asked in ASKED {
        write_answer(rt, sealed, asked)?;
    }
    Ok(())
}
