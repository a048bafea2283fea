//! Where on a line a reader is.
use label::numbers::{Dom, Typ};
use label::path::Path;
use rules::rule::Flag;

// What a line declares.
#[derive(Clone, Copy)]
pub enum Sort {
    Types,
    Domains,
}

// The groups in brackets that say what a domain holds, in their order.
#[derive(Clone, Copy)]
pub enum Group {
    Entries,
    Rights,
    Passages,
    Signals,
}

// What is to come next.
#[derive(Clone, Copy)]
pub enum Position {
    // a statement, or the line's end
    Start,
    // the first name that is declared
    Name(Sort),
    // one more name, or the line's end
    MoreNames(Sort),
    // the domain in which programs start
    DefaultDomain,
    // the domain that is specified
    Specified,
    // the domain that is widened
    Widened,
    // the bracket before a group of the domain
    Open(Group, Dom),
    // a word of a group of the domain, or the bracket after it
    Within(Group, Dom),
    // the flag of a rule
    RuleFlag,
    // the path of a rule
    RulePath(Flag),
    // the type that a rule gives
    RuleType(Flag, Path),
    // the path of an object
    ObjectPath,
    // the type from which no chain may lead
    ApartFrom,
    // the type to which no chain may lead from the other
    ApartTo(Typ),
    // the line's end
    LineEnd,
}
