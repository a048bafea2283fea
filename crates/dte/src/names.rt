// Words for what the tables know by number, and numbers for words.
use label::name::Name;
use label::numbers::{Dom, Obj};
use label::refusal::Refusal;
use label::rights::Rights;
use std::fmt;
use tables::holding::Passage;
use tables::table::Tables;

// When a passage is taken, for people.
pub(crate) fn manner(how: Passage) -> &'static str {
    match how {
        Passage::Auto => "always",
        Passage::Exec => "if it wishes so",
    }
}

// The name of the type or the domain with this number; a dash for what has none.
#[derive(Clone, Copy)]
pub(crate) struct Named<'a>(pub(crate) &'a [Name], pub(crate) u8);

impl fmt::Display for Named<'_> {
    fn fmt<W: fmt::Write>(&self, f: &mut fmt::Formatter<W>) -> fmt::Result {
        match self.0.get(self.1 as usize) {
            Some(name) => fmt::Display::fmt(name, f),
            None => f.pad("-"),
        }
    }
}

// The number that the word is, where a table has more rows than that.
fn number_below(count: u8, word: &str) -> Option<u8> {
    word.parse::<u8>().ok().filter(|&number| number < count)
}

// The domain with this name or number.
pub(crate) fn domain_of(tables: &Tables, word: &str) -> Result<Dom, Refusal> {
    tables
        .domain_named(word.as_bytes())
        .or_else(|| number_below(tables.domain_count(), word).map(Dom))
        .ok_or(Refusal::NoDomain)
}

// The object with this path or number.
pub(crate) fn object_of(tables: &Tables, word: &str) -> Result<Obj, Refusal> {
    tables
        .object_at(word.as_bytes())
        .or_else(|| number_below(tables.object_count(), word).map(Obj))
        .ok_or(Refusal::NoObject)
}

// The letter that the word is.
pub(crate) fn letter_of(word: &str) -> Result<char, Refusal> {
    let mut letters = word.chars();
    match (letters.next(), letters.next()) {
        (Some(letter), None) if Rights::of(letter).is_some() => Ok(letter),
        _ => Err(Refusal::NoLetter),
    }
}
