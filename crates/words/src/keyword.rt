//! The words that begin a statement.
ghost use Rattle.std.specs.Prelude.{◌≡◌};
ghost use Rattle.words.specs.Keywords.{keyword_of, keyword_text, keywords, keyword_read_back};
ghost use Rattle.words.specs.Spelled.{ReadAsSpelled};

use crate::spelled::{Spelled, read, words_are_spellings};
use rules::rule::Flag;

// What a statement does.
#[derive(Clone, Copy, PartialEq, Eq, Debug)]
pub enum Keyword {
    // declares types
    Types,
    // declares domains
    Domains,
    // names the domain in which programs start
    DefaultDomain,
    // gives `/` its type, by a rule with this flag
    DefaultType(Flag),
    // says what a domain holds
    SpecDomain,
    // says what a domain holds besides
    WidenDomain,
    // gives a path its type
    Assign,
    // declares an object
    Object,
    // keeps two types apart
    Apart,
}

impl Spelled for Keyword {
    ghost spelling = { keyword_text };

    ghost every = { keywords };

    ghost own = { keyword_read_back };

    fn text(self) -> &'static str {
        match self {
            Keyword::Types => "types",
            Keyword::Domains => "domains",
            Keyword::DefaultDomain => "default_d",
            Keyword::DefaultType(Flag::E) => "default_et",
            Keyword::DefaultType(Flag::U) => "default_ut",
            Keyword::DefaultType(Flag::R) => "default_rt",
            Keyword::SpecDomain => "spec_domain",
            Keyword::WidenDomain => "widen_domain",
            Keyword::Assign => "assign",
            Keyword::Object => "object",
            Keyword::Apart => "apart",
        }
    }

    fn every() -> &'static [Keyword] {
        &[
            Keyword::Types,
            Keyword::Domains,
            Keyword::DefaultDomain,
            Keyword::DefaultType(Flag::E),
            Keyword::DefaultType(Flag::U),
            Keyword::DefaultType(Flag::R),
            Keyword::SpecDomain,
            Keyword::WidenDomain,
            Keyword::Assign,
            Keyword::Object,
            Keyword::Apart,
        ]
    }
}

// The keyword that the word is, if it is one.
#[tactic(auto, unfolding(crate::specs::Keywords::keyword_of))]
pub fn keyword_of(word: &[u8]) -> Option<Keyword>
    ensures { result ≡ keyword_of word.now }
{
    read(word)
}

// A word is a keyword exactly where it is spelled as one.
#[tactic(auto, unfolding(crate::specs::Keywords::keyword_of))]
pub fn keywords_are_their_spellings() -> bool
    ensures { ReadAsSpelled keyword_text keyword_of }
{
    words_are_spellings::<Keyword>()
}
