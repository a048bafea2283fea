//! The ways of taking a passage.
ghost use Rattle.std.specs.Prelude.{◌≡◌};
ghost use Rattle.words.specs.Passages.{passage_of, passage_text, passages, passage_read_back};
ghost use Rattle.words.specs.Spelled.{ReadAsSpelled};

use crate::spelled::{Spelled, read, words_are_spellings};
use tables::holding::Passage;

impl Spelled for Passage {
    ghost spelling = { passage_text };

    ghost every = { passages };

    ghost own = { passage_read_back };

    fn text(self) -> &'static str {
        match self {
            Passage::Auto => "auto",
            Passage::Exec => "exec",
        }
    }

    fn every() -> &'static [Passage] {
        &[Passage::Auto, Passage::Exec]
    }
}

// The way of taking a passage that the bytes name, if they name one.
#[tactic(auto, unfolding(crate::specs::Passages::passage_of))]
pub fn passage_of(bytes: &[u8]) -> Option<Passage>
    ensures { result ≡ passage_of bytes.now }
{
    read(bytes)
}

// Bytes name a way of taking a passage exactly where they spell it.
#[tactic(auto, unfolding(crate::specs::Passages::passage_of))]
pub fn passages_are_their_spellings() -> bool
    ensures { ReadAsSpelled passage_text passage_of }
{
    words_are_spellings::<Passage>()
}
