//! Reads a text token by token, in place.
ghost use Rattle.std.specs.Prelude.{◌≡◌, ◌^◌, ◌<◌, ◌≤◌, false, length};
ghost use Rattle.scan.specs.Tokens.{piece, is_last, behind, Gives};
ghost use Rattle.scan.specs.Lex.{tokens_of, tokens_from, tokens};

use crate::step::{Mode, Step, class_at, decide};
use crate::token::{Mark, Placed};

#[derive(Drop)]
pub struct Scanner<'a> {
    text: &'a [u8],
    place: usize,
}

impl<'a> Scanner<'a> {
    pub fn new(text: &'a [u8]) -> Scanner<'a>
        ensures { tokens result ≡ tokens_of text.now }
    {
        Scanner { text, place: 0 }
    }

    // The first token at or behind the scanner's place.
    fn first(&self) -> Placed<'a>
        ensures gives { Gives (tokens self.now) (piece result) (tokens_from self.now.text.now (behind (piece result))) }
        ensures fits { behind (piece result) < 2 ^ 64 }
    {
        let text = self.text;
        let mut mode = Mode::Blank;
        // The definition of the tokens has modes with no place, so a word's start stands beside the mode.
        let mut start = self.place;
        for place in self.place..text.len() {
            match decide(mode, class_at(text, place)) {
                Step::Pass(next) => mode = next,
                Step::Begin => {
                    mode = Mode::Word;
                    start = place;
                }
                Step::Cut => return Placed::word(text, start, place),
                Step::Give(mark) => return Placed::sign(place, mark),
            }
        }
        match mode {
            Mode::Word => Placed::word(text, start, text.len()),
            _ => Placed::sign(self.place.max(text.len()), Mark::Last),
        }
    }

    // The next token. At the text's end it is `Last`, as often as it is asked for: tokens never run out, so this is no iterator.
    pub fn next(&mut self) -> Placed<'a>
        ensures gives { Gives (tokens self.old) (piece result) (tokens self.new) }
        ensures fewer { length (tokens self.new) ≤ length (tokens self.old) }
        ensures less { is_last (piece result) ≡ false → length (tokens self.new) < length (tokens self.old) }
    {
        let placed = self.first();
        self.place = placed.end();
        placed
    }
}
