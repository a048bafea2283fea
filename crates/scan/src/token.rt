//! Tokens. A word is lent from the text.
ghost use Rattle.std.specs.Prelude.{◌≡◌, ◌-◌, ◌^◌, ◌<◌, ◌≤◌, length, take, drop};
ghost use Rattle.scan.specs.Tokens.{piece, behind};
ghost use Rattle.scan.specs.Tokens.Piece.{at};
ghost use Rattle.scan.specs.Tokens.Said.{word, sign};

// What is no word.
#[derive(Clone, Copy, PartialEq, Eq, Debug)]
pub enum Mark {
    Open,
    Close,
    // the end of a line
    End,
    // the end of the text
    Last,
    Stray,
}

#[derive(Clone, Copy)]
pub enum Token<'a> {
    Word(&'a [u8]),
    Sign(Mark),
}

// A token and the place where it begins, a byte offset from 0.
#[derive(Clone, Copy)]
pub struct Placed<'a> {
    pub place: usize,
    pub token: Token<'a>,
}

impl<'a> Placed<'a> {
    // The bytes from `start` on that stand before `end`, as a word.
    pub(crate) fn word(text: &'a [u8], start: usize, end: usize) -> Placed<'a>
        requires ordered { start ≤ end }
        requires within { end ≤ length text.now }
        ensures { piece result ≡ at start (word (take (end - start) (drop start text.now))) }
    {
        Placed {
            place: start,
            token: Token::Word(&text[start..end]),
        }
    }

    pub(crate) fn sign(place: usize, mark: Mark) -> Placed<'a>
        ensures { piece result ≡ at place (sign mark) }
    {
        Placed {
            place,
            token: Token::Sign(mark),
        }
    }

    // The place behind the token. The text's end takes no byte.
    pub(crate) fn end(&self) -> usize
        requires { behind (piece self.now) < 2 ^ 64 }
        ensures { result ≡ behind (piece self.now) }
    {
        match self.token {
            Token::Word(bytes) => self.place + bytes.len(),
            Token::Sign(Mark::Last) => self.place,
            Token::Sign(_) => self.place + 1,
        }
    }
}
