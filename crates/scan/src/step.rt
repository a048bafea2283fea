//! What the next byte does to a scanner.
ghost use Rattle.std.specs.Prelude.{◌≡◌, ◌+◌, ◌<◌, length, drop, slice_index};
ghost use Rattle.scan.specs.Bytes.{class_of, class_at};
ghost use Rattle.scan.specs.Steps.{step_of};

use crate::token::Mark;

// What a byte is outside a comment.
#[derive(Clone, Copy)]
pub enum Class {
    Space,
    Feed,
    Hash,
    // a backslash directly before a line feed
    Join,
    Open,
    Close,
    // a byte of a word
    Plain,
    Stray,
}

// Where a scanner is.
#[derive(Clone, Copy)]
pub enum Mode {
    Blank,
    Word,
    Comment,
    // behind a backslash that stands before a line feed
    Continued,
}

#[derive(Clone, Copy)]
pub enum Step {
    // the byte is no token's first, and the next is read in this mode
    Pass(Mode),
    // a word begins
    Begin,
    // the word ended before this byte
    Cut,
    // the byte is a token by itself
    Give(Mark),
}

// `joins` says whether a line feed comes directly behind the byte.
fn class_of(b: u8, joins: bool) -> Class
    ensures { result ≡ class_of b joins }
{
    match b {
        b' ' | b'\t' => Class::Space,
        b'\n' => Class::Feed,
        b'#' => Class::Hash,
        b'\\' => { if joins { Class::Join } else { Class::Stray } }
        b'(' => Class::Open,
        b')' => Class::Close,
        0x21..=0x7e => Class::Plain,
        _ => Class::Stray,
    }
}

// The class of the byte at the place, by that byte and the one behind it.
pub(crate) fn class_at(text: &[u8], place: usize) -> Class
    requires { place < length text.now }
    ensures { result ≡ class_at (slice_index text.now place) (drop (place + 1) text.now) }
{
    class_of(text[place], text.get(place + 1) == Some(&b'\n'))
}

// What a byte of this class does in this mode.
pub(crate) fn decide(mode: Mode, class: Class) -> Step
    ensures { result ≡ step_of mode class }
{
    match (mode, class) {
        (Mode::Comment, Class::Feed) => Step::Give(Mark::End),
        (Mode::Comment, _) => Step::Pass(Mode::Comment),
        (Mode::Continued, _) => Step::Pass(Mode::Blank),
        (Mode::Word, Class::Plain) => Step::Pass(Mode::Word),
        (Mode::Word, _) => Step::Cut,
        (Mode::Blank, Class::Space) => Step::Pass(Mode::Blank),
        (Mode::Blank, Class::Feed) => Step::Give(Mark::End),
        (Mode::Blank, Class::Hash) => Step::Pass(Mode::Comment),
        (Mode::Blank, Class::Join) => Step::Pass(Mode::Continued),
        (Mode::Blank, Class::Open) => Step::Give(Mark::Open),
        (Mode::Blank, Class::Close) => Step::Give(Mark::Close),
        (Mode::Blank, Class::Plain) => Step::Begin,
        (Mode::Blank, Class::Stray) => Step::Give(Mark::Stray),
    }
}
