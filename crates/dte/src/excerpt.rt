// A place in a module text, and what stands there.
use std::alloc::{AllocError, Global};

#[derive(Clone, Copy)]
pub(crate) struct Spot<'a> {
    pub(crate) text: &'a [u8],
    pub(crate) place: usize,
}

// Whether a statement ends with the last of these bytes: a backslash before a line feed carries it on.
fn ends_statement(text: &[u8]) -> bool {
    match text {
        [.., b'\\', b'\n'] => false,
        [.., b'\n'] => true,
        _ => false,
    }
}

// A byte as it is shown, in one column.
fn shown(byte: u8) -> char {
    match byte {
        b' '..=b'~' => byte as char,
        b'\t' => ' ',
        _ => '?',
    }
}

impl Spot<'_> {
    fn begin_of_line(self) -> usize {
        self.text
            .iter()
            .take(self.place)
            .rposition(|&byte| byte == b'\n')
            .map_or(0, |i| i.saturating_add(1))
    }

    fn begin_of_statement(self) -> usize {
        (1..=self.place)
            .rev()
            .find(|&n| self.text.get(..n).is_some_and(ends_statement))
            .unwrap_or(0)
    }

    // The line that the place is on.
    pub(crate) fn line(self, heap: Global) -> Result<String, AllocError> {
        self.text
            .iter()
            .skip(self.begin_of_line())
            .take_while(|&&byte| byte != b'\n')
            .map(|&byte| shown(byte))
            .collect(heap)
    }

    // The column of the place on its line, from 1.
    pub(crate) fn column(self) -> usize {
        self.place
            .saturating_sub(self.begin_of_line())
            .saturating_add(1)
    }

    // The first word of the statement that the place is in.
    pub(crate) fn first_word(self, heap: Global) -> Result<Vec<u8>, AllocError> {
        self.text
            .iter()
            .copied()
            .skip(self.begin_of_statement())
            .skip_while(|byte| matches!(*byte, b' ' | b'\t'))
            .take_while(|byte| matches!(*byte, b'a'..=b'z' | b'_'))
            .collect(heap)
    }
}
