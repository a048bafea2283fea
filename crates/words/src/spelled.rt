//! Things that are written as a word, and the reading of that word.
ghost use Rattle.std.specs.Prelude.{◌≡◌, List, ℕ};
ghost use Rattle.words.specs.Spelled.{spelled_so, ReadAsSpelled, EachReadBack};

// Each of the things has a spelling of its own.
pub trait Spelled: Copy + 'static {
    ghost spelling: { Self → List ℕ };

    // All the things there are.
    ghost every: { List Self };

    fn text(self) -> &'static str
        ensures { result.now ≡ spelling self };

    fn every() -> &'static [Self]
        ensures { result.now ≡ every };

    // The first of them with a thing's spelling is the thing itself.
    ghost own: { EachReadBack spelling every };
}

// The thing whose spelling the word is, if there is one.
pub fn read<W: Spelled>(word: &[u8]) -> Option<W>
    ensures { result ≡ spelled_so W.spelling W.every word.now }
{
    W::every()
        .iter()
        .copied()
        .find(|w| word == w.text().as_bytes())
}

// A word is read as a thing exactly where it is spelled as one.
pub fn words_are_spellings<W: Spelled>() -> bool
    ensures { ReadAsSpelled W.spelling (spelled_so W.spelling W.every) }
{
    true
}
