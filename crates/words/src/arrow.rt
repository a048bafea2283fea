//! Words with an arrow in them.
ghost use Rattle.std.specs.Prelude.{◌≡◌, ◌+◌, ◌<◌, length, IfSome};
ghost use Rattle.std.specs.Option.{option_map};
ghost use Rattle.words.specs.Arrows.{first_arrow, split_arrow, SplitAtTheFirst};

// The place of the first arrow.
fn find_arrow(word: &[u8]) -> Option<usize>
    ensures place { result ≡ first_arrow word.now }
    ensures within { IfSome result (λ i. i + 1 < length word.now) }
{
    word.array_windows().position(|pair| pair == b"->")
}

// What stands before the word's first arrow, and what stands after it.
#[tactic(auto, unfolding(crate::specs::Arrows::split_arrow))]
pub fn split_arrow(word: &[u8]) -> Option<(&[u8], &[u8])>
    ensures { option_map (λ parts. (parts.0.now, parts.1.now)) result ≡ split_arrow word.now }
{
    find_arrow(word).map(|i| (&word[..i], &word[i + 2..]))
}

// A word is split at its first arrow, and not at all where it has none.
pub fn words_split_at_the_first_arrow() -> bool
    ensures { SplitAtTheFirst }
{
    true
}
