//! What the definition of the tokens comes to. Each function states another theorem, so they have nothing in common to share.
ghost use Rattle.std.specs.Prelude.{◌≡◌, true};
ghost use Rattle.scan.specs.Kept.{NothingIsLost, NothingHiddenIsSeen};
ghost use Rattle.scan.specs.Lineation.{LinesAreReadOneByOne, TextsJoinByALineFeed};
ghost use Rattle.scan.specs.Marks.{MarksStandForBytes};
ghost use Rattle.scan.specs.Order.{TokensAreInOrder};
ghost use Rattle.scan.specs.Runs.{WordsAreLongestRuns};

// Every word stands in the text at its place, and is as long as it can be.
pub fn words_are_longest_runs() -> bool
    ensures runs { WordsAreLongestRuns }
    ensures answer { result ≡ true }
{
    true
}

// Every mark stands for the byte at its place, or for the text's end.
pub fn marks_stand_for_bytes() -> bool
    ensures marks { MarksStandForBytes }
    ensures answer { result ≡ true }
{
    true
}

// All that no comment and no continuation hides is in the tokens, and nothing that they hide.
pub fn nothing_is_lost() -> bool
    ensures kept { NothingIsLost }
    ensures seen { NothingHiddenIsSeen }
    ensures answer { result ≡ true }
{
    true
}

// Places rise from token to token, and the text's end comes once, at the end.
pub fn tokens_are_in_order() -> bool
    ensures order { TokensAreInOrder }
    ensures answer { result ≡ true }
{
    true
}

// Behind a line feed scanning begins anew, and what comes before it is read without a look beyond it.
pub fn lines_are_read_one_by_one() -> bool
    ensures lines { LinesAreReadOneByOne }
    ensures joined { TextsJoinByALineFeed }
    ensures answer { result ≡ true }
{
    true
}
