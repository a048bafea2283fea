//! Line numbers, as an editor counts them.
ghost use Rattle.std.specs.Prelude.{◌≡◌, ◌≤◌, length};
ghost use Rattle.scan.specs.Lines.{feeds_in, line_of};

// How many line feeds there are. As a chain with `filter` and `count` the loop is not vectorized, and takes more than twice the time.
fn count_feeds(bytes: &[u8]) -> usize
    ensures count { result ≡ feeds_in bytes.now }
    ensures few { result ≤ length bytes.now }
{
    let mut count = 0;
    for b in bytes {
        if *b == b'\n' {
            count += 1;
        }
    }
    count
}

// The number of the line that the place is on, from 1. A line feed counts wherever it stands.
pub fn line_of(text: &[u8], place: usize) -> usize
    ensures { result ≡ line_of text.now place }
{
    1 + count_feeds(&text[0..place.min(text.len())])
}
