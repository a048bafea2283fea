ghost use Rattle.std.specs.Prelude.{◌≡◌, ℕ, ◌*◌, ◌<◌, ◌≤◌, false, List, ◌++◌, length, take, IfOk, Some, string_bytes, OnOk};
ghost use Rattle.std.specs.Option.{option_map};
ghost use Rattle.std.specs.Fmt.{digit_glyph};
ghost use Rattle.std.specs.Str.{IsAscii};
ghost use Rattle.store.specs.Answers.{laid};
ghost use Rattle.store_report.specs.Listing.{pairs, hex, line, listing};

use std::alloc::{AllocError, Global};
use std::fmt;
use std::fmt::Write;
use store::{LONGEST, Store};

// The most digits that a place's bytes are printed by.
const MOST_DIGITS: usize = 2 * LONGEST;

fn hex_digit(value: u8) -> u8
    requires { value < 16 }
    ensures { result ≡ digit_glyph false value }
{
    if value < 10 {
        b'0' + value
    } else {
        b'a' + (value - 10)
    }
}

// Lays the digits of the bytes, two for each, at the front.
fn lay_pairs(digits: &mut [u8], bytes: &[u8])
    requires room { 2 * length bytes.now ≤ length digits.old }
    ensures pairs { take (2 * length bytes.now) digits.new ≡ pairs bytes.now }
    ensures ascii { IsAscii (pairs bytes.now) }
{
    for (at, byte) in bytes.iter().enumerate() {
        digits[2 * at] = hex_digit(*byte / 16);
        digits[2 * at + 1] = hex_digit(*byte % 16);
    }
}

// What a place holds: two lower-case hexadecimal digits a byte, and `-` for no bytes.
#[derive(Drop)]
struct Hex<'a> {
    bytes: &'a [u8],
    ghost short: { length bytes.now ≤ 64 },
}

impl<'a> fmt::Display for Hex<'a> {
    ghost output = { λ h. Some (hex h.bytes.now) };

    fn fmt<W: fmt::Write>(&self, f: &mut fmt::Formatter<W>) -> fmt::Result {
        if self.bytes.is_empty() {
            return f.write_str("-");
        }
        // A write costs more than a digit, so there is one for all of them.
        let mut digits = [0u8; MOST_DIGITS];
        lay_pairs(&mut digits, self.bytes);
        f.write_str(std::str::from_utf8(&digits[..2 * self.bytes.len()]).unwrap())
    }
}

// The length of what the place holds, whose bytes are then the buffer's first.
fn read<S: Store>(store: &S, place: usize, buffer: &mut [u8]) -> Option<usize>
    requires in_range { place < S.places store.now }
    requires room { 64 ≤ length buffer.old }
    ensures length { result ≡ option_map length (S.contents store.now place) }
    ensures buffer { buffer.new ≡ laid (S.contents store.now place) buffer.old }
{
    store.get(place, buffer).unwrap()
}

// Appends the line of the place, whose bytes go through the buffer.
fn push_line<S: Store>(
    text: &mut String,
    store: &S,
    place: usize,
    buffer: &mut [u8],
) -> Result<(), AllocError>
    requires in_range { place < S.places store.now }
    requires room { 64 ≤ length buffer.old }
    ensures { OnOk result (string_bytes text.new ≡ string_bytes text.old ++ line place (S.contents store.now place)) }
{
    match read(store, place, buffer) {
        None => writeln!(text, "place {place} absent"),
        Some(len) => writeln!(
            text,
            "place {place} present {}",
            Hex {
                bytes: &buffer[..len]
            }
        ),
    }
}

/// A line for each place: `place N absent`, or `place N present HEX` with the bytes as pairs of lower-case hexadecimal digits, `-` for none.
pub fn list<S: Store>(heap: Global, store: &S) -> Result<String, AllocError>
    ensures { IfOk result (λ text. string_bytes text ≡ listing (S.contents store.now) (S.places store.now)) }
{
    let mut text = String::new(heap);
    let mut block = [0u8; LONGEST];
    // Each line may fail for memory, and the first that does ends the listing.
    for place in 0..store.place_count() {
        push_line(&mut text, store, place, &mut block)?;
    }
    Ok(text)
}
