// `dte store`: looking into and changing the memory image of a store.
use crate::files::{read_file, write_file};
use anyhow::{Context, anyhow, bail};
use std::alloc::Global;
use store_report::{Make, clear_in_image, fresh_image, list_image, put_in_image};

const USAGE: &str =
    "usage: dte store slot|packed FILE [put PLACE HEX | clear PLACE | fresh PLACES]";

const NO_DIGIT: &str = "HEX has a byte that is no hexadecimal digit";

const ODD: &str = "HEX has an odd number of digits";

// The byte that two hexadecimal digits stand for.
fn byte_of(pair: &[u8]) -> anyhow::Result<u8> {
    let [high, low] = pair else {
        bail!(ODD);
    };
    let high = char::from(*high).to_digit(16).context(NO_DIGIT)?;
    let low = char::from(*low).to_digit(16).context(NO_DIGIT)?;
    Ok(u8::try_from(high * 16 + low)?)
}

// The bytes that pairs of hexadecimal digits stand for; a dash stands for none.
fn unhex(heap: Global, text: &str) -> anyhow::Result<Vec<u8>> {
    if text == "-" {
        return Ok(Vec::new(heap));
    }
    let digits = text.as_bytes();
    if !digits.iter().all(|digit| digit.is_ascii_hexdigit()) {
        bail!(NO_DIGIT);
    }
    if digits.len() % 2 != 0 {
        bail!(ODD);
    }
    digits.chunks_exact(2).map(byte_of).try_collect(heap)
}

// The file that an image lies in, and the make of store that it belongs to.
#[derive(Clone, Copy)]
struct Image<'a> {
    make: Make,
    file: &'a str,
}

impl Image<'_> {
    fn put(self, rt: &HostRuntime, place: &str, hex: &str) -> anyhow::Result<()> {
        let place = place.parse::<usize>()?;
        let bytes = unhex(rt.alloc(), hex)?;
        let image = read_file(rt, self.file)?;
        let image = put_in_image(self.make, image, place, bytes.as_slice())?;
        write_file(rt, self.file, image.as_slice())
    }

    fn clear(self, rt: &HostRuntime, place: &str) -> anyhow::Result<()> {
        let place = place.parse::<usize>()?;
        let image = read_file(rt, self.file)?;
        let image = clear_in_image(self.make, image, place)?;
        write_file(rt, self.file, image.as_slice())
    }

    fn fresh(self, rt: &HostRuntime, places: &str) -> anyhow::Result<()> {
        let places = places.parse::<u8>()?;
        let image = fresh_image(rt.alloc(), self.make, places)?;
        write_file(rt, self.file, image.as_slice())
    }

    fn list(self, rt: &HostRuntime) -> anyhow::Result<()> {
        let image = read_file(rt, self.file)?;
        let text = list_image(rt.alloc(), self.make, image)?;
        print!(rt; "{text}")?;
        Ok(())
    }
}

// The words after `store`.
pub(crate) fn run(rt: &HostRuntime, words: &[String]) -> anyhow::Result<()> {
    let [make, file, rest @ ..] = words else {
        bail!(USAGE);
    };
    let make = make.parse::<Make>().map_err(|_| anyhow!(USAGE))?;
    let image = Image {
        make,
        file: file.as_str(),
    };
    match rest {
        [] => image.list(rt),
        [verb, place, hex] if verb.as_str() == "put" => {
            image.put(rt, place.as_str(), hex.as_str())
        }
        [verb, place] if verb.as_str() == "clear" => image.clear(rt, place.as_str()),
        [verb, places] if verb.as_str() == "fresh" => image.fresh(rt, places.as_str()),
        _ => bail!(USAGE),
    }
}
