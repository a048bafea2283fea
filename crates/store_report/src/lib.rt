//! What the memory image of a store holds, as text, and changes of an image.
#![tactic(auto)]

ghost use Rattle.std.specs.Prelude.{◌≡◌, IfOk, string_bytes, MatchResult};
ghost use Rattle.store_report.specs.declared.ImageError.TheVariants.{NotAStore as Foreign, Refused, OutOfMemory};
ghost use Rattle.store_report.specs.Names.{ReadsMake};
ghost use Rattle.store_report.specs.Images.{Listed, ListFails, PutDone, PutFails, ClearDone, ClearFails, FreshImage};

use image::Image;
use packed_store::records::Records;
use slot_store::slots::Slots;
use std::alloc::{AllocError, Global};
use std::fmt;
use std::str::FromStr;
use store::memory::MemoryStore;
use store::{NotAStore, Store, StoreRefusal};

mod image;
pub mod listing;

/// The make of store that an image belongs to. Each make of store is a type of its own, so each call chooses between the two.
#[derive(Clone, Copy)]
pub enum Make {
    Slot,
    Packed,
}

/// A text that names no make.
#[derive(Clone, Copy, PartialEq, Eq, Debug)]
pub struct UnknownMake;

impl FromStr for Make {
    type Err = UnknownMake;

    ghost from_str_gives = { ReadsMake };

    fn from_str(text: &str) -> Result<Make, UnknownMake> {
        match text {
            "slot" => Ok(Make::Slot),
            "packed" => Ok(Make::Packed),
            _ => Err(UnknownMake),
        }
    }
}

/// Why an image is not listed or changed.
#[derive(Drop, Debug)]
pub enum ImageError {
    /// The image is no store's of this make.
    NotAStore,
    /// The store refuses the call.
    Refused(StoreRefusal),
    /// There is no memory for the text.
    OutOfMemory,
}

impl From<NotAStore> for ImageError {
    ghost from_gives = { λ _ r. r ≡ Foreign };

    fn from(_refused: NotAStore) -> ImageError {
        ImageError::NotAStore
    }
}

impl From<StoreRefusal> for ImageError {
    ghost from_gives = { λ e r. r ≡ Refused e };

    fn from(refusal: StoreRefusal) -> ImageError {
        ImageError::Refused(refusal)
    }
}

impl From<AllocError> for ImageError {
    ghost from_gives = { λ _ r. r ≡ OutOfMemory };

    fn from(_error: AllocError) -> ImageError {
        ImageError::OutOfMemory
    }
}

fn list_in<L: Image>(heap: Global, image: Vec<u8>) -> Result<String, ImageError>
    ensures { MatchResult result (λ text. Listed L.make image.items (string_bytes text)) (ListFails L.make image.items) }
{
    let store = MemoryStore::<L>::open(image)?;
    Ok(listing::list(heap, &store)?)
}

/// A line for each place of the image.
pub fn list_image(heap: Global, make: Make, image: Vec<u8>) -> Result<String, ImageError>
    ensures { MatchResult result (λ text. Listed make image.items (string_bytes text)) (ListFails make image.items) }
{
    match make {
        Make::Slot => list_in::<Slots>(heap, image),
        Make::Packed => list_in::<Records>(heap, image),
    }
}

fn put_in<L: Image>(image: Vec<u8>, place: usize, bytes: &[u8]) -> Result<Vec<u8>, ImageError>
    ensures { MatchResult result (λ changed. PutDone L.make image.items place bytes.now changed.items) (PutFails L.make image.items place bytes.now) }
{
    let mut store = MemoryStore::<L>::open(image)?;
    store.put(place, bytes)?;
    Ok(store.into_memory())
}

/// The image with these bytes at the place.
pub fn put_in_image(
    make: Make,
    image: Vec<u8>,
    place: usize,
    bytes: &[u8],
) -> Result<Vec<u8>, ImageError>
    ensures { MatchResult result (λ changed. PutDone make image.items place bytes.now changed.items) (PutFails make image.items place bytes.now) }
{
    match make {
        Make::Slot => put_in::<Slots>(image, place, bytes),
        Make::Packed => put_in::<Records>(image, place, bytes),
    }
}

fn clear_in<L: Image>(image: Vec<u8>, place: usize) -> Result<Vec<u8>, ImageError>
    ensures { MatchResult result (λ changed. ClearDone L.make image.items place changed.items) (ClearFails L.make image.items place) }
{
    let mut store = MemoryStore::<L>::open(image)?;
    store.clear(place)?;
    Ok(store.into_memory())
}

/// The image with the place absent.
pub fn clear_in_image(make: Make, image: Vec<u8>, place: usize) -> Result<Vec<u8>, ImageError>
    ensures { MatchResult result (λ changed. ClearDone make image.items place changed.items) (ClearFails make image.items place) }
{
    match make {
        Make::Slot => clear_in::<Slots>(image, place),
        Make::Packed => clear_in::<Records>(image, place),
    }
}

fn fresh_in<L: Image>(heap: Global, places: u8) -> Result<Vec<u8>, AllocError>
    ensures { IfOk result (λ image. FreshImage L.make places image.items) }
{
    let memory = vec![in heap; 0; L::PLACE as usize * places as usize]?;
    Ok(MemoryStore::<L>::fresh(memory).into_memory())
}

/// The image of a fresh store with so many places, of which at most 128 count.
pub fn fresh_image(heap: Global, make: Make, places: u8) -> Result<Vec<u8>, AllocError>
    ensures { IfOk result (λ image. FreshImage make places image.items) }
{
    match make {
        Make::Slot => fresh_in::<Slots>(heap, places),
        Make::Packed => fresh_in::<Records>(heap, places),
    }
}

impl fmt::Display for ImageError {
    fn fmt<W: fmt::Write>(&self, f: &mut fmt::Formatter<W>) -> fmt::Result {
        match self {
            ImageError::NotAStore => write!(f, "the image is not a store's of this make"),
            ImageError::Refused(refusal) => write!(f, "{refusal}"),
            ImageError::OutOfMemory => write!(f, "out of memory"),
        }
    }
}

impl std::error::Error for ImageError {}
