//! A deck from its parts.

ghost use Rattle.std.specs.Prelude.{◌≡◌, ◌+◌, ◌*◌, ◌/◌, ◌≤◌, ◌^◌, ◌++◌, length, IfOk, OnOk};
ghost use Rattle.std.specs.List.{AllByRecursion};
ghost use Rattle.chan_deck.specs.DeckValue.{Spells};
ghost use Rattle.chan_deck.specs.Item.{IsByte};
ghost use Rattle.chan_deck.specs.PartsValue.{HasShortAddresses, value_of_parts, storage_with};
ghost use Rattle.chan_deck.specs.PartsValue.{version_with, zeros};
ghost use Rattle.ccw_core.specs.declared.ccw.TheConstants.{STORAGE_LIMIT};

use crate::placed_bytes::write_at;
use crate::version::Version;
use crate::writing::{Preamble, text_of};
use ccw_core::Area;
use chan_walk::Limit;
use ckd_core::{Device, Extents, FileMask};
use std::alloc::{AllocError, Global};

/// The parts of a deck: an image of storage that begins at an address, and the job.
#[derive(Clone, Copy)]
pub struct Parts<'a> {
    /// How many places may be reachable, at most. With a limit the deck is of version 2, without
    /// one of version 1.
    pub limit: Option<Limit>,
    /// The device that the program runs against.
    pub device: Device,
    /// The file mask that the supervisor set.
    pub mask: FileMask,
    /// The address of the first CCW, at most `FFFFFF`.
    pub start: u32,
    /// The cylinders of the file.
    pub extents: &'a Extents,
    /// The areas lent for fetching. Start and length of each are at most `FFFFFF`.
    pub fetch: &'a [Area],
    /// The areas lent for storing. Start and length of each are at most `FFFFFF`.
    pub store: &'a [Area],
    /// The address at which the image begins, whether or not it is a multiple of 8.
    pub at: u32,
    /// The bytes of storage from there on. Storage is zero before them, and after them up to a
    /// multiple of 8, at which it ends.
    pub image: &'a [u8],
}

/// Storage in which an image begins at an address. It is zero before the image, and after it up to
/// a multiple of 8, at which it ends.
pub fn place_image(alloc: Global, at: usize, image: &[u8]) -> Result<Vec<u8>, AllocError>
    requires { at + length image.now ≤ STORAGE_LIMIT }
    ensures bytes { IfOk result (λ storage. storage.items ≡ storage_with at image.now) }
    ensures size { IfOk result (λ storage. length storage.items ≤ STORAGE_LIMIT) }
{
    let len = (at + image.len()).next_multiple_of(8);
    let mut storage = vec![in alloc; 0u8; len]?;
    write_at(storage.as_mut_slice(), at, image);
    Ok(storage)
}

/// The doublewords in which an image lies that begins at an address, zero where it has no byte.
fn doublewords(alloc: Global, at: usize, image: &[u8]) -> Result<Vec<u8>, AllocError>
    requires { at + length image.now ≤ STORAGE_LIMIT }
    ensures bytes { IfOk result (λ bytes. zeros (8 * (at / 8)) ++ bytes.items
        ≡ storage_with at image.now) }
    ensures size { IfOk result (λ bytes. 8 * (at / 8) + length bytes.items ≤ STORAGE_LIMIT) }
    ensures image { OnOk result (AllByRecursion IsByte image.now) }
{
    place_image(alloc, at % 8, image)
}

/// The version of a deck that says this limit, or none.
fn version_of(limit: Option<Limit>) -> Version
    ensures { result ≡ version_with limit }
{
    match limit {
        Some(limit) => Version::Two(limit),
        None => Version::One,
    }
}

/// The one text of the deck that the parts make. The image ends within 16,777,216 bytes of storage,
/// and six digits are enough for the start and for each area. An error means that an allocation
/// failed.
///
/// The cost is one pass over the image, whatever its address, and the memory is that of the image
/// and of the text.
pub fn parts_text(alloc: Global, parts: &Parts<'_>) -> Result<Vec<u8>, AllocError>
    requires size { parts.now.at + length parts.now.image.now ≤ STORAGE_LIMIT }
    requires addresses { HasShortAddresses parts.now }
    ensures { IfOk result (λ text. Spells text.items (value_of_parts parts.now)) }
{
    let preamble = Preamble {
        version: version_of(parts.limit),
        device: parts.device,
        mask: parts.mask,
        start: parts.start,
        extents: parts.extents,
        fetch: parts.fetch,
        store: parts.store,
    };
    let bytes = doublewords(alloc, parts.at as usize, parts.image)?;
    text_of(alloc, &preamble, 8 * (parts.at / 8), &bytes)
}
