//! What a line of a deck says, read and written.

ghost use Rattle.std.specs.Prelude.{◌≡◌, ◌<◌, ℕ, List, [], length, ◌∷◌, ◌++◌, OnOk};
ghost use Rattle.std.specs.Prelude.{MatchBool, MatchOption};
ghost use Rattle.std.specs.Int.{w64, to_be_bytes};
ghost use Rattle.chan_deck.specs.Item.{HasDecimals, IsArea, LineReads, LineSays};
ghost use Rattle.chan_deck.specs.Item.{device, header, limit, mask, put, said_by, spelled, start};
ghost use Rattle.chan_deck.specs.Item as item;
ghost use Rattle.chan_deck.specs.declared.version.VersionNumber.{VersionNumber};

use crate::deck_digits::{
    address_digits, area_digits, byte_digits, cylinder_digits, limit_digits, size_digits,
    word_digits,
};
use crate::numbers::{address_of, byte_of, cylinder_of, places_of, read_fields, size_of};
use crate::version::VersionNumber;
use byteorder::{BigEndian, ByteOrder};
use ccw_core::Area;
use ckd_core::Device;
use std::alloc::AllocError;

/// The length of a line that puts a doubleword, as nearly all lines of a long deck do.
pub(crate) const PUT_LINE: usize = 27;

/// The length of a line that lends an area.
pub(crate) const AREA_LINE: usize = 19;

/// The length of a line of an extent.
pub(crate) const EXTENT_LINE: usize = 14;

/// What a line of a deck says.
#[derive(Clone, Copy)]
pub(crate) enum Item {
    Header(VersionNumber),
    Device(Device),
    /// The byte of the mask, whether or not it is a file mask.
    Mask(u8),
    /// The address of the first CCW.
    Start(u32),
    /// The number of places.
    Limit(u32),
    /// First and last cylinder.
    Extent(u16, u16),
    Fetch(Area),
    Store(Area),
    /// The number of bytes of storage.
    Storage(u32),
    /// An address, and eight bytes as a number.
    Put(u32, u64),
    End,
    /// The line has none of the forms.
    Formless,
    /// No whole line is left.
    Missing,
}

/// What follows a word at the front of a line.
fn behind<'a>(line: &'a [u8], word: &[u8]) -> Option<&'a [u8]>
    ensures { MatchOption result
        ((rest : List ℕ) → line.now ≡ word.now ++ rest → ⊥)
        (λ rest. line.now ≡ word.now ++ rest.now) }
{
    line.strip_prefix(word)
}

/// Whether the line is this word.
fn is_word(line: &[u8], word: &[u8]) -> bool
    ensures { MatchBool result (line.now ≡ word.now) (line.now ≡ word.now → ⊥) }
{
    line == word
}

/// The field of the given width between a word and a mark, and what follows the mark.
#[inline(always)]
pub(crate) fn field<'a>(
    text: &'a [u8],
    word: &[u8],
    width: usize,
    mark: &[u8],
) -> Option<(&'a [u8], &'a [u8])>
    ensures { MatchOption result
        ((first rest : List ℕ) → length first ≡ width
        → text.now ≡ word.now ++ (first ++ (mark.now ++ rest)) → ⊥)
        (λ found. (length found.0.now ≡ width)
        × (text.now ≡ word.now ++ (found.0.now ++ (mark.now ++ found.1.now)))) }
{
    let fields = behind(text, word)?;
    if fields.len() < width {
        return None;
    }
    let (first, rest) = fields.split_at(width);
    let rest = behind(rest, mark)?;
    Some((first, rest))
}

/// The version that a header names.
pub(crate) fn header_of(line: &[u8]) -> Option<VersionNumber>
    ensures { MatchOption result
        ((h : VersionNumber) → LineSays line.now (header h) → ⊥)
        (λ h. LineSays line.now (header h)) }
{
    if is_word(line, b"chanv deck 1") {
        Some(VersionNumber::One)
    } else if is_word(line, b"chanv deck 2") {
        Some(VersionNumber::Two)
    } else {
        None
    }
}

fn device_of(line: &[u8]) -> Option<Device>
    ensures { MatchOption result
        ((d : Device) → LineSays line.now (device d) → ⊥)
        (λ d. LineSays line.now (device d)) }
{
    if is_word(line, b"device 2311") {
        Some(Device::D2311)
    } else if is_word(line, b"device 2314") {
        Some(Device::D2314)
    } else {
        None
    }
}

fn mask_of(line: &[u8]) -> Option<u8>
    ensures { MatchOption result
        ((n : ℕ) → LineSays line.now (mask n) → ⊥)
        (λ n. LineSays line.now (mask n)) }
{
    let digits = behind(line, b"mask ")?;
    byte_of(digits)
}

fn start_of(line: &[u8]) -> Option<u32>
    ensures { MatchOption result
        ((n : ℕ) → LineSays line.now (start n) → ⊥)
        (λ n. LineSays line.now (start n)) }
{
    let digits = behind(line, b"start ")?;
    address_of(digits)
}

/// The number of places.
fn limit_of(line: &[u8]) -> Option<u32>
    ensures { MatchOption result
        ((n : ℕ) → LineSays line.now (limit n) → ⊥)
        (λ n. LineSays line.now (limit n)) }
{
    let digits = behind(line, b"limit ")?;
    places_of(digits)
}

/// First and last cylinder.
fn extent_of(line: &[u8]) -> Option<(u16, u16)>
    ensures { MatchOption result
        ((first last : ℕ) → LineSays line.now (item.extent first last) → ⊥)
        (λ pair. LineSays line.now (item.extent pair.0 pair.1)) }
{
    if line.len() != EXTENT_LINE {
        return None;
    }
    let (first, last) = field(line, b"extent ", 3, b" ")?;
    let first = cylinder_of(first)?;
    let last = cylinder_of(last)?;
    Some((first, last))
}

/// The area behind a word.
#[inline(always)]
fn area_of(line: &[u8], word: &[u8]) -> Option<Area>
    ensures { MatchOption result
        ((a : Area) → IsArea a → line.now ≡ word.now ++ item.area_digits a → ⊥)
        (λ a. IsArea a × (line.now ≡ word.now ++ item.area_digits a)) }
{
    let (start, len) = field(line, word, 6, b" ")?;
    let bytes = read_fields::<12, 6>(start, len)?;
    Some(Area {
        start: BigEndian::read_u24(&bytes),
        len: BigEndian::read_u24(&bytes[3..]),
    })
}

/// The number of bytes of storage.
pub(crate) fn storage_of(line: &[u8]) -> Option<u32>
    ensures { MatchOption result
        ((n : ℕ) → LineSays line.now (item.storage n) → ⊥)
        (λ n. LineSays line.now (item.storage n)) }
{
    let digits = behind(line, b"storage ")?;
    size_of(digits)
}

/// The address of a put, and its eight bytes as a number.
#[inline(always)]
pub(crate) fn put_of(line: &[u8]) -> Option<(u32, u64)>
    ensures { MatchOption result
        ((a : ℕ) (word : List ℕ) → LineSays line.now (put a word) → ⊥)
        (λ found. LineSays line.now (put found.0 (to_be_bytes w64 found.1))) }
{
    if line.len() != PUT_LINE {
        return None;
    }
    let (address, word) = field(line, b"put ", 6, b" ")?;
    let bytes = read_fields::<22, 11>(address, word)?;
    Some((
        BigEndian::read_u24(&bytes),
        BigEndian::read_u64(&bytes[3..]),
    ))
}

/// What a line says, if it isn't a put.
fn other_item(line: &[u8]) -> Item
    requires { (a : ℕ) (word : List ℕ) → LineSays line.now (put a word) → ⊥ }
    ensures { LineReads line.now result }
{
    if let Some((first, last)) = extent_of(line) {
        return Item::Extent(first, last);
    }
    if let Some(area) = area_of(line, b"fetch ") {
        return Item::Fetch(area);
    }
    if let Some(area) = area_of(line, b"store ") {
        return Item::Store(area);
    }
    if let Some(number) = header_of(line) {
        return Item::Header(number);
    }
    if let Some(device) = device_of(line) {
        return Item::Device(device);
    }
    if let Some(mask) = mask_of(line) {
        return Item::Mask(mask);
    }
    if let Some(start) = start_of(line) {
        return Item::Start(start);
    }
    if let Some(places) = limit_of(line) {
        return Item::Limit(places);
    }
    if let Some(size) = storage_of(line) {
        return Item::Storage(size);
    }
    if is_word(line, b"end") {
        return Item::End;
    }
    Item::Formless
}

impl Item {
    /// What a line says. Inline, so that a loop over puts takes them apart at once.
    #[inline(always)]
    pub(crate) fn read(line: &[u8]) -> Item
        ensures { LineReads line.now result }
    {
        match put_of(line) {
            Some((address, word)) => Item::Put(address, word),
            None => other_item(line),
        }
    }

    /// Appends the line that says this. What says nothing makes an empty line.
    pub(crate) fn push(self, out: &mut Vec<u8>) -> Result<(), AllocError>
        requires { HasDecimals self }
        ensures { OnOk result (out.new.items
            ≡ out.old.items ++ (spelled (said_by self) ++ 10 ∷ [])) }
    {
        self.spell(out)?;
        out.extend_from_slice(b"\n")
    }

    /// Appends the line without its line feed.
    fn spell(self, out: &mut Vec<u8>) -> Result<(), AllocError>
        requires { HasDecimals self }
        ensures { OnOk result (out.new.items ≡ out.old.items ++ spelled (said_by self)) }
    {
        match self {
            Item::Header(VersionNumber::One) => out.extend_from_slice(b"chanv deck 1"),
            Item::Header(VersionNumber::Two) => out.extend_from_slice(b"chanv deck 2"),
            Item::Device(Device::D2311) => out.extend_from_slice(b"device 2311"),
            Item::Device(Device::D2314) => out.extend_from_slice(b"device 2314"),
            Item::Mask(mask) => {
                out.extend_from_slice(b"mask ")?;
                out.extend_from_slice(&byte_digits(mask))
            }
            Item::Start(address) => {
                out.extend_from_slice(b"start ")?;
                out.extend_from_slice(&address_digits(address))
            }
            Item::Limit(places) => {
                out.extend_from_slice(b"limit ")?;
                out.extend_from_slice(&limit_digits(places))
            }
            Item::Extent(first, last) => {
                out.extend_from_slice(b"extent ")?;
                out.extend_from_slice(&cylinder_digits(first))?;
                out.extend_from_slice(b" ")?;
                out.extend_from_slice(&cylinder_digits(last))
            }
            Item::Fetch(area) => {
                out.extend_from_slice(b"fetch ")?;
                out.extend_from_slice(&area_digits(area))
            }
            Item::Store(area) => {
                out.extend_from_slice(b"store ")?;
                out.extend_from_slice(&area_digits(area))
            }
            Item::Storage(size) => {
                out.extend_from_slice(b"storage ")?;
                out.extend_from_slice(&size_digits(size))
            }
            Item::Put(address, word) => {
                out.extend_from_slice(b"put ")?;
                out.extend_from_slice(&address_digits(address))?;
                out.extend_from_slice(b" ")?;
                out.extend_from_slice(&word_digits(word))
            }
            Item::End => out.extend_from_slice(b"end"),
            Item::Formless | Item::Missing => Ok(()),
        }
    }
}
