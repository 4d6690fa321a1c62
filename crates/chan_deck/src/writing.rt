//! Writing a deck.

ghost use Rattle.std.specs.Prelude.{◌≡◌, ◌+◌, ◌/◌, ◌%◌, ◌≤◌, ◌^◌, true, [], ◌∷◌, ◌++◌, length, map};
ghost use Rattle.std.specs.Prelude.{replicate, if◌then◌else◌, IfOk, OnOk};
ghost use Rattle.std.specs.Int.{w64, to_be_bytes};
ghost use Rattle.std.specs.List.{AllByRecursion};
ghost use Rattle.ckd_core.specs.Extents.{AreExtents, IsExtent};
ghost use Rattle.ckd_core.specs.Mask.{is_mask};
ghost use Rattle.chan_deck.specs.Item.{IsByte, device, header, line, mask, put, start, text};
ghost use Rattle.chan_deck.specs.Item as item;
ghost use Rattle.chan_deck.specs.DeckValue.{HasLimit, Spells, extent_of, header_of, limit_line};
ghost use Rattle.chan_deck.specs.DeckValue.{is_zero as zeros, puts, spelling};
ghost use Rattle.chan_deck.specs.PreambleValue.{value_of_preamble};
ghost use Rattle.ccw_core.specs.declared.ccw.TheConstants.{STORAGE_LIMIT};

use crate::deck::Deck;
use crate::item::Item;
use crate::version::Version;
use byteorder::{BigEndian, ByteOrder};
use ccw_core::Area;
use ckd_core::{Device, Extents, FileMask};
use std::alloc::{AllocError, Global};

/// What a deck says before its storage.
#[derive(Clone, Copy)]
pub(crate) struct Preamble<'a> {
    pub(crate) version: Version,
    pub(crate) device: Device,
    pub(crate) mask: FileMask,
    pub(crate) start: u32,
    pub(crate) extents: &'a Extents,
    pub(crate) fetch: &'a [Area],
    pub(crate) store: &'a [Area],
}

/// A line for each extent.
pub(crate) fn write_extents(out: &mut Vec<u8>, extents: &[(u16, u16)]) -> Result<(), AllocError>
    requires { AllByRecursion IsExtent extents.now }
    ensures { OnOk result (out.new.items
        ≡ out.old.items ++ text (map line (map extent_of extents.now))) }
{
    for pair in extents {
        let (first, last) = *pair;
        Item::Extent(first, last).push(out)?;
    }
    Ok(())
}

/// A line for each area lent for fetching.
pub(crate) fn write_fetch(out: &mut Vec<u8>, areas: &[Area]) -> Result<(), AllocError>
    ensures { OnOk result (out.new.items
        ≡ out.old.items ++ text (map line (map item.fetch areas.now))) }
{
    for area in areas {
        Item::Fetch(*area).push(out)?;
    }
    Ok(())
}

/// A line for each area lent for storing.
pub(crate) fn write_store(out: &mut Vec<u8>, areas: &[Area]) -> Result<(), AllocError>
    ensures { OnOk result (out.new.items
        ≡ out.old.items ++ text (map line (map item.store areas.now))) }
{
    for area in areas {
        Item::Store(*area).push(out)?;
    }
    Ok(())
}

/// The number that a doubleword is.
fn doubleword_number(word: &[u8]) -> u64
    requires { length word.now ≡ 8 }
    ensures { to_be_bytes w64 result ≡ word.now }
{
    BigEndian::read_u64(word)
}

/// A put for a doubleword, if it isn't zero.
fn write_word(out: &mut Vec<u8>, address: u32, word: &[u8]) -> Result<(), AllocError>
    requires { length word.now ≡ 8 }
    ensures { OnOk result (out.new.items ≡ out.old.items
        ++ (if zeros word.now then [] else line (put address word.now) ++ 10 ∷ [])) }
{
    let number = doubleword_number(word);
    if number == 0 {
        return Ok(());
    }
    Item::Put(address, number).push(out)
}

/// A put for each doubleword that isn't zero, of bytes that stand at an address.
fn write_puts(out: &mut Vec<u8>, at: u32, bytes: &[u8]) -> Result<(), AllocError>
    requires { at + length bytes.now ≤ STORAGE_LIMIT }
    ensures { OnOk result (out.new.items
        ≡ out.old.items ++ text (map line (puts (length bytes.now / 8) at bytes.now))) }
{
    let mut address = at;
    let mut rest = bytes;
    while rest.len() >= 8 {
        let (word, after) = rest.split_at(8);
        write_word(out, address, word)?;
        address += 8;
        rest = after;
    }
    Ok(())
}

/// The line of the limit, in a version that has one.
fn write_limit(out: &mut Vec<u8>, version: Version) -> Result<(), AllocError>
    ensures text { OnOk result (out.new.items
        ≡ out.old.items ++ text (map line (limit_line version))) }
    ensures limit { OnOk result (HasLimit version) }
{
    let Version::Two(limit) = version else {
        return Ok(());
    };
    Item::Limit(limit.get()).push(out)
}

/// The lines before the lists.
fn write_heading(out: &mut Vec<u8>, preamble: &Preamble<'_>) -> Result<(), AllocError>
    ensures text { OnOk result (out.new.items
        ≡ out.old.items ++ text (map line (header (header_of preamble.now.version)
        ∷ device preamble.now.device ∷ mask preamble.now.mask ∷ start preamble.now.start
        ∷ limit_line preamble.now.version))) }
    ensures limit { OnOk result (HasLimit preamble.now.version) }
    ensures mask { OnOk result (IsByte preamble.now.mask × (is_mask preamble.now.mask ≡ true)) }
{
    Item::Header(preamble.version.header()).push(out)?;
    Item::Device(preamble.device).push(out)?;
    Item::Mask(preamble.mask.byte()).push(out)?;
    Item::Start(preamble.start).push(out)?;
    write_limit(out, preamble.version)
}

/// The line of storage, which is zero up to an address and has some bytes from there on, and the
/// puts.
fn write_storage(out: &mut Vec<u8>, at: u32, bytes: &[u8]) -> Result<(), AllocError>
    requires { at + length bytes.now ≤ STORAGE_LIMIT }
    ensures { OnOk result (out.new.items
        ≡ out.old.items ++ text (map line (item.storage (at + length bytes.now)
        ∷ puts (length bytes.now / 8) at bytes.now))) }
{
    Item::Storage(at + bytes.len() as u32).push(out)?;
    write_puts(out, at, bytes)
}

/// The text of the deck that says this before its storage, which is zero up to an address and has
/// some bytes from there on.
pub(crate) fn text_of(
    alloc: Global,
    preamble: &Preamble<'_>,
    at: u32,
    bytes: &[u8],
) -> Result<Vec<u8>, AllocError>
    requires whole { at % 8 ≡ 0 }
    requires size { at + length bytes.now ≤ STORAGE_LIMIT }
    ensures text { IfOk result (λ text. text.items
        ≡ spelling (value_of_preamble preamble.now (replicate at 0 ++ bytes.now))) }
    ensures limit { OnOk result (HasLimit preamble.now.version) }
    ensures mask { OnOk result (IsByte preamble.now.mask × (is_mask preamble.now.mask ≡ true)) }
    ensures extents { OnOk result (AreExtents preamble.now.extents.now) }
{
    let mut out = Vec::new(alloc);
    write_heading(&mut out, preamble)?;
    write_extents(&mut out, preamble.extents.pairs())?;
    write_fetch(&mut out, preamble.fetch)?;
    write_store(&mut out, preamble.store)?;
    write_storage(&mut out, at, bytes)?;
    Item::End.push(&mut out)?;
    Ok(out)
}

/// The text that spells the deck, which `read_deck` reads back as an equal deck. An error means
/// that an allocation failed.
pub fn write_deck(alloc: Global, deck: &Deck) -> Result<Vec<u8>, AllocError>
    ensures { IfOk result (λ text. Spells text.items deck.now) }
{
    let preamble = Preamble {
        version: deck.version,
        device: deck.device,
        mask: deck.mask,
        start: deck.start,
        extents: &deck.extents,
        fetch: &deck.fetch,
        store: &deck.store,
    };
    text_of(alloc, &preamble, 0, &deck.storage)
}
