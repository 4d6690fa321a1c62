//! The kept bytes of a program, and whether others may write while programs run.

ghost use Rattle.std.specs.Prelude.{◌≡◌, ◌+◌, ◌++◌, ◌<◌, ◌≤◌, ◌↔◌, IfOk, IfSome, IsSome, IsTrue};
ghost use Rattle.std.specs.Prelude.{MatchOption, None, drop, length, map, take};
ghost use Rattle.std.specs.List.{All};
ghost use Rattle.ccw_core.specs.Ccw.{byte};
ghost use Rattle.ccw_core.specs.Held.{bytes_held};
ghost use Rattle.chan_needs.specs.Remembered.{HoldsAreas, HoldsArea, IsFirstChanged};
ghost use Rattle.chan_needs.specs.Remembered.{IsFirstChangedIn, IsInside, IsKeeperOf};
ghost use Rattle.chan_needs.specs.Remembered.{IsKeptOutside, SparesOutside, WritesWell, bytes_in};
ghost use Rattle.chan_needs.specs.Remembered.{total_len};
ghost use Rattle.chan_needs.specs.Row.{in_row};
ghost use Rattle.chan_areas.specs.Merged.{IsLeastOrNone, IsMerged};

use crate::layout::{Row, or_empty};
use crate::least_bytes::least_unlent;
use ccw_core::{Area, Storage};
use std::alloc::{AllocError, Global};

/// Whether others, such as the processor, may write to an area now. `None` comes exactly if no row
/// of what is in flight keeps a byte of the area. Otherwise the answer is the number of the first
/// row that keeps one of its bytes, and the least byte that this row keeps there.
///
/// The call takes one pass over the kept areas, and no memory.
pub fn check_write(in_flight: &[Row], area: Area) -> Option<(usize, u32)>
    ensures keeper { IsKeeperOf (map in_row in_flight.now) area result }

    // If what is remembered of those in flight is true, the history goes on with what is written.
    ensures well { result ≡ None → WritesWell (map in_row in_flight.now) area }
{
    for i in 0..in_flight.len() {
        if let Some(byte) = in_flight[i].kept_in(area) {
            return Some((i, byte));
        }
    }
    None
}

/// The least byte of what a program keeps that lies outside some areas. `None` comes exactly if
/// each kept byte lies in one of them: then a write that shares no byte with the areas needs no
/// question, as far as this program goes. A kept byte at 2^32 - 1 or above, which is in no storage,
/// always counts as outside.
///
/// The areas may overlap, be empty and come in any order. The call sorts a copy of them, and takes
/// a binary search for each kept area. It takes memory only for the copy. `Err` means that memory
/// ran out.
pub fn kept_outside(alloc: Global, keep: &[Area], areas: &[Area]) -> Result<Option<u32>, AllocError>
    ensures least { IfOk result (IsLeastOrNone (IsKeptOutside keep.now areas.now)) }

    // Then a write that shares no byte with the areas meets no kept byte.
    ensures spared { IfOk result (λ o. o ≡ None → SparesOutside keep.now areas.now) }
{
    least_unlent(alloc, keep, or_empty(areas), u32::MAX)
}

/// Copies the bytes of storage in these areas into a buffer, area after area, in the form of
/// `kept`, and answers how many there are. `None` comes exactly if an area reaches past storage or
/// the buffer is too small. Part of the buffer may then be overwritten. The call takes no memory.
#[tactic(auto, using(crate::proofs::Copied::copy_rules))]
pub fn copy_kept(storage: &Storage, areas: &[Area], into: &mut [u8]) -> Option<usize>
    ensures count { IfSome result (λ n. n
        ≡ length (bytes_in (bytes_held storage.now) areas.now)) }
    ensures copied { IfSome result (λ n. into.new
        ≡ bytes_in (bytes_held storage.now) areas.now ++ drop n into.old) }
    ensures some { IsSome result ↔ (All (IsInside (bytes_held storage.now)) areas.now
        × (length (bytes_in (bytes_held storage.now) areas.now) ≤ length into.old)) }

    // Storage then holds the bytes, until a byte changes.
    ensures held { IsSome result → HoldsAreas (bytes_held storage.now) areas.now into.new }
{
    let mut at = 0;
    for area in areas {
        let bytes = storage.range(area.start, area.len)?;
        if into.len() - at < bytes.len() {
            return None;
        }
        write_at(into, at, bytes);
        at += bytes.len();
    }
    Some(at)
}

/// How many bytes merged areas have together. `copy_kept` copies as many.
#[tactic(auto, using(crate::proofs::Inside::none_total, crate::proofs::Inside::all_total))]
pub fn kept_len(areas: &[Area]) -> usize
    requires { IsMerged areas.now }
    ensures { result ≡ total_len areas.now }
{
    let mut len = 0;
    for area in areas {
        let area = *area;
        len += area.len as usize;
    }
    len
}

/// Writes bytes into a buffer.
fn write_at(into: &mut [u8], at: usize, bytes: &[u8])
    requires { at + length bytes.now ≤ length into.old }
    ensures { into.new ≡ (take at into.old ++ bytes.now) ++ drop (at + length bytes.now) into.old }
{
    into[at..at + bytes.len()].copy_from_slice(bytes);
}

/// The first kept byte, in the order of the areas, that has changed.
pub(crate) fn first_changed(storage: &Storage, areas: &[Area], kept: &[u8]) -> Option<u32>
    ensures { MatchOption result (HoldsAreas (bytes_held storage.now) areas.now kept.now)
        (IsFirstChanged (bytes_held storage.now) areas.now kept.now) }
{
    let mut rest = kept;
    for area in areas {
        if let Some(address) = changed_in(storage, *area, rest) {
            return Some(address);
        }
        rest = &rest[area.len as usize..];
    }
    None
}

/// The first byte of an area that has changed.
fn changed_in(storage: &Storage, area: Area, kept: &[u8]) -> Option<u32>
    ensures { MatchOption result (HoldsArea (bytes_held storage.now) area kept.now)
        (IsFirstChangedIn (bytes_held storage.now) area kept.now) }
{
    if is_held(storage, area, kept) {
        return None;
    }
    Some(first_changed_in(storage, area, kept))
}

/// Whether an area holds these bytes, compared all at once. A channel may store meanwhile, so the
/// call looks at no byte twice.
fn is_held(storage: &Storage, area: Area, kept: &[u8]) -> bool
    ensures { IsTrue result ↔ HoldsArea (bytes_held storage.now) area kept.now }
{
    if area.len == 0 {
        return true;
    }
    match (
        storage.range(area.start, area.len),
        kept.get(..area.len as usize),
    ) {
        (Some(now), Some(then)) => now == then,
        _ => false,
    }
}

/// The first byte of an area that has changed, for an area that doesn't hold its bytes. If all
/// bytes were put back meanwhile, it is the area's first byte.
fn first_changed_in(storage: &Storage, area: Area, kept: &[u8]) -> u32
    requires { HoldsArea (bytes_held storage.now) area kept.now → ⊥ }
    ensures { IsFirstChangedIn (bytes_held storage.now) area kept.now result }
{
    for i in 0..area.len {
        let address = area.start + i;
        if !is_same(storage, address, kept, i) {
            return address;
        }
    }
    area.start
}

/// Whether the byte at an address of storage is the kept byte with this number.
fn is_same(storage: &Storage, address: u32, kept: &[u8], number: u32) -> bool
    ensures { IsTrue result ↔ ((address < length (bytes_held storage.now))
        × (number < length kept.now)
        × (byte (bytes_held storage.now) address ≡ byte kept.now number)) }
{
    let number = number as usize;
    address < storage.len() && number < kept.len() && storage.byte_at(address) == kept[number]
}
