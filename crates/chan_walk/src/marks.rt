//! The ways in which a CCW is entered, kept as a bit for each.

ghost use Rattle.std.specs.Prelude.{◌≡◌, ◌++◌, IfOk, OnOk, OnErr};
ghost use Rattle.chan_walk.specs.Marks as marked;
ghost use Rattle.chan_walk.specs.Marks.{ways};
ghost use Rattle.chan_walk.specs.Look.{places_of_looks};
ghost use Rattle.chan_walk.specs.Walk.{Marks, MarksAgree};

use crate::look::Look;
use crate::place::{Entry, Place};
use crate::walk_error::WalkError;
use std::alloc::Global;
use std::collections::BTreeMap;

/// In how many ways a CCW can be entered.
const WAYS: u32 = 8;

/// The place at an address that is entered in a way.
fn place_at(address: u32, way: u32) -> Place
    ensures { result ≡ marked.place_at address way }
{
    let entered = match way / 2 {
        0 => Entry::Fresh,
        1 => Entry::ChainIn,
        2 => Entry::ChainOut,
        _ => Entry::ChainSearch,
    };
    Place {
        address,
        entered,
        after_transfer: way % 2 == 1,
    }
}

/// Writes out the places at one address, in order.
pub(crate) fn push_ways(places: &mut Vec<Place>, address: u32, bits: u8) -> Result<(), WalkError>
    ensures ok { OnOk result (places.new.items ≡ places.old.items ++ ways address bits 0 8) }
    ensures memory { OnErr result (result ≡ Err WalkError.Memory) }
{
    for way in 0..WAYS {
        if (bits >> way) & 1 == 1 {
            places.push(place_at(address, way))?;
        }
    }
    Ok(())
}

/// The marks of an address.
pub(crate) fn bits_at(marks: &BTreeMap<u32, u8>, address: u32) -> u8
    ensures { result ≡ marked.marks_of marks.now address }
{
    match marks.get(&address) {
        Some(bits) => *bits,
        None => 0,
    }
}

/// Marks a place, where these are the marks of its address.
pub(crate) fn mark(marks: &mut BTreeMap<u32, u8>, place: Place, bits: u8) -> Result<(), WalkError>
    requires { bits ≡ marked.marks_of marks.old place.address }
    ensures ok { OnOk result (Marks marks.old marks.new place) }
    ensures memory { OnErr result (result ≡ Err WalkError.Memory) }
{
    marks.insert(place.address, bits | (1 << place.way()))?;
    Ok(())
}

/// The places that were looked at, as marks.
pub(crate) fn marks_of_looks(alloc: Global, looks: &[Look]) -> Result<BTreeMap<u32, u8>, WalkError>
    ensures ok { IfOk result (λ m. MarksAgree m (places_of_looks looks.now)) }
    ensures memory { OnErr result (result ≡ Err WalkError.Memory) }
{
    let mut marks = BTreeMap::new(alloc);
    for look in looks {
        let place = look.place();
        let bits = bits_at(&marks, place.address);
        mark(&mut marks, place, bits)?;
    }
    Ok(marks)
}
