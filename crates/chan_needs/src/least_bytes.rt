//! The least byte or cylinder of lists that is shared, not lent, or in no extent.

ghost use Rattle.std.specs.Prelude.{◌≡◌, ◌+◌, ◌-◌, ◌<◌, ◌↔◌, ◌≤◌, true, false, length, map, IfOk};
ghost use Rattle.std.specs.Prelude.{IsTrue};
ghost use Rattle.std.specs.List.{HoldsAt};
ghost use Rattle.ccw_core.specs.Areas.{lies_in};
ghost use Rattle.ckd_core.specs.Extents.{has_cylinder};
ghost use Rattle.chan_areas.specs.Merged.{EndsBelow, IsByteOf, IsLeastOrNone, IsMerged};
ghost use Rattle.chan_needs.specs.LeastBytes.{LieApart, LieWithin, lesser_of};
ghost use Rattle.chan_needs.specs.Listed.{IsShared, pair};
ghost use Rattle.chan_needs.specs.Row.{besides};

use crate::layout::Extent;
use ccw_core::Area;
use chan_areas::{Merged, end_of};
use ckd_core::Extents;
use std::alloc::{AllocError, Global};

/// Where all bytes of these areas lie: from the first number up to the second.
pub(crate) fn hull(areas: &[Area]) -> (u64, u64)
    ensures { LieWithin areas.now result }
{
    let (mut start, mut end) = (u64::MAX, 0);
    for area in areas {
        start = start.min(u64::from(area.start));
        end = end.max(end_of(area));
    }
    (start, end)
}

/// Whether some area reaches into a range of bytes, or is empty within it.
pub(crate) fn reaches(areas: &[Area], range: (u64, u64)) -> bool
    ensures { result ≡ false → LieApart areas.now range }
{
    for area in areas {
        if u64::from(area.start) < range.1 && range.0 < end_of(area) {
            return true;
        }
    }
    false
}

/// The least byte of an area that also lies in some of these areas.
#[tactic(auto, using(crate::proofs::Leasts::no_byte, crate::proofs::Leasts::least_in_areas))]
pub(crate) fn least_in(areas: &[Area], range: Area) -> Option<u32>
    ensures { IsLeastOrNone (λ b. (lies_in areas.now b ≡ true) × IsByteOf range b) result }
{
    if !reaches(areas, (u64::from(range.start), end_of(&range))) {
        return None;
    }
    let mut least = None;
    for area in areas {
        let byte = overlap(*area, range);
        if byte.is_some() {
            least = lesser(least, byte);
        }
    }
    least
}

/// The least byte that lies in both lists. An empty list costs nothing. Two merged lists cost one
/// pass over each, and the search of `least_of_merged`; other lists cost the product of their
/// lengths.
#[tactic(auto, using(crate::proofs::Leasts::no_byte, crate::proofs::Leasts::least_in_areas))]
pub(crate) fn least_shared(one: &[Area], other: &[Area]) -> Option<u32>
    ensures { IsLeastOrNone (IsShared one.now other.now) result }
{
    if one.is_empty() || other.is_empty() {
        return None;
    }
    if are_merged(one) && are_merged(other) {
        return least_of_merged(one, other);
    }
    let mut least = None;
    for area in one {
        least = lesser(least, least_in(other, *area));
    }
    least
}

/// The least byte that lies in a list, and in an area or in another list.
pub(crate) fn least_shared_by_either(one: &[Area], area: Area, other: &[Area]) -> Option<u32>
    ensures { IsLeastOrNone (IsShared one.now (besides area other.now)) result }
{
    let shared = least_shared(one, other);
    if area.len == 0 {
        return shared;
    }
    lesser(least_in(one, area), shared)
}

/// The least byte of a range that lies in an area or in a list.
pub(crate) fn least_in_either(area: Area, areas: &[Area], range: Area) -> Option<u32>
    ensures { IsLeastOrNone (λ b. (lies_in (besides area areas.now) b ≡ true) × IsByteOf range b)
        result }
{
    let least = least_in(areas, range);
    if area.len == 0 {
        return least;
    }
    lesser(overlap(area, range), least)
}

/// The least byte that lies in both merged lists. The search skips areas that end before the other
/// list goes on: with m areas in the shorter list and n in the longer, it costs m log² n or m + n,
/// whichever is less, and next to nothing if one list ends before the other begins.
#[tactic(auto, using(crate::proofs::Holding::ahead_rules))]
fn least_of_merged(one: &[Area], other: &[Area]) -> Option<u32>
    requires one { IsMerged one.now }
    requires other { IsMerged other.now }
    ensures { IsLeastOrNone (IsShared one.now other.now) result }
{
    let (mut at, mut with) = (0, 0);
    while at < one.len() && with < other.len() {
        let (area, against) = (one[at], other[with]);
        if end_of(&area) <= u64::from(against.start) {
            at = skip_ended(one, at, against.start);
        } else if end_of(&against) <= u64::from(area.start) {
            with = skip_ended(other, with, area.start);
        } else {
            return Some(area.start.max(against.start));
        }
    }
    None
}

/// Skips the area at `from`, which ends by an address, and areas after it, up to another that ends
/// by the address. The answer is the number of the next area, or the length of the list. If the
/// list is merged, all areas that the call skips end by the address.
///
/// The call skips all areas at once if it can, and otherwise takes steps that double.
fn skip_ended(areas: &[Area], from: usize, address: u32) -> usize
    requires from { from < length areas.now }
    requires ends { HoldsAt (EndsBelow (address + 1)) areas.now from }
    ensures after { from < result }
    ensures within { result ≤ length areas.now }
    ensures last { HoldsAt (EndsBelow (address + 1)) areas.now (result - 1) }
{
    if end_of(&areas[areas.len() - 1]) <= u64::from(address) {
        return areas.len();
    }
    let (mut at, mut step) = (from, 1);
    while step < areas.len() - at && end_of(&areas[at + step]) <= u64::from(address) {
        at += step;
        step = at - from + 1;
    }
    at + 1
}

/// The least byte of the areas that lies past storage of this length or in no lent area. It costs a
/// sort of the lent areas, and a binary search for each of the other areas.
#[tactic(auto, using(crate::proofs::Leasts::least_clipped))]
pub(crate) fn least_unlent(
    alloc: Global,
    areas: &[Area],
    lent: &[Area],
    length: u32,
) -> Result<Option<u32>, AllocError>
    ensures { IfOk result (IsLeastOrNone (λ b. (lies_in areas.now b ≡ true)
        × ((b < length) × (lies_in lent.now b ≡ true) → ⊥))) }
{
    let lent = Merged::clipped(alloc, lent, length)?;
    Ok(least_beyond(areas, &lent))
}

/// The least byte of the areas that lies in no area of a merged list.
#[tactic(auto, using(crate::proofs::Leasts::no_byte, crate::proofs::Leasts::least_in_areas))]
fn least_beyond(areas: &[Area], lent: &Merged) -> Option<u32>
    ensures { IsLeastOrNone (λ b. (lies_in areas.now b ≡ true) × (lies_in lent.now b ≡ false))
        result }
{
    let mut least = None;
    for area in areas {
        least = lesser(least, lent.first_outside(*area));
    }
    least
}

/// The least cylinder of the runs that lies in no extent.
#[tactic(auto, using(crate::proofs::Leasts::no_cylinder, crate::proofs::Leasts::least_in_runs))]
pub(crate) fn least_outside(runs: &[Extent], extents: &Extents) -> Option<u16>
    ensures { IsLeastOrNone (λ n. (has_cylinder (map pair runs.now) n ≡ true)
        × (has_cylinder extents.now n ≡ false)) result }
{
    let mut least = None;
    for run in runs {
        least = lesser_cylinder(least, outside(run.first, run.last, extents));
    }
    least
}

/// The lesser of two numbers, if there are two.
fn lesser(one: Option<u32>, other: Option<u32>) -> Option<u32>
    ensures { result ≡ lesser_of one other }
{
    match (one, other) {
        (Some(one), Some(other)) => Some(one.min(other)),
        (Some(one), None) => Some(one),
        (None, other) => other,
    }
}

/// The lesser of two cylinders, if there are two.
fn lesser_cylinder(one: Option<u16>, other: Option<u16>) -> Option<u16>
    ensures { result ≡ lesser_of one other }
{
    match (one, other) {
        (Some(one), Some(other)) => Some(one.min(other)),
        (Some(one), None) => Some(one),
        (None, other) => other,
    }
}

/// The least byte of two areas.
fn overlap(one: Area, other: Area) -> Option<u32>
    ensures { IsLeastOrNone (λ b. IsByteOf one b × IsByteOf other b) result }
{
    let first = one.start.max(other.start);
    if u64::from(first) < end_of(&one).min(end_of(&other)) {
        Some(first)
    } else {
        None
    }
}

/// The least cylinder of a run that lies in no extent. The search stops at the first cylinder past
/// the device.
fn outside(first: u16, last: u16, extents: &Extents) -> Option<u16>
    ensures { IsLeastOrNone (λ n. ((first ≤ n) × (n ≤ last))
        × (has_cylinder extents.now n ≡ false)) result }
{
    for cylinder in first..=last {
        if !extents.has(cylinder) {
            return Some(cylinder);
        }
    }
    None
}

/// Whether a list is merged: no area is empty, areas rise, and at least one byte lies between two.
#[tactic(auto, using(crate::proofs::Leasts::merged_rules))]
fn are_merged(areas: &[Area]) -> bool
    ensures { IsTrue result ↔ IsMerged areas.now }
{
    let mut least_start = 0;
    for area in areas {
        if area.len == 0 || u64::from(area.start) < least_start {
            return false;
        }
        least_start = end_of(area) + 1;
    }
    true
}
