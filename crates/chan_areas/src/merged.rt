//! Areas merged into one list, in which a byte or a range is found by binary search.

ghost use Rattle.std.specs.Prelude.{◌≡◌, ◌<◌, ◌≤◌, ◌+◌, ◌++◌, ◌∷◌, ◌^◌, ◌↔◌, List, [], false};
ghost use Rattle.std.specs.Prelude.{true, IfOk, IsTrue, OnOk};
ghost use Rattle.std.specs.List.{All};
ghost use Rattle.ccw_core.specs.Areas as areas;
ghost use Rattle.ccw_core.specs.Areas.{IsGap, lies_in};
ghost use Rattle.ccw_core.specs.declared.areas.Area.{Area};
ghost use Rattle.chan_areas.specs.Merged.{AreExactly, EndsBelow, HaveSameBytes, IsByteIn};
ghost use Rattle.chan_areas.specs.Merged.{IsByteOf, IsJoined, IsLeastOrNone, IsMerged};
ghost use Rattle.chan_areas.specs.Merged.{AreInOrder, LeavesRun, IsNextArea, Meets, MergedIsUnique};

use crate::clip::clip;
use ccw_core::Area;
use smallvec::SmallVec;
use std::alloc::{AllocError, Global};
use std::marker::Model;

/// Areas in a list, few of which take no memory.
pub type Areas = SmallVec<Area, 4>;

/// The address after an area's last byte.
pub fn end_of(area: &Area) -> u64
    ensures { result ≡ areas.end_of area.now }
{
    u64::from(area.start) + u64::from(area.len)
}

/// Areas as one list: no area is empty, they are in order of start, at least one byte lies between
/// two areas, and each ends below 2^32.
#[derive(Drop)]
pub struct Merged {
    areas: Areas,
}

impl Model for Merged {
    ghost Value = { List Area };

    ghost view = { λ m. m.areas.items };

    ghost invariant = { λ m. IsMerged m.areas.items × All (EndsBelow (2 ^ 32)) m.areas.items };
}

impl Merged {
    /// The only merged list with the bytes of these areas. Each area has to end below 2^32.
    ///
    /// It costs a sort, and no memory.
    pub fn new(areas: Areas) -> Merged
        requires { All (EndsBelow (2 ^ 32)) areas.items }
        ensures { AreExactly (λ b. lies_in areas.items b ≡ true) result }
    {
        let mut areas = areas;
        areas.as_mut_slice().sort_unstable_by_key(|area| area.start);
        areas.dedup_by(
            |area: &mut Area, run: &mut Area| -> bool
                ensures { (area.exit.now ≡ area.entry.now)
                    × LeavesRun run.entry.now area.entry.now result run.exit.now }
            {
                match join(*run, *area) {
                    Some(joined) => {
                        *run = joined;
                        true
                    }
                    None => false,
                }
            },
        );
        if let Some(run) = areas.as_slice().first() {
            if run.len == 0 {
                areas.clear();
            }
        }
        Merged { areas }
    }

    /// The only merged list with the bytes of these areas that lie in storage of this length. It
    /// costs a sort.
    #[tactic(auto, using(std::proofs::lemmas::List::map_more))]
    pub fn clipped(alloc: Global, areas: &[Area], length: u32) -> Result<Merged, AllocError>
        ensures { IfOk result (AreExactly (λ b. (b < length) × (lies_in areas.now b ≡ true))) }
    {
        let mut parts = Areas::new(alloc);
        for area in areas {
            parts.push(clip(*area, length))?;
        }
        Ok(Merged::new(parts))
    }

    /// The list.
    pub fn as_slice(&self) -> &[Area]
        ensures areas { result.now ≡ self.now }
        ensures merged { IsMerged result.now }
        ensures low { All (EndsBelow (2 ^ 32)) result.now }
    {
        &self.areas
    }

    /// The list, by value. It takes memory if the list is short.
    pub fn into_areas(self) -> Result<Vec<Area>, AllocError>
        ensures areas { IfOk result (λ v. v.items ≡ self) }
        ensures merged { IfOk result (λ v. IsMerged v.items) }
    {
        Ok(self.areas.into_vec()?)
    }

    /// The first area that ends above an address, by binary search.
    fn next_area(&self, address: u32) -> Option<Area>
        ensures { IsNextArea self.now address result }
    {
        let areas = self.as_slice();
        let at = areas.partition_point(|area| end_of(area) <= u64::from(address));
        areas.get(at).copied()
    }

    /// Whether a byte of a range lies in some area. It costs a binary search.
    #[tactic(auto, using(crate::proofs::Searching::meets_next))]
    pub fn meets(&self, start: u32, len: u32) -> bool
        ensures { IsTrue result ↔ Meets self.now start len }
    {
        if len == 0 {
            return false;
        }
        let end = u64::from(start) + u64::from(len);
        match self.next_area(start) {
            Some(area) => u64::from(area.start) < end,
            None => false,
        }
    }

    /// The first byte of a range that lies in some area. It costs a binary search.
    #[tactic(auto, using(crate::proofs::Gaps::first_of_next, crate::proofs::Gaps::none_from_next))]
    pub fn first_in(&self, start: u32, len: u32) -> Option<u32>
        ensures { IsLeastOrNone (IsByteIn self.now start len) result }
    {
        let end = u64::from(start) + u64::from(len);
        let area = self.next_area(start)?;
        let first = area.start.max(start);
        if u64::from(first) < end {
            Some(first)
        } else {
            None
        }
    }

    /// The first byte of a range that lies in no area. It costs a binary search.
    pub fn first_outside(&self, range: Area) -> Option<u32>
        ensures { IsLeastOrNone (λ b. IsByteOf range b × (lies_in self.now b ≡ false)) result }
    {
        let first = match self.next_area(range.start) {
            Some(area) if area.start <= range.start => area.start + area.len,
            _ => range.start,
        };
        if u64::from(first) < end_of(&range) {
            Some(first)
        } else {
            None
        }
    }

    /// The first run of bytes of a range that lies in no area, if there is a run. It costs a binary
    /// search, and a second if there is a run.
    pub fn gap(&self, range: Area) -> Option<Area>
        requires { EndsBelow (2 ^ 32) range }
        ensures { IsGap self.now range result }
    {
        let start = self.first_outside(range)?;
        let end = range.start + range.len;
        let end = match self.next_area(start) {
            Some(area) => area.start.min(end),
            None => end,
        };
        Some(Area {
            start,
            len: end - start,
        })
    }
}

/// Adds an area to a list that is to be merged. If it doesn't begin before the last area, and no
/// byte lies between the two, that one grows instead: so a list in order stays short. Inline,
/// because mostly it does nothing else.
#[inline(always)]
pub fn add_area(areas: &mut Areas, area: Area) -> Result<(), AllocError>
    requires low { All (EndsBelow (2 ^ 32)) areas.old.items }
    requires fits { EndsBelow (2 ^ 32) area }
    ensures low { OnOk result (All (EndsBelow (2 ^ 32)) areas.new.items) }
    ensures bytes { OnOk result (HaveSameBytes areas.new.items (areas.old.items ++ area ∷ [])) }
{
    if let Some(last) = areas.as_mut_slice().last_mut() {
        if last.start <= area.start {
            if let Some(run) = join(*last, area) {
                *last = run;
                return Ok(());
            }
        }
    }
    areas.push(area)?;
    Ok(())
}

/// The run that a run and the next area are together; `None` if a byte lies between them. It says
/// nothing of areas that are out of order or end too high.
fn join(run: Area, area: Area) -> Option<Area>
    ensures { AreInOrder run area → IsJoined run area result }
{
    if area.len == 0 {
        return Some(run);
    }
    if run.len == 0 {
        return Some(area);
    }
    if end_of(&run) < u64::from(area.start) {
        return None;
    }
    let ahead = area.start.saturating_sub(run.start);
    Some(Area {
        start: run.start,
        len: run.len.max(ahead.saturating_add(area.len)),
    })
}

/// A law: two merged lists with equal bytes are equal.
#[tactic(auto, using(crate::proofs::Merging::merged_is_unique))]
fn merged_is_unique()
    ensures { MergedIsUnique }
{}
