//! The guard: which bytes of storage a program may not change while it runs.

ghost use Rattle.std.specs.Prelude.{◌≡◌, ℕ, ◌<◌, ◌↔◌, ◌^◌, ◌++◌, [], ◌∷◌, map, IfOk, OnOk, IsTrue};
ghost use Rattle.ccw_core.specs.Areas.{end_of};
ghost use Rattle.std.specs.Prelude.{slice_index};
ghost use Rattle.std.specs.List.{All};
ghost use Rattle.chan_walk.specs.Places.{AreReachable};
ghost use Rattle.chan_walk.specs.Guard.{AddsBytes, GuardAreas, Guards, IsArgumentByteOf};
ghost use Rattle.chan_walk.specs.Guard.{IsCcwByteOf, byte_area};
ghost use Rattle.ccw_core.specs.declared.ccw.TheConstants.{STORAGE_LIMIT};
ghost use Rattle.chan_walk.specs.Places.{AreReached};
ghost use Rattle.chan_walk.specs.Look.{AreLooks, IsLook, places_of_looks};
ghost use Rattle.chan_areas.specs.Merged.{EndsBelow, HaveSameBytes, IsMerged, Meets};
ghost use Rattle.chan_walk.specs.declared.job.Job.{Job};

use crate::job::Job;
use crate::lent::{Lending, Lent};
use crate::look::{Look, look_by};
use crate::places::Explored;
use ccw_core::Area;
use chan_areas::{Areas, Merged, add_area};
use std::alloc::{AllocError, Global};
use std::marker::Model;

/// The guarded bytes of a job: those of the reachable CCWs, those of the arguments of the reachable
/// seeks that have no own fault, and those that such a Set File Mask takes.
#[derive(Drop)]
pub struct Guard {
    ccws: Merged,
    arguments: Merged,
}

impl Model for Guard {
    ghost Value = { GuardAreas };

    ghost view = { λ g. record { ccws = g.ccws; arguments = g.arguments } };
}

impl Guard {
    /// The guard of a job whose reachable places are these. Each of them is looked at once. The
    /// cost is that of sorting an area for each place, at most six for each seek, one for each Set
    /// File Mask, and the areas lent.
    pub fn new(alloc: Global, job: &Job, explored: &Explored) -> Result<Guard, AllocError>
        requires { AreReachable job.now explored.now }
        ensures { IfOk result (Guards job.now) }
    {
        let lent = Lent::new(alloc, job)?;
        let mut looks = Vec::new(alloc);
        for place in explored.places() {
            looks.push(look_by(job, Lending::Merged(&lent), place))?;
        }
        Guard::of(alloc, looks.as_slice())
    }

    /// The guard of a job whose reachable places are those that were looked at.
    pub(crate) fn of(alloc: Global, looks: &[Look]) -> Result<Guard, AllocError>
        requires { (j : Job) × AreLooks j looks.now }
        ensures { IfOk result (λ g. (j : Job) → AreLooks j looks.now
            → AreReached j (places_of_looks looks.now) → Guards j g) }
    {
        let mut ccws = Areas::new(alloc);
        let mut arguments = Areas::new(alloc);
        for look in looks {
            add_ccw(&mut ccws, look)?;
            add_argument(&mut arguments, look)?;
        }
        let ccws = Merged::new(ccws);
        let arguments = Merged::new(arguments);
        Ok(Guard { ccws, arguments })
    }

    /// The guarded bytes of CCWs.
    pub fn ccws(&self) -> &Merged
        ensures { result.now ≡ self.now.ccws }
    {
        &self.ccws
    }

    /// The guarded bytes of arguments.
    pub fn arguments(&self) -> &Merged
        ensures { result.now ≡ self.now.arguments }
    {
        &self.arguments
    }

    /// The guarded bytes of CCWs: the one list of areas, none empty, in order of start, and with at
    /// least one byte between two, that has exactly these bytes.
    pub fn ccw_ranges(&self) -> &[Area]
        ensures ranges { result.now ≡ self.now.ccws }
        ensures merged { IsMerged result.now }
        ensures low { All (EndsBelow (2 ^ 32)) result.now }
    {
        self.ccws.as_slice()
    }

    /// The guarded bytes of arguments, as such a list too.
    pub fn argument_ranges(&self) -> &[Area]
        ensures ranges { result.now ≡ self.now.arguments }
        ensures merged { IsMerged result.now }
        ensures low { All (EndsBelow (2 ^ 32)) result.now }
    {
        self.arguments.as_slice()
    }

    /// Whether a range has a guarded byte of a CCW; an empty range has none. The cost is that of a
    /// binary search.
    pub fn meets_ccw(&self, start: u32, len: u32) -> bool
        ensures { IsTrue result ↔ Meets self.now.ccws start len }
    {
        self.ccws.meets(start, len)
    }

    /// Whether a range has a guarded byte of an argument; an empty range has none. The cost is that
    /// of a binary search.
    pub fn meets_argument(&self, start: u32, len: u32) -> bool
        ensures { IsTrue result ↔ Meets self.now.arguments start len }
    {
        self.arguments.meets(start, len)
    }
}

/// Adds the bytes of the CCW at a place, where one stands there.
pub(crate) fn add_ccw(areas: &mut Areas, look: &Look) -> Result<(), AllocError>
    requires low { All (EndsBelow (2 ^ 32)) areas.old.items }
    requires look { (j : Job) × IsLook j look.now }
    ensures low { OnOk result (All (EndsBelow (2 ^ 32)) areas.new.items) }
    ensures bytes { OnOk result ((j : Job) → IsLook j look.now
        → AddsBytes areas.old.items areas.new.items (IsCcwByteOf j look.now.place)) }
{
    if look.ccw().is_some() {
        let start = look.place().address;
        add_area(areas, Area { start, len: 8 })?;
    }
    Ok(())
}

/// Adds the guarded bytes of the argument that is taken at a place.
pub(crate) fn add_argument(areas: &mut Areas, look: &Look) -> Result<(), AllocError>
    requires low { All (EndsBelow (2 ^ 32)) areas.old.items }
    requires look { (j : Job) × IsLook j look.now }
    ensures low { OnOk result (All (EndsBelow (2 ^ 32)) areas.new.items) }
    ensures bytes { OnOk result ((j : Job) → IsLook j look.now
        → AddsBytes areas.old.items areas.new.items (IsArgumentByteOf j look.now.place)) }
{
    add_bytes(areas, look.argument())
}

/// Adds the bytes at these addresses.
fn add_bytes(areas: &mut Areas, addresses: &[u32]) -> Result<(), AllocError>
    requires low { All (EndsBelow (2 ^ 32)) areas.old.items }
    requires addresses { (i : ℕ) → slice_index addresses.now i < STORAGE_LIMIT }
    ensures low { OnOk result (All (EndsBelow (2 ^ 32)) areas.new.items) }
    ensures bytes { OnOk result
        (HaveSameBytes areas.new.items (areas.old.items ++ map byte_area addresses.now)) }
{
    let Some(first) = addresses.first() else {
        return Ok(());
    };
    let mut run = Area {
        start: *first,
        len: 0,
    };
    for address in addresses {
        run = add_byte(areas, run, *address)?;
    }
    add_area(areas, run)
}

/// Adds the byte at an address to the run before it, which goes on with it, or is added itself.
fn add_byte(areas: &mut Areas, run: Area, start: u32) -> Result<Area, AllocError>
    requires low { All (EndsBelow (2 ^ 32)) areas.old.items }
    requires run { end_of run < 2 ^ 32 }
    requires start { start < STORAGE_LIMIT }
    ensures low { OnOk result (All (EndsBelow (2 ^ 32)) areas.new.items) }
    ensures run { IfOk result (λ r. end_of r < 2 ^ 32) }
    ensures bytes { IfOk result (λ r. HaveSameBytes (areas.new.items ++ r ∷ [])
        ((areas.old.items ++ run ∷ []) ++ byte_area start ∷ [])) }
{
    if start == run.start + run.len {
        return Ok(Area {
            start: run.start,
            len: run.len + 1,
        });
    }
    add_area(areas, run)?;
    Ok(Area { start, len: 1 })
}
