//! Offences: the reachable places that offend, with their reasons.

ghost use Rattle.std.specs.Prelude.{◌≡◌, ◌↔◌, map, IfOk, IsTrue, OnOk};
ghost use Rattle.std.specs.List.Sorted.{IsStrictlyIncreasing};
ghost use Rattle.chan_walk.specs.Argument.{Has};
ghost use Rattle.chan_walk.specs.Places.{AreDistinct, AreReached};
ghost use Rattle.chan_walk.specs.Guard.{Guards};
ghost use Rattle.chan_walk.specs.Offence.{HasOwnFault, AddsOffences, AreAllOffences, AreOffences};
ghost use Rattle.chan_walk.specs.Look.{AreLooks, IsLook, places_of_looks};
ghost use Rattle.chan_walk.specs.Offence as listed;
ghost use Rattle.chan_walk.specs.Offence.{HasOffences, StoresInto};
ghost use Rattle.chan_walk.specs.Verdict.{AreClear, ChangesGuarded};
ghost use Rattle.chan_walk.specs.declared.job.Job.{Job};
ghost use Rattle.chan_walk.specs.declared.offence.Offence as declared;

use crate::direction::Direction;
use crate::guard::Guard;
use crate::look::Look;
use crate::place::Place;
use crate::reason::Reason;
use chan_areas::Merged;
use std::alloc::{AllocError, Global};

/// A reachable place that offends, and a reason by which it does.
#[derive(Clone, Copy)]
pub struct Offence {
    /// The place.
    pub place: Place,
    /// Why it offends.
    pub reason: Reason,
}

impl Offence {
    /// The number by which offences are in order: by address, then by the reason's number, then by
    /// the way in which the place is entered.
    pub(crate) fn number(&self) -> u64
        ensures { result ≡ listed.offence_number self.now }
    {
        let address = u64::from(self.place.address);
        let reason = u64::from(self.reason.number());
        (address * 32 + reason) * 8 + u64::from(self.place.way())
    }
}

/// The offences, in order, of a job with this guard whose reachable places are those that were
/// looked at.
pub(crate) fn offences_of(
    alloc: Global,
    guard: &Guard,
    looks: &[Look],
) -> Result<Vec<Offence>, AllocError>
    requires looks { (j : Job) × AreLooks j looks.now × AreReached j (places_of_looks looks.now)
        × Guards j guard.now }
    requires distinct { AreDistinct (places_of_looks looks.now) }
    ensures { IfOk result (λ v. (j : Job) → AreLooks j looks.now
        → AreReached j (places_of_looks looks.now) → Guards j guard.now → AreOffences j v.items) }
{
    let offences = unordered(alloc, guard, looks)?;
    Ok(in_order(offences))
}

/// The same offences, not in order yet.
fn unordered(alloc: Global, guard: &Guard, looks: &[Look]) -> Result<Vec<Offence>, AllocError>
    requires { AreDistinct (places_of_looks looks.now) }
    ensures { IfOk result (λ v. (j : Job) → AreLooks j looks.now
        → AreReached j (places_of_looks looks.now) → Guards j guard.now
        → AreAllOffences j v.items) }
{
    let faults = faults_of(alloc, looks)?;
    if !faults.is_empty() {
        return Ok(faults);
    }
    changes_of(alloc, guard, looks)
}

/// The own faults of the places that were looked at.
#[tactic(auto, using(crate::proofs::Algorithms::Listing::offences_none))]
fn faults_of(alloc: Global, looks: &[Look]) -> Result<Vec<Offence>, AllocError>
    requires { AreDistinct (places_of_looks looks.now) }
    ensures { IfOk result (λ v. (j : Job) → AreLooks j looks.now
        → HasOffences (HasOwnFault j) (places_of_looks looks.now) v.items) }
{
    let mut faults = Vec::new(alloc);
    for look in looks {
        add_fault(&mut faults, look)?;
    }
    Ok(faults)
}

/// Adds the own fault of a place, if it has one.
fn add_fault(faults: &mut Vec<Offence>, look: &Look) -> Result<(), AllocError>
    ensures { OnOk result ((j : Job) → IsLook j look.now
        → AddsOffences (HasOwnFault j) look.now.place faults.old.items faults.new.items) }
{
    if let Some(evidence) = look.fault() {
        faults.push(Offence {
            place: look.place(),
            reason: evidence.reason(),
        })?;
    }
    Ok(())
}

/// What the places that were looked at, none of which has an own fault, change that is guarded.
#[tactic(auto, using(crate::proofs::Algorithms::Listing::offences_none))]
fn changes_of(alloc: Global, guard: &Guard, looks: &[Look]) -> Result<Vec<Offence>, AllocError>
    requires { AreDistinct (places_of_looks looks.now) }
    ensures { IfOk result (λ v. (j : Job) → AreLooks j looks.now
        → AreReached j (places_of_looks looks.now) → Guards j guard.now → AreClear j
        → HasOffences (ChangesGuarded j) (places_of_looks looks.now) v.items) }
{
    let mut changes = Vec::new(alloc);
    for look in looks {
        let ccws = stores_into(guard.ccws(), look);
        add_change(&mut changes, look, Reason::ChangesCcw, ccws)?;
        let arguments = stores_into(guard.arguments(), look);
        add_change(&mut changes, look, Reason::ChangesArgument, arguments)?;
    }
    Ok(changes)
}

/// Adds a change at a place, if there is one.
fn add_change(
    changes: &mut Vec<Offence>,
    look: &Look,
    reason: Reason,
    counts: bool,
) -> Result<(), AllocError>
    ensures { OnOk result (AddsOffences (λ _ t. (t ≡ reason) × IsTrue counts) look.now.place
        changes.old.items changes.new.items) }
{
    if counts {
        changes.push(Offence {
            place: look.place(),
            reason,
        })?;
    }
    Ok(())
}

/// Whether the CCW at a place stores into some area of a merged list.
fn stores_into(areas: &Merged, look: &Look) -> bool
    ensures { IsTrue result ↔ StoresInto look.now areas.now }
{
    match look.ccw() {
        Some(ccw) if look.moves(Direction::Store) => {
            areas.meets(ccw.address(), u32::from(ccw.count()))
        }
        _ => false,
    }
}

/// The same offences, in order.
#[tactic(auto, using(crate::proofs::Algorithms::Sorting::same_elements))]
fn in_order(offences: Vec<Offence>) -> Vec<Offence>
    requires { AreDistinct offences.items }
    ensures ordered { IsStrictlyIncreasing (map listed.offence_number result.items) }
    ensures same { (o : declared.Offence) → Has result.items o ↔ Has offences.items o }
{
    let mut offences = offences;
    offences.sort_unstable_by_key(|offence| offence.number());
    offences
}
