//! Whether a program that was asked about may start now, together with the programs in flight.

ghost use Rattle.std.specs.Prelude.{◌≡◌, ◌↔◌, IfOk, MatchOption, map};
ghost use Rattle.std.specs.List.{All};
ghost use Rattle.chan_needs.specs.Start.{IsAnswerOf, IsFit, IsCompatibleWith, GrantsListed};
ghost use Rattle.chan_needs.specs.Start.{HasConflictInFlight};
ghost use Rattle.chan_needs.specs.Start.{IsNotGranted, IsOfAnother, IsOfProgram, StartsWell};
ghost use Rattle.chan_needs.specs.Remembered.{device_number};
ghost use Rattle.chan_needs.specs.Listed.{listed_in};
ghost use Rattle.chan_needs.specs.Row.{in_row};
ghost use Rattle.ckd_core.specs.Mask.{is_at_least};
ghost use Rattle.chan_needs.specs.declared.start.Start.TheVariants as answer;

use crate::conflict::Conflict;
use crate::layout::{NeedLists, Remembered, Row};
use crate::least_bytes::{hull, least_outside, least_unlent};
use crate::remembered::first_changed;
use chan_walk::Job;
use ckd_core::{Device, FileMask};
use std::alloc::{AllocError, Global};

/// Why a program may not start. `check_start` looks for the variants in this order.
#[derive(Clone, Copy, PartialEq, Eq, Debug)]
pub enum StartRefusal {
    /// The job doesn't start at the program's address.
    OtherStart,
    /// The job is for another device.
    OtherDevice,
    /// The job's storage has another length.
    OtherLength,
    /// The kept byte at this address has changed; it is the first in the order of `keep`. A byte
    /// that lies past storage or is missing from `kept` counts as changed.
    Changed(u32),
    /// The job's mask is too strict, or the program's is invalid.
    Mask,
    /// This cylinder lies in no extent of the job. It is the least needed cylinder that doesn't.
    Cylinder(u16),
    /// The byte at this address wasn't lent for fetching, or lies past storage. It is the least
    /// needed byte of this kind.
    Fetch(u32),
    /// The byte at this address wasn't lent for storing, or lies past storage. It is the least
    /// needed byte of this kind.
    Store(u32),
    /// The program may not run beside the row with this number, the first in flight that is in the
    /// way.
    Conflict(usize, Conflict),
}

/// Whether a program may start.
#[derive(Clone, Copy, PartialEq, Eq, Debug)]
pub enum Start {
    /// It may.
    Yes,
    /// It may not, and this is the first reason.
    No(StartRefusal),
}

/// Whether a program that was asked about may start under a job, together with the programs in
/// flight.
///
/// `Yes` comes exactly if four conditions hold, tried in this order:
///
/// 1. the job is of the program: same start, same device, same length of storage;
/// 2. storage holds what was kept;
/// 3. the job grants what is listed: mask, cylinders, bytes for fetching, bytes for storing;
/// 4. neither the program nor any row in flight stores into a byte that the other keeps.
///
/// `No` names the first condition that fails. This holds for lists from anywhere. If what is
/// remembered of the program and of the programs in flight is true, the answer is about the
/// programs themselves: after a `Yes` the program may start, and what is remembered of it is true
/// of it in flight. Refusals are exact: `No` names a grant only if the job doesn't grant the needs,
/// and a program in flight only if the two can't run side by side.
///
/// With k kept bytes, a lent areas, p programs in flight, and lists of at most n elements for each
/// program, the cost is k + (n + a) log a + p n, and a look-up for each cylinder of each run. Two
/// programs whose areas aren't merged cost the product of their numbers; `needs` gives merged
/// areas. The call takes memory only for the lent areas: two copies of one of their two lists at a
/// time. `Err` means that memory ran out.
pub fn check_start(
    alloc: Global,
    job: &Job,
    program: &Remembered,
    in_flight: &[Row],
) -> Result<Start, AllocError>
    ensures answer { IfOk result (IsAnswerOf job.now program.now
        (map in_row in_flight.now)) }
    ensures exact { IfOk result (λ s. (s ≡ answer.Yes)
        ↔ IsFit job.now program.now (map in_row in_flight.now)) }

    // If what is remembered is true, a program with a yes may start.
    ensures well { IfOk result (λ s. s ≡ answer.Yes
        → StartsWell job.now program.now (map in_row in_flight.now)) }
{
    job.show_proper();
    if let Some(refusal) = of_another(job, program) {
        return Ok(Start::No(refusal));
    }
    if let Some(address) = first_changed(&job.storage, program.needs.keep(), program.kept()) {
        return Ok(Start::No(StartRefusal::Changed(address)));
    }
    if let Some(refusal) = not_granted(alloc, job, &program.needs)? {
        return Ok(Start::No(refusal));
    }
    match conflict_in_flight(program, in_flight) {
        Some(refusal) => Ok(Start::No(refusal)),
        None => Ok(Start::Yes),
    }
}

/// Why a job isn't a job of the remembered program.
fn of_another(job: &Job, program: &Remembered) -> Option<StartRefusal>
    ensures { MatchOption result (IsOfProgram job.now program.now)
        (IsOfAnother job.now program.now) }
{
    if job.start != program.start {
        return Some(StartRefusal::OtherStart);
    }
    if device_number(job.device) != program.device {
        return Some(StartRefusal::OtherDevice);
    }
    if job.storage.len() != program.needs.storage_len {
        return Some(StartRefusal::OtherLength);
    }
    None
}

/// The number by which a device is remembered.
fn device_number(device: Device) -> u16
    ensures { result ≡ device_number device }
{
    match device {
        Device::D2311 => 2311,
        Device::D2314 => 2314,
    }
}

/// Whether a byte is a file mask, and at least as strict as a second byte.
#[tactic(auto, unfolding(ckd_core::specs::Mask::is_at_least))]
fn is_as_strict(byte: u8, than: FileMask) -> bool
    ensures { result ≡ is_at_least byte than }
{
    match FileMask::new(byte) {
        Some(mask) => mask.at_least(than),
        None => false,
    }
}

/// What is listed as needed but the job doesn't grant.
fn not_granted(
    alloc: Global,
    job: &Job,
    needs: &NeedLists,
) -> Result<Option<StartRefusal>, AllocError>
    ensures { IfOk result (λ o. MatchOption o (GrantsListed job.now (listed_in needs.now))
        (IsNotGranted job.now (listed_in needs.now))) }
{
    if !is_as_strict(needs.mask, job.mask) {
        return Ok(Some(StartRefusal::Mask));
    }
    if let Some(cylinder) = least_outside(needs.extents(), job.extents) {
        return Ok(Some(StartRefusal::Cylinder(cylinder)));
    }
    if let Some(byte) = least_unlent(alloc, needs.fetch(), job.fetch, job.storage.len())? {
        return Ok(Some(StartRefusal::Fetch(byte)));
    }
    let unlent = least_unlent(alloc, needs.store(), job.store, job.storage.len())?;
    Ok(unlent.map(|byte| StartRefusal::Store(byte)))
}

/// The first row in flight with which the program is in conflict, and how.
fn conflict_in_flight(program: &Remembered, in_flight: &[Row]) -> Option<StartRefusal>
    ensures { MatchOption result (All (IsCompatibleWith program.now) (map in_row in_flight.now))
        (HasConflictInFlight program.now (map in_row in_flight.now)) }
{
    let (stores, keeps) = (hull(program.needs.store()), hull(program.needs.keep()));
    for i in 0..in_flight.len() {
        if in_flight[i].is_near(stores, keeps) {
            if let Some(conflict) = program.needs.conflict(&in_flight[i]) {
                return Some(StartRefusal::Conflict(i, conflict));
            }
        }
    }
    None
}
