//! Finds the programs in storage whose starts aren't known.

ghost use Rattle.std.specs.Prelude.{IsTrue, IfOk, OnOk};
ghost use Rattle.ccw_core.specs.Held.{bytes_held};
ghost use Rattle.ccw_core.specs.Storage.{Stands};
ghost use Rattle.chan_walk.specs.Job.{storage_of};
ghost use Rattle.chan_find.specs.Programs.{AreStarts, IsOffered};

use crate::trails::{Covered, is_plain, start_at};
use ccw_core::Storage;
use chan_walk::{Job, Limit, Look, OpenJob, Place, look_at};
use ckd_core::{Device, lookup};
use std::alloc::{AllocError, Global};

/// Whether a place holds a second CCW: the place is plain, not a transfer, and not at the start's
/// address.
fn is_second(look: &Look, start: u32) -> bool {
    match look.ccw() {
        Some(ccw) => is_plain(look) && !ccw.is_transfer() && look.place().address != start,
        None => false,
    }
}

/// Whether there is a place, and it holds a second CCW.
fn is_second_at(job: &Job, start: u32, place: Option<Place>) -> bool {
    match place {
        Some(place) => is_second(&look_at(job, place), start),
        None => false,
    }
}

/// Whether there is a plain place, and it holds a second CCW or, with a transfer, leads to one.
fn has_second_from(job: &Job, start: u32, place: Option<Place>) -> bool {
    let Some(place) = place else {
        return false;
    };
    let look = look_at(job, place);
    if !is_plain(&look) {
        return false;
    }
    if is_second(&look, start) {
        return true;
    }
    is_second_at(job, start, look.next().next)
}

/// For each code whether a command has it. The table answers at once.
fn command_codes() -> [bool; 256] {
    let mut codes = [false; 256];
    for code in 0..256 {
        codes[code] = lookup(code as u8).is_some();
    }
    codes
}

/// Whether the CCW at an address, by two of its bytes alone, may be a plain start: its code is the
/// code of a command and its byte 5 is zero. Most data fails here, before a look.
fn may_be_plain(codes: &[bool; 256], job: &Job, start: u32) -> bool
    ensures { IsTrue result → Stands (storage_of job.now) start }
{
    match job.storage.range(start, 8) {
        Some([code, _, _, _, _, 0, _, _]) => {
            codes[usize::from(*code)] && job.storage.ccw_at(start).is_some()
        }
        _ => false,
    }
}

/// Whether a start is likely: it is plain, and there is a second CCW one or two successors on.
fn is_likely(job: &Job, start: u32) -> bool {
    let look = look_at(job, start_at(start));
    if !is_plain(&look) {
        return false;
    }
    let next = look.next();
    has_second_from(job, start, next.next) || has_second_from(job, start, next.skip)
}

/// Takes a start, if it is likely and no start taken so far leads to it, and covers all places that
/// it leads to.
fn offer(
    covered: &mut Covered,
    codes: &[bool; 256],
    job: &Job,
    start: u32,
    taken: &mut Vec<u32>,
) -> Result<(), AllocError>
    ensures { OnOk result (IsOffered (storage_of job.now) start taken.old.items taken.new.items) }
{
    if !may_be_plain(codes, job, start) || covered.has(start_at(start)) || !is_likely(job, start) {
        return Ok(());
    }
    covered.cover(job, start)?;
    taken.push(start)?;
    Ok(())
}

/// The likely starts to which no lower likely start leads, in order.
fn roots(alloc: Global, codes: &[bool; 256], job: &Job) -> Result<Vec<u32>, AllocError>
    ensures { IfOk result (λ v. AreStarts (storage_of job.now) v.items) }
{
    let mut covered = Covered::new(alloc, job)?;
    let mut roots = Vec::new(alloc);
    let mut address = 0;
    while address < job.storage.len() {
        offer(&mut covered, codes, job, address, &mut roots)?;
        address += 8;
    }
    Ok(roots)
}

/// The starts of a list to which no higher start of the list leads, in order; it goes through them
/// from the highest down.
fn highest_apart(
    alloc: Global,
    codes: &[bool; 256],
    job: &Job,
    roots: Vec<u32>,
) -> Result<Vec<u32>, AllocError>
    requires { AreStarts (storage_of job.now) roots.items }
    ensures { IfOk result (λ v. AreStarts (storage_of job.now) v.items) }
{
    let mut rest = roots;
    let mut covered = Covered::new(alloc, job)?;
    let mut kept = Vec::new(alloc);
    while let Some(start) = rest.pop() {
        offer(&mut covered, codes, job, start, &mut kept)?;
    }
    kept.reverse();
    Ok(kept)
}

/// The starts of the programs of a job's storage. No other start leads to a single root.
fn starts_of(alloc: Global, job: &Job) -> Result<Vec<u32>, AllocError>
    ensures { IfOk result (λ v. AreStarts (storage_of job.now) v.items) }
{
    let codes = command_codes();
    let found = roots(alloc, &codes, job)?;
    if found.len() < 2 {
        return Ok(found);
    }
    highest_apart(alloc, &codes, job, found)
}

/// The starts of programs in storage, each once, in order. The call judges CCWs under the device's
/// open job.
///
/// It is proved that each start is a multiple of 8, that its CCW is inside storage, and that it is
/// higher than the start before it. Which starts these are is only tested: a program starts at a
/// likely start to which no likely start from outside leads; of starts that lead to each other, the
/// lowest counts. So the start of a job with a yes is in the list, or a start of the list leads to
/// it, unless its program has a single CCW or a byte 5 that isn't zero.
///
/// `AllocError` comes only if a growth was refused. The call takes memory for a byte for each
/// doubleword of storage, for the list, and for the places from which it has yet to step on. With n
/// bytes of storage the cost is n: a few looks for each doubleword and each way to enter it.
pub fn program_starts(
    alloc: Global,
    storage: &Storage,
    device: Device,
) -> Result<Vec<u32>, AllocError>
    ensures { IfOk result (λ v. AreStarts (bytes_held storage.now) v.items) }
{
    let open = OpenJob::over(alloc, *storage, 0, device, Limit::usual())?;
    starts_of(alloc, &open.job())
}
