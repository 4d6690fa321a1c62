//! What C asks, and how it becomes a job.

ghost use Rattle.std.specs.Prelude.{◌≡◌, ◌≢◌, IfOk, IfErr, OnOk, MatchOption};
ghost use Rattle.chanv_c.specs.Answers.{IsRefusal};
ghost use Rattle.chan_needs.specs.Remembered.{device_number};
ghost use Rattle.chanv_c.specs.Job.{IsAskedJob, IsReadyJob, extents_asked};
ghost use Rattle.chanv_c.specs.Faults.{HasNoFault, HasNoFaultBelow};

use crate::refusal::{JobFault, Refusal};
use ccw_core::{Area, Storage};
use chan_needs::{Extent, or_empty, pairs_of};
use chan_walk::{Job, Limit};
use ckd_core::{Device, ExtentError, Extents, FileMask};
use std::alloc::Global;

/// `struct chanv_job`. A slice is a pointer and then a length. If the length is 0, the pointer may
/// be null, and no code looks at it.
#[repr(C)]
#[derive(Clone, Copy)]
pub struct CJob<'a> {
    pub storage: &'a [u8],
    pub extents: &'a [Extent],
    pub fetch: &'a [Area],
    pub store: &'a [Area],
    pub start: u32,
    pub limit: u32,
    pub device: u16,
    pub mask: u8,
}

/// The device with this number.
pub(crate) fn numbered_device(number: u16) -> Option<Device>
    ensures { MatchOption result
        ((number ≢ 2311) × (number ≢ 2314))
        (λ device. device_number device ≡ number) }
{
    match number {
        2311 => Some(Device::D2311),
        2314 => Some(Device::D2314),
        _ => None,
    }
}

/// The extents of the file, or their fault.
fn extents_of(alloc: Global, asked: &CJob<'_>) -> Result<Extents, Refusal>
    requires { HasNoFaultBelow asked.now 7 }
    ensures extents { IfOk result (λ extents. extents ≡ extents_asked asked.now) }
    ensures right { OnOk result (HasNoFaultBelow asked.now 10) }
    ensures refusal { IfErr result (IsRefusal ⊥ asked.now) }
{
    let Ok(pairs) = pairs_of(alloc, asked.extents) else {
        return Err(Refusal::Memory);
    };
    match Extents::from_pairs(pairs) {
        Ok(extents) => Ok(extents),
        Err(ExtentError::Empty) => Err(Refusal::Wrong(JobFault::NoExtent)),
        Err(ExtentError::Backwards(at)) => Err(Refusal::Wrong(JobFault::ExtentBackwards(at))),
        Err(ExtentError::PastDevice(at)) => Err(Refusal::Wrong(JobFault::ExtentPastDevice(at))),
        Err(ExtentError::Memory) => Err(Refusal::Memory),
    }
}

/// All that a job needs, as C names it. Storage is borrowed.
#[derive(Drop)]
pub(crate) struct ReadyJob<'a> {
    storage: Storage<'a>,
    device: Device,
    mask: FileMask,
    extents: Extents,
    limit: Limit,
}

/// All that the job needs, or the first fault of what C asks.
pub(crate) fn make_ready<'a>(alloc: Global, asked: &CJob<'a>) -> Result<ReadyJob<'a>, Refusal>
    ensures job { IfOk result (IsReadyJob asked.now) }
    ensures right { OnOk result (HasNoFault asked.now) }
    ensures refusal { IfErr result (IsRefusal ⊥ asked.now) }
{
    let Ok(storage) = Storage::new(or_empty(asked.storage)) else {
        return Err(Refusal::Wrong(JobFault::StorageTooLarge));
    };
    let Some(device) = numbered_device(asked.device) else {
        return Err(Refusal::Wrong(JobFault::NotADevice));
    };
    let Some(mask) = FileMask::new(asked.mask) else {
        return Err(Refusal::Wrong(JobFault::NotAMask));
    };
    let extents = extents_of(alloc, asked)?;
    let Some(limit) = Limit::new(asked.limit) else {
        return Err(Refusal::Wrong(JobFault::NotALimit));
    };
    Ok(ReadyJob {
        storage,
        device,
        mask,
        extents,
        limit,
    })
}

impl<'a> ReadyJob<'a> {
    /// The job that C asks about. Nothing is copied.
    pub(crate) fn job<'s>(&'s self, asked: &'s CJob<'s>) -> Job<'s>
        requires { IsReadyJob asked.now self.now }
        ensures { IsAskedJob asked.now result }
    {
        Job {
            storage: self.storage,
            start: asked.start,
            device: self.device,
            mask: self.mask,
            extents: &self.extents,
            fetch: or_empty(asked.fetch),
            store: or_empty(asked.store),
            limit: self.limit,
        }
    }
}
