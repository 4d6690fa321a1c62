//! The open job of a program, which grants all that can be granted.

ghost use Rattle.std.specs.Prelude.{◌≡◌, ◌↔◌, IfOk};
ghost use Rattle.ccw_core.specs.Held.{bytes_held};
ghost use Rattle.chan_walk.specs.Job.{storage_of};
ghost use Rattle.chan_walk.specs.OpenJob.{open_job, HoldsOpenJob, IsOpenJob};
ghost use Rattle.chan_walk.specs.Verdict.{IsVerdict};
ghost use Rattle.chan_walk.specs.declared.job.Job.{Job};
ghost use Rattle.chan_walk.specs.declared.verdict.Verdict.{Verdict};

use crate::job::Job;
use crate::laws::open_job_is_open;
use crate::limit::Limit;
use ccw_core::{Area, Storage};
use ckd_core::{Device, Extents, FileMask, LAST_CYLINDER};
use std::alloc::{AllocError, Global};

/// The open job of a program: no mask inhibits anything, the extents are all cylinders, and all of
/// storage is lent for fetching and for storing. If its verdict is no, so is that of each job of
/// the program; if it is yes, its survey has the needs of the program.
#[derive(Drop)]
pub struct OpenJob<'a> {
    storage: Storage<'a>,
    start: u32,
    device: Device,
    mask: FileMask,
    extents: Extents,
    areas: [Area; 1],
    limit: Limit,
}

impl<'a> OpenJob<'a> {
    /// The open job of the program that starts at an address.
    pub fn over(
        alloc: Global,
        storage: Storage<'a>,
        start: u32,
        device: Device,
        limit: Limit,
    ) -> Result<OpenJob<'a>, AllocError>
        ensures { IfOk result (λ o. (j : Job) → storage_of j ≡ bytes_held storage.entry
            → j.start ≡ start → j.device ≡ device → j.limit ≡ limit → HoldsOpenJob j o) }
    {
        let extents = match Extents::new(alloc, &[(0, LAST_CYLINDER)]) {
            Ok(extents) => extents,
            Err(_) => return Err(AllocError),
        };
        Ok(OpenJob {
            storage,
            start,
            device,
            mask: FileMask::new(0xC0).unwrap(),
            extents,
            areas: [Area {
                start: 0,
                len: storage.len(),
            }],
            limit,
        })
    }

    /// The open job of a job's program, with the job's limit on places.
    pub fn of(alloc: Global, job: &Job<'a>) -> Result<OpenJob<'a>, AllocError>
        ensures { IfOk result (HoldsOpenJob job.now) }
    {
        OpenJob::over(alloc, job.storage, job.start, job.device, job.limit)
    }

    /// The job, as a view.
    pub fn job(&self) -> Job<'_>
        ensures open { (j : Job) → HoldsOpenJob j self.now → IsOpenJob j result }
        ensures verdict { (j : Job) → HoldsOpenJob j self.now
            → (v : Verdict) → IsVerdict result v ↔ IsVerdict (open_job j) v }
    {
        open_job_is_open();
        Job {
            storage: self.storage,
            start: self.start,
            device: self.device,
            mask: self.mask,
            extents: &self.extents,
            fetch: &self.areas,
            store: &self.areas,
            limit: self.limit,
        }
    }
}
