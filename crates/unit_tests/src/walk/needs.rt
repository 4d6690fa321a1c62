//! Whether a program may start by the lists of its needs.

ghost use Rattle.chan_walk.specs.JobSurvey.{IsSurvey};

use chan_needs::{Needs, Remembered, Start, check_start, copy_kept, needs_from};
use chan_walk::{Job, OpenJob, Survey, Verdict, survey};
use std::alloc::Global;

/// Whether a job's program keeps 24 bytes, its first CCW among them, and may start.
pub(crate) fn has_needs(alloc: Global, job: &Job) -> bool {
    match OpenJob::of(alloc, job) {
        Ok(open) => are_needed(alloc, &open.job(), job),
        Err(_) => false,
    }
}

fn are_needed(alloc: Global, open_job: &Job, job: &Job) -> bool {
    match survey(alloc, open_job) {
        Ok(survey) => are_surveyed(alloc, open_job, &survey, job),
        Err(_) => false,
    }
}

fn are_surveyed(alloc: Global, open_job: &Job, survey: &Survey, job: &Job) -> bool
    requires { IsSurvey open_job.now survey.now }
{
    if survey.verdict() != Verdict::Yes {
        return false;
    }
    match needs_from(alloc, open_job, survey) {
        Ok(needs) => are_so(alloc, &needs, job),
        Err(_) => false,
    }
}

fn are_so(alloc: Global, needs: &Needs, job: &Job) -> bool {
    let mut kept = [0; 24];
    if copy_kept(&job.storage, &needs.keep, &mut kept) != Some(24) {
        return false;
    }
    let program = Remembered {
        needs: needs.lists(),
        kept: &kept,
        start: job.start,
        device: 2314,
    };
    kept[0] == 0x31 && check_start(alloc, job, &program, &[]) == Ok(Start::Yes)
}
