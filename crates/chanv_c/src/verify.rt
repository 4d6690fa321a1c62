//! Whether a channel program may run.

ghost use Rattle.std.specs.Prelude.{◌≡◌, ◌≢◌, ◌<◌, IfErr, IfOk, OnOk};
ghost use Rattle.chan_walk.specs.declared.verdict.Verdict.TheVariants.{Yes};
ghost use Rattle.chanv_c.specs.Answers.{HasTooMany, IsJudgedNo, IsJudged, IsAnswerCode, IsRefusal};
ghost use Rattle.chanv_c.specs.Faults.{HasNoFault};
ghost use Rattle.chanv_c.specs.Why.{verdict_for_c};
ghost use Rattle.chanv_c.specs.declared.codes.TheConstants.{YES, NO, STORAGE_TOO_LARGE, NO_ROOM};

use crate::c_job::{CJob, make_ready};
use crate::codes::{NO, YES};
use crate::refusal::Refusal;
use chan_walk::{Verdict, verify};
use std::alloc::Global;

/// `struct chanv_verdict`.
#[repr(C)]
#[derive(Clone, Copy)]
pub struct CVerdict {
    pub extent: usize,
    pub address: u32,
    pub reason: u32,
}

/// The verdict of a yes, or of no answer: all zeros.
pub(crate) const NO_VERDICT: CVerdict = CVerdict {
    extent: 0,
    address: 0,
    reason: 0,
};

/// Whether the program may run: `YES`; `NO`, with the address of the first offending CCW
/// and the number of its reason; otherwise why there is no answer, with the index of the first
/// wrong extent if there is one. All else is written as 0.
#[unsafe(no_mangle)]
pub extern "C" fn chanv_verify(alloc: Global, job: &CJob<'_>, out: &mut CVerdict) -> u32
    ensures yes { result ≡ YES → IsJudged job.now Yes }
    ensures no { result ≡ NO → IsJudgedNo job.now out.new.address out.new.reason }
    ensures number { IsAnswerCode (HasTooMany job.now) job.now result out.new.extent }
    ensures room { result ≢ NO_ROOM }
    ensures no_place { result ≢ NO → (out.new.address ≡ 0) × (out.new.reason ≡ 0) }
    ensures no_extent { result < STORAGE_TOO_LARGE → out.new.extent ≡ 0 }
{
    *out = NO_VERDICT;
    match verdict_on(alloc, job) {
        Ok(Verdict::Yes) => YES,
        Ok(no) => {
            *out = verdict_of(no);
            NO
        }
        Err(refusal) => {
            out.extent = refusal.extent();
            refusal.code()
        }
    }
}

/// The verdict as a struct of C.
pub(crate) fn verdict_of(verdict: Verdict) -> CVerdict
    ensures { result ≡ verdict_for_c verdict }
{
    match verdict {
        Verdict::Yes => NO_VERDICT,
        Verdict::No { address, reason } => CVerdict {
            address,
            reason: u32::from(reason.number()),
            ..NO_VERDICT
        },
    }
}

/// The verdict on the job that C asks about.
#[tactic(auto, using(crate::proofs::Refusals::asked_refused))]
fn verdict_on(alloc: Global, asked: &CJob<'_>) -> Result<Verdict, Refusal>
    ensures answer { IfOk result (IsJudged asked.now) }
    ensures right { OnOk result (HasNoFault asked.now) }
    ensures refusal { IfErr result (IsRefusal (HasTooMany asked.now) asked.now) }
{
    let ready = make_ready(alloc, asked)?;
    Ok(verify(alloc, &ready.job(asked))?)
}
