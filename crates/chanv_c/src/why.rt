//! Why a channel program may not run: the path to a place that offends, and the cause's values.

ghost use Rattle.std.specs.Prelude.{◌≡◌, ◌≢◌, ◌<◌, ◌↔◌, ◌⊎◌, IfErr, IfOk, IsTrue, OnOk};
ghost use Rattle.chan_walk.specs.declared.verdict.Verdict.TheVariants.{Yes};
ghost use Rattle.chanv_c.specs.Answers.{HasTooMany, IsJudged, IsAnswerCode, IsRefusal};
ghost use Rattle.chanv_c.specs.Faults.{HasNoFault};
ghost use Rattle.chanv_c.specs.Why as specs;
ghost use Rattle.chanv_c.specs.Why.{IsExplanationFor, IsWrittenExplanation, IsWrittenTo};
ghost use Rattle.chanv_c.specs.Why.{HasLittleRoomFor, no_explanation_for_c};
ghost use Rattle.chanv_c.specs.declared.why.WitnessedVerdict as declared;
ghost use Rattle.chanv_c.specs.declared.codes.TheConstants.{YES, NO, STORAGE_TOO_LARGE, NO_ROOM};

use crate::c_evidence::{CEvidence, NO_VALUES, cause_for_c};
use crate::c_job::{CJob, make_ready};
use crate::c_place::{CPlace, write_path};
use crate::codes::{NO, NO_ROOM, YES};
use crate::refusal::Refusal;
use crate::verify::{CVerdict, NO_VERDICT, verdict_of};
use chan_walk::{Place, Verdict, survey};
use chan_why::{Witness, witness_from};
use std::alloc::Global;

/// `struct chanv_explanation`.
#[repr(C)]
#[derive(Clone, Copy)]
pub struct CExplanation {
    pub verdict: CVerdict,
    pub path_count: usize,
    pub second_path_count: usize,
    pub evidence: CEvidence,
    /// 0: C has bytes here that no field takes.
    pub unused: u32,
}

/// The explanation of an answer without one: all zeros.
const NO_EXPLANATION: CExplanation = CExplanation {
    verdict: NO_VERDICT,
    path_count: 0,
    second_path_count: 0,
    evidence: NO_VALUES,
    unused: 0,
};

/// The verdict on a job, and what shows it.
#[derive(Drop)]
pub(crate) struct WitnessedVerdict {
    verdict: Verdict,
    witness: Witness,
}

/// Why the program may not run: `YES` if it may; `NO` if it may not, with the verdict, the values
/// of the cause, the path to a place that offends and, if that place would change bytes, the path
/// to the CCW or argument there; `NO_ROOM` if a path has more places than there is room for, with
/// all that `NO` gives except the paths. Room 0 skips a path. Otherwise it says why there is no
/// answer, like `chanv_verify`. All else is written as 0. Paths are written only for `NO`.
#[unsafe(no_mangle)]
pub extern "C" fn chanv_why(
    alloc: Global,
    job: &CJob<'_>,
    path: &mut [CPlace],
    second_path: &mut [CPlace],
    out: &mut CExplanation,
) -> u32
    ensures yes { result ≡ YES → IsJudged job.now Yes }
    ensures no { result ≡ NO → (x : declared.WitnessedVerdict)
        × IsWrittenExplanation job.now x out.new
        × IsWrittenTo x.witness.path.items path.old path.new
        × IsWrittenTo x.witness.second_path.items second_path.old second_path.new }
    ensures room { result ≡ NO_ROOM → (x : declared.WitnessedVerdict)
        × IsWrittenExplanation job.now x out.new
        × (HasLittleRoomFor x.witness.path.items path.old
        ⊎ HasLittleRoomFor x.witness.second_path.items second_path.old) }
    ensures kept { result ≢ NO → (path.new ≡ path.old) × (second_path.new ≡ second_path.old) }
    ensures number { IsAnswerCode (HasTooMany job.now) job.now result out.new.verdict.extent }
    ensures nothing { result ≢ NO → result ≢ NO_ROOM
        → out.new ≡ no_explanation_for_c out.new.verdict.extent }
    ensures no_extent { result < STORAGE_TOO_LARGE → out.new.verdict.extent ≡ 0 }
{
    *out = NO_EXPLANATION;
    let found = match explained(alloc, job) {
        Ok(found) => found,
        Err(refusal) => {
            out.verdict.extent = refusal.extent();
            return refusal.code();
        }
    };
    if let Verdict::Yes = found.verdict {
        return YES;
    }
    *out = explanation_for_c(&found);
    let (first, second) = (
        found.witness.path.as_slice(),
        found.witness.second_path.as_slice(),
    );
    if has_little_room(first, path) || has_little_room(second, second_path) {
        return NO_ROOM;
    }
    write_wanted(first, path);
    write_wanted(second, second_path);
    NO
}

/// Whether a path with some room has more places than that.
fn has_little_room(path: &[Place], room: &[CPlace]) -> bool
    ensures { IsTrue result ↔ HasLittleRoomFor path.now room.now }
{
    !room.is_empty() && room.len() < path.len()
}

/// Writes the places of a path, if there is some room for it.
fn write_wanted(path: &[Place], room: &mut [CPlace])
    requires { HasLittleRoomFor path.now room.old → ⊥ }
    ensures { IsWrittenTo path.now room.old room.new }
{
    if !room.is_empty() {
        write_path(path, room);
    }
}

/// The explanation without the paths.
fn explanation_for_c(found: &WitnessedVerdict) -> CExplanation
    ensures { result ≡ specs.explanation_for_c found.now }
{
    CExplanation {
        verdict: verdict_of(found.verdict),
        path_count: found.witness.path.len(),
        second_path_count: found.witness.second_path.len(),
        evidence: cause_for_c(found.witness.evidence),
        ..NO_EXPLANATION
    }
}

/// The verdict on the job that C asks about, and what shows it.
#[tactic(auto, using(crate::proofs::Refusals::asked_refused))]
fn explained(alloc: Global, asked: &CJob<'_>) -> Result<WitnessedVerdict, Refusal>
    ensures answer { IfOk result (IsExplanationFor asked.now) }
    ensures right { OnOk result (HasNoFault asked.now) }
    ensures refusal { IfErr result (IsRefusal (HasTooMany asked.now) asked.now) }
{
    let ready = make_ready(alloc, asked)?;
    let survey = survey(alloc, &ready.job(asked))?;
    let witness = witness_from(alloc, &survey)?;
    Ok(WitnessedVerdict {
        verdict: survey.verdict(),
        witness,
    })
}
