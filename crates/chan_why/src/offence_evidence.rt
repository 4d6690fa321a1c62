//! The evidence for the offence of a place.

ghost use Rattle.std.specs.Prelude.{◌≡◌, ℕ, length};
ghost use Rattle.chan_areas.specs.Merged.{IsLeastOf};
ghost use Rattle.chan_walk.specs.Guard.{Guards};
ghost use Rattle.chan_walk.specs.JobSurvey.{IsSurvey};
ghost use Rattle.chan_walk.specs.Look.{IsLook};
ghost use Rattle.chan_walk.specs.Offence.{Offending, seen_offence};
ghost use Rattle.chan_walk.specs.Verdict.{AreClear};
ghost use Rattle.chan_walk.specs.declared.evidence.Evidence.TheVariants as because;
ghost use Rattle.chan_walk.specs.declared.job.Job.{Job};
ghost use Rattle.chan_why.specs.Evidence.{IsArgumentIn, IsCcwIn, IsEvidence};
ghost use Rattle.chan_why.specs.Finder.{IsIndex, TakesByte};
ghost use Rattle.chan_why.specs.SecondPath.{IsArgumentChange};

use crate::finder::Finder;
use ccw_core::Area;
use chan_walk::{Evidence, Guard, Look, Reason, Survey, data_of};

/// The evidence for the offence of a place that was looked at: its own fault, which the look has,
/// or else what its data is stored over.
pub(crate) fn evidence_at(survey: &Survey, finder: &Finder, look: &Look, reason: Reason) -> Evidence
    requires offends { (j : Job) × IsSurvey j survey.now × IsLook j look.now
        × Offending j (seen_offence look.now reason) }
    requires takers { IsIndex (TakesByte survey.now.looks (length survey.now.looks))
        finder.now.takers }
    ensures { (j : Job) → IsSurvey j survey.now → IsLook j look.now
        → Offending j (seen_offence look.now reason)
        → IsEvidence j (seen_offence look.now reason) result }
{
    if let Some(evidence) = look.fault() {
        return evidence;
    }
    // A place without an own fault has a CCW.
    let data = data_of(&look.ccw().unwrap());
    match reason {
        Reason::ChangesCcw => changed_ccw(survey.guard(), data),
        _ => changed_argument(survey, finder, data),
    }
}

/// The evidence that some data is stored over a CCW: of the CCWs that have a byte of it, the one
/// that has the least. CCWs stand at multiples of 8.
fn changed_ccw(guard: &Guard, range: Area) -> Evidence
    requires { (j : Job) × Guards j guard.now × ((a : ℕ) × IsCcwIn j range a) }
    ensures { (j : Job) → Guards j guard.now → (a : ℕ) × (result ≡ because.ChangesCcw range a)
        × IsLeastOf (IsCcwIn j range) a }
{
    // The data has a byte of such a CCW.
    let byte = guard.ccws().first_in(range.start, range.len).unwrap();
    Evidence::ChangesCcw {
        data: range,
        ccw: byte - byte % 8,
    }
}

/// The evidence that some data is stored over an argument, where no place has an own fault.
fn changed_argument(survey: &Survey, finder: &Finder, range: Area) -> Evidence
    requires change { (j : Job) × IsSurvey j survey.now × AreClear j
        × ((b : ℕ) × IsArgumentIn j range b) }
    requires takers { IsIndex (TakesByte survey.now.looks (length survey.now.looks))
        finder.now.takers }
    ensures { (j : Job) → IsSurvey j survey.now → AreClear j → IsArgumentChange j range result }
{
    // The data has a guarded byte, and some place takes it.
    let byte = survey
        .guard()
        .arguments()
        .first_in(range.start, range.len)
        .unwrap();
    let taker = &survey.looks()[finder.taker(byte).unwrap()];
    Evidence::ChangesArgument {
        data: range,
        byte,
        taker: taker.place().address,
        argument: taker.operand().whole(),
    }
}
