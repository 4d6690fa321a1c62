//! What shows that a program may not run: the path to a place that offends, and the evidence there.

ghost use Rattle.std.specs.Prelude.{◌≡◌, ◌<◌, true, false, None, IfOk, IfSome, length};
ghost use Rattle.chan_why.specs.Finder.{FindsFirst};
ghost use Rattle.chan_why.specs.Witness as specs;
ghost use Rattle.chan_why.specs.Witness.{IsCaseOf, IsWitnessOf};
ghost use Rattle.chan_walk.specs.Argument.{Has};
ghost use Rattle.chan_walk.specs.JobSurvey.{IsSurvey};
ghost use Rattle.chan_walk.specs.Look.{places_of_looks};
ghost use Rattle.chan_walk.specs.Offence.{first_verdict};
ghost use Rattle.chan_walk.specs.Reason.{is_no_command};
ghost use Rattle.chan_walk.specs.declared.job.Job.{Job};
ghost use Rattle.chan_walk.specs.declared.verdict.Verdict.TheVariants.{No};

use crate::finder::Finder;
use crate::offence_evidence::evidence_at;
use crate::path::{Path, path_at};
use crate::second_path::second_path;
use chan_walk::{Evidence, Offence, Place, Reason, Survey};
use std::alloc::{AllocError, Global};

/// The witness of one of a job's offences, of which the first is the verdict's.
///
/// The path leads to a place with its address that offends by its reason. It is the shortest of all
/// such paths; of several that are equally short it is the one that goes on to `next`, not to
/// `skip`, at the first place at which they part. A run over exactly this path, on which nothing
/// changes, shows the reason at its last place. The evidence is that of its last place, and the
/// second path, chosen in the same way, leads to the CCW stored over, or to a place that takes the
/// argument. If nothing offends, all of them are empty.
#[derive(Drop)]
pub struct Witness {
    /// The places of the path, from the first place on.
    pub path: Vec<Place>,
    /// The evidence for the offence.
    pub evidence: Option<Evidence>,
    /// The last place of the path before its end that stores one of the eight bytes from the end's
    /// address on, if the reason is that no command is there: the bytes that will be there aren't
    /// judged.
    pub stored_over: Option<Place>,
    /// The places of the path to the CCW or argument that is changed, if the reason is `ChangesCcw`
    /// or `ChangesArgument`; else none.
    pub second_path: Vec<Place>,
}

/// The witness of the first offence of the job that was surveyed. `AllocError` comes if a growth
/// was refused.
///
/// With n places, the cost is n log n.
pub fn witness_from(alloc: Global, survey: &Survey) -> Result<Witness, AllocError>
    requires { (j : Job) × IsSurvey j survey.now }
    ensures { IfOk result (λ w. (j : Job) → IsSurvey j survey.now
        → IsWitnessOf j (first_verdict survey.now.offences) w) }
{
    match survey.offences().first() {
        Some(first) => witness_of(alloc, survey, *first),
        None => Ok(Witness {
            path: Vec::new(alloc),
            evidence: None,
            stored_over: None,
            second_path: Vec::new(alloc),
        }),
    }
}

/// The witness of any offence of the job that was surveyed, chosen as for the first.
fn witness_of(alloc: Global, survey: &Survey, offence: Offence) -> Result<Witness, AllocError>
    requires { (j : Job) × IsSurvey j survey.now × Has survey.now.offences offence }
    ensures { IfOk result (λ w. (j : Job) → IsSurvey j survey.now
        → IsWitnessOf j (No offence.place.address offence.reason) w) }
{
    let finder = Finder::new(alloc, survey)?;
    witness_by(alloc, survey, &finder, offence)
}

/// The same, by a finder.
pub(crate) fn witness_by(
    alloc: Global,
    survey: &Survey,
    finder: &Finder,
    offence: Offence,
) -> Result<Witness, AllocError>
    requires listed { (j : Job) × IsSurvey j survey.now × Has survey.now.offences offence }
    requires finds { FindsFirst survey.now.looks survey.now.offences finder.now }
    ensures { IfOk result (λ w. (j : Job) → IsSurvey j survey.now
        → IsWitnessOf j (No offence.place.address offence.reason) w) }
{
    let (at, evidence) = case_of(survey, finder, offence);
    let Path { places, stored_by } = path_at(alloc, survey, at)?;
    let second_path = second_path(alloc, survey, finder, &evidence)?;
    Ok(Witness {
        path: places,
        evidence: Some(evidence),
        stored_over: told_over(offence.reason, stored_by),
        second_path,
    })
}

/// The offence at an address, of several the one with the least reason; `None` if none is there.
/// The cost is that of reading all offences.
pub(crate) fn offence_at(survey: &Survey, address: u32) -> Option<Offence>
    ensures first { result ≡ specs.offence_at address survey.now.offences }
    ensures listed { IfSome result (Has survey.now.offences) }
{
    let offences = survey.offences();
    for offence in offences {
        if offence.place.address == address {
            return Some(*offence);
        }
    }
    None
}

/// The index of the place at which the path to an offence ends, and the evidence there.
fn case_of(survey: &Survey, finder: &Finder, offence: Offence) -> (usize, Evidence)
    requires listed { (j : Job) × IsSurvey j survey.now
        × Has survey.now.offences offence }
    requires finds { FindsFirst survey.now.looks survey.now.offences finder.now }
    ensures within { result.0 < length survey.now.looks }
    ensures case { (j : Job) → IsSurvey j survey.now
        → IsCaseOf j (places_of_looks survey.now.looks) offence result.0 result.1 }
{
    let looks = survey.looks();
    // The offence's own place is one.
    let at = finder.offender(offence).unwrap();
    (at, evidence_at(survey, finder, &looks[at], offence.reason))
}

/// The place that stores over what stands at a path's end, where that is no command.
fn told_over(reason: Reason, stored_by: Option<Place>) -> Option<Place>
    ensures told { is_no_command reason ≡ true → result ≡ stored_by }
    ensures other { is_no_command reason ≡ false → result ≡ None }
{
    if reason.is_no_command() {
        stored_by
    } else {
        None
    }
}

/// The evidence for each offence of the job that was surveyed, in the order of `Survey::offences`:
/// that of its witness. Tests hold the order.
pub(crate) fn evidence_by(
    alloc: Global,
    survey: &Survey,
    finder: &Finder,
) -> Result<Vec<Evidence>, AllocError>
    requires survey { (j : Job) × IsSurvey j survey.now }
    requires finds { FindsFirst survey.now.looks survey.now.offences finder.now }
{
    let offences = survey.offences();
    let mut evidence = Vec::new(alloc);
    for offence in offences {
        evidence.push(case_of(survey, finder, *offence).1)?;
    }
    Ok(evidence)
}
