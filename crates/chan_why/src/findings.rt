//! What is found of a job that was judged: all that its explanations are made from.

ghost use Rattle.std.specs.Prelude.{◌≡◌, ◌<◌, IfOk, IfSome, Some, None, length};
ghost use Rattle.chan_walk.specs.Argument.{Has};
ghost use Rattle.chan_walk.specs.JobSurvey.{IsSurvey};
ghost use Rattle.chan_walk.specs.Offence.{first_verdict};
ghost use Rattle.chan_walk.specs.declared.job.Job.{Job};
ghost use Rattle.chan_walk.specs.declared.verdict.Verdict.TheVariants.{No};
ghost use Rattle.chan_why.specs.Findings.{AreFindings, requested_offence, shown_verdict};
ghost use Rattle.chan_why.specs.Finder.{FindsFirst};
ghost use Rattle.chan_why.specs.Witness.{IsWitnessOf};

use crate::finder::Finder;
use crate::hang::hang_from;
use crate::notes::{Notes, notes_from};
use crate::witness::{Witness, evidence_by, offence_at, witness_by, witness_from};
use chan_walk::{Evidence, Job, Offence, Place, Survey};
use std::alloc::{AllocError, Global};

/// What was found of a job: what shows its verdict, and what that leaves open.
#[derive(Drop)]
pub struct Findings<'a> {
    pub job: &'a Job<'a>,
    pub survey: Survey,
    /// The address that is asked about, if one is.
    pub asked: Option<u32>,
    /// The first offence at that address, if there is one.
    pub requested: Option<Offence>,
    /// What shows that offence, or without one the verdict's.
    pub witness: Witness,
    /// The evidence for each offence of the survey, in its order.
    pub evidence: Vec<Evidence>,
    /// What a yes leaves open; `None` after a no, or if memory ran out for it.
    pub open: Option<Open>,
}

/// What a yes leaves open.
#[derive(Drop)]
pub struct Open {
    pub notes: Notes,
    /// The first place from which on the program can't end by itself.
    pub hang: Option<Place>,
}

impl<'a> Findings<'a> {
    /// The offence that is explained: the one that is asked about, or without one the first.
    pub fn offence(&self) -> Option<Offence> {
        match self.requested {
            Some(offence) => Some(offence),
            None => self.survey.offences().first().copied(),
        }
    }
}

/// What is found of a job that was surveyed, where the offence at an address may be asked about.
/// `AllocError` comes if a growth was refused.
///
/// With n places, the cost is n log n.
pub fn findings_from<'a>(
    alloc: Global,
    job: &'a Job<'a>,
    survey: Survey,
    asked: Option<u32>,
) -> Result<Findings<'a>, AllocError>
    requires { IsSurvey job.now survey }
    ensures { IfOk result (λ f. AreFindings f × (f.asked ≡ asked)
        × (f.job ≡ job.entry) × (f.survey ≡ survey)) }
{
    let Some(first) = survey.offences().first().copied() else {
        let witness = witness_from(alloc, &survey)?;
        let open = open_points(alloc, job, &survey).ok();
        return Ok(Findings {
            job,
            survey,
            asked,
            requested: None,
            witness,
            evidence: Vec::new(alloc),
            open,
        });
    };
    let finder = Finder::new(alloc, &survey)?;
    let requested = requested_offence(&survey, asked);
    let witness = shown_witness(alloc, &survey, &finder, first, requested)?;
    let evidence = evidence_by(alloc, &survey, &finder)?;
    Ok(Findings {
        job,
        survey,
        asked,
        requested,
        witness,
        evidence,
        open: None,
    })
}

/// The offence that is asked about, if one is at the address.
fn requested_offence(survey: &Survey, asked: Option<u32>) -> Option<Offence>
    ensures asked { result ≡ requested_offence survey.now.offences asked }
    ensures listed { IfSome result (Has survey.now.offences) }
{
    match asked {
        Some(address) => offence_at(survey, address),
        None => None,
    }
}

/// The witness of the offence that is asked about, or without one of the first.
fn shown_witness(
    alloc: Global,
    survey: &Survey,
    finder: &Finder,
    first: Offence,
    requested: Option<Offence>,
) -> Result<Witness, AllocError>
    requires survey { (j : Job) × IsSurvey j survey.now }
    requires first { Has survey.now.offences first }
    requires named { first_verdict survey.now.offences ≡ No first.place.address first.reason }
    requires requested { IfSome requested (Has survey.now.offences) }
    requires finds { FindsFirst survey.now.looks survey.now.offences finder.now }
    ensures { IfOk result (λ w. (j : Job) → IsSurvey j survey.now
        → IsWitnessOf j (shown_verdict survey.now.offences requested) w) }
{
    match requested {
        Some(offence) => witness_by(alloc, survey, finder, offence),
        None => witness_by(alloc, survey, finder, first),
    }
}

/// What a yes on a job that was surveyed leaves open.
fn open_points(alloc: Global, job: &Job, survey: &Survey) -> Result<Open, AllocError> {
    Ok(Open {
        notes: notes_from(alloc, job, survey)?,
        hang: hang_from(alloc, survey)?,
    })
}
