//! Judging a job: one walk over all places that its program can come to, and all that follows
//! from it.

ghost use Rattle.std.specs.Prelude.{◌≡◌, IfOk};
ghost use Rattle.chan_walk.specs.Answers.{IsAnswer};
ghost use Rattle.chan_walk.specs.Places.{HasMoreThan};
ghost use Rattle.chan_walk.specs.Offence.{first_verdict};
ghost use Rattle.chan_walk.specs.JobSurvey.{IsSurvey};

use crate::guard::Guard;
use crate::job::Job;
use crate::job_survey::Survey;
use crate::laws::{
    first_is_verdict, no_false_alarm, no_is_harm, safe_is_yes, yes_is_safe, yes_is_safe_among,
};
use crate::offence::offences_of;
use crate::verdict::Verdict;
use crate::walk::{Walk, walk_all};
use crate::walk_error::WalkError;
use std::alloc::Global;

/// Surveys a job: walks once over the places that its program can come to, and looks at each once.
///
/// `TooManyPlaces` comes exactly if more places are reachable than the job's limit and no growth
/// was refused, even if one of them offends. `Memory` comes if a growth was refused.
///
/// With n places and a lent areas, the cost is (n + a) log (n + a).
pub fn survey(alloc: Global, job: &Job) -> Result<Survey, WalkError>
    ensures survey { IfOk result (IsSurvey job.now) }
    ensures answer { IfOk result (λ s. IsAnswer job.now (first_verdict s.offences)) }
    ensures many { result ≡ Err WalkError.TooManyPlaces → HasMoreThan job.now job.now.limit }
{
    first_is_verdict();
    yes_is_safe();
    yes_is_safe_among();
    no_false_alarm();
    no_is_harm();
    safe_is_yes();
    job.show_proper();
    let walk = walk_all(alloc, job)?;
    let guard = Guard::of(alloc, walk.looks.as_slice())?;
    let offences = offences_of(alloc, &guard, walk.looks.as_slice())?;
    let Walk {
        looks,
        found_from,
        table,
    } = walk;
    Ok(Survey {
        looks,
        found_from,
        table,
        guard,
        offences,
    })
}

/// Whether the program may run.
///
/// `Yes` means that no reachable place offends. Then whatever the disk holds, however searches and
/// errors turn out, and after any number of steps, the channel meets no program check, moves data
/// only through areas lent for it, changes no CCW, seek argument or mask byte that any run uses,
/// seeks only inside the extents, sets no weaker mask and issues no inhibited command. This holds
/// even while others write to storage, as long as they leave the guarded bytes alone.
///
/// `No` names the first offending CCW, by address, and the first reason there, by number. Some run
/// comes to that CCW and shows the reason, and some run does harm: it isn't safe, or it changes a
/// byte that some run uses. A job that is safe in every run, and steady, is never answered `No`.
///
/// `TooManyPlaces` comes exactly if more places are reachable than the job's limit and no growth
/// was refused, even if one of them offends. `Memory` comes if a growth was refused.
///
/// With n places and a lent areas, the cost is (n + a) log (n + a).
pub fn verify(alloc: Global, job: &Job) -> Result<Verdict, WalkError>
    ensures answer { IfOk result (IsAnswer job.now) }
    ensures many { result ≡ Err WalkError.TooManyPlaces → HasMoreThan job.now job.now.limit }
{
    Ok(survey(alloc, job)?.verdict())
}
