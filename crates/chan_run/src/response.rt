//! What is answered to a text, before anything is written.

ghost use Rattle.std.specs.Prelude.{◌⊎◌, IfOk};
ghost use Rattle.chan_deck.specs.Refused.{IsRefused};
ghost use Rattle.chan_run.specs.Output.{HoldsOfDeckJob};
ghost use Rattle.chan_run.specs.Response.{IsBareResponse, IsJobResponse, IsLimitResponse};
ghost use Rattle.chan_run.specs.Response.{IsRefusalResponse, IsResponse, IsTextResponse};
ghost use Rattle.chan_run.specs.Response.{IsVerdictResponse};
ghost use Rattle.chan_run.specs.declared.failure.Failure.TheVariants as failures;
ghost use Rattle.chan_run.specs.declared.outcome.Outcome.TheVariants.{Failed};

use crate::answer::{answer_of, limit_advice, refusal_advice};
use crate::failure::Failure;
use crate::manner::manner_of;
use crate::name::Naming;
use crate::outcome::Outcome;
use ccw_core::Storage;
use chan_args::Action;
use chan_deck::{Cause, DeckError, read_deck};
use chan_walk::{Job, OpenJob, WalkError, survey};
use std::alloc::{AllocError, Global};

/// What a command answers: what it writes and says, before anything of it is written.
#[derive(Drop)]
pub struct Response {
    /// How it ends if all is written. Its line goes to the second writer.
    pub outcome: Outcome,
    /// What goes to the first writer if all was done.
    pub output: Vec<u8>,
    /// What follows the outcome's line; `None` if memory ran out for it, which is said then.
    pub advice: Option<Vec<u8>>,
    /// What follows in any case, also where the output can't be written.
    pub note: &'static str,
}

impl Response {
    /// An outcome without an output or advice, and a note. It takes no memory.
    pub fn bare(alloc: Global, outcome: Outcome, note: &'static str) -> Response
        ensures { IsBareResponse outcome note.now result }
    {
        Response {
            outcome,
            output: Vec::new(alloc),
            advice: Some(Vec::new(alloc)),
            note,
        }
    }
}

/// The answer to what an action asks of a text, over an input that is named so. The text is read
/// once and its job walked once.
///
/// The output is the verdict's line, the listing, the explanation, the picture or what is needed.
/// For `Verify` and `Why` the name, a colon and a space come before it; for `List` and `Needs` over
/// one of several inputs, a line with its name and a colon. The advice is, if the text is no deck,
/// the hint for `Why` and for any input with a name; for `Why` the notes on the job, and the limit
/// where too many places are reachable. Over one of several inputs each of its lines begins with
/// its name. Where memory runs out, there is no output.
pub fn respond(alloc: Global, naming: Naming<'_>, action: Action, text: &[u8]) -> Response
    ensures { IsResponse naming.entry action text.now result }
{
    match respond_to_text(alloc, naming, action, text) {
        Ok(response) => response,
        Err(AllocError) => Response::bare(alloc, Outcome::Failed(Failure::OutOfMemory), ""),
    }
}

/// The answer to what an action asks of a text, where memory lasts.
fn respond_to_text(
    alloc: Global,
    naming: Naming<'_>,
    action: Action,
    text: &[u8],
) -> Result<Response, AllocError>
    ensures { IfOk result (IsTextResponse naming.entry action text.now) }
{
    let deck = match read_deck(alloc, text) {
        Ok(deck) => deck,
        Err(DeckError::At { line, cause }) => {
            return Ok(respond_to_refused_text(alloc, naming, action, text, line, cause));
        }
        Err(DeckError::Memory) => return Err(AllocError),
    };
    let job = deck.job();

    // For the checker alone: it asks for the type of what is borrowed.
    let _storage: Storage<'_> = job.storage;
    respond_to_job(alloc, naming, action, &job)
}

/// The answer to a text that isn't a deck.
fn respond_to_refused_text(
    alloc: Global,
    naming: Naming<'_>,
    action: Action,
    text: &[u8],
    line: u64,
    cause: Cause,
) -> Response
    requires { IsRefused text.now line cause }
    ensures { IsRefusalResponse naming.entry action text.now result }
{
    Response {
        outcome: Outcome::Refused { line, cause },
        output: Vec::new(alloc),
        advice: refusal_advice(alloc, naming, action, text, line, cause),
        note: "",
    }
}

/// The answer to what an action asks of a job, or of its open job.
fn respond_to_job(
    alloc: Global,
    naming: Naming<'_>,
    action: Action,
    job: &Job,
) -> Result<Response, AllocError>
    ensures { IfOk result (IsJobResponse naming.entry action job.now) }
{
    if manner_of(action).judges_open {
        let open = OpenJob::of(alloc, job)?;
        return respond_to_judged_job(alloc, naming, action, &open.job());
    }
    respond_to_judged_job(alloc, naming, action, job)
}

/// The answer to what an action asks of the job that it judges.
fn respond_to_judged_job(
    alloc: Global,
    naming: Naming<'_>,
    action: Action,
    job: &Job,
) -> Result<Response, AllocError>
    ensures { IfOk result (λ r. IsVerdictResponse naming.entry action job.now r
        ⊎ IsLimitResponse naming.entry action job.now r) }
{
    let survey = match survey(alloc, job) {
        Ok(survey) => survey,
        Err(WalkError::TooManyPlaces) => {
            return Ok(Response {
                outcome: Outcome::Failed(Failure::TooManyPlaces),
                output: Vec::new(alloc),
                advice: limit_advice(alloc, naming, action, job.limit),
                note: "",
            });
        }
        Err(WalkError::Memory) => return Err(AllocError),
    };
    let outcome = Outcome::of_verdict(survey.verdict());
    let answer = answer_of(alloc, naming, action, job, survey)?;
    Ok(Response {
        outcome,
        output: answer.output,
        advice: answer.advice,
        note: "",
    })
}
