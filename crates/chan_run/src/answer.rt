//! What each action answers on a job that was judged: its output, and the advice beside it.

ghost use Rattle.std.specs.Prelude.{◌≡◌, ◌++◌, ◌||◌, [], false, true, is_some, string_bytes, IfOk};
ghost use Rattle.std.specs.Prelude.{Ok, Some};
ghost use Rattle.chan_args.specs.declared.action.Action.TheVariants as actions;
ghost use Rattle.chan_deck.specs.Explanation.{IsExplained};
ghost use Rattle.chan_deck.specs.VerdictLine.{verdict_line};
ghost use Rattle.chan_walk.specs.JobSurvey.{IsSurvey};
ghost use Rattle.chan_walk.specs.Offence.{first_verdict};
ghost use Rattle.chan_walk.specs.declared.verdict.Verdict.TheVariants.{Yes};
ghost use Rattle.chan_why.specs.Findings.{AreFindings};
ghost use Rattle.chan_run.specs.Manner.{manner_of};
ghost use Rattle.chan_run.specs.Name.{heading_of, name_before, name_in};
ghost use Rattle.chan_run.specs.NoJob.{no_job_line};
ghost use Rattle.chan_run.specs.Output.{IsActionOutput, IsNeeded, asked_by};
ghost use Rattle.chan_run.specs.Response.{IsActionAnswer, IsWantedAdvice, advice_in};

use crate::least_job::least_deck_text;
use crate::manner::manner_of;
use crate::name::{Naming, heading_of, named};
use ccw_core::Area;
use chan_args::{Action, Asked};
use chan_deck::{
    Cause, graph_text, hint_text, limit_note, listing_text, needs_advice, needs_text, range_text,
    verdict_text, why_advice, why_text, wide_listing,
};
use chan_needs::needs_from;
use chan_walk::{Job, Limit, Survey, Verdict};
use chan_why::{Findings, findings_from};
use std::alloc::{AllocError, Global};

/// What is written, and what is said beside it.
#[derive(Drop)]
pub(crate) struct Answer {
    pub(crate) output: Vec<u8>,
    /// `None` if memory ran out for it.
    pub(crate) advice: Option<Vec<u8>>,
}

/// The answer to an action on a job that was surveyed, whose input is named so.
pub(crate) fn answer_of(
    alloc: Global,
    naming: Naming<'_>,
    action: Action,
    job: &Job,
    survey: Survey,
) -> Result<Answer, AllocError>
    requires { IsSurvey job.now survey }
    ensures { IfOk result (IsActionAnswer naming.entry action job.now
        (first_verdict survey.offences)) }
{
    match action {
        Action::Verify => {
            let line = verdict_text(alloc, survey.verdict())?;
            unadvised(alloc, text_after(alloc, naming.name, line))
        }
        Action::List { wide } => unadvised(alloc, list_output(alloc, naming, wide, job, survey)),
        Action::Range { start, len } => {
            let range = Area { start, len };
            let text = range_text(alloc, job, range, survey.verdict())?;
            unadvised(alloc, text_under(alloc, naming, text.as_bytes()))
        }
        Action::Why(explained) => why_answer(alloc, naming, explained, job, survey),
        Action::Needs { deck } => needs_answer(alloc, naming, deck, job, survey),
        Action::Graph => {
            let findings = findings_from(alloc, job, survey, None)?;
            let picture = graph_text(alloc, naming.name, findings)?;
            unadvised(alloc, Ok(picture.into_bytes()))
        }
    }
}

/// An answer with this output and without advice.
fn unadvised(alloc: Global, output: Result<Vec<u8>, AllocError>) -> Result<Answer, AllocError>
    ensures { IfOk result (λ a. (output ≡ Ok a.output) × (advice_in a.advice ≡ Some [])) }
{
    Ok(Answer {
        output: output?,
        advice: Some(Vec::new(alloc)),
    })
}

/// The listing of the places, or the wide one, behind its heading.
fn list_output(
    alloc: Global,
    naming: Naming<'_>,
    wide: bool,
    job: &Job,
    survey: Survey,
) -> Result<Vec<u8>, AllocError>
    requires { IsSurvey job.now survey }
    ensures { IfOk result (λ text. IsActionOutput naming.entry (actions.List wide) job.now
        (first_verdict survey.offences) text.items) }
{
    let verdict = survey.verdict();
    let (looks, offences) = survey.into_parts()?;
    if wide {
        let listing = wide_listing(alloc, job, &looks, &offences, verdict)?;
        return text_under(alloc, naming, listing.as_bytes());
    }
    let listing = listing_text(alloc, looks.as_slice(), verdict)?;
    text_under(alloc, naming, listing.as_slice())
}

/// The explanation of the verdict, or of the offence at an address, after the name of the input.
fn why_answer(
    alloc: Global,
    naming: Naming<'_>,
    explained: Asked,
    job: &Job,
    survey: Survey,
) -> Result<Answer, AllocError>
    requires { IsSurvey job.now survey }
    ensures { IfOk result (IsActionAnswer naming.entry (actions.Why explained) job.now
        (first_verdict survey.offences)) }
{
    let findings = findings_from(alloc, job, survey, asked_by(explained))?;
    let why = why_text(alloc, &findings, matches!(explained, Asked::All))?;
    Ok(Answer {
        output: text_after(alloc, naming.name, why)?,
        advice: fronted(alloc, naming, why_advice(alloc, &findings)),
    })
}

/// The address that is asked about, if one is.
fn asked_by(explained: Asked) -> Option<u32>
    ensures { result ≡ asked_by explained }
{
    match explained {
        Asked::At(address) => Some(address),
        _ => None,
    }
}

/// What the program of an open job needs, or where the verdict is no, its explanation, under its
/// heading; or the deck with its least job, and nothing if there is none.
fn needs_answer(
    alloc: Global,
    naming: Naming<'_>,
    deck: bool,
    job: &Job,
    survey: Survey,
) -> Result<Answer, AllocError>
    requires { IsSurvey job.now survey }
    ensures { IfOk result (IsActionAnswer naming.entry (actions.Needs deck) job.now
        (first_verdict survey.offences)) }
{
    if let Verdict::No { .. } = survey.verdict() {
        let findings = findings_from(alloc, job, survey, None)?;
        let why = why_unless(alloc, deck, &findings)?;
        return Ok(Answer {
            output: text_under(alloc, naming, why.as_bytes())?,
            advice: fronted(alloc, naming, needs_advice(alloc, &findings, deck)),
        });
    }
    let text = needed_text(alloc, deck, job, &survey)?;
    unadvised(alloc, text_under(alloc, naming, text.as_slice()))
}

/// The explanation of a no, unless a deck is asked for.
fn why_unless(alloc: Global, deck: bool, findings: &Findings) -> Result<String, AllocError>
    requires { AreFindings findings.now }
    ensures deck { deck ≡ true → IfOk result (λ text. string_bytes text ≡ []) }
    ensures why { deck ≡ false → IfOk result (λ text. IsExplained findings.now.asked
        findings.now.job.now (first_verdict findings.now.survey.offences) (string_bytes text)) }
{
    if deck {
        return Ok(String::new(alloc));
    }
    why_text(alloc, findings, false)
}

/// What the program of a job needs whose verdict is yes, or the deck with its least job.
fn needed_text(alloc: Global, deck: bool, job: &Job, survey: &Survey) -> Result<Vec<u8>, AllocError>
    requires survey { IsSurvey job.now survey.now }
    requires yes { first_verdict survey.now.offences ≡ Yes }
    ensures { IfOk result (λ text. IsNeeded deck job.now Yes text.items) }
{
    let needs = needs_from(alloc, job, survey)?;
    if deck {
        return least_deck_text(alloc, job, &needs);
    }
    needs_text(alloc, &needs)
}

/// What is said of an image, which may have a name, if no job will do for its program; `why` is the
/// explanation of the verdict on its open job, with notes.
pub(crate) fn no_job_text(
    alloc: Global,
    name: Option<&str>,
    why: &str,
) -> Result<String, AllocError>
    ensures { IfOk result (λ text. string_bytes text
        ≡ no_job_line (name_in name.entry) ++ why.now) }
{
    let (name, mark) = named(name, true);
    let no_job = "no job will do";
    Ok(format!(in alloc; "chanv: {name}{mark}{no_job}: {why}")?)
}

/// The hint on a line that is refused, if the action or the name of the input asks for it.
pub(crate) fn refusal_advice(
    alloc: Global,
    naming: Naming<'_>,
    action: Action,
    text: &[u8],
    line: u64,
    cause: Cause,
) -> Option<Vec<u8>>
    ensures { IsWantedAdvice (is_some naming.entry.name || (manner_of action).always_hints)
        (advice_in result) }
{
    if !(naming.name.is_some() || manner_of(action).always_hints) {
        return Some(Vec::new(alloc));
    }
    let hint = hint_text(alloc, text, line, cause).ok()?;
    fronted_lines(alloc, naming, hint.as_slice()).ok()
}

/// What the limit on places is, and how it may be raised, if the action or the name asks for it.
pub(crate) fn limit_advice(
    alloc: Global,
    naming: Naming<'_>,
    action: Action,
    limit: Limit,
) -> Option<Vec<u8>>
    ensures { IsWantedAdvice (is_some naming.entry.name || (manner_of action).tells_limit)
        (advice_in result) }
{
    if !(naming.name.is_some() || manner_of(action).tells_limit) {
        return Some(Vec::new(alloc));
    }
    fronted(alloc, naming, limit_note(alloc, limit))
}

/// A text with the name of one of several inputs before each line, unless memory ran out for it.
fn fronted(alloc: Global, naming: Naming<'_>, text: Result<String, AllocError>) -> Option<Vec<u8>> {
    fronted_lines(alloc, naming, text.ok()?.as_bytes()).ok()
}

/// The same of bytes.
fn fronted_lines(alloc: Global, naming: Naming<'_>, text: &[u8]) -> Result<Vec<u8>, AllocError> {
    let (name, mark) = named(naming.name, naming.is_among);
    let mut said = Vec::new(alloc);
    let mut begins = true;
    for byte in text {
        if begins {
            said.extend_from_slice(name.as_bytes())?;
            said.extend_from_slice(mark.as_bytes())?;
        }
        said.push(*byte)?;
        begins = *byte == b'\n';
    }
    Ok(said)
}

/// A text after the name that the input may have, a colon and a space.
fn text_after(alloc: Global, name: Option<&str>, text: String) -> Result<Vec<u8>, AllocError>
    ensures { IfOk result (λ named. named.items
        ≡ name_before (name_in name.entry) true ++ string_bytes text) }
{
    match name {
        None => Ok(text.into_bytes()),
        Some(name) => Ok(format!(in alloc; "{name}: {text}")?.into_bytes()),
    }
}

/// A text behind the heading that the input may have.
fn text_under(alloc: Global, naming: Naming<'_>, text: &[u8]) -> Result<Vec<u8>, AllocError>
    ensures { IfOk result (λ headed. headed.items ≡ heading_of naming.entry ++ text.now) }
{
    let mut headed = heading_of(alloc, naming)?;
    headed.extend_from_slice(text)?;
    Ok(headed)
}
