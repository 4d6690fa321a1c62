//! The explanation of a verdict: what `chanv why` writes.

ghost use Rattle.std.specs.Prelude.{◌≡◌, ◌++◌, string_bytes, IfOk, OnOk};
ghost use Rattle.chan_deck.specs.Explanation as texts;
ghost use Rattle.chan_deck.specs.Explanation.{AddsText, ArePathRows, AreSecondRows, IsPathRow};
ghost use Rattle.chan_deck.specs.Explanation.{IsExplained, IsExplanationText, IsOffenceText};
ghost use Rattle.chan_deck.specs.Explanation.{IsWitnessText};
ghost use Rattle.chan_walk.specs.Offence.{first_verdict};
ghost use Rattle.chan_why.specs.Findings.{AreFindings};

use crate::because::push_evidence;
use crate::deck_digits::byte_digits;
use crate::listing::{push_words, standing_at};
use crate::verdict_line::verdict_text;
use ccw_core::push_ascii;
use chan_walk::{Evidence, Job, Offence, Place, Setting, Survey, Verdict, setting_at};
use chan_why::{Findings, Witness};
use ckd_core::Track;
use std::alloc::{AllocError, Global};
use std::fmt::Write as _;

/// Adds what an operation sets, if it sets anything.
pub(crate) fn push_setting(out: &mut String, setting: Option<Setting>) -> Result<(), AllocError>
    ensures { OnOk result (string_bytes out.new
        ≡ string_bytes out.old ++ texts.setting_text setting) }
{
    match setting {
        None => Ok(()),
        Some(Setting::Arm(Track { cylinder, head })) => {
            write!(out, " (cylinder {cylinder}, head {head})")
        }
        Some(Setting::Mask(byte)) => {
            out.push_str(" (mask ")?;
            push_ascii(out, &byte_digits(byte))?;
            out.push_str(")")
        }
    }
}

/// Adds the row of a place of a path, with what is set there.
fn push_path_row(out: &mut String, job: &Job, place: Place, marked: bool) -> Result<(), AllocError>
    ensures { OnOk result (AddsText (IsPathRow job.now place marked) (string_bytes out.old)
        (string_bytes out.new)) }
{
    let (ccw, command) = standing_at(job, place.address);
    push_words(out, place, ccw, command, marked)?;
    push_setting(out, setting_at(job, place))?;
    out.push('\n')
}

/// Adds a row for each place of a path, the last of them marked.
fn push_path(out: &mut String, job: &Job, path: &[Place]) -> Result<(), AllocError>
    ensures { OnOk result (AddsText (ArePathRows job.now path.now) (string_bytes out.old)
        (string_bytes out.new)) }
{
    for at in 0..path.len() {
        push_path_row(out, job, path[at], at + 1 == path.len())?;
    }
    Ok(())
}

/// Adds the path to what is changed, if there is one.
fn push_second(out: &mut String, job: &Job, path: &[Place]) -> Result<(), AllocError>
    ensures { OnOk result (AddsText (AreSecondRows job.now path.now) (string_bytes out.old)
        (string_bytes out.new)) }
{
    if path.is_empty() {
        return Ok(());
    }
    out.push_str("reached by\n")?;
    push_path(out, job, path)
}

/// What follows `because` on a path: the evidence, and the line that says which place stores over
/// what stands at the path's end, if one does. Tests hold the text.
fn cause_text(
    alloc: Global,
    evidence: Evidence,
    stored_over: Option<Place>,
) -> Result<String, AllocError> {
    let mut text = String::new(alloc);
    push_evidence(alloc, &mut text, evidence)?;
    text.push('\n')?;
    if let Some(place) = stored_over {
        let address = place.address;
        write!(
            text,
            "stored over by {address:06X}: what will stand there is not judged\n"
        )?;
    }
    Ok(text)
}

/// Whether two offences have one address and one reason.
fn offend_alike(one: Offence, other: Offence) -> bool {
    one.place.address == other.place.address && one.reason.number() == other.reason.number()
}

/// Adds the line of an offence beside the first, and that of its evidence, if there is any.
fn push_also(
    alloc: Global,
    out: &mut String,
    offence: Offence,
    evidence: Option<Evidence>,
) -> Result<(), AllocError> {
    let (address, word) = (offence.place.address, offence.reason.word());
    write!(out, "also {address:06X} {word}\n")?;
    if let Some(evidence) = evidence {
        out.push_str("because ")?;
        push_evidence(alloc, out, evidence)?;
        out.push('\n')?;
    }
    Ok(())
}

/// A line for each address and reason but the first, and behind it that of the offence's evidence,
/// if there is any. Tests hold the text.
fn others_text(
    alloc: Global,
    offences: &[Offence],
    evidence: &[Evidence],
) -> Result<String, AllocError> {
    let mut text = String::new(alloc);
    for at in 1..offences.len() {
        if !offend_alike(offences[at - 1], offences[at]) {
            push_also(alloc, &mut text, offences[at], evidence.get(at).copied())?;
        }
    }
    Ok(text)
}

/// Adds what shows that a verdict is no, if it is: the path, the cause, and the path to what is
/// changed.
fn push_witness(
    alloc: Global,
    out: &mut String,
    job: &Job,
    witness: &Witness,
) -> Result<(), AllocError>
    ensures { OnOk result (AddsText (IsWitnessText job.now witness.now witness.now.evidence)
        (string_bytes out.old) (string_bytes out.new)) }
{
    let Some(evidence) = witness.evidence else {
        return Ok(());
    };
    push_path(out, job, witness.path.as_slice())?;
    out.push_str("because ")?;
    let cause = cause_text(alloc, evidence, witness.stored_over)?;
    out.push_str(cause.as_str())?;
    push_second(out, job, witness.second_path.as_slice())
}

/// The line of a verdict, and what shows an offence: the path to an offending place, a row for each
/// place, the last marked; the cause, with its values; the place that stores over the path's end;
/// and the path to the CCW or argument that is changed. An error means that an allocation failed.
///
/// The rows show the CCWs in the job's storage, whether or not the witness is the job's. A row at
/// which a seek, Recalibrate or Set File Mask begins says at its end what it sets.
fn offence_text(
    alloc: Global,
    job: &Job,
    verdict: Verdict,
    witness: &Witness,
) -> Result<String, AllocError>
    ensures { IfOk result (λ t. IsOffenceText job.now verdict witness.now (string_bytes t)) }
{
    let mut text = verdict_text(alloc, verdict)?;
    push_witness(alloc, &mut text, job, witness)?;
    Ok(text)
}

/// The explanation of a verdict as text: that of `offence_text` for the witness of its offence, and
/// a line for each other address and reason that offends, followed by the line of its cause if the
/// caller hands in the evidence of all offences. An error means that an allocation failed.
pub fn explanation_text(
    alloc: Global,
    job: &Job,
    survey: &Survey,
    witness: &Witness,
    evidence: &[Evidence],
) -> Result<String, AllocError>
    ensures { IfOk result
        (λ t. IsExplanationText job.now survey.now.offences witness.now (string_bytes t)) }
{
    let mut text = offence_text(alloc, job, survey.verdict(), witness)?;
    let offences = survey.offences();
    if offences.len() <= 1 {
        return Ok(text);
    }
    let others = others_text(alloc, offences, evidence)?;
    text.push_str(others.as_str())?;
    Ok(text)
}

/// The explanation of what was found: that of the offence that is asked about, if one is there, and
/// else that of the verdict, with the cause of each other offence if it is wanted. An error means
/// that an allocation failed.
pub fn why_text(alloc: Global, findings: &Findings, has_causes: bool) -> Result<String, AllocError>
    requires { AreFindings findings.now }
    ensures { IfOk result (λ t. IsExplained findings.now.asked findings.now.job.now
        (first_verdict findings.now.survey.offences) (string_bytes t)) }
{
    let (job, survey) = (findings.job, &findings.survey);
    if let Some(_offence) = findings.requested {
        return offence_text(alloc, job, survey.verdict(), &findings.witness);
    }
    let causes = if has_causes {
        findings.evidence.as_slice()
    } else {
        &[]
    };
    explanation_text(alloc, job, survey, &findings.witness, causes)
}
