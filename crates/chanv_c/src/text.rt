//! The text that explains the verdict on a channel program.

ghost use Rattle.std.specs.Prelude.{◌≡◌, ◌≢◌, ℕ, ◌<◌, ◌≤◌, IfOk, IfErr, OnOk};
ghost use Rattle.chanv_c.specs.Answers.{HasTooMany, IsAnswerCode, IsRefusal};
ghost use Rattle.chanv_c.specs.Faults.{HasNoFault};
ghost use Rattle.chanv_c.specs.declared.text.VerdictText as declared;
ghost use Rattle.chanv_c.specs.Text.{IsText, IsWrittenWhole, IsTextTooLong};
ghost use Rattle.chanv_c.specs.Text.{verdict_code};
ghost use Rattle.chanv_c.specs.declared.codes.TheConstants.{NO, NO_ROOM};

use crate::c_job::{CJob, make_ready};
use crate::c_place::write_list;
use crate::codes::{NO, NO_ROOM, YES};
use crate::refusal::Refusal;
use chan_deck::explanation_text;
use chan_walk::{Verdict, survey};
use chan_why::witness_from;
use std::alloc::Global;

/// The verdict on a job, and the text that explains it.
#[derive(Drop)]
pub(crate) struct VerdictText {
    verdict: Verdict,
    text: String,
}

/// Writes the text that explains the verdict on the job, as `chanv why` prints it: `YES` if the
/// program may run, `NO` if it may not, `NO_ROOM` if the text is longer than `buffer`; then `len`
/// is its length. Otherwise it says why there is no answer, like `chanv_verify`, and `len` is 0.
/// `buffer` is written only for `YES` and `NO`.
#[unsafe(no_mangle)]
pub extern "C" fn chanv_text(
    alloc: Global,
    job: &CJob<'_>,
    buffer: &mut [u8],
    len: &mut usize,
) -> u32
    ensures written { result ≤ NO → (t : declared.VerdictText) × IsText job.now t
        × (result ≡ verdict_code t.verdict) × IsWrittenWhole t len.new buffer.old buffer.new }
    ensures room { result ≡ NO_ROOM → (t : declared.VerdictText) × IsText job.now t
        × IsTextTooLong t len.new buffer.old }
    ensures kept { NO < result → buffer.new ≡ buffer.old }
    ensures number { (extent : ℕ) × IsAnswerCode (HasTooMany job.now) job.now result extent }
    ensures no_len { NO < result → result ≢ NO_ROOM → len.new ≡ 0 }
{
    *len = 0;
    let found = match text_on(alloc, job) {
        Ok(found) => found,
        Err(refusal) => return refusal.code(),
    };
    let text = found.text.as_bytes();
    *len = text.len();
    if buffer.len() < text.len() {
        return NO_ROOM;
    }
    write_list(text, buffer);
    code_of(found.verdict)
}

/// The number of a verdict in the header.
fn code_of(verdict: Verdict) -> u32
    ensures { result ≡ verdict_code verdict }
{
    match verdict {
        Verdict::Yes => YES,
        Verdict::No { .. } => NO,
    }
}

/// The verdict on the job that C asks about, with the text that explains it.
#[tactic(auto, using(crate::proofs::Refusals::asked_refused))]
fn text_on(alloc: Global, asked: &CJob<'_>) -> Result<VerdictText, Refusal>
    ensures answer { IfOk result (IsText asked.now) }
    ensures right { OnOk result (HasNoFault asked.now) }
    ensures refusal { IfErr result (IsRefusal (HasTooMany asked.now) asked.now) }
{
    let ready = make_ready(alloc, asked)?;
    let job = ready.job(asked);
    let survey = survey(alloc, &job)?;
    let witness = witness_from(alloc, &survey)?;
    let text = explanation_text(alloc, &job, &survey, &witness, &[])?;
    Ok(VerdictText {
        verdict: survey.verdict(),
        text,
    })
}
