//! How the program ends: its exit status, and its line on standard error.

ghost use Rattle.std.specs.Prelude.{◌≡◌, ◌≤◌, ◌↔◌, ◌⊎◌, ◌++◌, false, true, IsErr, IsTrue};
ghost use Rattle.std.specs.Prelude.{IsErrOf, IsOk};
ghost use Rattle.chan_run.specs.Name.{name_in};
ghost use Rattle.chan_run.specs.Outcome.{IsCarriedOut, IsWriteFailure, line_over};
ghost use Rattle.chan_run.specs.Outcome.{outcome_of_show, outcome_of_write, status_of};
ghost use Rattle.chan_run.specs.Response.{outcome_of};
ghost use Rattle.chan_run.specs.Texts.{WriterGot};
ghost use Rattle.chan_run.specs.declared.outcome.Outcome.TheVariants.{Done, Failed, Refused};
ghost use Rattle.chan_run.specs.declared.outcome.Outcome.TheVariants.{Unknown};

use crate::failure::{Failure, LISTS_ALL, UNKNOWN};
use crate::name::named;
use crate::one_ccw::ShowError;
use crate::texts::write_texts;
use ccw_core::{DeviceFault, Watched, write_out};
use chan_deck::Cause;
use chan_walk::{Reason, Verdict};
use itoa::Buffer;
use std::alloc::AllocError;
use std::io::Write;

/// How a run of the program ended. The texts of help, of the version, of a usage fault and on a
/// program that no job will do for are written before.
#[derive(Clone, Copy, PartialEq, Eq)]
pub enum Outcome {
    /// All that was asked for was written.
    Done,
    /// All was written, and the verdict is no.
    Denied,
    /// The text isn't a deck.
    Refused { line: u64, cause: Cause },
    /// The least job was asked for, and this is the verdict on the open job.
    NoJob { address: u32, reason: Reason },
    /// The word has no meaning, and this one is the nearest.
    Unknown(&'static str),
    /// There is no answer, for this reason.
    Failed(Failure),
}

impl Outcome {
    /// What `show` came to.
    pub fn of_show(answer: Result<(), ShowError>) -> Outcome
        ensures is { result ≡ outcome_of_show answer }
        ensures write { IsWriteFailure result ↔ IsErrOf answer ShowError.Write }
    {
        match answer {
            Ok(()) => Outcome::Done,
            Err(ShowError::NotCcw) => Outcome::Failed(Failure::NotCcw),
            Err(ShowError::Memory) => Outcome::Failed(Failure::OutOfMemory),
            Err(ShowError::Write) => Outcome::Failed(Failure::WriteFailed),
        }
    }

    /// What an answer comes to that has this verdict.
    pub(crate) fn of_verdict(verdict: Verdict) -> Outcome
        ensures { result ≡ outcome_of verdict }
    {
        match verdict {
            Verdict::Yes => Outcome::Done,
            Verdict::No { .. } => Outcome::Denied,
        }
    }

    /// What a write of all that was asked for came to.
    pub(crate) fn of_write(answer: Result<(), DeviceFault>) -> Outcome
        ensures is { result ≡ outcome_of_write answer }
        ensures done { result ≡ Done ↔ IsOk answer }
        ensures write { IsWriteFailure result ↔ IsErr answer }
    {
        match answer {
            Ok(()) => Outcome::Done,
            Err(_) => Outcome::Failed(Failure::WriteFailed),
        }
    }
}

impl From<AllocError> for Outcome {
    ghost use Rattle.std.specs.Prelude.{◌≡◌};
    ghost use Rattle.chan_run.specs.declared.failure.Failure.TheVariants.{OutOfMemory};
    ghost use Rattle.chan_run.specs.declared.outcome.Outcome.TheVariants.{Failed};

    ghost from_gives = { λ _ end. end ≡ Failed OutOfMemory };

    fn from(_error: AllocError) -> Outcome {
        Outcome::Failed(Failure::OutOfMemory)
    }
}

/// Writes the outcome's line, if it has one, over an input that may have a name, and gives the exit
/// status. It takes no memory. A writer that fails doesn't change the status, and a prefix of the
/// line was written.
///
/// If the line is about the input, its name, a colon and a space come after `chanv: `. A line about
/// a failed allocation for the command line, about help or about a failed write names no input.
pub fn report<W: Write>(name: Option<&str>, outcome: Outcome, to: &mut Watched<W>) -> u8
    requires { to.old.failed ≡ false }
    ensures status { result ≡ status_of outcome }
    ensures said { WriterGot (line_over (name_in name.entry) outcome)
        (W.contents to.old.device) (W.contents to.new.device) to.new.failed }
{
    let _ = write_line(name, outcome, to);
    exit_status(outcome)
}

/// Writes the text of a usage fault, and gives the exit status, 4. It takes no memory. If the
/// writer fails, the status is the same, and a prefix of the text was written.
pub fn report_usage<W: Write>(text: &str, to: &mut Watched<W>) -> u8
    requires { to.old.failed ≡ false }
    ensures status { result ≡ 4 }
{
    let _ = write_out(text.as_bytes(), to);
    4
}

/// Whether a write failed, so that a run over several inputs ends with this one.
pub fn ends_run(outcome: Outcome) -> bool
    ensures { IsTrue result ↔ IsWriteFailure outcome }
{
    matches!(outcome, Outcome::Failed(Failure::WriteFailed))
}

/// Whether all was done that was asked for.
pub(crate) fn is_done(outcome: Outcome) -> bool
    ensures { IsTrue result ↔ IsCarriedOut outcome }
{
    matches!(outcome, Outcome::Done | Outcome::Denied)
}

/// The exit status of a run over several inputs, from that of those before and that of one more:
/// the greater of the two.
pub fn greater_status(so_far: u8, status: u8) -> u8
    ensures least { (so_far ≤ result) × (status ≤ result) }
    ensures one { (result ≡ so_far) ⊎ (result ≡ status) }
{
    so_far.max(status)
}

/// The exit status of an outcome.
pub fn exit_status(outcome: Outcome) -> u8
    ensures { result ≡ status_of outcome }
{
    match outcome {
        Outcome::Done => 0,
        Outcome::Denied => 1,
        Outcome::Refused { .. } => 2,
        Outcome::NoJob { .. } => Failure::NoJobWillDo.status(),
        Outcome::Unknown(_) => Failure::NoSuchWord.status(),
        Outcome::Failed(failure) => failure.status(),
    }
}

/// Writes the line of an outcome over an input that may have a name, if it has one. It takes no
/// memory.
pub(crate) fn write_line<W: Write>(
    name: Option<&str>,
    outcome: Outcome,
    to: &mut Watched<W>,
) -> Result<(), DeviceFault>
    requires { to.old.failed ≡ false }
    ensures said { WriterGot (line_over (name_in name.entry) outcome)
        (W.contents to.old.device) (W.contents to.new.device) to.new.failed }
    ensures fault { IsErr result ↔ (to.new.failed ≡ true) }
{
    match outcome {
        Outcome::Refused { line, cause } => write_refusal(name, line, cause, to),
        Outcome::Unknown(nearest) => write_unknown(name, nearest, to),
        Outcome::Failed(failure) => write_failure(name, failure, to),
        _ => Ok(()),
    }
}

/// Writes the line on a line of a deck that is refused for this cause.
fn write_refusal<W: Write>(
    name: Option<&str>,
    line: u64,
    cause: Cause,
    to: &mut Watched<W>,
) -> Result<(), DeviceFault>
    requires { to.old.failed ≡ false }
    ensures said { WriterGot (line_over (name_in name.entry) (Refused line cause))
        (W.contents to.old.device) (W.contents to.new.device) to.new.failed }
    ensures fault { IsErr result ↔ (to.new.failed ≡ true) }
{
    let (name, mark) = named(name, true);
    let mut buffer = Buffer::new();
    let number = buffer.format(line);
    write_texts(
        &[
            "chanv: ",
            name,
            mark,
            "deck line ",
            number,
            ": ",
            cause.word(),
            "\n",
        ],
        to,
    )
}

/// Writes the line on an unknown word that may be named, and the nearest.
fn write_unknown<W: Write>(
    name: Option<&str>,
    nearest: &'static str,
    to: &mut Watched<W>,
) -> Result<(), DeviceFault>
    requires { to.old.failed ≡ false }
    ensures said { WriterGot (line_over (name_in name.entry) (Unknown nearest.entry))
        (W.contents to.old.device) (W.contents to.new.device) to.new.failed }
    ensures fault { IsErr result ↔ (to.new.failed ≡ true) }
{
    let (name, mark) = named(name, true);
    write_texts(&["chanv: ", name, mark, UNKNOWN, nearest, LISTS_ALL], to)
}

/// Writes the line of a failure.
fn write_failure<W: Write>(
    name: Option<&str>,
    failure: Failure,
    to: &mut Watched<W>,
) -> Result<(), DeviceFault>
    requires { to.old.failed ≡ false }
    ensures said { WriterGot (line_over (name_in name.entry) (Failed failure))
        (W.contents to.old.device) (W.contents to.new.device) to.new.failed }
    ensures fault { IsErr result ↔ (to.new.failed ≡ true) }
{
    let (name, mark) = named(name, failure.is_on_input());
    write_texts(&["chanv: ", name, mark, failure.line()], to)
}
