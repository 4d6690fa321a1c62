//! Running over a deck: from the reader's bytes to the writer's.

ghost use Rattle.std.specs.Prelude.{◌≡◌, ◌↔◌, false, true, IfErr, IfOk, IsErrOf, IsOk};
ghost use Rattle.chan_run.specs.Input.{IsInput, IsReadFault};
ghost use Rattle.chan_run.specs.Name.{unnamed};
ghost use Rattle.chan_run.specs.Outcome.{IsCarriedOut, IsRunEnd, IsWriteFailure, outcome_of_run};
ghost use Rattle.chan_run.specs.Response.{IsInputDelivered, IsInputResponse, IsRunOutput};
ghost use Rattle.chan_run.specs.declared.failure.Failure.TheVariants as failures;
ghost use Rattle.chan_run.specs.declared.outcome.Outcome.TheVariants.{Failed};

use crate::delivery::{deliver, write_output};
use crate::failure::Failure;
use crate::input::{TEXT_LIMIT, read_input};
use crate::name::Naming;
use crate::outcome::Outcome;
use crate::response::{Response, respond};
use ccw_core::Watched;
use chan_args::Action;
use chan_deck::Cause;
use std::alloc::Global;
use std::io::{Read, Write};
use thiserror::Error;

/// The kind of a verdict.
#[derive(Clone, Copy, PartialEq, Eq)]
pub enum Status {
    /// The program may run.
    Yes,
    /// It may not.
    No,
}

/// Why a run gave no verdict, or couldn't write it, in the order of the work.
#[derive(Clone, Copy, PartialEq, Eq, Debug, Error)]
pub enum RunError {
    /// A read failed, before more than 67,108,864 bytes came.
    #[error("read failed")]
    Read,
    /// More than 67,108,864 bytes came.
    #[error("deck too long")]
    TooLong,
    /// The text is no deck.
    #[error("deck line {line}")]
    Deck { line: u64, cause: Cause },
    /// More places of the deck's program are reachable than its limit.
    #[error("too many places")]
    TooManyPlaces,
    /// A write failed.
    #[error("write failed")]
    Write,
    /// An allocation was refused.
    #[error("out of memory")]
    Memory,
}

/// Reads a deck to the end of the input, verifies its job, and writes the output of the action. For
/// `Needs` it verifies the open job of the deck's program in place of the deck's own.
///
/// Nothing is written before the whole deck was judged: after `Write` a prefix of the text was
/// written, and after any other error nothing. `Read` and `Write` come exactly if the device
/// failed, and `Read` only before more than 67,108,864 bytes came. Over an endless reader it
/// returns, with `TooLong`.
pub fn run<R: Read, W: Write>(
    alloc: Global,
    action: Action,
    from: &mut Watched<R>,
    to: &mut Watched<W>,
) -> Result<Status, RunError>
    requires reader { from.old.failed ≡ false }
    requires writer { to.old.failed ≡ false }
    ensures answer { IsRunOutput unnamed action (R.remaining from.old.device)
        (R.remaining from.new.device) (W.contents to.old.device) (W.contents to.new.device)
        (outcome_of_run result) }
    ensures early { (IsOk result → ⊥) → (IsErrOf result RunError.Write → ⊥) → to.new ≡ to.old }
    ensures read { IsErrOf result RunError.Read ↔ (from.new.failed ≡ true) }
    ensures write { IsErrOf result RunError.Write ↔ (to.new.failed ≡ true) }
{
    let unnamed = Naming {
        name: None,
        is_among: false,
    };
    let response = respond_to_input(alloc, unnamed, action, from);
    match write_output(&response, to) {
        Ok(()) => run_result(response.outcome),
        Err(_) => Err(RunError::Write),
    }
}

/// What a run came to whose answer was written.
fn run_result(end: Outcome) -> Result<Status, RunError>
    requires { IsRunEnd end }
    ensures { outcome_of_run result ≡ end }
{
    match end {
        Outcome::Done => Ok(Status::Yes),
        Outcome::Denied => Ok(Status::No),
        Outcome::Refused { line, cause } => Err(RunError::Deck { line, cause }),
        Outcome::Failed(Failure::ReadFailed) => Err(RunError::Read),
        Outcome::Failed(Failure::DeckTooLong) => Err(RunError::TooLong),
        Outcome::Failed(Failure::TooManyPlaces) => Err(RunError::TooManyPlaces),
        _ => Err(RunError::Memory),
    }
}

/// Reads an input to its end, and gives the answer to its text, or why it wasn't read.
pub(crate) fn respond_to_input<R: Read>(
    alloc: Global,
    naming: Naming<'_>,
    action: Action,
    from: &mut Watched<R>,
) -> Response
    requires { from.old.failed ≡ false }
    ensures answer { IsInputResponse naming.entry action (R.remaining from.old.device)
        (R.remaining from.new.device) result }
    ensures end { IsRunEnd result.outcome }
    ensures read { result.outcome ≡ Failed failures.ReadFailed ↔ (from.new.failed ≡ true) }
{
    match read_text(alloc, from) {
        Ok(text) => respond(alloc, naming, action, text.as_slice()),
        Err(failure) => Response::bare(alloc, Outcome::Failed(failure), ""),
    }
}

/// The text of the input, read to its end: at most 67,108,864 bytes.
///
/// `ReadFailed` comes exactly where the reader failed, before more bytes came; `DeckTooLong` where
/// more came; `OutOfMemory` where an allocation was refused; and no other failure. Over an endless
/// reader it returns, with `DeckTooLong`.
fn read_text<R: Read>(alloc: Global, from: &mut Watched<R>) -> Result<Vec<u8>, Failure>
    requires { from.old.failed ≡ false }
    ensures ok { IfOk result (λ text. IsInput (R.remaining from.old.device)
        (R.remaining from.new.device) text.items) }
    ensures err { IfErr result (IsReadFault (R.remaining from.old.device)
        (R.remaining from.new.device)) }
    ensures read { IsErrOf result failures.ReadFailed ↔ (from.new.failed ≡ true) }
{
    match read_input(alloc, TEXT_LIMIT, from) {
        Ok(Some(text)) => Ok(text),
        Ok(None) => Err(Failure::DeckTooLong),
        Err(failure) => Err(failure),
    }
}

/// Judges the deck of one input. The first writer gets the answer, the second what is said of it.
///
/// On the first writer stands the output of `respond`, and it is flushed where all of it was
/// written. On the second stands the outcome's line, as `report` writes it, and the advice behind
/// it; in its place may come the line that memory ran out, which doesn't change the outcome.
///
/// The input is read once. The outcome is that of `respond`, or why the input wasn't read, or a
/// failed write. A second writer that fails doesn't change it, and a prefix was written there.
pub fn judge_deck<R: Read, W: Write, E: Write>(
    alloc: Global,
    naming: Naming<'_>,
    action: Action,
    from: &mut Watched<R>,
    to: &mut Watched<W>,
    errors: &mut Watched<E>,
) -> Outcome
    requires reader { from.old.failed ≡ false }
    requires writer { to.old.failed ≡ false }
    requires errors { errors.old.failed ≡ false }
    ensures answer { IsInputDelivered naming.entry action (R.remaining from.old.device)
        (R.remaining from.new.device) (W.contents to.old.device) (W.contents to.new.device)
        (E.contents errors.old.device) (E.contents errors.new.device) errors.new.failed result }
    ensures early { (IsCarriedOut result → ⊥) → (IsWriteFailure result → ⊥) → to.new ≡ to.old }
    ensures flushed { IsCarriedOut result → to.new.flushed ≡ true }
    ensures read { result ≡ Failed failures.ReadFailed ↔ (from.new.failed ≡ true) }
    ensures write { IsWriteFailure result ↔ (to.new.failed ≡ true) }
{
    let response = respond_to_input(alloc, naming, action, from);
    deliver(naming.name, &response, to, errors)
}
