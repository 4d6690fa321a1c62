//! Delivering an answer: its output, and what is said beside it.

ghost use Rattle.std.specs.Prelude.{◌≡◌, ◌↔◌, ◌++◌, false, true, IfErr, IfOk, IsErr, OnOk};
ghost use Rattle.std.specs.Io.KnownBytes.{Appends};
ghost use Rattle.ccw_core.specs.Written.{AppendsPrefix};
ghost use Rattle.chan_run.specs.Name.{name_in};
ghost use Rattle.chan_run.specs.Outcome.{IsCarriedOut, IsWriteFailure, line_over};
ghost use Rattle.chan_run.specs.Response.{IsDelivered, IsOutputWritten, error_text_of};
ghost use Rattle.chan_run.specs.Texts.{WriterGot};
ghost use Rattle.chan_run.specs.declared.failure.Failure.TheVariants as failures;
ghost use Rattle.chan_run.specs.declared.outcome.Outcome.TheVariants.{Failed};

use crate::failure::Failure;
use crate::outcome::{Outcome, is_done, write_line};
use crate::response::Response;
use crate::texts::write_bytes;
use ccw_core::{DeviceFault, Watched, write_out};
use std::io::Write;

/// Writes an answer over an input that may have a name, and says what came of it. It takes no
/// memory.
///
/// If all was done, the output is written and flushed; the outcome is a failed write if that fails.
/// Then it writes the outcome's line, as `report` does. Behind it comes the advice, or the line
/// that memory ran out for that, but not after a failed write; and then the note.
pub fn deliver<W: Write, E: Write>(
    name: Option<&str>,
    response: &Response,
    to: &mut Watched<W>,
    errors: &mut Watched<E>,
) -> Outcome
    requires writer { IsWriteFailure response.now.outcome ↔ (to.old.failed ≡ true) }
    requires errors { errors.old.failed ≡ false }
    ensures delivered { IsDelivered (name_in name.entry) response.now
        (W.contents to.old.device) (W.contents to.new.device)
        (E.contents errors.old.device) (E.contents errors.new.device) errors.new.failed result }
    ensures early { (IsCarriedOut response.now.outcome → ⊥) → to.new ≡ to.old }
    ensures flushed { IsCarriedOut result → to.new.flushed ≡ true }
    ensures write { IsWriteFailure result ↔ (to.new.failed ≡ true) }
{
    if is_done(response.outcome) && write_and_flush(response.output.as_slice(), to).is_err() {
        let failed = Outcome::Failed(Failure::WriteFailed);
        let _ = tell_line(name, failed, response.note.as_bytes(), errors);
        return failed;
    }
    let _ = tell(name, response, errors);
    response.outcome
}

/// Writes the output of an answer, if all was done.
pub(crate) fn write_output<W: Write>(
    response: &Response,
    to: &mut Watched<W>,
) -> Result<(), DeviceFault>
    requires { to.old.failed ≡ false }
    ensures put { IfOk result (λ _. IsOutputWritten response.now (W.contents to.old.device)
        (W.contents to.new.device) response.now.outcome) }
    ensures broken { IfErr result (λ _. IsOutputWritten response.now (W.contents to.old.device)
        (W.contents to.new.device) (Failed failures.WriteFailed)) }
    ensures early { (IsCarriedOut response.now.outcome → ⊥) → to.new ≡ to.old }
    ensures fault { IsErr result ↔ (to.new.failed ≡ true) }
{
    if is_done(response.outcome) {
        return write_out(response.output.as_slice(), to);
    }
    Ok(())
}

/// Writes an output and flushes it.
fn write_and_flush<W: Write>(output: &[u8], to: &mut Watched<W>) -> Result<(), DeviceFault>
    requires { to.old.failed ≡ false }
    ensures ok { OnOk result (Appends (W.contents to.old.device) (W.contents to.new.device)
        output.now) }
    ensures prefix { AppendsPrefix (W.contents to.old.device) (W.contents to.new.device)
        output.now }
    ensures flushed { OnOk result (to.new.flushed ≡ true) }
    ensures fault { IsErr result ↔ (to.new.failed ≡ true) }
{
    write_out(output, to)?;
    to.flush()
}

/// Writes what goes to the second writer: the outcome's line, the advice or the line that memory
/// ran out for it, and the note.
fn tell<E: Write>(
    name: Option<&str>,
    response: &Response,
    errors: &mut Watched<E>,
) -> Result<(), DeviceFault>
    requires { errors.old.failed ≡ false }
    ensures said { WriterGot (error_text_of (name_in name.entry) response.now)
        (E.contents errors.old.device) (E.contents errors.new.device) errors.new.failed }
    ensures fault { IsErr result ↔ (errors.new.failed ≡ true) }
{
    match &response.advice {
        Some(text) => {
            tell_line(name, response.outcome, text.as_slice(), errors)?;
            write_bytes(response.note.as_bytes(), errors)
        }
        None => {
            write_line(name, response.outcome, errors)?;
            let no_memory = Outcome::Failed(Failure::OutOfMemory);
            tell_line(name, no_memory, response.note.as_bytes(), errors)
        }
    }
}

/// Writes the line of an outcome, and more behind it.
#[tactic(auto, using(crate::proofs::Writing::got_front))]
fn tell_line<E: Write>(
    name: Option<&str>,
    outcome: Outcome,
    more: &[u8],
    errors: &mut Watched<E>,
) -> Result<(), DeviceFault>
    requires { errors.old.failed ≡ false }
    ensures said { WriterGot (line_over (name_in name.entry) outcome ++ more.now)
        (E.contents errors.old.device) (E.contents errors.new.device) errors.new.failed }
    ensures fault { IsErr result ↔ (errors.new.failed ≡ true) }
{
    write_line(name, outcome, errors)?;
    write_bytes(more, errors)
}
