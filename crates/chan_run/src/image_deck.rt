//! Answering an input with an image: the deck that is made of it.

ghost use Rattle.std.specs.Prelude.{◌≡◌, ◌↔◌, ◌+◌, ◌≤◌, ◌^◌, IfOk, Some, false, length, true};
ghost use Rattle.chan_run.specs.MadeDeck.{IsImageDelivered, IsImageInputResponse, IsImageResponse};
ghost use Rattle.chan_run.specs.Image.{HoldsOfOpenJob};
ghost use Rattle.chan_run.specs.MadeDeck.{IsNoJobAdvice, is_past_limit};
ghost use Rattle.chan_run.specs.NoJob.{IsExplainedOpenly};
ghost use Rattle.chan_run.specs.Name.{name_in};
ghost use Rattle.chan_run.specs.Outcome.{IsCarriedOut, IsImageEnd, IsWriteFailure};
ghost use Rattle.chan_run.specs.Response.{IsWantedAdvice, advice_in};
ghost use Rattle.chan_run.specs.Texts.{WriterGot};
ghost use Rattle.chan_run.specs.declared.failure.Failure.TheVariants as failures;
ghost use Rattle.chan_run.specs.declared.outcome.Outcome.TheVariants.{Failed};
ghost use Rattle.ccw_core.specs.declared.ccw.TheConstants.{STORAGE_LIMIT};
ghost use Rattle.chan_deck.specs.declared.image_note.TheConstants.{USUAL_DEVICE};

use crate::answer::no_job_text;
use crate::deck_parts::limit_in;
use crate::delivery::deliver;
use crate::failure::Failure;
use crate::image::{deck_text, read_image};
use crate::least_job::NoLeastJob;
use crate::outcome::Outcome;
use crate::response::Response;
use crate::texts::write_bytes;
use ccw_core::Watched;
use chan_args::ImageOptions;
use chan_deck::{USUAL_DEVICE, UnreadNotes, deck_note, image_notes, limit_note, room_note};
use chan_walk::Limit;
use std::alloc::{AllocError, Global};
use std::io::{Read, Write};

/// Names the usual device, for a deck without a named one. If the writer fails, it has a prefix.
pub fn note_usual_device<E: Write>(errors: &mut Watched<E>)
    requires { errors.old.failed ≡ false }
    ensures said { WriterGot USUAL_DEVICE.now
        (E.contents errors.old.device) (E.contents errors.new.device) errors.new.failed }
{
    let _ = write_bytes(USUAL_DEVICE.as_bytes(), errors);
}

/// Reads an image of storage to the end of the input, writes the one text of the deck that it makes
/// with the options, and says what came of it. The deck's job is that of the options or, if they
/// ask for it, the least job of the program, under which the verdict is yes.
///
/// Storage has the requested size, with zeros after the image; without a size it ends with the
/// image. It has at most 16,777,216 bytes. Nothing is written before the whole image was read:
/// after a failed write a prefix of the deck was written, after any other error nothing was. It
/// returns over an endless reader, too, with `ImageTooLong`. If all was written, it flushes.
///
/// The second writer gets the outcome's line, as `report` writes it. If no job will do, it
/// gets `no job will do: ` and the explanation of the verdict on the program's open job; a note
/// names the options `--at` and `--storage` if these may cure it. If memory runs out for the
/// explanation, the outcome says so. If the image is a deck, the last line is a note that says so.
/// A second writer that fails doesn't change the outcome, and a prefix was written there.
pub fn make_deck<R: Read, W: Write, E: Write>(
    alloc: Global,
    name: Option<&str>,
    options: &ImageOptions,
    from: &mut Watched<R>,
    to: &mut Watched<W>,
    errors: &mut Watched<E>,
) -> Outcome
    requires reader { from.old.failed ≡ false }
    requires writer { to.old.failed ≡ false }
    requires errors { errors.old.failed ≡ false }
    ensures answer { IsImageDelivered (name_in name.entry) options.now
        (R.remaining from.old.device) (R.remaining from.new.device)
        (W.contents to.old.device) (W.contents to.new.device)
        (E.contents errors.old.device) (E.contents errors.new.device) errors.new.failed result }
    ensures early { (IsCarriedOut result → ⊥) → (IsWriteFailure result → ⊥) → to.new ≡ to.old }
    ensures flushed { IsCarriedOut result → to.new.flushed ≡ true }
    ensures read { result ≡ Failed failures.ReadFailed ↔ (from.new.failed ≡ true) }
    ensures write { IsWriteFailure result ↔ (to.new.failed ≡ true) }
{
    let response = respond_to_image_input(alloc, name, options, from);
    deliver(name, &response, to, errors)
}

/// Reads an image to the end of an input, and gives the answer to it, or why it wasn't read.
fn respond_to_image_input<R: Read>(
    alloc: Global,
    name: Option<&str>,
    options: &ImageOptions,
    from: &mut Watched<R>,
) -> Response
    requires { from.old.failed ≡ false }
    ensures answer { IsImageInputResponse (name_in name.entry) options.now
        (R.remaining from.old.device) (R.remaining from.new.device) result }
    ensures read { result.outcome ≡ Failed failures.ReadFailed ↔ (from.new.failed ≡ true) }
    ensures unwritten { IsWriteFailure result.outcome → ⊥ }
{
    match read_image(alloc, options, from) {
        Ok(image) => respond_to_image(alloc, name, options, image.bytes.as_slice(), image.given),
        Err(failure) => Response {
            outcome: Outcome::Failed(failure),
            output: Vec::new(alloc),
            advice: room_advice(alloc, options, failure).ok(),
            note: "",
        },
    }
}

/// For an image that ends past storage, the note on how much room there is.
pub(crate) fn room_advice(
    alloc: Global,
    options: &ImageOptions,
    failure: Failure,
) -> Result<Vec<u8>, AllocError> {
    match (failure, options.size) {
        (Failure::ImagePastStorage, Some(size)) => {
            Ok(room_note(alloc, options.at, size)?.into_bytes())
        }
        _ => Ok(Vec::new(alloc)),
    }
}

/// The notes on an image, of which so many bytes were read.
fn notes_on_read(
    alloc: Global,
    options: &ImageOptions,
    image: &[u8],
    given: usize,
) -> Result<Vec<u8>, AllocError> {
    image_notes(alloc, options.at, image.get(..given).unwrap_or(image))
}

/// The notes on an image of which a deck was made, those on what its program takes first.
fn notes_on_deck(
    alloc: Global,
    options: &ImageOptions,
    image: &[u8],
    given: usize,
    unread: UnreadNotes,
) -> Result<Vec<u8>, AllocError> {
    let mut notes = unread.into_text()?.into_bytes();
    notes.extend_from_slice(notes_on_read(alloc, options, image, given)?.as_slice())?;
    Ok(notes)
}

/// Why no job will do for the program of an image, and the notes on the image.
fn why_no_job(
    alloc: Global,
    name: Option<&str>,
    options: &ImageOptions,
    image: &[u8],
    given: usize,
    explanation: &str,
) -> Result<Vec<u8>, AllocError>
    requires { HoldsOfOpenJob options.now image.now (λ k. IsExplainedOpenly k explanation.now) }
    ensures { IfOk result (λ why.
        IsNoJobAdvice (name_in name.entry) options.now image.now (Some why.items)) }
{
    let mut why = no_job_text(alloc, name, explanation)?.into_bytes();
    let notes = notes_on_read(alloc, options, image, given)?;
    why.extend_from_slice(notes.as_slice())?;
    Ok(why)
}

/// The answer to an image, of which so many bytes were read and zeros follow them.
fn respond_to_image(
    alloc: Global,
    name: Option<&str>,
    options: &ImageOptions,
    image: &[u8],
    given: usize,
) -> Response
    requires { options.now.at + length image.now ≤ STORAGE_LIMIT }
    ensures answer { IsImageResponse (name_in name.entry) options.now image.now result }
    ensures known { IsImageEnd result.outcome }
{
    let note = deck_note(image);
    let mut unread = UnreadNotes::new(alloc);
    match deck_text(alloc, options, image, given, &mut unread) {
        Ok(output) => Response {
            outcome: Outcome::Done,
            output,
            advice: notes_on_deck(alloc, options, image, given, unread).ok(),
            note,
        },
        Err(
            NoLeastJob::NoJob {
                address,
                reason,
                why,
            },
        ) => match why_no_job(alloc, name, options, image, given, why.as_str()) {
            Ok(why) => Response {
                outcome: Outcome::NoJob { address, reason },
                output: Vec::new(alloc),
                advice: Some(why),
                note,
            },
            Err(AllocError) => Response::bare(alloc, Outcome::Failed(Failure::OutOfMemory), note),
        },
        Err(NoLeastJob::Unknown(failure)) => Response {
            outcome: Outcome::Failed(failure),
            output: Vec::new(alloc),
            advice: failure_advice(alloc, options, failure),
            note,
        },
    }
}

/// What the limit on places is, and how it may be raised, if too many places are reachable.
fn failure_advice(alloc: Global, options: &ImageOptions, failure: Failure) -> Option<Vec<u8>>
    ensures { IsWantedAdvice (is_past_limit (Failed failure)) (advice_in result) }
{
    if !matches!(failure, Failure::TooManyPlaces) {
        return Some(Vec::new(alloc));
    }
    let limit = limit_in(options).unwrap_or(Limit::usual());
    Some(limit_note(alloc, limit).ok()?.into_bytes())
}
