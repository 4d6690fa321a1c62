//! Finding the programs of an image of storage, a line for each.

ghost use Rattle.std.specs.Prelude.{◌≡◌, ◌↔◌, ◌+◌, ◌≤◌, ◌^◌, false, true, length, IfOk, List, ℕ};
ghost use Rattle.std.specs.Prelude.{string_bytes};
ghost use Rattle.ccw_core.specs.Held.{bytes_held};
ghost use Rattle.chan_deck.specs.PartsValue.{storage_with};
ghost use Rattle.chan_run.specs.Find.{IsFindDelivered, IsFindNote, IsFindResponse, IsSearchOutput};
ghost use Rattle.chan_run.specs.Find.{IsJudgedAt, IsLineAt};
ghost use Rattle.chan_run.specs.Name.{name_in};
ghost use Rattle.chan_run.specs.Outcome.{IsCarriedOut, IsWriteFailure};
ghost use Rattle.chan_run.specs.declared.failure.Failure.TheVariants as failures;
ghost use Rattle.chan_run.specs.declared.outcome.Outcome.TheVariants.{Failed};
ghost use Rattle.ccw_core.specs.declared.ccw.TheConstants.{STORAGE_LIMIT};

use crate::deck_parts::limit_in;
use crate::delivery::deliver;
use crate::failure::Failure;
use crate::image::{WholeImage, read_image};
use crate::image_deck::room_advice;
use crate::least_job::{bytes_read, job_at};
use crate::outcome::Outcome;
use crate::response::Response;
use ccw_core::{STORAGE_LIMIT, Storage, Watched, write_out};
use chan_args::ImageOptions;
use chan_deck::{
    ImageBytes, UnreadNotes, deck_note, find_note, image_notes, limit_note, place_image,
    program_text, shape_of, storage_note, unjudged_text,
};
use chan_find::program_starts;
use chan_walk::{Limit, OpenJob, Reason, Survey, Verdict, WalkError, survey};
use std::alloc::{AllocError, Global};
use std::io::{Read, Write};

/// Reads an image of storage to the end of the input, and writes a line for each program in it, in
/// order: the start in six digits, and the verdict on the program's open job with how many CCWs the
/// program has and the names of its first commands, or `too many places`; or `not judged`, if the
/// programs before it took too many places in all.
///
/// Of the options it uses the device, the limit, and the address and size for the image. Each line
/// is written with one write, as soon as its verdict is known, and at the end the output is
/// flushed. After a failed write a prefix of the lines was written, and after a refused allocation
/// the lines of some first programs. The errors of the input are those of `make_deck`.
///
/// The second writer gets the outcome's line, as `report` writes it, the notes on an image that is
/// text or seems to begin elsewhere, the limit if a program has too many places, and then a note if
/// the image is a deck, or if all went well and it has no program.
pub fn find_programs<R: Read, W: Write, E: Write>(
    alloc: Global,
    name: Option<&str>,
    options: &ImageOptions,
    from: &mut Watched<R>,
    to: &mut Watched<W>,
    errors: &mut Watched<E>,
) -> Outcome
    requires reader { from.old.failed ≡ false }
    requires writer { to.old.failed ≡ false }
    requires errors { errors.old.failed ≡ false }
    ensures answer { IsFindDelivered (name_in name.entry) options.now
        (R.remaining from.old.device) (R.remaining from.new.device)
        (W.contents to.old.device) (W.contents to.new.device)
        (E.contents errors.old.device) (E.contents errors.new.device) errors.new.failed result }
    ensures flushed { IsCarriedOut result → to.new.flushed ≡ true }
    ensures read { result ≡ Failed failures.ReadFailed ↔ (from.new.failed ≡ true) }
    ensures write { IsWriteFailure result ↔ (to.new.failed ≡ true) }
{
    let response = search_image(alloc, options, from, to);
    deliver(name, &response, to, errors)
}

/// Reads an image and writes its lines, and gives what is then left to be delivered.
fn search_image<R: Read, W: Write>(
    alloc: Global,
    options: &ImageOptions,
    from: &mut Watched<R>,
    to: &mut Watched<W>,
) -> Response
    requires reader { from.old.failed ≡ false }
    requires writer { to.old.failed ≡ false }
    ensures answer { IsFindResponse options.now
        (R.remaining from.old.device) (R.remaining from.new.device)
        (W.contents to.old.device) (W.contents to.new.device) result }
    ensures read { result.outcome ≡ Failed failures.ReadFailed ↔ (from.new.failed ≡ true) }
    ensures write { IsWriteFailure result.outcome ↔ (to.new.failed ≡ true) }
{
    match read_image(alloc, options, from) {
        Ok(image) => {
            let mut seen = Seen {
                is_past_limit: false,
                is_past_storage: false,
                unread: UnreadNotes::new(alloc),
            };
            let read = bytes_read(options, image.given);
            let (outcome, note) = write_programs(
                alloc,
                options,
                image.bytes.as_slice(),
                &read,
                &mut seen,
                to,
            );
            Response {
                outcome,
                output: Vec::new(alloc),
                advice: notes_on_image(alloc, options, outcome, seen, &image).ok(),
                note,
            }
        }
        Err(failure) => Response {
            outcome: Outcome::Failed(failure),
            output: Vec::new(alloc),
            advice: room_advice(alloc, options, failure).ok(),
            note: "",
        },
    }
}

/// What is seen of the programs of an image beside their lines.
#[derive(Drop)]
struct Seen {
    /// Whether a program has too many places.
    is_past_limit: bool,
    /// Whether data of a program goes past the end of storage.
    is_past_storage: bool,
    /// The notes on bytes that programs with a yes take though the image doesn't hold them.
    unread: UnreadNotes,
}

impl Seen {
    /// Adds what is seen of a program that was judged over an image that holds these bytes.
    fn add(&mut self, survey: &Survey, image: &ImageBytes<'_>) -> Result<(), AllocError> {
        match survey.verdict() {
            Verdict::Yes => self.unread.add(survey.looks(), image)?,
            Verdict::No { reason, .. } => {
                self.is_past_storage |= matches!(reason, Reason::DataOutside);
            }
        }
        Ok(())
    }
}

/// The notes on an image that was searched. If all went well, they are on bytes that programs take,
/// and on the size of storage, if data goes past its end. Then come those on the image, unless
/// memory ran out before, and if all went well, what the limit is, if a program is past it.
fn notes_on_image(
    alloc: Global,
    options: &ImageOptions,
    outcome: Outcome,
    seen: Seen,
    image: &WholeImage,
) -> Result<Vec<u8>, AllocError> {
    let is_done = matches!(outcome, Outcome::Done);
    let is_past_limit = is_done && seen.is_past_limit;
    let is_past_storage = is_done && seen.is_past_storage;
    let mut notes = Vec::new(alloc);
    if is_done {
        notes.extend_from_slice(seen.unread.into_text()?.as_bytes())?;
    }
    let end = (options.at as usize)
        .saturating_add(image.bytes.len())
        .next_multiple_of(8);
    if is_past_storage && end < STORAGE_LIMIT as usize {
        notes.extend_from_slice(storage_note(alloc, end as u32)?.as_bytes())?;
    }
    if !matches!(outcome, Outcome::Failed(Failure::OutOfMemory)) {
        let read = image.bytes.as_slice().get(..image.given).unwrap_or(&[]);
        notes.extend_from_slice(image_notes(alloc, options.at, read)?.as_slice())?;
    }
    if is_past_limit {
        let limit = limit_in(options).unwrap_or(Limit::usual());
        notes.extend_from_slice(limit_note(alloc, limit)?.as_bytes())?;
    }
    Ok(notes)
}

/// How many places `find` judges in one image: as many as the largest storage has, one for each
/// doubleword and way to enter it. So programs that share no place are all judged.
const PLACES_JUDGED: usize = 16_777_216;

/// Writes a line for each program in an image, which holds the bytes of `read`, as each verdict is
/// known, and says what came of it, with the note on the image, or an empty text. What is seen
/// beside the lines is added.
fn write_programs<W: Write>(
    alloc: Global,
    options: &ImageOptions,
    image: &[u8],
    read: &ImageBytes<'_>,
    seen: &mut Seen,
    to: &mut Watched<W>,
) -> (Outcome, &'static str)
    requires short { options.now.at + length image.now ≤ STORAGE_LIMIT }
    requires writer { to.old.failed ≡ false }
    ensures answer { IsSearchOutput options.now image.now
        (W.contents to.old.device) (W.contents to.new.device) result.0 }
    ensures note { IsFindNote options.now image.now result.0 result.1.now }
    ensures read { result.0 ≡ Failed failures.ReadFailed → ⊥ }
    ensures write { IsWriteFailure result.0 ↔ (to.new.failed ≡ true) }
{
    let no_memory = (Outcome::Failed(Failure::OutOfMemory), deck_note(image));
    let Ok(bytes) = place_image(alloc, options.at as usize, image) else {
        return no_memory;
    };
    // it isn't too large, since the image ends in storage
    let storage = Storage::new(&bytes).unwrap();
    let Ok(starts) = program_starts(alloc, &storage, options.device) else {
        return no_memory;
    };
    let mut left = PLACES_JUDGED;
    for start in starts.as_slice() {
        let line = program_line(alloc, options, storage, *start, &mut left, read, seen);
        let Ok(line) = line else {
            return no_memory;
        };
        if write_out(line.as_bytes(), to).is_err() {
            return (Outcome::Failed(Failure::WriteFailed), deck_note(image));
        }
    }
    let note = find_note(
        image,
        !starts.is_empty(),
        options.at != 0,
        options.size.is_some(),
    );
    (Outcome::Done, note)
}

/// The line of the program that begins at an address in storage. `left` is how many places may
/// still be judged: a program that begins before none is left is judged whole. What is seen of it
/// over an image that holds the bytes of `read` is added.
fn program_line(
    alloc: Global,
    options: &ImageOptions,
    storage: Storage<'_>,
    start: u32,
    left: &mut usize,
    read: &ImageBytes<'_>,
    seen: &mut Seen,
) -> Result<String, AllocError>
    ensures { (image : List ℕ) → bytes_held storage.entry ≡ storage_with options.now.at image
        → IfOk result (λ line. IsLineAt options.now image start left.old (string_bytes line)
        left.new) }
{
    if *left == 0 {
        return unjudged_text(alloc, start);
    }
    let (line, places) = judged_line(alloc, options, storage, start, read, seen)?;
    *left = left.saturating_sub(places);
    Ok(line)
}

/// The line of the program that begins at an address in storage, with its verdict, and how many
/// places that took. What is seen of it is added.
fn judged_line(
    alloc: Global,
    options: &ImageOptions,
    storage: Storage<'_>,
    start: u32,
    read: &ImageBytes<'_>,
    seen: &mut Seen,
) -> Result<(String, usize), AllocError>
    ensures { (image : List ℕ) → bytes_held storage.entry ≡ storage_with options.now.at image
        → IfOk result (λ judged. IsJudgedAt options.now image start (string_bytes judged.0)
        judged.1) }
{
    let job = job_at(options, storage, start);
    let open = OpenJob::of(alloc, &job)?;
    let open_job = open.job();
    match survey(alloc, &open_job) {
        Ok(survey) => {
            let verdict = survey.verdict();
            seen.add(&survey, read)?;
            let (shape, places) = shape_of(alloc, survey)?;
            let line = program_text(alloc, job.start, Some(verdict), shape.as_str())?;
            Ok((line, places))
        }
        Err(WalkError::TooManyPlaces) => {
            seen.is_past_limit = true;
            let line = program_text(alloc, job.start, None, "")?;
            Ok((line, open_job.limit.get() as usize))
        }
        Err(WalkError::Memory) => Err(AllocError),
    }
}
