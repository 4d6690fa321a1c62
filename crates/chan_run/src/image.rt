//! Making a deck of an image of storage: from the reader's bytes to the writer's.

ghost use Rattle.std.specs.Prelude.{◌≡◌, ◌↔◌, ◌+◌, ◌≤◌, ◌^◌, false, true, length, IfErr, ◌<◌};
ghost use Rattle.std.specs.Prelude.{if◌then◌else◌, is_some, IfOk, IfSome, IsErrOf, None, unwrap_or};
ghost use Rattle.chan_run.specs.Image.{IsDeckText, IsNoImage, IsImageRoom};
ghost use Rattle.chan_run.specs.NoJob.{IsNoDeckFor};
ghost use Rattle.chan_run.specs.Image.{IsWholeImage, areas_over, deck_of, filled, open_deck};
ghost use Rattle.chan_deck.specs.DeckValue.{Spells};
ghost use Rattle.chan_deck.specs.PartsValue.{storage_with};
ghost use Rattle.chan_run.specs.declared.failure.Failure.TheVariants as failures;
ghost use Rattle.ccw_core.specs.declared.ccw.TheConstants.{STORAGE_LIMIT};

use crate::deck_parts::{deck_parts, limit_in};
use crate::failure::Failure;
use crate::input::read_input;
use crate::least_job::{NoLeastJob, extents_over, least_text};
use ccw_core::{Area, STORAGE_LIMIT, Watched};
use chan_args::{ImageOptions, RequestedJob};
use chan_deck::{Parts, UnreadNotes, in_six_digits, parts_text};
use ckd_core::FileMask;
use std::alloc::{AllocError, Global};
use std::io::Read;

/// An image of storage that was read.
#[derive(Drop)]
pub(crate) struct WholeImage {
    /// Its bytes, and the zeros that were asked for behind them.
    pub(crate) bytes: Vec<u8>,
    /// How many bytes were read.
    pub(crate) given: usize,
}

/// Reads an image of storage to the end of the input; zeros follow it if a size was asked for.
///
/// `ImagePastStorage` comes if the image's address is past that size, or more bytes come than there
/// is room for; `ImageTooLong` if more come and no size was asked for. `ReadFailed` comes exactly
/// if the reader failed.
pub(crate) fn read_image<R: Read>(
    alloc: Global,
    options: &ImageOptions,
    from: &mut Watched<R>,
) -> Result<WholeImage, Failure>
    requires reader { from.old.failed ≡ false }
    ensures ok { IfOk result (λ whole. IsWholeImage options.now
        (R.remaining from.old.device) (R.remaining from.new.device) whole.bytes.items) }
    ensures short { IfOk result
        (λ whole. options.now.at + length whole.bytes.items ≤ STORAGE_LIMIT) }
    ensures err { IfErr result (IsNoImage options.now
        (R.remaining from.old.device) (R.remaining from.new.device)) }
    ensures read { IsErrOf result failures.ReadFailed ↔ (from.new.failed ≡ true) }
{
    let Some(room) = room_for(options) else {
        return Err(Failure::ImagePastStorage);
    };
    let image = match read_input(alloc, room, from) {
        Ok(Some(image)) => image,
        Ok(None) => return Err(too_long(options)),
        Err(failure) => return Err(failure),
    };
    let given = image.len();
    match filled(options, image, room) {
        Ok(bytes) => Ok(WholeImage { bytes, given }),
        Err(AllocError) => Err(Failure::OutOfMemory),
    }
}

/// How many bytes there is room for from the image's address on, if it doesn't lie past storage.
fn room_for(options: &ImageOptions) -> Option<usize>
    ensures some { IfSome result (IsImageRoom options.now) }
    ensures none { result ≡ None → unwrap_or options.now.size STORAGE_LIMIT < options.now.at }
{
    let end = match options.size {
        Some(size) => size as usize,
        None => STORAGE_LIMIT as usize,
    };
    end.checked_sub(options.at as usize)
}

/// An image with zeros behind it, where a size of storage was asked for that leaves so much room.
fn filled(options: &ImageOptions, image: Vec<u8>, room: usize) -> Result<Vec<u8>, AllocError>
    requires { length image.items ≤ room }
    ensures is { IfOk result (λ whole. whole.items ≡ filled options.now.size room image.items) }
    ensures fits { IfOk result (λ whole. length whole.items ≤ room) }
{
    let mut whole = image;
    if options.size.is_some() {
        whole.resize(room, 0)?;
    }
    Ok(whole)
}

/// Why an image is refused for which there is no room.
pub(crate) fn too_long(options: &ImageOptions) -> Failure
    ensures { result ≡ (if is_some options.now.size then failures.ImagePastStorage
        else failures.ImageTooLong) }
{
    match options.size {
        Some(_) => Failure::ImagePastStorage,
        None => Failure::ImageTooLong,
    }
}

/// The text of the deck that an image makes with the job that is asked for. The first `given` bytes
/// of the image were read, and zeros follow them; notes are added on others that the program of a
/// least job takes.
pub(crate) fn deck_text(
    alloc: Global,
    options: &ImageOptions,
    image: &[u8],
    given: usize,
    unread: &mut UnreadNotes,
) -> Result<Vec<u8>, NoLeastJob>
    requires { options.now.at + length image.now ≤ STORAGE_LIMIT }
    ensures text { IfOk result (λ text. IsDeckText options.now image.now text.items) }
    ensures none { IfErr result (IsNoDeckFor options.now image.now) }
{
    match options.job {
        RequestedJob::Named => Ok(named_text(alloc, options, image)?),
        RequestedJob::Least => least_text(alloc, options, image, given, unread),
        RequestedJob::Open => Ok(open_text(alloc, options, image)?),
    }
}

/// The text of the deck that an image makes with the job that the options say.
fn named_text(alloc: Global, options: &ImageOptions, image: &[u8]) -> Result<Vec<u8>, AllocError>
    requires { options.now.at + length image.now ≤ STORAGE_LIMIT }
    ensures { IfOk result (λ text. Spells text.items (deck_of options.now image.now)) }
{
    parts_text(alloc, &deck_parts(options, image))
}

/// All of the storage in which an image begins at an address, as areas of a deck.
fn areas_over(alloc: Global, at: usize, image: &[u8]) -> Result<Vec<Area>, AllocError>
    requires { at + length image.now ≤ STORAGE_LIMIT }
    ensures { IfOk result (λ areas. areas.items ≡ areas_over (storage_with at image.now)) }
{
    let len = (at + image.len()).next_multiple_of(8) as u32;
    in_six_digits(alloc, &[Area { start: 0, len }])
}

/// The text of the deck that an image makes with the options and a job that grants everything.
fn open_text(alloc: Global, options: &ImageOptions, image: &[u8]) -> Result<Vec<u8>, AllocError>
    requires { options.now.at + length image.now ≤ STORAGE_LIMIT }
    ensures { IfOk result (λ text. Spells text.items (open_deck options.now image.now)) }
{
    let extents = extents_over(alloc, &[])?;
    let areas = areas_over(alloc, options.at as usize, image)?;
    let parts = Parts {
        limit: limit_in(options),
        device: options.device,
        mask: FileMask::new(0xC0).unwrap(),
        start: options.start,
        extents: &extents,
        fetch: &areas,
        store: &areas,
        at: options.at,
        image,
    };
    parts_text(alloc, &parts)
}
