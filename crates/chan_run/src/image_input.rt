//! What an image is read from: the bytes of an input as they come, or those that a dump tells.

ghost use Rattle.std.specs.Prelude.{◌≡◌, false};

use crate::failure::Failure;
use crate::image::too_long;
use crate::input::{TEXT_LIMIT, read_input};
use crate::name::named;
use crate::outcome::{Outcome, report};
use crate::texts::{write_bytes, write_texts};
use ccw_core::{Area, STORAGE_LIMIT, Watched};
use chan_args::ImageRequest;
use chan_deck::{DumpError, may_be_text, read_dump};
use std::alloc::Global;
use std::io;
use std::io::{Read, Write};

/// How many bytes are looked at first.
const BLOCK: usize = 8_192;

/// The exit status if a line of a dump isn't read.
const REFUSED: u8 = 2;

/// What an image is read from.
#[derive(Drop)]
pub struct ImageInput<R> {
    /// The first bytes of the image, and how many of them were read from here.
    front: Vec<u8>,
    given: usize,
    /// What has the bytes after them, if more may come.
    rest: Option<R>,
}

impl<R: Read> Read for ImageInput<R> {
    fn read(&mut self, buf: &mut [u8]) -> io::Result<usize> {
        let front = self.front.as_slice().get(self.given..).unwrap_or(&[]);
        if front.is_empty() {
            return match &mut self.rest {
                Some(rest) => rest.read(buf),
                None => Ok(0),
            };
        }
        let count = front.len().min(buf.len());
        buf[..count].copy_from_slice(&front[..count]);
        self.given = self.given.saturating_add(count);
        Ok(count)
    }
}

/// Looks at an input, and gives what the image is read from. Text is read as a dump, unless the
/// request says that the image is raw: its bytes are the dump's, and the writer gets the notes on
/// it. If the request doesn't place the image, its address becomes the dump's own, or zero. Where
/// there is no image, the writer gets the line that says so, and the exit status is given.
///
/// If the input may be text, it is read to its end; if not, only its first bytes are read here.
pub fn take_image<R: Read + Drop, W: Write>(
    alloc: Global,
    name: Option<&str>,
    request: &mut ImageRequest,
    input: R,
    errors: &mut Watched<W>,
) -> Result<ImageInput<R>, u8>
    requires { errors.old.failed ≡ false }
{
    request.options.gaps = Vec::new(alloc);
    if !request.is_placed {
        request.options.at = 0;
    }
    let image = match look_at(alloc, request, input) {
        Ok(image) => image,
        Err(failure) => return Err(report(name, Outcome::Failed(failure), errors)),
    };
    if image.rest.is_some() {
        return Ok(image);
    }
    match read_dump(alloc, image.front.as_slice()) {
        Ok(None) => Ok(image),
        Ok(Some(dump)) => {
            let _ = write_bytes(dump.notes.as_bytes(), errors);
            if !request.is_placed && dump.at < STORAGE_LIMIT {
                request.options.at = dump.at;
            }
            request.options.gaps = moved(dump.gaps, dump.at, request.options.at);
            Ok(whole(dump.image))
        }
        Err(DumpError::Refused(text)) => {
            let (name, mark) = named(name, true);
            let _ = write_texts(&["chanv: ", name, mark, text.as_str()], errors);
            Err(REFUSED)
        }
        Err(DumpError::Memory) => {
            Err(report(name, Outcome::Failed(Failure::OutOfMemory), errors))
        }
    }
}

/// Areas of an image that begins at one address, if it begins at another.
fn moved(areas: Vec<Area>, from: u32, to: u32) -> Vec<Area> {
    let mut areas = areas;
    for area in areas.as_mut_slice() {
        area.start = area.start.saturating_sub(from).saturating_add(to);
    }
    areas
}

/// An image that has these bytes and no more.
fn whole<R>(bytes: Vec<u8>) -> ImageInput<R> {
    ImageInput {
        front: bytes,
        given: 0,
        rest: None,
    }
}

/// Reads the first bytes of an input, and if they may be text that isn't raw, all of it.
fn look_at<R: Read + Drop>(
    alloc: Global,
    request: &ImageRequest,
    input: R,
) -> Result<ImageInput<R>, Failure> {
    let mut input = input;
    let front = first_bytes(alloc, &mut input)?;
    if front.is_empty() {
        return Ok(whole(front));
    }
    let is_text = !request.is_raw && may_be_text(front.as_slice());
    let image = ImageInput {
        front,
        given: 0,
        rest: Some(input),
    };
    if !is_text {
        return Ok(image);
    }
    match read_input(alloc, TEXT_LIMIT, &mut Watched::new(image))? {
        Some(text) => Ok(whole(text)),
        None => Err(too_long(&request.options)),
    }
}

/// The bytes of a first read of an input.
fn first_bytes<R: Read>(alloc: Global, input: &mut R) -> Result<Vec<u8>, Failure> {
    let mut block = Vec::new(alloc);
    block.resize(BLOCK, 0).map_err(|_| Failure::OutOfMemory)?;
    let count = input
        .read(block.as_mut_slice())
        .map_err(|_| Failure::ReadFailed)?;
    block.truncate(count);
    Ok(block)
}
