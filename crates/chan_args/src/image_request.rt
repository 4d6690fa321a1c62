//! The commands over an image of storage, `find` and `deck`: what their options say.

ghost use Rattle.std.specs.List.{All};
ghost use Rattle.std.specs.Prelude.{◌≡◌, ◌≤◌, ◌<◌, ◌%◌, IfOk, Ok, unwrap_or};
ghost use Rattle.ccw_core.specs.declared.ccw.TheConstants.{STORAGE_LIMIT};

use crate::command_table::{
    AT, DEVICE, EXTENT, FETCH, LEAST, LIMIT, MASK, OPEN, RAW, START, STORAGE, STORE, Word,
};
use crate::image_options::{ImageOptions, RequestedJob};
use crate::met::{is_flagged, text_met};
use crate::option_text::{address_of, area_of, device_of, extent_of, limit_of, mask_of, size_of};
use crate::usage_fault::OptionFault;
use ccw_core::Area;
use ckd_core::{Extents, LAST_CYLINDER};
use clap::ArgMatches;
use std::alloc::{AllocError, Global};
use thiserror::Error;

/// What is done with images, and how.
#[derive(Drop)]
pub struct ImageRequest {
    /// Whether the programs in each are found. Otherwise a deck is made of one.
    pub finds: bool,
    pub options: ImageOptions,
    /// Whether no device is named, so that it is the usual one.
    pub is_usual_device: bool,
    /// Whether the address of the image is given. Otherwise a dump has its own.
    pub is_placed: bool,
    /// Whether the input is the image as it is, even if it is text.
    pub is_raw: bool,
}

/// Why options weren't read.
#[derive(Clone, Copy, Debug, Error)]
pub(crate) enum OptionError<'a> {
    /// This option is the first whose text isn't accepted.
    #[error("{0}")]
    Wrong(OptionFault<'a>),
    /// An allocation was refused.
    #[error("out of memory")]
    Memory,
}

/// What the text of an option says, or the error that names the option, its text and why that isn't
/// accepted.
pub(crate) fn for_option<'a, T>(
    option: &Word,
    text: &'a str,
    answer: Result<T, &'a str>,
) -> Result<T, OptionError<'a>>
    ensures { IfOk result (λ value. answer.entry ≡ Ok value) }
{
    match answer {
        Ok(value) => Ok(value),
        Err(why) => Err(OptionError::Wrong(OptionFault {
            name: option.name,
            kind: option.kind,
            text,
            why,
        })),
    }
}

/// The areas that the texts of an option say.
fn areas_met<'a>(
    alloc: Global,
    matches: &ArgMatches<'a>,
    option: Word,
) -> Result<Vec<Area>, OptionError<'a>>
    ensures { IfOk result (λ areas. All
        (λ a. (a.start < STORAGE_LIMIT) × (a.len < STORAGE_LIMIT)) areas.items) }
{
    let mut areas = Vec::new(alloc);
    for text in matches.get_strs(option.name).unwrap_or(&[]) {
        let area = for_option(&option, text, area_of(text))?;
        areas.push(area).map_err(|_| OptionError::Memory)?;
    }
    Ok(areas)
}

/// The extents that their texts say: all cylinders where there is none.
fn extents_met<'a>(alloc: Global, matches: &ArgMatches<'a>) -> Result<Extents, OptionError<'a>> {
    let mut pairs = Vec::new(alloc);
    for text in matches.get_strs(EXTENT.name).unwrap_or(&[]) {
        let pair = for_option(&EXTENT, text, extent_of(text))?;
        pairs.push(pair).map_err(|_| OptionError::Memory)?;
    }
    if pairs.is_empty() {
        pairs
            .push((0, LAST_CYLINDER))
            .map_err(|_| OptionError::Memory)?;
    }
    // each pair is right, so that only an allocation can fail
    Extents::new(alloc, pairs.as_slice()).map_err(|_| OptionError::Memory)
}

/// The limit that its text says, where there is one.
fn limit_met<'a>(matches: &ArgMatches<'a>) -> Result<Option<u32>, OptionError<'a>>
    ensures { IfOk result (λ limit. (1 ≤ unwrap_or limit 1) × (unwrap_or limit 1 ≤ 65536)) }
{
    match text_met(matches, LIMIT) {
        Some(text) => Ok(Some(for_option(&LIMIT, text, limit_of(text))?)),
        None => Ok(None),
    }
}

/// The size of storage that its text says, where there is one.
fn size_met<'a>(matches: &ArgMatches<'a>) -> Result<Option<u32>, OptionError<'a>>
    ensures { IfOk result (λ size.
        (unwrap_or size 0 ≤ STORAGE_LIMIT) × (unwrap_or size 0 % 8 ≡ 0)) }
{
    match text_met(matches, STORAGE) {
        Some(text) => Ok(Some(for_option(&STORAGE, text, size_of(text))?)),
        None => Ok(None),
    }
}

/// The job that is asked for.
fn job_met(matches: &ArgMatches<'_>) -> RequestedJob {
    if is_flagged(matches, LEAST) {
        RequestedJob::Least
    } else if is_flagged(matches, OPEN) {
        RequestedJob::Open
    } else {
        RequestedJob::Named
    }
}

/// The values of the options that clap met, the usual ones where an option isn't given. `find` has
/// no other options than the device, the limit, the address and the size.
///
/// They are read in the order of a deck's lines, the image's address and the size of storage last.
/// The first whose text isn't accepted is named.
fn options_met<'a>(
    alloc: Global,
    matches: &ArgMatches<'a>,
) -> Result<ImageOptions, OptionError<'a>> {
    let text = text_met(matches, DEVICE).unwrap_or("2314");
    let device = for_option(&DEVICE, text, device_of(text))?;
    let text = text_met(matches, MASK).unwrap_or("00");
    let mask = for_option(&MASK, text, mask_of(text))?;
    let text = text_met(matches, START).unwrap_or("0");
    let start = for_option(&START, text, address_of(text))?;
    let limit = limit_met(matches)?;
    let extents = extents_met(alloc, matches)?;
    let fetch = areas_met(alloc, matches, FETCH)?;
    let store = areas_met(alloc, matches, STORE)?;
    let text = text_met(matches, AT).unwrap_or("0");
    let at = for_option(&AT, text, address_of(text))?;
    let size = size_met(matches)?;
    let job = job_met(matches);
    Ok(ImageOptions {
        device,
        mask,
        start,
        limit,
        extents,
        fetch,
        store,
        at,
        gaps: Vec::new(alloc),
        size,
        job,
    })
}

/// What the words that clap met ask to do with images.
pub(crate) fn image_request<'a>(
    alloc: Global,
    matches: &ArgMatches<'a>,
    finds: bool,
) -> Result<ImageRequest, OptionError<'a>> {
    Ok(ImageRequest {
        finds,
        options: options_met(alloc, matches)?,
        is_usual_device: text_met(matches, DEVICE).is_none(),
        is_placed: text_met(matches, AT).is_some(),
        is_raw: is_flagged(matches, RAW),
    })
}
