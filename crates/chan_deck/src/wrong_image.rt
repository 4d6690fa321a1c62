//! What may be wrong with an image if no job will do for its program. Tests hold the texts.

use crate::note_lines::storage_note;
use crate::unread::ImageBytes;
use ccw_core::STORAGE_LIMIT;
use chan_walk::{Evidence, Job, Reason, Verdict, fault_at, first_place};
use chan_why::{Findings, Witness};
use std::alloc::{AllocError, Global};

/// The notes on a no under the open job of a program in an image: that another size of storage, or
/// another address of the image, may cure it; that the image, which holds the bytes of `read`,
/// lacks something on the path; and that the start may have been given in decimal. An error means
/// that an allocation failed.
pub(crate) fn image_faults(
    alloc: Global,
    findings: &Findings,
    read: &ImageBytes<'_>,
) -> Result<String, AllocError> {
    let (open_job, verdict) = (findings.job, findings.survey.verdict());
    let ends = ends_note(alloc, open_job, verdict)?;
    let outside = outside_note(alloc, open_job, &findings.witness, read)?;
    let start = start_note(alloc, open_job, verdict, read)?;
    format!(in alloc; "{ends}{outside}{start}")
}

/// The note on the first CCW of the path, or byte of the cause's argument, that wasn't read, if one
/// wasn't.
fn outside_note(
    alloc: Global,
    job: &Job,
    witness: &Witness,
    read: &ImageBytes<'_>,
) -> Result<String, AllocError> {
    let path = witness.path.iter().map(|place| place.address);
    let mut ccws = path.filter(|address| job.storage.ccw_at(*address).is_some());
    let unread_ccw = ccws.find_map(|address| Some((address, lack_in_ccw(read, address)?)));
    let argument = match witness.evidence {
        Some(Evidence::ShortSeek { given }) => Some(given),
        Some(Evidence::SeekOutside { argument, .. }) => argument,
        _ => None,
    };
    let unread_byte = argument.and_then(|given| {
        let mut addresses = given.addresses().iter().copied();
        addresses.find_map(|address| Some((address, read.lack_at(address)?)))
    });
    match unread_ccw.or(unread_byte) {
        Some((address, lack)) => format!(in alloc;
            "note: {address:06X} lies {lack}, so it is zero here\n"
        ),
        None => Ok(String::new(alloc)),
    }
}

/// Where the first byte is that an image doesn't hold of the CCW at an address, if it lacks one.
fn lack_in_ccw(read: &ImageBytes<'_>, address: u32) -> Option<&'static str> {
    (0..8).find_map(|offset| read.lack_at(address.saturating_add(offset)))
}

/// The note that the address of the start was read in hexadecimal, if no command is there and its
/// digits are the decimal digits of an address at which a CCW was read that has no fault.
fn start_note(
    alloc: Global,
    job: &Job,
    verdict: Verdict,
    read: &ImageBytes<'_>,
) -> Result<String, AllocError> {
    let start = job.start;
    let digits = format!(in alloc; "{start:X}")?;
    match (verdict, digits.parse::<u32>()) {
        (Verdict::No { address, reason }, Ok(decimal))
            if address == start
                && reason.is_no_command()
                && decimal != start
                && lack_in_ccw(read, decimal).is_none()
                && is_faultless_at(job, decimal) => {
            format!(in alloc;
                "note: --start {digits} is hexadecimal; decimal {digits} is --start {decimal:X}\n"
            )
        }
        _ => Ok(String::new(alloc)),
    }
}

/// Whether the CCW at an address has no fault of its own, if a job begins there.
fn is_faultless_at(job: &Job, address: u32) -> bool {
    let there = Job {
        start: address,
        ..*job
    };
    fault_at(&there, first_place(&there)).is_none()
}

/// The note on the size of storage, if another one, or another address of the image, may cure the
/// verdict on a job: data goes past the end of storage, or there is no command at the start.
fn ends_note(alloc: Global, job: &Job, verdict: Verdict) -> Result<String, AllocError> {
    let size = job.storage.len();
    let may_be_cured = match verdict {
        Verdict::No { address, reason } => match reason {
            Reason::DataOutside => true,
            Reason::OutsideStorage | Reason::InvalidCode => address == job.start,
            _ => false,
        },
        Verdict::Yes => false,
    };
    if may_be_cured && size < STORAGE_LIMIT {
        return storage_note(alloc, size);
    }
    Ok(String::new(alloc))
}
