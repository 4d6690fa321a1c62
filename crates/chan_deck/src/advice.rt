//! What is said beside an explanation: notes, and how to cure a no. Tests hold the texts.

ghost use Rattle.chan_why.specs.Findings.{AreFindings};

use crate::explanation::why_text;
use crate::help::{help_text, unseen_note};
use crate::note_lines::{absent_note, notes_on};
use crate::unread::ImageBytes;
use crate::wrong_image::image_faults;
use chan_why::Findings;
use std::alloc::{AllocError, Global};

/// What is said beside the needs of a program if no job will do.
const NO_JOB: &str = "note: no job will do: the no holds even if the job grants everything; \
    chanv verify may name another CCW, because the deck's job grants less\n";

/// What is said beside the explanation of what was found: that no offence is at the address that is
/// asked about, if that is so, the notes on the job, and how to cure a no. An error means that an
/// allocation failed.
pub fn why_advice(alloc: Global, findings: &Findings) -> Result<String, AllocError> {
    let absent = absent_note(alloc, findings)?;
    let notes = notes_on(alloc, findings)?;
    let help = help_text(alloc, findings)?;
    format!(in alloc; "{absent}{notes}{help}")
}

/// What is said beside the needs of a program if no job will do, from what was found of its open
/// job: a note and how to cure the no, and before them the explanation, if it is wanted. An error
/// means that an allocation failed.
pub fn needs_advice(
    alloc: Global,
    findings: &Findings,
    is_explained: bool,
) -> Result<String, AllocError>
    requires { AreFindings findings.now }
{
    let why = if is_explained {
        why_text(alloc, findings, false)?
    } else {
        String::new(alloc)
    };
    let unseen = unseen_note(&findings.survey);
    let help = help_text(alloc, findings)?;
    format!(in alloc; "{why}{NO_JOB}{unseen}{help}")
}

/// What follows the explanation of an image for which no job will do, from what was found of its
/// program's open job; `read` is what the image holds. An error means that an allocation failed.
pub fn image_advice(
    alloc: Global,
    findings: &Findings,
    read: &ImageBytes<'_>,
) -> Result<String, AllocError> {
    let faults = image_faults(alloc, findings, read)?;
    let unseen = unseen_note(&findings.survey);
    let help = help_text(alloc, findings)?;
    format!(in alloc; "{faults}{unseen}{help}")
}
