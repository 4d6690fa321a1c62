//! The wide listing: a row in columns for each CCW and way of entry, for people. It is proved that
//! its last line is that of the verdict; tests hold the rest.

ghost use Rattle.std.specs.Prelude.{IfOk, string_bytes};
ghost use Rattle.chan_deck.specs.Listing.{IsWideListing};

use crate::deed::{Shown, push_amount, push_part, push_reported};
use crate::graph::{name_at, verb_at};
use crate::listing::way_word;
use crate::picture_layout::{Scene, first_twin, indices_at, row_at};
use crate::verdict_line::{Range, push_address, push_verdict};
use ccw_core::Ccw;
use chan_walk::{Entry, Job, Look, Offence, Place, Setting, Verdict, data_of};
use ckd_core::Track;
use std::alloc::{AllocError, Global};
use std::fmt::Write as _;

// The header, up to the column of names, and what stands over it and over the last column.
const HEADER: &str = "   address   entered  flags   data            ";

const COMMAND: &str = "command";

const DOES: &str = "does\n";

/// The least width of the column of names.
const NAME_WIDTH: usize = 20;

/// Fills a column that began at this length of the text with blanks, up to its width, and adds the
/// blank after it.
fn end_column(out: &mut String, begun: usize, width: usize) -> Result<(), AllocError> {
    for _ in out.len()..begun.saturating_add(width) {
        out.push(' ')?;
    }
    out.push(' ')
}

/// Adds the columns of the address, which is indented in a data chain, and of the way of entry.
fn push_entry(out: &mut String, place: Place) -> Result<(), AllocError> {
    let begun = out.len();
    if place.entered != Entry::Fresh {
        out.push_str("  ")?;
    }
    push_address(out, place.address)?;
    end_column(out, begun, 9)?;
    let begun = out.len();
    out.push_str(way_word(place.entered))?;
    end_column(out, begun, 8)
}

/// Adds the columns of the flags and of the data: its range, or where a transfer leads.
fn push_columns(alloc: Global, out: &mut String, ccw: Option<Ccw>) -> Result<(), AllocError> {
    let Some(ccw) = ccw else {
        return out.push_str("-       -               ");
    };
    // The flags stand behind the code's two digits and the address's six.
    let text = ccw.text(alloc)?;
    let begun = out.len();
    out.push_str(text.get(10..16).unwrap_or(""))?;
    end_column(out, begun, 7)?;
    let begun = out.len();
    if ccw.is_transfer() {
        out.push_str("-> ")?;
        push_address(out, ccw.address())?;
    } else {
        let data = Range(data_of(&ccw));
        write!(out, "{data}")?;
    }
    end_column(out, begun, 15)
}

/// Adds what the CCW of a look does: what it sets, or what it does with its data; and before it
/// that the program starts there.
fn push_deed(out: &mut String, shown: &Shown, looks: &[Look], at: usize) -> Result<(), AllocError> {
    let Some(look) = looks.get(at) else {
        return Ok(());
    };
    let place = look.place();
    if place.address == shown.job.start && place.entered == Entry::Fresh {
        push_part(out, "start")?;
    }
    match (shown.setting_of(look), verb_at(look), look.ccw()) {
        (Some(Setting::Arm(Track { cylinder, head })), _, _) => {
            push_part(out, "seeks cylinder ")?;
            write!(out, "{cylinder}, head {head}")?;
        }
        (Some(Setting::Mask(byte)), _, _) => {
            push_part(out, "sets mask ")?;
            write!(out, "{byte:02X}")?;
        }
        (None, Some(verb), Some(ccw)) => {
            push_part(out, verb)?;
            push_amount(out, ccw)?;
            // A transfer repeats the search.
            let stored_by = &[];
            if row_at(Scene { looks, stored_by }, at).is_some_and(|row| row.until.is_some()) {
                push_part(out, "until found")?;
            }
            shown.push_compared(out, look)?;
        }
        _ => (),
    }
    push_reported(out, look)
}

/// The words of the reasons by which a place offends.
fn reasons_of(alloc: Global, offences: &[Offence], place: Place) -> Result<String, AllocError> {
    let mut words = String::new(alloc);
    let (first, end) = indices_at(offences, place.address);
    for offence in offences.get(first..end).unwrap_or(&[]) {
        if offence.place == place {
            push_part(&mut words, offence.reason.word())?;
        }
    }
    Ok(words)
}

/// Adds a row for a look, marked if its place offends. What its CCW does and the reasons come last.
fn push_row(
    alloc: Global,
    out: &mut String,
    shown: &Shown,
    looks: &[Look],
    offences: &[Offence],
    at: usize,
    width: usize,
) -> Result<(), AllocError> {
    let Some(look) = looks.get(at) else {
        return Ok(());
    };
    let reasons = reasons_of(alloc, offences, look.place())?;
    out.push_str(if reasons.is_empty() { "   " } else { "=> " })?;
    push_entry(out, look.place())?;
    push_columns(alloc, out, look.ccw())?;
    let mut deed = String::new(alloc);
    push_deed(&mut deed, shown, looks, at)?;
    if !deed.is_empty() && !reasons.is_empty() {
        deed.push_str(": ")?;
    }
    deed.push_str(reasons.as_str())?;
    let begun = out.len();
    out.push_str(shown_name(look))?;
    if !deed.is_empty() {
        end_column(out, begun, width)?;
    }
    out.push_str(deed.as_str())?;
    out.push('\n')
}

/// The name of what stands at a place, if its code counts.
fn shown_name(look: &Look) -> &'static str {
    let (name, chain) = name_at(look);
    if chain.is_empty() { name } else { "-" }
}

/// The wide listing of a job that was judged: a header, a row for each CCW and way of entry in
/// order, and the line of the verdict. `looks` and `offences` are those that `Survey::into_parts`
/// gives. An error means that an allocation failed.
///
/// Rows of a data chain are indented. A row is marked `=>` exactly if its place offends, and ends
/// with the reasons.
pub fn wide_listing(
    alloc: Global,
    job: &Job,
    looks: &[Look],
    offences: &[Offence],
    verdict: Verdict,
) -> Result<String, AllocError>
    ensures { IfOk result (λ text. IsWideListing verdict (string_bytes text)) }
{
    let shown = Shown::new(alloc, job, looks)?;
    let widest = looks.iter().map(|look| shown_name(look).len()).max();
    let width = widest.unwrap_or(0).max(NAME_WIDTH);
    let mut text = String::from_str(alloc, HEADER)?;
    let begun = text.len();
    text.push_str(COMMAND)?;
    end_column(&mut text, begun, width)?;
    text.push_str(DOES)?;
    for at in 0..looks.len() {
        if first_twin(looks, at) == at {
            push_row(alloc, &mut text, &shown, looks, offences, at, width)?;
        }
    }
    push_verdict(&mut text, verdict)?;
    text.push('\n')?;
    Ok(text)
}
