//! The listing of a range of storage: each doubleword as a CCW with its own fault, whether or not a
//! run comes there. It is for people, and tests hold it.

use crate::because::push_evidence;
use crate::explanation::push_setting;
use crate::listing::push_words;
use crate::note_lines::look_without_areas;
use crate::verdict_line::push_verdict;
use ccw_core::Area;
use chan_walk::{Entry, Evidence, Job, Lent, Look, Place, Verdict, look_among, setting_at};
use ckd_core::Kind;
use std::alloc::{AllocError, Global};

/// The listing of a range of a job's storage, and the line of the job's verdict: a row for each
/// doubleword that has a byte in the range, up to the end of storage. Where one chains data, the
/// next counts as a part of its chain, also where the chain begins before the range; any other
/// counts as a CCW that begins an operation. The row of a CCW with a fault of its own is marked,
/// and its cause follows; so is that of a transfer that leads to where no CCW can be. An error
/// means that an allocation failed.
pub fn range_text(
    alloc: Global,
    job: &Job,
    range: Area,
    verdict: Verdict,
) -> Result<String, AllocError> {
    let mut text = String::new(alloc);
    let end = match range.len {
        0 => 0,
        len => range.start.saturating_add(len).min(job.storage.len()),
    };
    let lent = Lent::new(alloc, job)?;
    let (first, mut entered) = (range.start / 8, Entry::Fresh);
    let before = (0..first).rev().find(|number| !chains_data(job, *number));
    for number in before.map_or(0, |number| number.saturating_add(1))..end.div_ceil(8) {
        let place = Place {
            address: number.saturating_mul(8),
            entered,
            after_transfer: false,
        };
        let look = look_among(job, &lent, place);
        if number >= first {
            push_look(alloc, &mut text, job, &look)?;
        }
        entered = entry_behind(&look);
    }
    push_verdict(&mut text, verdict)?;
    text.push('\n')?;
    Ok(text)
}

/// Whether the doubleword of this number chains data to the next.
fn chains_data(job: &Job, number: u32) -> bool {
    let ccw = job.storage.ccw_at(number.saturating_mul(8));
    ccw.is_some_and(|ccw| ccw.chains_data() && !ccw.is_transfer())
}

/// Adds the row of what stands at a place, with what is set there, and the cause if it is a fault.
fn push_look(alloc: Global, out: &mut String, job: &Job, look: &Look) -> Result<(), AllocError> {
    let fault = look.fault().or(fault_behind(job, look));
    push_words(
        out,
        look.place(),
        look.ccw(),
        look.command(),
        fault.is_some(),
    )?;
    push_setting(out, setting_at(job, look.place()))?;
    out.push('\n')?;
    if let Some(evidence) = fault {
        out.push_str("because ")?;
        push_evidence(alloc, out, evidence)?;
        out.push('\n')?;
    }
    Ok(())
}

/// The fault for which no CCW can be where a transfer leads, if one stands there.
fn fault_behind(job: &Job, look: &Look) -> Option<Evidence> {
    if !look.ccw()?.is_transfer() {
        return None;
    }
    match look_without_areas(job, look.next().next?).fault() {
        Some(
            fault @ (Evidence::Misaligned { .. }
            | Evidence::OutsideStorage { .. }
            | Evidence::TransferNotAllowed { .. }),
        ) => Some(fault),
        _ => None,
    }
}

/// How the doubleword behind one is entered, if the first one goes on to it.
fn entry_behind(look: &Look) -> Entry {
    let chains_data = look
        .ccw()
        .is_some_and(|ccw| ccw.chains_data() && !ccw.is_transfer());
    match (look.place().entered, look.command()) {
        _ if !chains_data => Entry::Fresh,
        (Entry::Fresh, Some(command)) => match command.kind() {
            Kind::Idle => Entry::Fresh,
            Kind::Inward => Entry::ChainIn,
            Kind::Outward => Entry::ChainOut,
            Kind::Search => Entry::ChainSearch,
        },
        (entered, _) => entered,
    }
}
