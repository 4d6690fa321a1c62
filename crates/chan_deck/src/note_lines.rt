//! The notes on a job as text, which tests hold.

use crate::help::unseen_note;
use crate::listing::way_word;
use crate::own_mask::own_mask_note;
use ccw_core::{Area, Storage};
use chan_walk::{Entry, Job, Limit, Look, Place, Reason, Survey, Verdict, look_at};
use chan_why::{Findings, Notes, seems_exchanged};
use ckd_core::Kind;
use std::alloc::{AllocError, Global};
use std::fmt::Write;

/// The note on an area that ends past storage.
const PAST_STORAGE: &str = " reaches past storage";

/// The note on an area that no reachable CCW uses.
const UNUSED: &str = " is used by no reachable CCW";

/// The note on a kept area that the machine itself stores into.
const MACHINE_STORES: &str = " is where the machine stores PSWs, the CSW or the timer";

/// The note on the place from which on the program never ends by itself.
const HANGS: &str = " on the program never ends by itself: \
    only an error, an end of file, an incorrect length or a Halt I/O stops it";

/// The note on CCWs with the flag for a program-controlled interruption.
const INTERRUPTS: &str =
    ": the processor may then change any byte not listed as keep by chanv needs";

/// The note on a CCW that moves no data and has chain data on.
const ENDS_THERE: &str = " ends the program: chain data is on, and the command moves no data";

/// The note on a CCW whose byte 5 isn't zero.
const SPARE: &str = " in byte 5, which the channel ignores; flags are in byte 4";

// The note on bytes that aren't lent one way, but all the other way.
const LENT_FOR_STORING: &str = "note: the whole range is lent, but for storing\n";

const LENT_FOR_FETCHING: &str = "note: the whole range is lent, but for fetching\n";

/// The end of the note on the size of storage.
const STORAGE_ENDS: &str =
    " bytes; give --storage if it has more, and --at if the image begins elsewhere\n";

/// How many notes of one kind are written; a last line counts the others.
const MOST: usize = 100;

/// The areas, with neighbours that adjoin joined into one, if an area can be so long.
fn join_neighbours(alloc: Global, areas: &[Area]) -> Result<Vec<Area>, AllocError> {
    let mut runs: Vec<Area> = Vec::new(alloc);
    for area in areas {
        match runs.last_mut() {
            Some(run) if adjoin(*run, *area) => run.len = run.len.saturating_add(area.len),
            _ => runs.push(*area)?,
        }
    }
    Ok(runs)
}

/// Whether an area begins where another ends, and both together aren't too long for one area.
fn adjoin(one: Area, other: Area) -> bool {
    u64::from(one.start) + u64::from(one.len) == u64::from(other.start)
        && one.len.checked_add(other.len).is_some()
}

/// Adds the line that counts the notes of a kind beyond the first `MOST`, if there are any.
fn push_more(out: &mut String, count: usize) -> Result<(), AllocError> {
    if count <= MOST {
        return Ok(());
    }
    let more = count - MOST;
    write!(out, "note: {more} more such\n")
}

/// Adds the notes of a kind on areas; neighbours that adjoin share one.
fn push_areas(
    alloc: Global,
    out: &mut String,
    word: &str,
    what: &str,
    areas: &[Area],
) -> Result<(), AllocError> {
    let runs = join_neighbours(alloc, areas)?;
    for Area { start, len } in runs.iter().take(MOST) {
        write!(out, "note: {word} {start:06X} {len:06X}{what}\n")?;
    }
    push_more(out, runs.len())
}

/// Adds the notes of a kind on the CCWs at some addresses.
fn push_ccws(out: &mut String, what: &str, addresses: &[u32]) -> Result<(), AllocError> {
    for address in addresses.iter().take(MOST) {
        write!(out, "note: {address:06X}{what}\n")?;
    }
    push_more(out, addresses.len())
}

/// Adds the note on the CCWs at some addresses that interrupt, of which the first is named.
fn push_interrupting(out: &mut String, addresses: &[u32]) -> Result<(), AllocError> {
    match addresses {
        [] => Ok(()),
        [first] => write!(out, "note: {first:06X} interrupts{INTERRUPTS}\n"),
        [first, more @ ..] => {
            let more = more.len();
            write!(
                out,
                "note: {first:06X} and {more} more interrupt{INTERRUPTS}\n"
            )
        }
    }
}

/// Adds the notes on the CCWs at some addresses of storage whose byte 5 isn't zero, with that byte.
fn push_spare(out: &mut String, storage: Storage<'_>, addresses: &[u32]) -> Result<(), AllocError> {
    for address in addresses.iter().take(MOST) {
        if let Some(ccw) = storage.ccw_at(*address) {
            let byte = ccw.spare();
            write!(out, "note: {address:06X} has {byte:02X}{SPARE}\n")?;
        }
    }
    push_more(out, addresses.len())
}

/// Whether areas, one behind the other, are all of a storage of this length.
fn are_all(areas: &[Area], len: u32) -> bool {
    let mut end = 0u32;
    for area in areas {
        if area.start != end {
            return false;
        }
        end = end.saturating_add(area.len);
    }
    end >= len
}

/// The notes on a job with this storage as text, in this order:
///
/// - the lent areas that reach past storage, and those that no reachable CCW uses, unless they are
///   all of storage, as under an open job;
/// - the kept areas that the machine itself stores into;
/// - the first place from which on the program never ends by itself;
/// - the CCWs that ask for an interruption, in one note, and those at which the program ends though
///   chain data is on;
/// - the CCWs whose byte 5 isn't zero.
///
/// Each kind has a line for each of its first hundred notes, and one line that counts the others.
/// Areas that adjoin share a note. Without any note the text is empty. An error means that an
/// allocation failed.
fn notes_text(
    alloc: Global,
    storage: Storage<'_>,
    notes: &Notes,
    hang: Option<Place>,
) -> Result<String, AllocError> {
    let mut text = String::new(alloc);
    let kinds = [
        ("fetch", PAST_STORAGE, &notes.fetch_past_storage),
        ("store", PAST_STORAGE, &notes.store_past_storage),
        ("fetch", UNUSED, &notes.unused_fetch),
        ("store", UNUSED, &notes.unused_store),
        ("keep", MACHINE_STORES, &notes.machine_stores),
    ];
    for (word, what, areas) in kinds {
        if what != UNUSED || !are_all(areas, storage.len()) {
            push_areas(alloc, &mut text, word, what, areas)?;
        }
    }
    if let Some(place) = hang {
        // The note says the way in, since by another the same CCW may lead to an end.
        let (address, way) = (place.address, way_word(place.entered));
        write!(text, "note: from {address:06X} (entered {way}){HANGS}\n")?;
    }
    push_interrupting(&mut text, &notes.interrupting)?;
    push_ccws(&mut text, ENDS_THERE, &notes.ending)?;
    push_spare(&mut text, storage, &notes.spare)?;
    Ok(text)
}

/// The note on an image of storage whose ends may be wrong: how long storage is, and which options
/// say so. An error means that an allocation failed.
pub fn storage_note(alloc: Global, size: u32) -> Result<String, AllocError> {
    format!(in alloc; "note: storage has {size:07X}{STORAGE_ENDS}")
}

/// The note that areas seem exchanged, for a verdict with this reason: what isn't lent one way is
/// lent the other way. For other reasons the text is empty.
fn exchange_note(reason: Reason) -> &'static str {
    match reason {
        Reason::FetchNotLent => LENT_FOR_STORING,
        Reason::StoreNotLent => LENT_FOR_FETCHING,
        _ => "",
    }
}

/// The note on an image that begins at `at` and ends past storage of `size` bytes: how much room
/// there is. An error means that an allocation failed.
pub fn room_note(alloc: Global, at: u32, size: u32) -> Result<String, AllocError> {
    match size.checked_sub(at) {
        Some(room) => format!(in alloc;
            "note: the image begins at {at:06X} and has more than {room:X} bytes, but storage has \
             {size:07X}\n"
        ),
        None => format!(in alloc;
            "note: the image begins at {at:06X}, past storage of {size:07X} bytes\n"
        ),
    }
}

/// The notes on searches that are tried once, on commands that the program's own mask inhibits, and
/// on what stands behind the program. An error means that an allocation failed.
fn rest_notes(alloc: Global, job: &Job, survey: &Survey) -> Result<String, AllocError> {
    let once = once_note(alloc, job, survey.looks())?;
    let inhibited = own_mask_note(alloc, survey)?;
    let behind = behind_note(alloc, job, survey.looks())?;
    format!(in alloc; "{once}{inhibited}{behind}")
}

/// The note on what stands right behind the last of a program's CCWs, if it looks like a CCW to
/// which no run comes: a well-formed one of a known command, or a transfer into the program. An
/// error means that an allocation failed.
fn behind_note(alloc: Global, job: &Job, looks: &[Look]) -> Result<String, AllocError> {
    let last = looks.iter().map(|look| look.place().address).max();
    let address = last.unwrap_or(0).saturating_add(8);
    if !is_like_ccw(job, looks, address) {
        return Ok(String::new(alloc));
    }
    format!(in alloc; "note: {address:06X} looks like a CCW, but no run comes there\n")
}

/// The note on the searches of a program that are tried once, of which the first is named: no
/// transfer follows that may repeat them. An error means that an allocation failed.
fn once_note(alloc: Global, job: &Job, looks: &[Look]) -> Result<String, AllocError> {
    let (mut first, mut last, mut count) = (None, None, 0usize);
    for look in looks {
        let address = look.place().address;
        if last != Some(address) && is_search_once(job, look) {
            first = first.or(Some(address));
            last = Some(address);
            count = count.saturating_add(1);
        }
    }
    let more = count.saturating_sub(1);
    match first {
        None => Ok(String::new(alloc)),
        Some(address) if more == 0 => format!(in alloc;
            "note: {address:06X} searches once: no transfer right behind it repeats it\n"
        ),
        Some(address) => format!(in alloc;
            "note: {address:06X} and {more} more search once: no transfer right behind repeats \
             them\n"
        ),
    }
}

/// Whether a search begins at a place, in a CCW alone, and no transfer is tried if it fails.
fn is_search_once(job: &Job, look: &Look) -> bool {
    let is_search = look
        .command()
        .is_some_and(|command| command.kind() == Kind::Search);
    let behind = job.storage.ccw_at(look.place().address.saturating_add(8));
    let is_followed = behind.is_some_and(|ccw| ccw.is_transfer());
    is_search
        && look.ccw().is_some_and(|ccw| {
            !ccw.chains_data() && !(ccw.chains_command() && is_followed)
        })
}

/// Looks at a place as if nothing were lent. It serves to ask about the reasons that come before
/// those about lent areas, and costs nothing for the areas.
pub(crate) fn look_without_areas(job: &Job, place: Place) -> Look {
    let granting_none = Job {
        fetch: &[],
        store: &[],
        ..*job
    };
    look_at(&granting_none, place)
}

/// Whether what stands at an address looks like a CCW of a program.
fn is_like_ccw(job: &Job, looks: &[Look], address: u32) -> bool {
    let place = Place {
        address,
        entered: Entry::Fresh,
        after_transfer: false,
    };
    let look = look_without_areas(job, place);
    let is_well_formed = look.fault().is_none_or(|fault| fault.reason().number()
        > Reason::NotInTable.number());
    match look.ccw() {
        Some(ccw) if ccw.is_transfer() => looks
            .iter()
            .any(|look| look.place().address == ccw.address()),
        Some(ccw) => is_well_formed && ccw.spare() == 0,
        None => false,
    }
}

/// The note that no offence is at the address that is asked about, if that is so. An error means
/// that an allocation failed.
pub(crate) fn absent_note(alloc: Global, findings: &Findings) -> Result<String, AllocError> {
    match findings.asked {
        Some(address) if findings.requested.is_none() => {
            format!(in alloc; "note: no offence at {address:06X}\n")
        }
        _ => Ok(String::new(alloc)),
    }
}

/// The notes on what was found: what a yes leaves open; of a no, that the areas seem exchanged, if
/// they do, and that some CCWs weren't looked at. An error means that an allocation failed.
pub(crate) fn notes_on(alloc: Global, findings: &Findings) -> Result<String, AllocError> {
    let (job, survey) = (findings.job, &findings.survey);
    let (first, second) = match (survey.verdict(), &findings.open) {
        (Verdict::No { reason, .. }, _) => {
            let is_exchanged = !is_chained_over(findings)
                && seems_exchanged(alloc, job, survey.verdict())?;
            let exchange = if is_exchanged {
                exchange_note(reason)
            } else {
                ""
            };
            let unseen = unseen_note(survey);
            return format!(in alloc; "{exchange}{unseen}");
        }
        (Verdict::Yes, Some(open)) => (
            notes_text(alloc, job.storage, &open.notes, open.hang)?,
            rest_notes(alloc, job, survey)?,
        ),
        (Verdict::Yes, None) => return Err(AllocError),
    };
    format!(in alloc; "{first}{second}")
}

/// Whether the first offence is at a place that a data chain enters by a transfer.
fn is_chained_over(findings: &Findings) -> bool {
    let place = findings.survey.offences().first().map(|first| first.place);
    place.is_some_and(|place| place.entered != Entry::Fresh && place.after_transfer)
}

/// What the limit on places is, and how it may be raised. An error means that an allocation failed.
pub fn limit_note(alloc: Global, limit: Limit) -> Result<String, AllocError> {
    let places = limit.get();
    let how = if places == 65_536 {
        ", and none is higher"
    } else {
        "; the line limit of a deck of version 2, or --limit of chanv find and deck, \
            may raise it to 65536"
    };
    format!(in alloc; "the limit is {places}{how}\n")
}
