//! How to cure a no: the lines of help after its explanation. Tests hold the texts.

use crate::led_to::led_to;
use ccw_core::Area;
use chan_walk::{Entry, Evidence, Job, Outside, Place, Setting, Survey, setting_at};
use chan_why::{Findings, Witness};
use ckd_core::{Command, Device, FileMask, Kind, lookup};
use std::alloc::{AllocError, Global};
use std::fmt::Write as _;

/// The begin of the help on data that is stored over what may not change.
const ELSEWHERE: &str = "help: store the data elsewhere, so that ";

/// The lines of help on the offence that is explained, if there is one: the line of a deck that
/// cures it, or what to change in the program, and which word to look up. An error means that an
/// allocation failed.
pub(crate) fn help_text(alloc: Global, findings: &Findings) -> Result<String, AllocError> {
    let mut text = String::new(alloc);
    if let Some(offence) = findings.offence() {
        push_cure(&mut text, findings.job, &findings.witness)?;
        push_cut(alloc, &mut text, findings)?;
        let word = offence.reason.word();
        write!(text, "help: chanv explain {word}\n")?;
    }
    Ok(text)
}

/// Adds how to cure the cause of a witness, by a line of a deck or by a change of the program.
fn push_cure(out: &mut String, job: &Job, witness: &Witness) -> Result<(), AllocError> {
    match witness.evidence {
        Some(Evidence::StoreNotLent { data, .. }) => push_lending(out, "store", data),
        Some(Evidence::FetchNotLent { data, .. }) => push_lending(out, "fetch", data),
        Some(Evidence::SeekOutside { outside, .. }) => push_extent(out, job.device, outside),
        Some(Evidence::Inhibited { mask, code }) => push_command(out, mask, lookup(code)),
        Some(Evidence::WeakensMask { byte, mask }) => push_mask(out, mask, FileMask::new(byte)),
        Some(Evidence::ZeroCount) => push_chain(out, job, witness.path.as_slice()),
        Some(Evidence::ChangesCcw { ccw, .. }) => {
            write!(out, "{ELSEWHERE}the CCW at {ccw:06X} stays\n")?;
            push_parting(out, job, witness)
        }
        Some(Evidence::ChangesArgument { taker, .. }) => {
            write!(out, "{ELSEWHERE}the argument of {taker:06X} stays\n")?;
            push_parting(out, job, witness)
        }
        _ => Ok(()),
    }
}

/// Adds which CCW chains data to the end of a path, if one does.
fn push_chain(out: &mut String, job: &Job, path: &[Place]) -> Result<(), AllocError> {
    let Some((end, before)) = path.split_last() else {
        return Ok(());
    };
    match last_ccw(job, before) {
        Some(from) if end.entered != Entry::Fresh => {
            let address = from.address;
            write!(
                out,
                "help: {address:06X} chains data to here; switch chain data off there if its data \
                 ends with it\n"
            )
        }
        _ => Ok(()),
    }
}

/// Adds that an area is lent with a line of a deck.
fn push_lending(out: &mut String, keyword: &str, data: Area) -> Result<(), AllocError> {
    let (start, len) = (data.start, data.len);
    write!(
        out,
        "help: with \"{keyword} {start:06X} {len:06X}\" these bytes are lent\n"
    )
}

/// Adds that a cylinder is granted with a line of a deck, if the device has it.
fn push_extent(out: &mut String, device: Device, outside: Outside) -> Result<(), AllocError> {
    match outside {
        Outside::Cylinder(number) if number < device.cylinders() => {
            write!(
                out,
                "help: with \"extent {number:03} {number:03}\" cylinder {number} is granted\n"
            )
        }
        _ => Ok(()),
    }
}

/// Adds with which mask a command is permitted, if there is one.
fn push_command(
    out: &mut String,
    mask: FileMask,
    command: Option<Command>,
) -> Result<(), AllocError> {
    if let (Some(command), Some(laxer)) = (command, strictest(mask, mask, command)) {
        let (byte, name) = (laxer.byte(), command.name());
        write!(out, "help: with \"mask {byte:02X}\" {name} is permitted\n")?;
    }
    Ok(())
}

/// Adds under which mask a program may set another, if there is one.
fn push_mask(out: &mut String, mask: FileMask, set: Option<FileMask>) -> Result<(), AllocError> {
    let Some(set) = set else {
        return Ok(());
    };
    if let Some(laxer) = strictest(mask, set, None) {
        let (byte, set) = (laxer.byte(), set.byte());
        write!(
            out,
            "help: with \"mask {byte:02X}\" the program may set {set:02X}\n"
        )?;
    }
    Ok(())
}

/// The strictest mask that permits what either of two masks permits, and a command, if there is
/// one. Of two masks, neither stricter than the other, the later counts.
fn strictest(one: FileMask, other: FileMask, command: Option<Command>) -> Option<FileMask> {
    let mut found: Option<FileMask> = None;
    for mask in (0..=255u8).filter_map(|byte| FileMask::new(byte)) {
        let permits = command.is_none_or(|command| !mask.inhibits(command));
        if permits && one.at_least(mask) && other.at_least(mask) {
            let stricter = found.filter(|found| !mask.at_least(*found));
            found = stricter.or(Some(mask));
        }
    }
    found
}

/// Adds how to judge a program in two parts, if it reads in what it uses.
fn push_parting(out: &mut String, job: &Job, witness: &Witness) -> Result<(), AllocError> {
    match parting(job, witness.path.as_slice(), witness.second_path.as_slice()) {
        Some((last, first)) => write!(
            out,
            "help: if {first:06X} should use what is read there, end the program at {last:06X} by \
             switching off chain command, run that part, and then judge the part from {first:06X} \
             on\n"
        ),
        None => Ok(()),
    }
}

/// Where a program can be parted so that what it reads in is there before it is used: the address
/// of the last CCW of the first part, whose chain command leads to the second part, and of the
/// first CCW of the second. None if the data isn't read in before, if a search leads there, or if
/// the second part would begin with a transfer.
fn parting(job: &Job, path: &[Place], second_path: &[Place]) -> Option<(u32, u32)> {
    let changing = path.last()?.address;
    let (user, before) = second_path.split_last()?;
    let first = job.storage.ccw_at(user.address)?;
    let is_read_before = before.iter().any(|place| place.address == changing);
    if first.is_transfer() || user.entered != Entry::Fresh || !is_read_before {
        return None;
    }
    let last = last_command(job, before)?;
    Some((last.address, user.address))
}

/// Adds how to judge a program in two parts, if the argument that is stored over is that of a seek
/// that has been carried out: the first part ends with the seek.
fn push_cut(alloc: Global, out: &mut String, findings: &Findings) -> Result<(), AllocError> {
    let Some(Evidence::ChangesArgument { taker, .. }) = findings.witness.evidence else {
        return Ok(());
    };
    let path = findings.witness.path.as_slice();
    let (Some((seek, last, first)), Some(changing)) = (
        cut_behind(findings.job, path, taker),
        path.last(),
    ) else {
        return Ok(());
    };
    let survey = &findings.survey;
    let begin = path.first().copied().unwrap_or(seek);
    if leads_to(alloc, survey, *changing, taker, None)?
        || leads_to(alloc, survey, begin, changing.address, Some(last))?
    {
        return Ok(());
    }
    write!(
        out,
        "help: {taker:06X} has been carried out by then: end the program at {last:06X} by \
         switching off chain command, run that part, and then judge the part from {first:06X} on\n"
    )
}

/// The place of a path at which the seek at an address begins before the path's end; and where the
/// path can be cut behind it: the addresses of the last CCW of the seek, and of the next command.
fn cut_behind(job: &Job, path: &[Place], taker: u32) -> Option<(Place, u32, u32)> {
    let (_, before) = path.split_last()?;
    let is_seek = |place: &Place| place.address == taker && place.entered == Entry::Fresh;
    let at = before.iter().position(is_seek)?;
    let seek = *before.get(at)?;
    let Some(Setting::Arm(_)) = setting_at(job, seek) else {
        return None;
    };
    let is_command = |place: &Place| {
        let ccw = job.storage.ccw_at(place.address);
        place.entered == Entry::Fresh && ccw.is_some_and(|ccw| !ccw.is_transfer())
    };
    let behind = path.get(at.saturating_add(1)..)?;
    let len = behind.iter().position(is_command)?;
    let part = path.get(..at.saturating_add(1).saturating_add(len))?;
    Some((seek, last_ccw(job, part)?.address, behind.get(len)?.address))
}

/// Whether a place leads to a CCW, also if no place at another address, if one is given, leads on.
fn leads_to(
    alloc: Global,
    survey: &Survey,
    from: Place,
    to: u32,
    without: Option<u32>,
) -> Result<bool, AllocError> {
    if Some(from.address) == without {
        return Ok(false);
    }
    let mut is_end = Vec::new(alloc);
    for look in survey.looks() {
        is_end.push(Some(look.place().address) == without)?;
    }
    let is_led = led_to(alloc, survey, &[from], is_end.as_slice())?;
    let mut looks = survey.looks().iter().zip(is_led.iter());
    Ok(looks.any(|(look, led)| *led && look.place().address == to))
}

/// The last of some places that isn't a transfer.
fn last_ccw(job: &Job, places: &[Place]) -> Option<Place> {
    let is_ccw = |place: &Place| {
        let ccw = job.storage.ccw_at(place.address);
        ccw.is_some_and(|ccw| !ccw.is_transfer())
    };
    let at = places.iter().rposition(is_ccw)?;
    places.get(at).copied()
}

/// The last of some places that isn't a transfer, unless it is a search's.
fn last_command(job: &Job, places: &[Place]) -> Option<Place> {
    let place = last_ccw(job, places)?;
    let ccw = job.storage.ccw_at(place.address)?;
    (!searches(place, ccw.command())).then_some(place)
}

/// Whether a place belongs to a search.
fn searches(place: Place, code: u8) -> bool {
    match place.entered {
        Entry::Fresh => lookup(code).is_some_and(|command| command.kind() == Kind::Search),
        entered => entered == Entry::ChainSearch,
    }
}

/// The note on a no beside which CCWs weren't looked at, because a CCW that leads to them has a
/// fault. A transfer leads on whatever its flags, which the channel ignores.
pub(crate) fn unseen_note(survey: &Survey) -> &'static str {
    for look in survey.looks() {
        if let (Some(_), Some(ccw)) = (look.fault(), look.ccw()) {
            if ccw.is_transfer() || ccw.chains_data() || ccw.chains_command() {
                return "note: chanv didn't look past the CCWs that have a fault; \
                        after a repair ask again\n";
            }
        }
    }
    ""
}
