//! What a CCW does, in words for the wide listing and the picture. Tests hold it.

use byteorder::{BigEndian, ByteOrder};
use ccw_core::{Area, Ccw, CcwFlags, Storage};
use chan_areas::Merged;
use chan_walk::{Direction, Job, Look, Setting, data_moved, data_of, setting_at};
use ckd_core::{Kind, Track};
use std::alloc::{AllocError, Global};
use std::fmt::Write as _;

/// The most bytes of a key that are shown.
const MOST_OF_KEY: u32 = 16;

/// The characters of EBCDIC that a key is shown in, from code 40 on; `?` stands for any other.
const CHARACTERS: &[u8; 192] = b"\
    \x20??????????.?(+????????????$*)??-/?????????,%_????????????:#@?=?\
    ?abcdefghi???????jklmnopqr????????stuvwxyz??????????????????????\
    ?ABCDEFGHI???????JKLMNOPQR????????STUVWXYZ??????0123456789??????";

/// A job as its program is shown.
#[derive(Drop)]
pub(crate) struct Shown<'a> {
    pub(crate) job: &'a Job<'a>,
    /// The bytes into which some reachable CCW stores, so that their values on a run aren't known.
    stored: Merged,
}

impl<'a> Shown<'a> {
    /// A job with these reachable places.
    pub(crate) fn new(
        alloc: Global,
        job: &'a Job<'a>,
        looks: &[Look],
    ) -> Result<Shown<'a>, AllocError> {
        let stored = data_moved(alloc, looks, Direction::Store)?;
        Ok(Shown { job, stored })
    }

    /// What the operation that begins at a place sets, if no reachable CCW stores over what it
    /// takes that from. Recalibrate takes nothing.
    pub(crate) fn setting_of(&self, look: &Look) -> Option<Setting> {
        let data = data_of(&look.ccw()?);
        let is_idle = look
            .command()
            .is_some_and(|command| command.kind() == Kind::Idle);
        let mut argument = look.argument().iter();
        if !is_idle && self.stored.meets(data.start, data.len)
            || argument.any(|address| self.stored.meets(*address, 1))
        {
            return None;
        }
        setting_at(self.job, look.place())
    }

    /// Adds what the search that begins at a place compares, in parentheses, if it is all in the
    /// data of its CCW and in storage, and no reachable CCW stores over that.
    pub(crate) fn push_compared(&self, out: &mut String, look: &Look) -> Result<(), AllocError> {
        let (Some(ccw), Some(command)) = (look.ccw(), look.command()) else {
            return Ok(());
        };
        let data = data_of(&ccw);
        if command.kind() != Kind::Search
            || ccw.chains_data()
            || self.job.storage.range(data.start, data.len).is_none()
            || self.stored.meets(data.start, data.len)
        {
            return Ok(());
        }
        let storage = &self.job.storage;
        if command.name().starts_with("search-key") {
            return push_key(out, storage, data);
        }
        let has_record = command.name().starts_with("search-id");
        if data.len == if has_record { 5 } else { 4 } {
            return push_record(out, storage, data);
        }
        Ok(())
    }
}

/// Adds a track in parentheses, and the number of a record if the data has one.
fn push_record(out: &mut String, storage: &Storage, data: Area) -> Result<(), AllocError> {
    let byte = |number: u32| storage.byte_at(data.start.saturating_add(number));
    let bytes = [byte(0), byte(1), byte(2), byte(3)];
    let (cylinder, head) = (
        BigEndian::read_u16(&bytes),
        BigEndian::read_u16(&bytes[2..]),
    );
    write!(out, " (cylinder {cylinder}, head {head}")?;
    if data.len > 4 {
        let record = byte(4);
        write!(out, ", record {record}")?;
    }
    out.push(')')
}

/// Adds a key in parentheses: as text if each byte is a character of EBCDIC, and else in digits. Of
/// a longer key only the first bytes are shown.
fn push_key(out: &mut String, storage: &Storage, data: Area) -> Result<(), AllocError> {
    let len = data.len.min(MOST_OF_KEY);
    let byte = |number: u32| storage.byte_at(data.start.saturating_add(number));
    let is_text = (0..len).all(|number| character_of(byte(number)).is_some());
    out.push_str(if is_text { " (key '" } else { " (key " })?;
    for number in 0..len {
        let byte = byte(number);
        match character_of(byte) {
            Some(character) if is_text => out.push(char::from(character))?,
            _ => write!(out, "{byte:02X}")?,
        }
    }
    if data.len > len {
        out.push_str("..")?;
    }
    out.push_str(if is_text { "')" } else { ")" })
}

/// The character of a code of EBCDIC, in ASCII.
fn character_of(code: u8) -> Option<u8> {
    match CHARACTERS.get(usize::from(code.checked_sub(0x40)?)) {
        None | Some(b'?') => None,
        Some(character) => Some(*character),
    }
}

/// Adds how many bytes a CCW's data has.
pub(crate) fn push_amount(out: &mut String, ccw: Ccw) -> Result<(), AllocError> {
    let count = ccw.count();
    let bytes = if count == 1 { "byte" } else { "bytes" };
    write!(out, " {count} {bytes}")
}

/// Adds the flags of a CCW that change what is reported of it: SLI and PCI.
pub(crate) fn push_reported(out: &mut String, look: &Look) -> Result<(), AllocError> {
    let Some(ccw) = look.ccw().filter(|ccw| !ccw.is_transfer()) else {
        return Ok(());
    };
    for (flag, name) in [(CcwFlags::SLI, "SLI"), (CcwFlags::PCI, "PCI")] {
        if ccw.has_flag(flag) {
            push_part(out, name)?;
        }
    }
    Ok(())
}

/// Adds a part to a text of parts with a comma and a blank between two.
pub(crate) fn push_part(out: &mut String, part: &str) -> Result<(), AllocError> {
    if !out.is_empty() {
        out.push_str(", ")?;
    }
    out.push_str(part)
}
