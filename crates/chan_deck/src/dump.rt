//! Reading a dump of storage, which is text, as an image.

use crate::dump_form::{Front, front_of, nearest_form};
use crate::dump_line::{Fault, Spelled};
use crate::dump_note::{
    AGAIN, DECIMAL, DIFFERS, GAP, HIGH, IS_DECK, LABEL, LIKE, LINE, NONE, ONE_LINE, REPEAT, STEP,
    SWAPPED, notes_text, refusal_text,
};
use crate::image_note::is_deck;
use crate::plain_text::text_of;
use ccw_core::{Area, STORAGE_LIMIT};
use std::alloc::{AllocError, Global};
use std::str;
use thiserror::Error;

/// What a line begins with that may come between the lines of a dump and tells no bytes: headings
/// of an ABEND dump, and lines of a listing that aren't rows.
const HEADINGS: &str =
    "JOB |COMPLETION CODE|NUCLEUS|REGS |FLTS |FLTR |P/P |SP |LOAD MODULE |CSECT |\
    TRACE |PAGE |END OF DUMP|because |yes|no ";

/// How many columns of a line are compared with those of another.
const LIKE_COLUMNS: usize = 32;

/// How long a text may be that is a single line without an end.
const LONGEST: usize = 120;

/// An image that a dump gives.
#[derive(Drop)]
pub struct Dump {
    /// The address of its first byte.
    pub at: u32,
    /// The bytes that the dump tells, and zeros in its gaps.
    pub image: Vec<u8>,
    /// The areas that no line tells.
    pub gaps: Vec<Area>,
    /// The notes on addresses, on lines that were passed over and on gaps.
    pub notes: String,
}

/// Why a dump gives no image.
#[derive(Debug, Drop, Error)]
pub enum DumpError {
    /// This is said of the first line that can't be read.
    #[error("{0}")]
    Refused(String),
    /// An allocation failed.
    #[error("out of memory")]
    Memory,
}

impl From<AllocError> for DumpError {
    fn from(_error: AllocError) -> DumpError {
        DumpError::Memory
    }
}

/// The image that a dump gives; `None` if the input isn't text.
pub fn read_dump(alloc: Global, input: &[u8]) -> Result<Option<Dump>, DumpError> {
    let Some(characters) = text_of(alloc, input)? else {
        return Ok(None);
    };
    let text = characters.text();
    if is_deck(text) {
        return Err(DumpError::Refused(String::from_str(alloc, IS_DECK)?));
    }
    let mut reading = Reading::new(alloc);
    match reading.read_lines(text) {
        Ok(()) => Ok(Some(reading.finish(alloc)?)),
        Err((_, _, Fault::Memory)) => Err(DumpError::Memory),
        Err((number, line, Fault::At(why, column))) => {
            let is_dump = reading.row.is_some();
            Err(DumpError::Refused(refusal_text(alloc, line, number, why, column, is_dump)?))
        }
    }
}

/// Whether a byte ends a line.
fn is_line_feed(byte: &u8) -> bool {
    *byte == b'\n'
}

/// A line with bytes that was read.
#[derive(Clone, Copy)]
struct Row {
    /// The address of its first byte, and how many it has.
    start: usize,
    len: usize,
    /// The address after its last byte, or after its repeats.
    end: usize,
    /// How many digits its address has, and the number that they are in decimal.
    width: usize,
    decimal: Option<usize>,
    /// Whether it is of a log, which has other lines.
    is_logged: bool,
}

/// What was read of a dump.
#[derive(Drop)]
struct Reading {
    /// The byte at each address, if a line tells it.
    bytes: Vec<Option<u8>>,
    /// The last line with bytes, and room for the bytes of the next.
    row: Option<Row>,
    read: Vec<Spelled>,
    /// Whether no other line has come since.
    is_next: bool,
    /// The most bytes of a line.
    widest: usize,
    /// Whether the addresses are octal.
    is_octal: bool,
    /// The number of a line `*` after the last line with bytes, which is repeated up to the next.
    star: Option<u64>,
    /// How many lines tell no bytes and are no comment.
    passed: u64,
    /// The number of the first line whose address has fewer digits than that of the line before.
    shorter: Option<u64>,
}

impl Reading {
    fn new(alloc: Global) -> Reading {
        Reading {
            bytes: Vec::new(alloc),
            row: None,
            read: Vec::new(alloc),
            is_next: false,
            widest: 0,
            is_octal: false,
            star: None,
            passed: 0,
            shorter: None,
        }
    }

    /// Reads the lines of a text. A fault comes with the number of its line and the line.
    fn read_lines<'t>(&mut self, text: &'t [u8]) -> Result<(), (u64, &'t [u8], Fault)> {
        let first = text
            .split(is_line_feed)
            .find(|line| front_of(line).is_some());
        let first = first.unwrap_or(&[]);
        self.is_octal = front_of(first).is_some_and(|front| front.is_octal());
        if text.len() > LONGEST && !text.contains(&b'\n') {
            return Err((1, text, Fault::At(ONE_LINE, 0)));
        }
        for (number, line) in (1..u64::MAX).zip(text.split(is_line_feed)) {
            let line = line.trim_ascii_end();
            if let Err(fault) = self.read_line(line, number, first) {
                return Err((number, line, fault));
            }
        }
        let mut lines = (1..u64::MAX).zip(text.split(is_line_feed));
        let (number, line) = lines
            .find(|(_, line)| !line.trim_ascii().is_empty())
            .unwrap_or((1, b""));
        match (self.star, self.row) {
            (Some(number), _) => Err((number, b"*", Fault::At(REPEAT, 0))),
            (None, None) => Err((number, line, Fault::At(NONE, nearest_form(line).1))),
            (None, Some(_)) => Ok(()),
        }
    }

    /// Reads a line; `first` is the first with an address.
    fn read_line(&mut self, line: &[u8], number: u64, first: &[u8]) -> Result<(), Fault> {
        if let Some(front) = front_of(line) {
            return self.read_row(line, number, &front);
        }
        let text = line.trim_ascii();
        let column = line.len().saturating_sub(line.trim_ascii_start().len());
        if let Some((first, last)) = lines_repeated(text) {
            return self.repeat_lines(first, last, column);
        }
        match (text, self.row) {
            ([b'*'], Some(_)) => self.star = Some(number),
            ([] | [b';' | b'*', ..], _) => self.is_next = false,
            (_, None) if is_like(line, first) => return Err(Fault::At(LIKE, column)),
            (_, Some(row)) if !is_passed(text, row) => return Err(Fault::At(LINE, column)),
            _ => {
                self.passed = self.passed.saturating_add(1);
                self.is_next = false;
            }
        }
        Ok(())
    }

    /// Reads a line with an address.
    fn read_row(&mut self, line: &[u8], number: u64, front: &Front<'_>) -> Result<(), Fault> {
        let start = front.address(self.is_octal)?;
        front.read_bytes(line, &mut self.read)?;
        if let (true, Some(first)) = (front.may_be_swapped(&self.read), self.read.first()) {
            return Err(Fault::At(SWAPPED, first.column));
        }
        let len = self.read.len();
        let row = Row {
            start,
            len,
            end: start.saturating_add(len),
            width: front.digits.len(),
            decimal: front.decimal(),
            is_logged: front.is_logged,
        };
        if self.star.take().is_some() {
            self.repeat(start, len == 0, front.column)?;
        }
        if let Some(why) = self.wrong_step(&row) {
            return Err(Fault::At(why, front.column));
        }
        let is_other = self
            .row
            .is_some_and(|above| above.end != start && self.begins_with(above.end));
        if front.is_blank && is_other {
            return Err(Fault::At(LABEL, front.column));
        }
        for at in 0..len {
            if let Some(Spelled { byte, column }) = self.read.get(at).copied() {
                self.set(start.saturating_add(at), Some(byte), column)?;
            }
        }
        if len > 0 {
            let is_shorter = self.row.is_some_and(|above| row.width < above.width);
            self.shorter = self.shorter.or(is_shorter.then_some(number));
            self.widest = self.widest.max(len);
            (self.row, self.is_next) = (Some(row), true);
        }
        Ok(())
    }

    /// Whether the first group of bytes of a line is this address.
    fn begins_with(&self, address: usize) -> bool {
        let group = self
            .read
            .as_slice()
            .chunk_by(|one, next| next.column == one.column.saturating_add(2))
            .next();
        let mut value = 0usize;
        for spelled in group.unwrap_or(&[]) {
            value = value.wrapping_mul(256) | usize::from(spelled.byte);
        }
        address > 0 && value == address
    }

    /// Why a row may not have its address, if it may not: it goes on where the last one ends, or,
    /// with bytes, at or before its start, or after a gap. Between two lines of a long dump the gap
    /// has as many bytes as a line or a multiple, and otherwise at least two.
    fn wrong_step(&self, next: &Row) -> Option<&'static str> {
        let (row, len) = (self.row?, next.len);
        let may_be_gap = |gap: usize| match self.widest {
            _ if !self.is_next => true,
            9.. => row.len == self.widest && gap.checked_rem(row.len) == Some(0),
            _ => gap > 1,
        };
        let follows = |start: usize| next.decimal == start.checked_add(row.len);
        match next.start.checked_sub(row.end) {
            Some(0) => None,
            Some(gap) if len > 0 && may_be_gap(gap) => None,
            None if len > 0 && next.start <= row.start => None,
            _ if row.decimal.is_some_and(follows) => Some(DECIMAL),
            Some(_) if len > 0 => Some(GAP),
            _ => Some(STEP),
        }
    }

    /// Sets the byte at an address, where no other byte may be.
    fn set(&mut self, address: usize, byte: Option<u8>, column: usize) -> Result<(), Fault> {
        if address >= STORAGE_LIMIT as usize {
            return Err(Fault::At(HIGH, column));
        }
        if self.bytes.len() <= address {
            self.bytes.resize(address.saturating_add(1), None)?;
        }
        if let Some(place) = self.bytes.get_mut(address) {
            if place.is_some() && *place != byte {
                return Err(Fault::At(DIFFERS, column));
            }
            *place = byte;
        }
        Ok(())
    }

    /// Repeats the last line with bytes in the lines from one address to another.
    fn repeat_lines(&mut self, first: usize, last: usize, column: usize) -> Result<(), Fault> {
        match self.row {
            Some(row) if row.end == first && first <= last => {
                self.repeat(last.saturating_add(row.len), false, column)
            }
            _ => Err(Fault::At(REPEAT, column)),
        }
    }

    /// Repeats the last line with bytes up to an address: whole lines, or up to the end.
    fn repeat(&mut self, end: usize, is_end: bool, column: usize) -> Result<(), Fault> {
        let is_whole = |row: &Row| {
            let len = end.checked_sub(row.end);
            len.is_some_and(|len| is_end || len.checked_rem(row.len) == Some(0))
        };
        let Some(row) = self.row.filter(is_whole) else {
            return Err(Fault::At(REPEAT, column));
        };
        for address in row.end..end {
            if let Some(Some(_)) = self.bytes.get(address) {
                return Err(Fault::At(AGAIN, column));
            }
            let repeated = address.saturating_sub(row.len);
            let byte = self.bytes.get(repeated).copied().flatten();
            self.set(address, byte, column)?;
        }
        self.row = Some(Row { end, ..row });
        Ok(())
    }

    /// The image of what was read.
    fn finish(self, alloc: Global) -> Result<Dump, AllocError> {
        let mut image = Vec::new(alloc);
        let mut gaps = Vec::new(alloc);
        let (mut at, mut end, mut zeros) = (0, 0, 0u64);
        for (address, byte) in (0..STORAGE_LIMIT).zip(&self.bytes) {
            let Some(byte) = *byte else {
                continue;
            };
            if image.is_empty() {
                (at, end) = (address, address);
            }
            let len = address.saturating_sub(end);
            if len > 0 {
                gaps.push(Area { start: end, len })?;
                zeros = zeros.saturating_add(u64::from(len));
                image.resize(image.len().saturating_add(len as usize), 0)?;
            }
            image.push(byte)?;
            end = address.saturating_add(1);
        }
        let counts = (self.is_octal, self.passed, self.shorter, zeros);
        let notes = notes_text(alloc, counts, gaps.as_slice())?;
        Ok(Dump {
            at,
            image,
            gaps,
            notes,
        })
    }
}

/// Whether a line may come between the lines of a dump and tells no bytes.
fn is_passed(text: &[u8], row: Row) -> bool {
    let mut headings = HEADINGS.split("|");
    row.is_logged && !text.windows(3).any(|part| part == b":K:".as_slice())
        || headings.any(|heading| text.starts_with(heading.as_bytes()))
}

/// Whether a line has digits and blanks where another has them, but for few columns.
fn is_like(line: &[u8], other: &[u8]) -> bool {
    let kind = |byte: &u8| (byte.is_ascii_hexdigit(), byte.is_ascii_whitespace());
    let len = other.len().min(LIKE_COLUMNS);
    let columns = line.iter().zip(other).take(len);
    let same = columns
        .filter(|(one, other)| kind(one) == kind(other))
        .count();
    len > 0 && same >= len.saturating_sub((len / 8).clamp(1, 3))
}

/// The addresses of the first and the last of the lines that are as the line above, of `LINES
/// 000820-0008E0  SAME AS ABOVE` or `LINE 000820  SAME AS ABOVE`.
fn lines_repeated(text: &[u8]) -> Option<(usize, usize)> {
    let text = str::from_utf8(text).ok()?.strip_suffix("SAME AS ABOVE")?;
    let lines = text
        .strip_prefix("LINES ")
        .or(text.strip_prefix("LINE "))?
        .trim_ascii();
    let (first, last) = lines.split_once("-").unwrap_or((lines, lines));
    let first = u32::from_str_radix(first, 16).ok()?;
    Some((first as usize, u32::from_str_radix(last, 16).ok()? as usize))
}
