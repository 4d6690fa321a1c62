//! A line of a dump of storage as text: an address, and the bytes from there on.

use crate::dump_form::{Bytes, Front, MARKS, ends_word};
use crate::dump_note::{APART, DIGIT, HALF, HIGH, OCTAL};
use crate::numbers::spelled_byte;
use crate::plain_text::{VARIANT, in_ebcdic};
use ccw_core::STORAGE_LIMIT;
use std::alloc::AllocError;
use std::str;

/// Why a line of a dump isn't read.
#[derive(Clone, Copy)]
pub(crate) enum Fault {
    /// This is said of it, and of the character at this column.
    At(&'static str, usize),
    /// An allocation failed.
    Memory,
}

impl From<AllocError> for Fault {
    fn from(_error: AllocError) -> Fault {
        Fault::Memory
    }
}

/// A byte of a line, and the column of its first digit.
#[derive(Clone, Copy)]
pub(crate) struct Spelled {
    pub(crate) byte: u8,
    pub(crate) column: usize,
}

/// How long a text column without a mark may be, with the blanks before it. It bounds how often a
/// long line is looked at.
const LONGEST_TEXT: usize = 2_048;

/// How many blanks may come before a byte.
const MOST_BLANKS: usize = 8;

impl Front<'_> {
    /// Whether the address is as `od` writes it in octal.
    pub(crate) fn is_octal(&self) -> bool {
        self.is_blank && self.digits.len() == 7 && self.digits.iter().all(is_octal_digit)
    }

    /// The address, in a dump whose addresses may be octal.
    pub(crate) fn address(&self, is_octal: bool) -> Result<usize, Fault> {
        let is_octal = is_octal && self.is_blank;
        let wrong = self.digits.iter().position(|digit| !is_octal_digit(digit));
        if let (true, Some(at)) = (is_octal, wrong) {
            return Err(Fault::At(OCTAL, self.column.saturating_add(at)));
        }
        let digits = str::from_utf8(self.digits).unwrap_or("");
        match usize::from_str_radix(digits, if is_octal { 8 } else { 16 }) {
            Ok(address) if address <= STORAGE_LIMIT as usize => Ok(address),
            _ => Err(Fault::At(HIGH, self.column)),
        }
    }

    /// The number that the digits of the address are in decimal.
    pub(crate) fn decimal(&self) -> Option<usize> {
        str::from_utf8(self.digits).ok()?.parse().ok()
    }

    /// Reads the bytes of the line in place of those of the list.
    pub(crate) fn read_bytes(&self, line: &[u8], bytes: &mut Vec<Spelled>) -> Result<(), Fault> {
        bytes.truncate(0);
        let line = match self.bytes {
            Bytes::In(width) => line.get(..self.from.saturating_add(width)).unwrap_or(line),
            _ => line,
        };
        // Behind the last byte.
        let mut next = self.from;
        for column in self.from..line.len() {
            if column < next {
                continue;
            }
            let is_group = column > next || bytes.is_empty();
            if let Some((byte, len)) = byte_at(line, column, is_group)? {
                if column.saturating_sub(next) > MOST_BLANKS {
                    return Err(Fault::At(APART, column));
                }
                next = column.saturating_add(len);
                bytes.extend_from_slice(&[Spelled { byte, column }])?;
            } else if ends_at(line, column, bytes.as_slice()) {
                break;
            } else if !line[column].is_ascii_whitespace() {
                return Err(Fault::At(DIGIT, column));
            }
        }
        if self.bytes == Bytes::Keyed && bytes.len() % 4 == 1 {
            bytes.truncate(bytes.len() - 1);
        }
        Ok(())
    }

    /// Whether the bytes may be swapped: they are in words of two, and more than two.
    pub(crate) fn may_be_swapped(&self, bytes: &[Spelled]) -> bool {
        for at in 1..bytes.len() {
            let apart = bytes[at].column.saturating_sub(bytes[at - 1].column);
            if (apart == 2) != (at % 2 == 1) {
                return false;
            }
        }
        self.is_blank && bytes.len() > 2 && bytes.len() % 2 == 0
    }
}

/// Whether a digit may be octal.
fn is_octal_digit(digit: &u8) -> bool {
    matches!(*digit, b'0'..=b'7')
}

/// The byte at a column, if one is there, and how many columns it takes: two digits, or at the
/// begin of a group two digits after `0x`, or the letters of flags.
fn byte_at(line: &[u8], column: usize, is_group: bool) -> Result<Option<(u8, usize)>, Fault> {
    let rest = line.get(column..).unwrap_or(&[]);
    if is_group {
        if let Some(flags) = flags_of(rest) {
            return Ok(Some((flags, 6)));
        }
        let digits = rest.strip_prefix(b"0x").and_then(|digits| digits.get(..2));
        if let Some(byte) = digits.and_then(spelled_byte) {
            return Ok(Some((byte, 4)));
        }
    }
    match rest {
        [first, ..] if !first.is_ascii_hexdigit() => Ok(None),
        [_, second, ..] if second.is_ascii_hexdigit() => {
            Ok(rest.get(..2).and_then(spelled_byte).map(|byte| (byte, 2)))
        }
        [_, second, ..] if !ends_word(second) => { Err(Fault::At(DIGIT, column.saturating_add(1))) }
        _ => Err(Fault::At(HALF, column)),
    }
}

/// The flags whose letters come first, as `chanv list` writes them: `-C---0`.
fn flags_of(text: &[u8]) -> Option<u8> {
    let letters: &[u8; 6] = text.first_chunk()?;
    let mut flags = 0u8;
    for (letter, found) in b"DCLSP".iter().zip(letters) {
        let bit = u8::from(letter == found);
        if bit == 0 && *found != b'-' {
            return None;
        }
        flags = flags.wrapping_mul(2) | bit;
    }
    let low = letters[5];
    is_octal_digit(&low).then_some(flags.wrapping_mul(8) | (low & 7))
}

/// Whether the bytes of a line end at a column. Blanks after the first of a run aren't asked again,
/// since a text column begins with all blanks before it.
fn ends_at(line: &[u8], column: usize, bytes: &[Spelled]) -> bool {
    let before = line.get(..column).unwrap_or(line);
    let rest = line.get(column..).unwrap_or(&[]);
    let is_marked = rest.first().is_some_and(|byte| MARKS.contains(byte));
    let is_short = rest.len() <= LONGEST_TEXT && bytes.len() <= LONGEST_TEXT;
    let is_asked = before.last().is_some_and(|byte| byte.is_ascii_whitespace());
    let may_be_text = is_short && !is_asked && rest.starts_with(b"  ");
    is_marked || may_be_text && (is_text_of(rest, bytes, false) || is_text_of(rest, bytes, true))
}

/// Whether what is left of a line is two blanks or more and then the text of its bytes, in ASCII or
/// in EBCDIC, of which blanks at the end may have gone.
fn is_text_of(rest: &[u8], bytes: &[Spelled], is_ebcdic: bool) -> bool {
    let text = rest.trim_ascii();
    let blanks = rest.trim_ascii_end().len().saturating_sub(text.len());
    let shown = bytes
        .iter()
        .map(|spelled| shown_as(spelled.byte, is_ebcdic));
    let mut shown = shown.skip_while(|shown| *shown == b' ');
    blanks > 1
        && text.iter().all(|byte| match shown.next() {
            Some(VARIANT) if is_ebcdic => !byte.is_ascii_alphanumeric(),
            shown => shown == Some(*byte),
        })
        && shown.all(|byte| byte == b' ')
}

/// The character of a byte in a text column.
fn shown_as(byte: u8, is_ebcdic: bool) -> u8 {
    match if is_ebcdic { in_ebcdic(byte) } else { byte } {
        shown @ b' '..=b'~' => shown,
        _ => b'.',
    }
}
