//! Whether an input is text, and its characters in ASCII.

use crate::hint::BYTE_ORDER_MARK;
use std::alloc::{AllocError, Global};
use std::str;

/// What begins a colour, up to the next letter.
const ESCAPE: u8 = b'\x1B';

/// A sign of EBCDIC that isn't the same in all code pages, or the question mark.
pub(crate) const VARIANT: u8 = b'?';

/// How the characters of a text are coded.
#[derive(Clone, Copy)]
enum Code {
    Ascii,
    Ebcdic,
    /// In two bytes each. This is the index of the byte that an ASCII character has, and whether a
    /// byte-order mark says so.
    Utf16(usize, bool),
}

/// The characters of a text: the bytes of the input, or others in their place.
#[derive(Drop)]
pub(crate) enum Characters<'a> {
    Given(&'a [u8]),
    Made(Vec<u8>),
}

impl Characters<'_> {
    /// The text without a byte-order mark in front and a Ctrl-Z at its end.
    pub(crate) fn text(&self) -> &[u8] {
        let text = match self {
            Characters::Given(bytes) => bytes,
            Characters::Made(bytes) => bytes.as_slice(),
        };
        let text = text.strip_prefix(BYTE_ORDER_MARK).unwrap_or(text);
        text.strip_suffix(b"\x1A").unwrap_or(text)
    }
}

/// Whether an input may be text, as its first bytes tell.
pub fn may_be_text(front: &[u8]) -> bool {
    code_of(front).is_some()
}

/// The characters of a text. `None` if the bytes aren't text: they have a control character that
/// parts no words, lines or pages, begins no colour and doesn't end the text, or are all the same.
pub(crate) fn text_of(alloc: Global, bytes: &[u8]) -> Result<Option<Characters<'_>>, AllocError> {
    let Some(code) = code_of(bytes) else {
        return Ok(None);
    };
    let first = bytes.first();
    let (text, is_text) = match code {
        _ if bytes.iter().all(|byte| Some(byte) == first) => return Ok(None),
        Code::Ascii if !bytes.contains(&ESCAPE) => (Characters::Given(bytes), is_ascii(bytes)),
        Code::Ascii => (
            Characters::Made(without_colours(alloc, bytes)?),
            is_ascii(bytes),
        ),
        Code::Ebcdic => (Characters::Made(from_ebcdic(alloc, bytes)?), true),
        Code::Utf16(low, is_marked) => {
            let text = from_utf_16(alloc, bytes, low)?;
            let is_text = is_marked || text.contains(&b'\n');
            (Characters::Made(text), is_text)
        }
    };
    Ok(is_text.then_some(text))
}

/// How these bytes are coded, if they may be text.
fn code_of(bytes: &[u8]) -> Option<Code> {
    let body = bytes.strip_suffix(b"\x1A").unwrap_or(bytes);
    if bytes.iter().all(|byte| in_ebcdic(*byte) != 0) {
        return Some(Code::Ebcdic);
    }
    if body.iter().all(is_plain) {
        return Some(Code::Ascii);
    }
    for (low, mark) in [(0, b"\xFF\xFE"), (1, b"\xFE\xFF")] {
        let is_marked = bytes.starts_with(mark);
        let mut pairs = bytes.chunks_exact(2);
        if pairs.all(|pair| is_utf_16(pair, low, is_marked)) {
            return Some(Code::Utf16(low, is_marked));
        }
    }
    None
}

/// Whether two bytes are an ASCII character of a text in UTF-16, or any other in one with a mark.
fn is_utf_16(pair: &[u8], low: usize, is_marked: bool) -> bool {
    match pair {
        [first, second] => {
            let (low, high) = if low == 0 {
                (first, second)
            } else {
                (second, first)
            };
            if *high == 0 { is_plain(low) } else { is_marked }
        }
        _ => false,
    }
}

/// Whether a byte may be one of a text in ASCII, UTF-8 or a code page that extends ASCII.
fn is_plain(byte: &u8) -> bool {
    matches!(*byte, b' '..=b'~' | b'\t' | b'\n' | b'\r' | b'\x0C' | ESCAPE | 0x80..)
}

/// Whether plain bytes are a text: in UTF-8, or mostly in ASCII.
fn is_ascii(bytes: &[u8]) -> bool {
    let others = bytes.iter().filter(|byte| **byte >= 0x80).count();
    str::from_utf8(bytes).is_ok() || bytes.contains(&b'\n') && others < bytes.len() / 2
}

fn without_colours(alloc: Global, bytes: &[u8]) -> Result<Vec<u8>, AllocError> {
    let mut text = Vec::new(alloc);
    let mut is_colour = false;
    for byte in bytes {
        if *byte == ESCAPE || is_colour {
            is_colour = !byte.is_ascii_alphabetic();
        } else {
            text.push(*byte)?;
        }
    }
    Ok(text)
}

fn from_ebcdic(alloc: Global, bytes: &[u8]) -> Result<Vec<u8>, AllocError> {
    let mut text = Vec::new(alloc);
    for byte in bytes {
        text.push(in_ebcdic(*byte))?;
    }
    Ok(text)
}

/// The characters of a text in UTF-16; each that isn't in ASCII becomes a question mark.
fn from_utf_16(alloc: Global, bytes: &[u8], low: usize) -> Result<Vec<u8>, AllocError> {
    let mut text = Vec::new(alloc);
    for pair in bytes.chunks_exact(2) {
        match pair {
            [0xFF, 0xFE] | [0xFE, 0xFF] => {}
            [first, 0] if low == 0 => text.push(*first)?,
            [0, second] if low == 1 => text.push(*second)?,
            _ => text.push(b'?')?,
        }
    }
    Ok(text)
}

/// The ASCII character of a byte in EBCDIC, `VARIANT`, or 0 if a text doesn't have this byte.
pub(crate) fn in_ebcdic(byte: u8) -> u8 {
    let (first, characters) = match byte {
        0x05 => (byte, "\t"),
        0x0C | 0x0D => (0x0C, "\x0C\r"),
        0x15 | 0x25 => (byte, "\n"),
        0x40 => (byte, " "),
        0x4A..=0x50 => (0x4A, "?.<(+?&"),
        0x5A..=0x61 => (0x5A, "??*);?-/"),
        0x6A..=0x6F => (0x6A, "?,%_>?"),
        0x79..=0x7F => (0x79, "?:#@'=\""),
        0x81..=0x89 => (0x81, "abcdefghi"),
        0x91..=0x99 => (0x91, "jklmnopqr"),
        0xA1..=0xA9 => (0xA1, "?stuvwxyz"),
        0xC0..=0xC9 => (0xC0, "?ABCDEFGHI"),
        0xD0..=0xD9 => (0xD0, "?JKLMNOPQR"),
        0xE2..=0xE9 => (0xE2, "STUVWXYZ"),
        0xF0..=0xF9 => (0xF0, "0123456789"),
        0x9A | 0xAD | 0xB0 | 0xBA | 0xBB | 0xBD | 0xE0 => (byte, "?"),
        _ => (byte, "\0"),
    };
    let at = usize::from(byte.saturating_sub(first));
    characters.as_bytes().get(at).copied().unwrap_or(0)
}
