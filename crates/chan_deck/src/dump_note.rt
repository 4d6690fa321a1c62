//! What is said of a dump: of a line that can't be read, and of one that was read. Tests hold the
//! texts.

use crate::dump_form::{is_blank, nearest_form};
use crate::hint::{SHOWN, push_caret_at, push_shown};
use crate::verdict_line::Range;
use ccw_core::Area;
use std::alloc::{AllocError, Global};
use std::fmt::Write as _;

// Why a line can't be read.
pub(crate) const LINE: &str = "no address, no repeat and no comment";

pub(crate) const NONE: &str = "no line of this text is an address with bytes";

pub(crate) const LIKE: &str =
    "no address, but else like the first line with one; a comment begins with ; or *";

pub(crate) const ONE_LINE: &str =
    "no line ends; fold -w LENGTH, or dd conv=ascii cbs=LENGTH, makes lines";

pub(crate) const LABEL: &str = "a label isn't a hexadecimal number, and the address comes next";

pub(crate) const SWAPPED: &str =
    "words of two bytes may be swapped; dump with od -Ax -tx1, or put a colon after each address";

pub(crate) const DIFFERS: &str = "another line has another byte at this address";

pub(crate) const AGAIN: &str = "the repeat goes over bytes of another line";

pub(crate) const STEP: &str = "the bytes above don't end here";

pub(crate) const GAP: &str =
    "the bytes above don't end here; if none is missing, put an empty line between";

pub(crate) const DECIMAL: &str = "the addresses seem to be decimal; dump with hexadecimal ones";

pub(crate) const REPEAT: &str = "it isn't known what is repeated, or how often";

pub(crate) const DIGIT: &str =
    "not a hexadecimal digit; a text column or a comment begins with |, >, * or ;";

pub(crate) const HALF: &str = "a byte has two digits";

pub(crate) const APART: &str = "more than eight blanks before a byte, so others may be missing";

pub(crate) const OCTAL: &str = "not an octal digit, but addresses of seven digits are octal";

pub(crate) const HIGH: &str = "storage ends at FFFFFF";

pub(crate) const IS_DECK: &str = "this is a deck; chanv verify judges it\n";

const OCTAL_NOTE: &str =
    "note: the addresses have seven digits, all octal, and are read as octal\n";

/// How many gaps a note lists.
const GAPS_LISTED: usize = 8;

/// How much of a line is shown after the character that is refused, and of any line.
const SHOWN_AFTER: usize = 20;

const MOST_SHOWN: usize = 240;

/// What is said of a line that can't be read, and of the character at a column. If the text isn't a
/// dump so far, the form follows that the line comes nearest to.
pub(crate) fn refusal_text(
    alloc: Global,
    line: &[u8],
    number: u64,
    why: &str,
    column: usize,
    is_dump: bool,
) -> Result<String, AllocError> {
    let mut out = format!(in alloc; "dump line {number}: {why}\nfound ")?;
    let room = column.saturating_add(SHOWN_AFTER).clamp(SHOWN, MOST_SHOWN);
    push_shown(&mut out, line, room)?;
    out.push('\n')?;
    if column < room {
        push_caret_at(&mut out, line, column)?;
    }
    if !is_dump {
        push_nearest(&mut out, line)?;
    }
    Ok(out)
}

/// Adds which form a line comes nearest to, in a text of which no line is read, and what makes an
/// image of a file with such lines.
fn push_nearest(out: &mut String, line: &[u8]) -> Result<(), AllocError> {
    let (sample, _) = nearest_form(line);
    write!(
        out,
        "expected a line such as {sample}, or --raw if the text itself is storage\n"
    )?;
    let first = line.split(is_blank).find(|word| !word.is_empty());
    let least = first.map(|word| word.len()).unwrap_or(0);
    let is_bytes = |word: &[u8]| {
        word.len() % 2 == 0 && word.len() >= least && word.iter().all(u8::is_ascii_hexdigit)
    };
    let mut words = line.split(is_blank).filter(|word| !word.is_empty());
    out.push_str(match line {
        _ if least > 0 && words.all(is_bytes) => "help: xxd -r -p makes an image of digits alone\n",
        [b'S', b'0'..=b'9', ..] => "help: objcopy -I srec -O binary makes an image of S-records\n",
        [b':', ..] => "help: objcopy -I ihex -O binary makes an image of Intel hex\n",
        _ => "",
    })
}

/// The notes on a dump: whether its addresses are octal; how many lines have no address; the first
/// line whose address has fewer digits than the one before; and the gaps, which have so many zeros.
pub(crate) fn notes_text(
    alloc: Global,
    counts: (bool, u64, Option<u64>, u64),
    gaps: &[Area],
) -> Result<String, AllocError> {
    let (is_octal, passed, shorter, zeros) = counts;
    let mut out = String::from_str(alloc, if is_octal { OCTAL_NOTE } else { "" })?;
    if passed > 0 {
        write!(
            out,
            "note: lines without an address, passed over: {passed}\n"
        )?;
    }
    if let Some(line) = shorter {
        write!(
            out,
            "note: dump line {line} has an address of fewer digits than the line before\n"
        )?;
    }
    push_gaps(&mut out, gaps, zeros)?;
    Ok(out)
}

/// Adds the note on the gaps of a dump, which have so many zeros.
fn push_gaps(out: &mut String, gaps: &[Area], zeros: u64) -> Result<(), AllocError> {
    if gaps.is_empty() {
        return Ok(());
    }
    write!(out, "note: zeros in gaps of the dump: {zeros}")?;
    for (at, gap) in gaps.iter().take(GAPS_LISTED).enumerate() {
        out.push_str(if at == 0 { ", at " } else { ", " })?;
        let range = Range(*gap);
        write!(out, "{range}")?;
    }
    out.push_str(if gaps.len() > GAPS_LISTED {
        ", ..\n"
    } else {
        "\n"
    })
}
