//! The hint for the line at which a text is refused, which tests hold.

use crate::cause::Cause;
use crate::dump_form::is_dump_line;
use crate::item::Item;
use crate::keyword::{FORMS, Form, begun_as, forms_behind};
use crate::lines::next_line;
use crate::version::VersionNumber;
use ccw_core::STORAGE_LIMIT;
use std::alloc::{AllocError, Global};
use std::fmt::Write as _;

/// In how many first lines a dump is looked for.
const SEARCHED: usize = 64;

/// How many characters of a line are shown.
pub(crate) const SHOWN: usize = 60;

/// The content of the lines before a line.
#[derive(Clone, Copy)]
struct Before {
    /// The item of the last of them, if there is one.
    last: Option<Item>,
    /// Whether the first is the header of version 2.
    is_second: bool,
    /// How many bytes storage has, if a line says so.
    size: Option<u32>,
}

/// The place of a line in a text.
#[derive(Clone, Copy)]
struct Spot<'a> {
    before: Before,
    /// The line without its line feed, or the rest of the text if it has none.
    found: &'a [u8],
    /// Whether a line feed ends it.
    is_whole: bool,
}

/// Adds what one more line says to the content of the lines before.
fn add_line(before: &mut Before, item: Item) {
    match item {
        Item::Header(VersionNumber::Two) if before.last.is_none() => before.is_second = true,
        Item::Storage(size) => before.size = before.size.or(Some(size)),
        _ => {}
    }
    before.last = Some(item);
}

/// The place after the first `count` whole lines, or after all if there are fewer.
fn spot_behind(text: &[u8], count: u64) -> Spot<'_> {
    let mut before = Before {
        last: None,
        is_second: false,
        size: None,
    };
    let mut rest = text;
    for _ in 0..count {
        let Some((line, after)) = next_line(rest) else {
            break;
        };
        add_line(&mut before, Item::read(line));
        rest = after;
    }
    let (found, is_whole) = match next_line(rest) {
        Some((line, _)) => (line, true),
        None => (rest, false),
    };
    Spot {
        before,
        found,
        is_whole,
    }
}

/// The byte-order mark in UTF-8, which some editors write before a text.
pub(crate) const BYTE_ORDER_MARK: &[u8] = b"\xEF\xBB\xBF";

/// Adds the bytes of a line, as many as fit in so many characters, and ` ..` if some don't: each as
/// itself if it is visible, otherwise as `\x` and two digits. A blank at the line's end isn't
/// visible.
pub(crate) fn push_shown(out: &mut String, line: &[u8], most: usize) -> Result<(), AllocError> {
    let mut room = most;
    for (at, byte) in line.iter().enumerate() {
        let width = width_at(line, at);
        if width > room {
            return out.push_str(" ..");
        }
        room -= width;
        if width == 1 {
            out.push(char::from(*byte))?;
        } else {
            write!(out, "\\x{byte:02X}")?;
        }
    }
    Ok(())
}

/// How many characters a byte of a line takes as it is shown.
fn width_at(line: &[u8], at: usize) -> usize {
    match line.get(at) {
        Some(byte) if byte.is_ascii_graphic() || (*byte == b' ' && at < line.len() - 1) => 1,
        _ => 4,
    }
}

/// Adds the line that was found, or words for an empty line and for the end of the text.
fn push_found(out: &mut String, spot: &Spot<'_>) -> Result<(), AllocError> {
    if !spot.found.is_empty() {
        push_shown(out, spot.found, SHOWN)
    } else if spot.is_whole {
        out.push_str("an empty line")
    } else {
        out.push_str("the end of the text")
    }
}

/// Adds the keywords of some forms.
fn push_keywords(out: &mut String, forms: &[Form]) -> Result<(), AllocError> {
    for (at, form) in forms.iter().enumerate() {
        out.push_str(if at == 0 { "" } else { ", " })?;
        out.push_str(form.keyword())?;
    }
    Ok(())
}

/// If the line begins like a form that may not come here, adds whether that form comes earlier or
/// later, or that only version 2 has it; if it begins like a line of `chanv needs` alone, that no
/// deck has it.
fn push_order(out: &mut String, spot: &Spot<'_>, forms: &[Form]) -> Result<(), AllocError> {
    let Some(form) = begun_as(&FORMS, spot.found) else {
        if spot.found.starts_with(b"keep ") {
            return out.push_str("; keep is a line of chanv needs, not of a deck");
        }
        return Ok(());
    };
    let Some(first) = forms.first() else {
        return Ok(());
    };
    if forms.iter().any(|other| other.number() == form.number()) {
        return Ok(());
    }
    let word = form.keyword();
    match form {
        Form::Limit if spot.before.last.is_some() && !spot.before.is_second => {
            out.push_str("; only a deck of version 2 has limit")
        }
        _ if form.number() < first.number() => write!(out, "; {word} comes earlier"),
        _ => write!(out, "; {word} comes later"),
    }
}

/// If the text begins with a byte-order mark, or the line has a no-break blank or a tab, begins
/// with a capital letter or ends with a carriage return, adds what is wrong with it.
fn push_bytes(out: &mut String, spot: &Spot<'_>) -> Result<(), AllocError> {
    if spot.before.last.is_none() && spot.found.starts_with(BYTE_ORDER_MARK) {
        out.push_str("; a byte-order mark comes before it")?;
    }
    if spot
        .found
        .windows(2)
        .any(|pair| pair == b"\xC2\xA0".as_slice())
    {
        out.push_str("; \\xC2\\xA0 is a no-break blank")?;
    }
    if spot.found.contains(&b'\t') {
        out.push_str("; a tab isn't a blank")?;
    }
    if spot
        .found
        .first()
        .is_some_and(|byte| byte.is_ascii_uppercase())
    {
        out.push_str("; words are in small letters")?;
    }
    if spot.found.ends_with(b"\r") {
        out.push_str("; lines end with a line feed alone")?;
    }
    Ok(())
}

/// Adds the forms that may come at a spot: the pattern of the only one, or of the one that the line
/// begins like, otherwise the keywords of all; and then what `push_order` and `push_bytes` add.
fn push_forms(out: &mut String, spot: &Spot<'_>) -> Result<(), AllocError> {
    let forms = forms_behind(spot.before.last, spot.before.is_second);
    let only = match forms {
        [form] => Some(*form),
        _ => begun_as(forms, spot.found),
    };
    match only {
        Some(form) => out.push_str(form.pattern())?,
        None => push_keywords(out, forms)?,
    }
    push_order(out, spot, forms)?;
    push_bytes(out, spot)
}

/// Adds the condition that the address of a put doesn't meet.
fn push_place(out: &mut String, spot: &Spot<'_>) -> Result<(), AllocError> {
    let above = match spot.before.last {
        Some(Item::Put(above, _)) => Some(above),
        _ => None,
    };
    let address = match Item::read(spot.found) {
        Item::Put(address, _) => address,
        _ => 0,
    };
    if address % 8 == 0 && above.is_none_or(|above| above < address) {
        let size = spot.before.size.unwrap_or(0);
        return write!(
            out,
            "an address whose eight bytes lie in storage of {size:07X} bytes"
        );
    }
    out.push_str("an address")?;
    if let Some(above) = above {
        write!(out, " above {above:06X}")?;
    }
    out.push_str(" that is a multiple of 8")
}

/// What a line refused for this cause has to be, or `""` if that depends on the line.
fn condition(cause: Cause) -> &'static str {
    match cause {
        Cause::Mask => "a mask with only bits of C0 and 18 on",
        Cause::ExtentBackwards => "a last cylinder at or above the first",
        Cause::ExtentPastDevice => "a last cylinder of at most 202",
        Cause::Size => "a multiple of 8 that is at most 1000000",
        Cause::PutZero => "eight bytes that aren't all zero; leave the line out, storage is zero",
        Cause::After => "no byte after the line end",
        Cause::Limit => "a limit from 00001 to 65536",
        _ => "",
    }
}

/// Adds the condition of a size, and which size its digits are in decimal, if it would do.
fn push_size(out: &mut String, spot: &Spot<'_>) -> Result<(), AllocError> {
    out.push_str(condition(Cause::Size))?;
    let digits = spot.found.get("storage ".len()..).unwrap_or(b"");
    match str::from_utf8(digits).unwrap_or("").parse::<u32>() {
        Ok(number) if number % 8 == 0 && number <= STORAGE_LIMIT => {
            write!(out, "; decimal {number} is {number:07X}")
        }
        _ => Ok(()),
    }
}

/// Whether the input isn't text, judged by the first bytes of its first line. A byte-order mark may
/// come before them, and a no-break blank between them.
fn is_no_text(spot: &Spot<'_>) -> bool {
    let line = spot
        .found
        .strip_prefix(BYTE_ORDER_MARK)
        .unwrap_or(spot.found);
    spot.before.last.is_none()
        && line.iter().take(SHOWN).any(|byte| {
            !byte.is_ascii_graphic() && !matches!(*byte, b' ' | b'\t' | b'\r' | 0xC2 | 0xA0)
        })
}

/// Whether the text begins as one in UTF-16 does: with its byte-order mark, or with a `c` in two
/// bytes.
fn is_in_utf_16(spot: &Spot<'_>) -> bool {
    spot.before.last.is_none()
        && [b"\xFF\xFE", b"\xFE\xFF", b"c\0", b"\0c"]
            .iter()
            .any(|front| spot.found.starts_with(*front))
}

/// Adds the text or the condition that belongs there.
fn push_expected(out: &mut String, spot: &Spot<'_>, cause: Cause) -> Result<(), AllocError> {
    if is_in_utf_16(spot) {
        return out.push_str("a deck in ASCII; this text is in UTF-16");
    }
    if is_no_text(spot) {
        return out.push_str(
            "a deck, which is text; chanv deck turns an image of storage into a deck",
        );
    }
    match cause {
        Cause::Ended if !spot.is_whole && !spot.found.is_empty() => {
            out.push_str("a line feed at the end of this line")
        }
        Cause::Ended | Cause::Header | Cause::Form => push_forms(out, spot),
        Cause::PutAddress => push_place(out, spot),
        Cause::Size => push_size(out, spot),
        _ => out.push_str(condition(cause)),
    }
}

/// Adds a line with a caret under the first character that the only form that may come there, or
/// the one that the line begins like, doesn't have at its place, if the line is text.
fn push_caret(out: &mut String, spot: &Spot<'_>, cause: Cause) -> Result<(), AllocError> {
    let form = match (cause, forms_behind(spot.before.last, spot.before.is_second)) {
        (Cause::Form | Cause::Header, [form]) => Some(*form),
        (Cause::Form, forms) => begun_as(forms, spot.found),
        _ => None,
    };
    match form {
        Some(form) if !spot.found.is_empty() && !is_no_text(spot) => {
            let patterns = form.pattern().split(", ");
            let fitting = patterns.map(|pattern| fitting_one(pattern.as_bytes(), spot.found));
            push_caret_at(out, spot.found, fitting.max().unwrap_or(0))
        }
        _ => Ok(()),
    }
}

/// Adds a line with a caret under the character at a column of a line that stands behind `found `.
pub(crate) fn push_caret_at(
    out: &mut String,
    found: &[u8],
    column: usize,
) -> Result<(), AllocError> {
    out.push_str("      ")?;
    for at in 0..column {
        out.push_str(if width_at(found, at) == 1 {
            " "
        } else {
            "    "
        })?;
    }
    out.push_str("^\n")
}

/// How many first bytes of a line are as a pattern has them.
fn fitting_one(pattern: &[u8], line: &[u8]) -> usize {
    for at in 0..line.len() {
        let fits = match pattern.get(at) {
            Some(b'X') => line[at].is_ascii_hexdigit() && !line[at].is_ascii_lowercase(),
            Some(b'N') => line[at].is_ascii_digit(),
            Some(letter) => line[at] == *letter,
            None => false,
        };
        if !fits {
            return at;
        }
    }
    line.len()
}

/// The hint for a text that is refused at this line for this cause: a line `found ` with the
/// refused line; below its first wrong character, if there is one, a caret; and a line `expected `
/// with the text that may replace it, or the condition that it doesn't meet. An error means that an
/// allocation failed.
///
/// The hint shows at most 60 characters of the line, and ` ..` if there are more. A byte that isn't
/// printable ASCII becomes `\x` and two digits, and so does a blank at the line's end. Words name
/// an empty line and the end of the text. If several forms may come, the hint lists their keywords,
/// or gives the pattern of the one whose keyword the line begins with; if the line begins like
/// another form, it says that this form comes earlier or later. It names a byte-order mark, a
/// no-break blank and a carriage return. If the first bytes aren't text, it names the command that
/// makes a deck.
pub fn hint_text(
    alloc: Global,
    text: &[u8],
    line: u64,
    cause: Cause,
) -> Result<Vec<u8>, AllocError> {
    let spot = spot_behind(text, line.saturating_sub(1));
    let mut out = String::from_str(alloc, "found ")?;
    push_found(&mut out, &spot)?;
    out.push_str("\n")?;
    push_caret(&mut out, &spot, cause)?;
    out.push_str("expected ")?;
    push_expected(&mut out, &spot, cause)?;
    let mut lines = text.split(|byte| *byte == b'\n').take(SEARCHED);
    if matches!(cause, Cause::Header) && lines.any(is_dump_line) {
        out.push_str("; this seems to be a dump, of which chanv deck makes a deck")?;
    }
    out.push_str("\n")?;
    Ok(out.into_bytes())
}
