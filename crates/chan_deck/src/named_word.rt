//! What is said of a word that is a command code, as `07`, the name of a further code, as
//! `restore`, a file mask, as `mask 98`, or flags, as `-CL--0`.

use crate::numbers::spelled_byte;
use crate::words::word_row;
use ccw_core::{Ccw, FLAG_LETTERS};
use ckd_core::{Command, FileMask, further_name, lookup};
use std::alloc::{AllocError, Global};
use std::fmt::Write as _;

/// Masks that inhibit only by the bits `18`, then masks that inhibit only by the bits `C0`:
/// each with the bits, and with their digits in the mask.
const MASKS: [(u8, &'static str, &'static str); 6] = [
    (0xC8, "18", "08"),
    (0xD0, "18", "10"),
    (0xD8, "18", "18"),
    (0x00, "C0", "00"),
    (0x40, "C0", "40"),
    (0x80, "C0", "80"),
];

/// What is said of each flag behind its letter.
const FLAGS: [&'static str; 5] = [
    "chain data",
    "chain command",
    "suppress length indication",
    "skip",
    "program-controlled interruption",
];

/// The line on a word, if it is a command code, the name of a further code, a file mask or flags.
/// All but flags may be in upper or lower case. Tests hold the wording. An error means that an
/// allocation failed.
pub fn spelled_text(alloc: Global, word: &str) -> Result<Option<String>, AllocError> {
    if let Some((first, digits)) = word.split_once(" ") {
        return match spelled_byte(digits.as_bytes()) {
            Some(byte) if first.eq_ignore_ascii_case("mask") => Ok(Some(mask_text(alloc, byte)?)),
            _ => Ok(None),
        };
    }
    match spelled_code(word) {
        Some(code) => Ok(Some(code_text(alloc, code)?)),
        None => flags_text(alloc, word),
    }
}

/// The command code that a word spells: by the name of a further code, or by two digits.
fn spelled_code(word: &str) -> Option<u8> {
    let mut codes = 0..=255u8;
    let named = codes.find(|code| {
        further_name(*code).is_some_and(|name| name.eq_ignore_ascii_case(word))
    });
    named.or(spelled_byte(word.as_bytes()))
}

/// The line on a command code: its group, the name of the command, what it does, and the masks that
/// inhibit it.
fn code_text(alloc: Global, code: u8) -> Result<String, AllocError> {
    let group = Ccw::from_bytes(&[code, 0, 0, 0, 0, 0, 0, 1]).group().word();
    let mut out = format!(in alloc; "{code:02X}: group {group}, ")?;
    match lookup(code) {
        Some(command) => {
            out.push_str(action_of(command.name()))?;
            push_inhibition(alloc, &mut out, command)?;
        }
        None => push_other(&mut out, code)?,
    }
    out.push('\n')?;
    Ok(out)
}

/// The name of a command, and what the command does.
fn action_of(name: &str) -> &'static str {
    let row = word_row(name).unwrap_or("");
    row.split_once(" (code").map_or(row, |(action, _)| action)
}

/// Adds what is said of a code that no command of the table has.
fn push_other(out: &mut String, code: u8) -> Result<(), AllocError> {
    match code % 16 {
        0 => out.push_str("no command, because the low four bits are zero"),
        8 => {
            out.push_str(action_of("transfer-in-channel"))?;
            out.push_str("; no mask inhibits it")
        }
        _ => {
            if let Some(name) = further_name(code) {
                write!(out, "{name}: ")?;
            }
            out.push_str("not in the table of commands that chanv knows")
        }
    }
}

/// Adds which masks inhibit a command, by the bits that decide over it.
fn push_inhibition(alloc: Global, out: &mut String, command: Command) -> Result<(), AllocError> {
    let mut choices = Vec::new(alloc);
    let mut deciding = "";
    for (byte, bits, digits) in &MASKS {
        let Some(mask) = FileMask::new(*byte) else {
            continue;
        };
        if !mask.inhibits(command) {
            continue;
        }
        choices.push(*digits)?;
        deciding = *bits;
    }
    if choices.is_empty() {
        return out.push_str("; no mask inhibits it");
    }
    out.push_str("; a mask inhibits it if its bits ")?;
    out.push_str(deciding)?;
    out.push_str(" are ")?;
    push_choices(out, choices.as_slice())
}

/// Adds digits, with *or* before the last.
fn push_choices(out: &mut String, digits: &[&'static str]) -> Result<(), AllocError> {
    for at in 0..digits.len() {
        if at > 0 {
            let is_last = at + 1 == digits.len();
            out.push_str(if is_last { " or " } else { ", " })?;
        }
        out.push_str(digits[at])?;
    }
    Ok(())
}

/// The line on a mask: the commands that it inhibits, in the order of their codes.
fn mask_text(alloc: Global, byte: u8) -> Result<String, AllocError> {
    let mut out = format!(in alloc; "mask {byte:02X}")?;
    match FileMask::new(byte) {
        Some(mask) => push_inhibited(&mut out, mask)?,
        None => out.push_str(": isn't a file mask; only the bits C0 and 18 may be on")?,
    }
    out.push('\n')?;
    Ok(out)
}

/// Adds the names of the commands that a mask inhibits.
fn push_inhibited(out: &mut String, mask: FileMask) -> Result<(), AllocError> {
    let mut front = ": inhibits ";
    for code in 0..=255u8 {
        if let Some(command) = lookup(code) {
            if mask.inhibits(command) {
                out.push_str(front)?;
                out.push_str(command.name())?;
                front = ", ";
            }
        }
    }
    if front == ", " {
        return Ok(());
    }
    out.push_str(": inhibits no command")
}

/// The line on the flags of a listing: the name of each flag that is on.
fn flags_text(alloc: Global, word: &str) -> Result<Option<String>, AllocError> {
    let bytes = word.as_bytes();
    if bytes.len() != 6 || !(b'0'..=b'7').contains(&bytes[5]) {
        return Ok(None);
    }
    let mut out = String::from_str(alloc, word)?;
    let mut mark = ": ";
    for at in 0..5 {
        if bytes[at] == b'-' {
            continue;
        }
        let ((_, letter), name) = (FLAG_LETTERS[at], FLAGS[at]);
        if bytes[at] != letter {
            return Ok(None);
        }
        let letter = char::from(letter);
        write!(out, "{mark}{letter} {name}")?;
        mark = "; ";
    }
    if bytes[5] != b'0' {
        let bits = char::from(bytes[5]);
        write!(out, "{mark}{bits} low bits, which must be zero")?;
    } else if mark == ": " {
        out.push_str(": no flag is on")?;
    }
    out.push('\n')?;
    Ok(Some(out))
}
