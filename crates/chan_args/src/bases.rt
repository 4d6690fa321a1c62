//! Decimal digits that an option reads as a hexadecimal number, and what its fault says of them.

use crate::kind::Kind;
use crate::option_text::{as_address, as_size, mask_with, number_of};
use std::alloc::{AllocError, Global};
use std::fmt;

/// A number in decimal, with a comma before every three digits.
#[derive(Clone, Copy)]
struct Grouped(u32);

impl fmt::Display for Grouped {
    fn fmt<W: fmt::Write>(&self, f: &mut fmt::Formatter<W>) -> fmt::Result {
        let (thousands, ones) = (self.0 / 1_000, self.0 % 1_000);
        let (millions, thousand) = (thousands / 1_000, thousands % 1_000);
        let (billions, million) = (millions / 1_000, millions % 1_000);
        if billions > 0 {
            write!(f, "{billions},{million:03},{thousand:03},{ones:03}")
        } else if millions > 0 {
            write!(f, "{millions},{thousand:03},{ones:03}")
        } else if thousands > 0 {
            write!(f, "{thousands},{ones:03}")
        } else {
            write!(f, "{ones}")
        }
    }
}

/// Decimal digits that an option reads as another number in hexadecimal.
#[derive(Clone, Copy)]
struct Misread {
    hexadecimal: u32,
    decimal: u32,
    /// Whether the option would accept the decimal number.
    is_accepted: bool,
}

/// How an option of this kind misreads a text, if it does.
fn misreading(kind: Kind, text: &str) -> Option<Misread> {
    let decimal = number_of(text, 10)?;
    let hexadecimal = number_of(text, 16)?;
    let is_accepted = match kind {
        Kind::Mask => mask_with(decimal).is_ok(),
        Kind::Address => as_address(decimal).is_ok(),
        Kind::Size => as_size(decimal).is_ok(),
        _ => return None,
    };
    if hexadecimal == decimal {
        return None;
    }
    Some(Misread {
        hexadecimal,
        decimal,
        is_accepted,
    })
}

/// Why an option of this kind doesn't accept a text. If it read decimal digits as another number,
/// it says so; and if it would accept the number that they are in decimal, how that is written.
pub(crate) fn why_refused(
    alloc: Global,
    kind: Kind,
    text: &str,
    why: &str,
) -> Result<String, AllocError> {
    let Some(misread) = misreading(kind, text) else {
        return String::from_str(alloc, why);
    };
    let (unit, verb) = match kind {
        Kind::Size => (" bytes", "are"),
        _ => ("", "is"),
    };
    let read = Grouped(misread.hexadecimal);
    let refused = format!(in alloc; "{text} is hexadecimal here ({read}{unit}): {why}")?;
    if !misread.is_accepted {
        return Ok(refused);
    }
    let (meant, number) = (Grouped(misread.decimal), misread.decimal);
    format!(in alloc; "{refused}; {meant}{unit} {verb} {number:X}")
}
