//! What the line `because` says of an offence, which tests hold.

use crate::verdict_line::Range;
use ccw_core::Area;
use chan_walk::{Evidence, GivenBytes, Outside};
use ckd_core::{Command, FileMask, LAST_CYLINDER, further_name, lookup};
use std::alloc::{AllocError, Global};
use std::fmt::Write as _;

/// The name of a command of the table, or `unknown` for a code of none.
fn name_of_command(command: Option<Command>) -> &'static str {
    command.map_or("unknown", |command| command.name())
}

/// Adds that a range leaves so many bytes of storage.
fn push_outside(out: &mut String, range: Area, length: u32) -> Result<(), AllocError> {
    let range = Range(range);
    write!(out, "{range} is not in storage of {length:07X} bytes")
}

/// Adds that none of some data is lent, or that a part of it isn't.
fn push_unlent(out: &mut String, range: Area, gap: Area, purpose: &str) -> Result<(), AllocError> {
    let (whole, part) = (Range(range), Range(gap));
    if gap == range {
        return write!(out, "none of {whole} is lent for {purpose}");
    }
    write!(out, "{part} of {whole} is not lent for {purpose}")
}

/// Adds that the command table hasn't a code, with the name that a manual has for it.
fn push_unknown(out: &mut String, code: u8) -> Result<(), AllocError> {
    match further_name(code) {
        Some(name) => write!(out, "code {code:02X} ({name}) is not in the table"),
        None => write!(out, "code {code:02X} is not in the table"),
    }
}

/// Adds what is wrong with a byte that is set as the file mask.
fn push_weaker(out: &mut String, byte: u8, mask: FileMask) -> Result<(), AllocError> {
    let Some(weaker) = FileMask::new(byte) else {
        return write!(out, "mask byte {byte:02X} is no file mask");
    };
    let name = name_of_command(weaker.least_permitted(mask));
    let mask = mask.byte();
    write!(
        out,
        "mask byte {byte:02X} is not as strict as {mask:02X}: it permits {name}"
    )
}

/// Adds what is wrong with the argument of a seek.
fn push_seek(out: &mut String, outside: Outside) -> Result<(), AllocError> {
    match outside {
        Outside::Bin(bin) => write!(out, "bin {bin:04X} is not zero"),
        Outside::Cylinder(cylinder) if cylinder > LAST_CYLINDER => {
            write!(
                out,
                "cylinder {cylinder} is above {LAST_CYLINDER}, the device's last"
            )
        }
        Outside::Cylinder(cylinder) => write!(out, "cylinder {cylinder} is in no extent"),
        Outside::Head { head, heads } => write!(out, "head {head} is not below {heads}"),
    }
}

/// Adds the ranges of some addresses in their order.
fn push_ranges(out: &mut String, addresses: &[u32]) -> Result<(), AllocError> {
    let ranges = addresses.chunk_by(|one, other| one.checked_add(1) == Some(*other));
    for (at, range) in ranges.enumerate() {
        out.push_str(if at == 0 { "" } else { ", " })?;
        if let (Some(first), Some(last)) = (range.first(), range.last()) {
            write!(out, "{first:06X}")?;
            if first != last {
                write!(out, "-{last:06X}")?;
            }
        }
    }
    Ok(())
}

/// Adds the bytes of an argument, and where they stand.
fn push_given(alloc: Global, out: &mut String, given: GivenBytes) -> Result<(), AllocError> {
    let bytes = hex::encode_upper(alloc, given.bytes())?;
    out.push_str(bytes.as_str())?;
    out.push_str(" at ")?;
    push_ranges(out, given.addresses())
}

/// Adds what is wrong with a seek, and its argument, if it has one.
fn push_sought(
    alloc: Global,
    out: &mut String,
    outside: Outside,
    argument: Option<GivenBytes>,
) -> Result<(), AllocError> {
    push_seek(out, outside)?;
    let Some(argument) = argument else {
        return Ok(());
    };
    out.push_str(": the argument is ")?;
    push_given(alloc, out, argument)
}

/// Adds what `because` says of data that is stored over what may not change.
fn push_change(out: &mut String, evidence: Evidence) -> Result<(), AllocError> {
    match evidence {
        Evidence::ChangesCcw { data, ccw } => {
            let data = Range(data);
            write!(out, "it stores {data}, over the CCW at {ccw:06X}")
        }
        Evidence::ChangesArgument {
            data,
            byte,
            taker,
            argument,
        } => {
            let data = Range(data);
            write!(out, "it stores {data}, over ")?;
            match argument {
                Some(argument) => {
                    write!(out, "{byte:06X} of the argument ")?;
                    push_ranges(out, argument.addresses())?;
                }
                None => write!(out, "the mask byte {byte:06X}")?,
            }
            write!(out, " of {taker:06X}")
        }
        _ => Ok(()),
    }
}

/// Adds what the line `because` says of an offence. Tests hold the text.
pub(crate) fn push_evidence(
    alloc: Global,
    out: &mut String,
    evidence: Evidence,
) -> Result<(), AllocError> {
    match evidence {
        Evidence::Misaligned { address } => write!(out, "{address:06X} is not a multiple of 8"),
        Evidence::OutsideStorage { ccw, length } => push_outside(out, ccw, length),
        Evidence::TransferNotAllowed { first: true } => out.push_str("a transfer stands first"),
        Evidence::TransferNotAllowed { first: false } => {
            out.push_str("a transfer leads to a transfer")
        }
        Evidence::InvalidCode { code } => write!(out, "code {code:02X} is invalid"),
        Evidence::BadFormat { bits } => write!(out, "flag bits {bits:02X} are on"),
        Evidence::ZeroCount => out.push_str("the count is zero"),
        Evidence::DataOutside { data, length } => push_outside(out, data, length),
        Evidence::NotInTable { code } => push_unknown(out, code),
        Evidence::Inhibited { mask, code } => {
            let (mask, name) = (mask.byte(), name_of_command(lookup(code)));
            write!(out, "mask {mask:02X} inhibits {name}")
        }
        Evidence::StoreNotLent { data, gap } => push_unlent(out, data, gap, "storing"),
        Evidence::FetchNotLent { data, gap } => push_unlent(out, data, gap, "fetching"),
        Evidence::ShortSeek { given } => {
            let count = given.count;
            write!(out, "the argument ends after {count} of 6 bytes: ")?;
            push_given(alloc, out, given)
        }
        Evidence::SeekOutside { outside, argument } => push_sought(alloc, out, outside, argument),
        Evidence::ChangesCcw { .. } | Evidence::ChangesArgument { .. } => push_change(
            out, evidence,
        ),
        Evidence::WeakensMask { byte, mask } => push_weaker(out, byte, mask),
    }
}
