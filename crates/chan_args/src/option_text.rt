//! What the texts of the options say, or why one isn't accepted.

ghost use Rattle.std.specs.Prelude.{◌≡◌, ◌≤◌, ◌<◌, ◌%◌, IfOk};
ghost use Rattle.ccw_core.specs.declared.ccw.TheConstants.{STORAGE_LIMIT};

use crate::kind::Kind;
use ccw_core::{Area, STORAGE_LIMIT};
use ckd_core::{Device, FileMask, LAST_CYLINDER};

// Why numbers in the right form aren't accepted.
const MASK_ABOVE: &str = "above FF";

const MASK_BITS: &str = "a bit on besides C0 and 18";

const ADDRESS_ABOVE: &str = "above FFFFFF";

const SIZE_ABOVE: &str = "above 1000000";

const SIZE_ODD: &str = "not a multiple of 8";

const LIMIT_BELOW: &str = "below 1";

const LIMIT_ABOVE: &str = "above 65536";

const EXTENT_BACKWARDS: &str = "its last cylinder is below its first";

const EXTENT_ABOVE: &str = "its last cylinder is above 202, the device's last";

const AREA_START_ABOVE: &str = "its start is above FFFFFF; both numbers are hexadecimal";

const AREA_LENGTH_ABOVE: &str = "its length is above FFFFFF; both numbers are hexadecimal";

const AREA_BACKWARDS: &str = "its last byte is below its first; both numbers are hexadecimal";

const AREA_LAST_ABOVE: &str = "its last byte is above FFFFFF; both numbers are hexadecimal";

const AREA_LONGEST: &str = "its length, 1000000, is above FFFFFF";

/// The number of 32 bits that digits in a radix write, one or more, without a sign.
pub(crate) fn number_of(text: &str, radix: u32) -> Option<u32>
    requires lower { 2 ≤ radix }
    requires upper { radix ≤ 16 }
{
    if text.starts_with('+') {
        return None;
    }
    u32::from_str_radix(text, radix).ok()
}

/// What stands after `0x` or `0X`, or all of a text that doesn't begin so: the digits of a text
/// that is a hexadecimal number.
fn digits_of(text: &str) -> &str {
    match text.strip_prefix("0x") {
        Some(digits) => digits,
        None => text.strip_prefix("0X").unwrap_or(text),
    }
}

/// The hexadecimal number of a text: one digit or more, of either case, with `0x` or `0X` before
/// them or without. There may be leading zeros, but no sign and no space.
pub(crate) fn hexadecimal_of(text: &str) -> Option<u32> {
    number_of(digits_of(text), 16)
}

/// A device, by its number: `2311` or `2314`.
pub(crate) fn device_of(text: &str) -> Result<Device, &str> {
    match text {
        "2311" => Ok(Device::D2311),
        "2314" => Ok(Device::D2314),
        _ => Err(Kind::Device.form()),
    }
}

/// The file mask with this byte.
pub(crate) fn mask_with<'a>(byte: u32) -> Result<FileMask, &'a str> {
    if byte > 0xFF {
        return Err(MASK_ABOVE);
    }
    FileMask::new(byte as u8).ok_or(MASK_BITS)
}

/// A file mask: a hexadecimal number that is a mask's byte.
pub(crate) fn mask_of(text: &str) -> Result<FileMask, &str> {
    mask_with(hexadecimal_of(text).ok_or(Kind::Mask.form())?)
}

/// A number that is an address: at most `FFFFFF`.
pub(crate) fn as_address<'a>(number: u32) -> Result<u32, &'a str>
    ensures { IfOk result (λ n. n < STORAGE_LIMIT) }
{
    if number >= STORAGE_LIMIT {
        return Err(ADDRESS_ABOVE);
    }
    Ok(number)
}

/// An address: a hexadecimal number, at most `FFFFFF`.
pub(crate) fn address_of(text: &str) -> Result<u32, &str>
    ensures { IfOk result (λ n. n < STORAGE_LIMIT) }
{
    as_address(hexadecimal_of(text).ok_or(Kind::Address.form())?)
}

/// The address of an offence, which may be past storage, to which a chain may lead.
pub(crate) fn offence_of(text: &str) -> Result<u32, &str> {
    hexadecimal_of(text).ok_or(Kind::Offence.form())
}

/// A number that is a size of storage: a multiple of 8 and at most `1000000`.
pub(crate) fn as_size<'a>(number: u32) -> Result<u32, &'a str>
    ensures { IfOk result (λ n. (n ≤ STORAGE_LIMIT) × (n % 8 ≡ 0)) }
{
    if number > STORAGE_LIMIT {
        Err(SIZE_ABOVE)
    } else if number % 8 != 0 {
        Err(SIZE_ODD)
    } else {
        Ok(number)
    }
}

/// A size of storage: a hexadecimal number that is a multiple of 8 and at most `1000000`.
pub(crate) fn size_of(text: &str) -> Result<u32, &str>
    ensures { IfOk result (λ n. (n ≤ STORAGE_LIMIT) × (n % 8 ≡ 0)) }
{
    as_size(hexadecimal_of(text).ok_or(Kind::Size.form())?)
}

/// A limit on places: one decimal digit or more, whose number is from 1 to 65,536.
pub(crate) fn limit_of(text: &str) -> Result<u32, &str>
    ensures { IfOk result (λ n. (1 ≤ n) × (n ≤ 65536)) }
{
    match number_of(text, 10) {
        Some(0) => Err(LIMIT_BELOW),
        Some(number) if number > 65_536 => Err(LIMIT_ABOVE),
        Some(number) => Ok(number),
        None => Err(Kind::Limit.form()),
    }
}

/// A cylinder: one decimal digit or more, whose number is at most 65,535.
fn cylinder_of(text: &str) -> Option<u16> {
    match number_of(text, 10) {
        Some(number) if number < 0x1_0000 => Some(number as u16),
        _ => None,
    }
}

/// Two cylinders with a hyphen between them.
fn cylinders_of(text: &str) -> Option<(u16, u16)> {
    let (first, last) = text.split_once('-')?;
    Some((cylinder_of(first)?, cylinder_of(last)?))
}

/// First and last cylinder of an extent, such as `10-19`: decimal numbers in order, the last one on
/// the device.
pub(crate) fn extent_of(text: &str) -> Result<(u16, u16), &str> {
    match cylinders_of(text) {
        Some((first, last)) if last < first => Err(EXTENT_BACKWARDS),
        Some((_, last)) if last > LAST_CYLINDER => Err(EXTENT_ABOVE),
        Some(extent) => Ok(extent),
        None => Err(Kind::Extent.form()),
    }
}

/// Two hexadecimal numbers with a sign between them, a plus or a hyphen.
fn pair_of(text: &str, sign: char) -> Option<(u32, u32)> {
    let (first, second) = text.split_once(sign)?;
    Some((hexadecimal_of(first)?, hexadecimal_of(second)?))
}

/// The area with this start and this length, each at most `FFFFFF`.
fn sized_area<'a>(start: u32, len: u32) -> Result<Area, &'a str>
    ensures { IfOk result (λ a. (a.start < STORAGE_LIMIT) × (a.len < STORAGE_LIMIT)) }
{
    if start >= STORAGE_LIMIT {
        Err(AREA_START_ABOVE)
    } else if len >= STORAGE_LIMIT {
        Err(AREA_LENGTH_ABOVE)
    } else {
        Ok(Area { start, len })
    }
}

/// The area with this first byte and this last, in order and each at most `FFFFFF`.
fn area_between<'a>(first: u32, last: u32) -> Result<Area, &'a str>
    ensures { IfOk result (λ a. (a.start < STORAGE_LIMIT) × (a.len < STORAGE_LIMIT)) }
{
    if last < first {
        Err(AREA_BACKWARDS)
    } else if last >= STORAGE_LIMIT {
        Err(AREA_LAST_ABOVE)
    } else if last - first == STORAGE_LIMIT - 1 {
        Err(AREA_LONGEST)
    } else {
        Ok(Area {
            start: first,
            len: last - first + 1,
        })
    }
}

/// An area, by its start and its length, such as `900+10`, or by its first byte and its last, such
/// as `900-90F`: hexadecimal numbers, each at most `FFFFFF`, the last byte not below the first. Its
/// length is at most `FFFFFF` too.
pub(crate) fn area_of(text: &str) -> Result<Area, &str>
    ensures { IfOk result (λ a. (a.start < STORAGE_LIMIT) × (a.len < STORAGE_LIMIT)) }
{
    if let Some((start, len)) = pair_of(text, '+') {
        return sized_area(start, len);
    }
    match pair_of(text, '-') {
        Some((first, last)) => area_between(first, last),
        None => Err(Kind::Area.form()),
    }
}
