//! Worked cases, with the answers of the devices' tables.

use crate::shared::expect;
use ckd_core::{
    Device, ExtentError, Extents, FileMask, Kind, MaskClass, Track, allowed, further_name, lookup,
};
use std::alloc::Global;
use std::test::Fail;

const SEARCH: Kind = Kind::Search;

const INWARD: Kind = Kind::Inward;

const OUTWARD: Kind = Kind::Outward;

const PLAIN: MaskClass = MaskClass::Plain;

const FORMAT: MaskClass = MaskClass::WriteFormat;

const UPDATE: MaskClass = MaskClass::WriteUpdate;

/// Each command of the table: its code, name, kind and class.
static COMMANDS: &[(u8, &str, Kind, MaskClass)] = &[
    (0x03, "no-operation", Kind::Idle, PLAIN),
    (0x07, "seek", OUTWARD, MaskClass::Seek),
    (0x0B, "seek-cylinder", OUTWARD, MaskClass::SeekCylinder),
    (0x1B, "seek-head", OUTWARD, MaskClass::SeekHead),
    (0x13, "recalibrate", Kind::Idle, MaskClass::Recalibrate),
    (0x1F, "set-file-mask", OUTWARD, MaskClass::SetMask),
    (0x04, "sense", INWARD, PLAIN),
    (0x39, "search-home-address-equal", SEARCH, PLAIN),
    (0xB9, "search-home-address-equal-mt", SEARCH, PLAIN),
    (0x31, "search-id-equal", SEARCH, PLAIN),
    (0xB1, "search-id-equal-mt", SEARCH, PLAIN),
    (0x51, "search-id-high", SEARCH, PLAIN),
    (0xD1, "search-id-high-mt", SEARCH, PLAIN),
    (0x71, "search-id-equal-or-high", SEARCH, PLAIN),
    (0xF1, "search-id-equal-or-high-mt", SEARCH, PLAIN),
    (0x29, "search-key-equal", SEARCH, PLAIN),
    (0xA9, "search-key-equal-mt", SEARCH, PLAIN),
    (0x49, "search-key-high", SEARCH, PLAIN),
    (0xC9, "search-key-high-mt", SEARCH, PLAIN),
    (0x69, "search-key-equal-or-high", SEARCH, PLAIN),
    (0xE9, "search-key-equal-or-high-mt", SEARCH, PLAIN),
    (0x1A, "read-home-address", INWARD, PLAIN),
    (0x9A, "read-home-address-mt", INWARD, PLAIN),
    (0x12, "read-count", INWARD, PLAIN),
    (0x92, "read-count-mt", INWARD, PLAIN),
    (0x16, "read-record-zero", INWARD, PLAIN),
    (0x96, "read-record-zero-mt", INWARD, PLAIN),
    (0x06, "read-data", INWARD, PLAIN),
    (0x86, "read-data-mt", INWARD, PLAIN),
    (0x0E, "read-key-data", INWARD, PLAIN),
    (0x8E, "read-key-data-mt", INWARD, PLAIN),
    (0x1E, "read-count-key-data", INWARD, PLAIN),
    (0x9E, "read-count-key-data-mt", INWARD, PLAIN),
    (0x19, "write-home-address", OUTWARD, MaskClass::WriteHome),
    (0x15, "write-record-zero", OUTWARD, MaskClass::WriteHome),
    (0x1D, "write-count-key-data", OUTWARD, FORMAT),
    (0x01, "write-special-count-key-data", OUTWARD, FORMAT),
    (0x11, "erase", OUTWARD, FORMAT),
    (0x05, "write-data", OUTWARD, UPDATE),
    (0x0D, "write-key-data", OUTWARD, UPDATE),
];

/// What a code was found to be.
fn found(code: u8) -> Option<(u8, &'static str, Kind, MaskClass)> {
    let command = lookup(code)?;
    Some((
        command.code(),
        command.name(),
        command.kind(),
        command.class(),
    ))
}

/// How many codes the table has.
fn count() -> usize {
    let mut count = 0usize;
    for code in 0..=255u8 {
        if lookup(code).is_some() {
            count = count.saturating_add(1);
        }
    }
    count
}

#[test]
fn commands(rt: HostRuntime) {
    expect(&rt, count() == COMMANDS.len(), "a code that COMMANDS lacks");
    for (code, name, kind, class) in COMMANDS {
        let is_so = found(*code) == Some((*code, *name, *kind, *class));
        expect(&rt, is_so, name);
    }
}

/// Codes that the table doesn't have, with the names that some manual has for them.
static OUTSIDE: &[(u8, &str)] = &[
    (0x02, "read-ipl"),
    (0x0F, "space-count"),
    (0x14, "unconditional-reserve"),
    (0x94, "release"),
    (0xB4, "reserve"),
    (0x17, "restore"),
    (0x22, "read-sector"),
    (0x23, "set-sector"),
    (0x2D, "search-key-data-equal"),
    (0xAD, "search-key-data-equal-mt"),
    (0x4D, "search-key-data-high"),
    (0xCD, "search-key-data-high-mt"),
    (0x6D, "search-key-data-equal-or-high"),
    (0xED, "search-key-data-equal-or-high-mt"),
    (0x25, "continue-scan-equal"),
    (0xA5, "continue-scan-equal-mt"),
    (0x45, "continue-scan-high"),
    (0xC5, "continue-scan-high-mt"),
    (0x65, "continue-scan-equal-or-high"),
    (0xE5, "continue-scan-equal-or-high-mt"),
    (0x35, "continue-scan-set"),
    (0xB5, "continue-scan-set-mt"),
    (0x75, "continue-scan-no-set"),
    (0xF5, "continue-scan-no-set-mt"),
    (0x27, "perform-subsystem-function"),
    (0x3E, "read-subsystem-data"),
    (0x47, "locate-record"),
    (0x63, "define-extent"),
    (0xE7, "prefix"),
    (0x54, "sense-subsystem-status"),
    (0x64, "read-device-characteristics"),
    (0xE4, "sense-id"),
    (0xFA, "read-configuration-data"),
    (0x5E, "read-multiple-count-key-data"),
    (0xDE, "read-track"),
    (0xA4, "read-and-reset-buffered-log"),
];

/// The name that OUTSIDE has for a code.
fn listed(code: u8) -> Option<&'static str> {
    for (other, name) in OUTSIDE {
        if *other == code {
            return Some(*name);
        }
    }
    None
}

#[test]
fn outside_the_table(rt: HostRuntime) {
    for code in 0..=255u8 {
        let name = further_name(code);
        let is_so = name == listed(code) && (name.is_none() || lookup(code).is_none());
        expect(&rt, is_so, name.unwrap_or("a name that only OUTSIDE has"));
    }
}

/// Whether the mask inhibits the command, where there are such a mask and such a command.
fn inhibited(mask: u8, code: u8) -> Option<bool> {
    let mask = FileMask::new(mask)?;
    let command = lookup(code)?;
    Some(mask.inhibits(command))
}

/// A command, a mask, the command's code, and whether the mask inhibits it: first the masks of
/// writes, then the masks of seeks, for one command of each also with bits of the other sort.
static MASKS: &[(&str, u8, u8, bool)] = &[
    ("Write CKD", 0x00, 0x1D, false),
    ("Write CKD", 0x08, 0x1D, false),
    ("Write CKD", 0x40, 0x1D, true),
    ("Write CKD", 0x48, 0x1D, true),
    ("Write CKD", 0x80, 0x1D, true),
    ("Write CKD", 0x88, 0x1D, true),
    ("Write CKD", 0xC0, 0x1D, false),
    ("Write CKD", 0xC8, 0x1D, false),
    ("Write Data", 0x00, 0x05, false),
    ("Write Data", 0x40, 0x05, true),
    ("Write Data", 0x80, 0x05, false),
    ("Write Data", 0xC0, 0x05, false),
    ("Write Home Address", 0x00, 0x19, true),
    ("Write Home Address", 0x40, 0x19, true),
    ("Write Home Address", 0x80, 0x19, true),
    ("Write Home Address", 0xC0, 0x19, false),
    ("Read Data", 0x00, 0x06, false),
    ("Seek", 0x00, 0x07, false),
    ("Seek", 0x08, 0x07, true),
    ("Seek", 0x10, 0x07, true),
    ("Seek", 0x18, 0x07, true),
    ("Seek Cylinder", 0x00, 0x0B, false),
    ("Seek Cylinder", 0xC0, 0x0B, false),
    ("Seek Cylinder", 0x08, 0x0B, false),
    ("Seek Cylinder", 0xC8, 0x0B, false),
    ("Seek Cylinder", 0x10, 0x0B, true),
    ("Seek Cylinder", 0xD0, 0x0B, true),
    ("Seek Cylinder", 0x18, 0x0B, true),
    ("Seek Cylinder", 0xD8, 0x0B, true),
    ("Seek Head", 0x00, 0x1B, false),
    ("Seek Head", 0x08, 0x1B, false),
    ("Seek Head", 0x10, 0x1B, false),
    ("Seek Head", 0x18, 0x1B, true),
    ("Read Data, multi-track", 0x00, 0x86, false),
    ("Read Data, multi-track", 0x08, 0x86, false),
    ("Read Data, multi-track", 0x10, 0x86, false),
    ("Read Data, multi-track", 0x18, 0x86, false),
];

#[test]
fn mask_table(rt: HostRuntime) {
    for (name, mask, code, answer) in MASKS {
        expect(&rt, inhibited(*mask, *code) == Some(*answer), name);
    }
}

#[test]
fn mask_bits(rt: HostRuntime) {
    for byte in [0x01, 0x02, 0x04, 0x20, 0x27, 0xFF] {
        expect(&rt, FileMask::new(byte).is_none(), "no mask");
    }
    let byte = FileMask::new(0xD8).map(|mask| mask.byte());
    expect(&rt, byte == Some(0xD8), "D8");
}

/// Pairs of masks, and the least code that the second inhibits and the first permits; there is none
/// where the first is at least as strict.
static STRICTNESS: &[(u8, u8, Option<u8>)] = &[
    (0x40, 0x80, None),
    (0x80, 0x80, None),
    (0x98, 0x80, None),
    (0x00, 0x80, Some(0x01)),
    (0xC0, 0x80, Some(0x01)),
    (0x00, 0xC0, None),
    (0x80, 0x00, None),
    (0x40, 0x00, None),
    (0xC0, 0x00, Some(0x15)),
    (0x00, 0x08, Some(0x07)),
    (0x10, 0x08, None),
    (0x18, 0x10, None),
    (0x10, 0x18, Some(0x1B)),
    (0x58, 0x00, None),
    (0x48, 0xD0, Some(0x0B)),
    (0x98, 0x40, Some(0x05)),
    (0x00, 0x58, Some(0x01)),
];

fn compares(byte: u8, than: u8, code: Option<u8>) -> bool {
    let (Some(mask), Some(than)) = (FileMask::new(byte), FileMask::new(than)) else {
        return false;
    };
    let permitted = mask.least_permitted(than);
    mask.at_least(than) == code.is_none() && permitted.map(|command| command.code()) == code
}

#[test]
fn mask_strictness(rt: HostRuntime) {
    for (byte, than, code) in STRICTNESS {
        expect(
            &rt,
            compares(*byte, *than, *code),
            "one mask beside another",
        );
    }
}

fn has_these(extents: &Extents, rows: &[(u16, bool)]) -> bool {
    for (cylinder, answer) in rows {
        if extents.has(*cylinder) != *answer {
            return false;
        }
    }
    true
}

#[test]
fn extents_new(rt: HostRuntime) -> Result<(), Fail> {
    let extents = Extents::new(rt.alloc(), &[(10, 19)])?;
    expect(&rt, extents.pairs() == [(10, 19)].as_slice(), "pairs");
    let rows = [
        (0, false),
        (9, false),
        (10, true),
        (19, true),
        (20, false),
        (202, false),
        (203, false),
        (65535, false),
    ];
    expect(&rt, has_these(&extents, &rows), "cylinders");
    Ok(())
}

fn is_refused(alloc: Global, pairs: &[(u16, u16)], wanted: ExtentError) -> bool {
    match Extents::new(alloc, pairs) {
        Ok(_) => false,
        Err(error) => error == wanted,
    }
}

#[test]
fn extents_new_refused(rt: HostRuntime) {
    for (pairs, error, name) in [
        ([].as_slice(), ExtentError::Empty, "no pair"),
        (&[(0, 0), (5, 4)], ExtentError::Backwards(1), "the second"),
        (&[(0, 203)], ExtentError::PastDevice(0), "past the device"),
        (&[(300, 203)], ExtentError::Backwards(0), "backwards first"),
    ] {
        expect(&rt, is_refused(rt.alloc(), pairs, error), name);
    }
}

fn count_of(extents: &Extents) -> usize {
    let mut count = 0usize;
    for cylinder in 0..=300u16 {
        if extents.has(cylinder) {
            count = count.saturating_add(1);
        }
    }
    count
}

/// Whether the extents are those of the pairs, if these are any.
fn are_equal(alloc: Global, extents: &Extents, pairs: &[(u16, u16)]) -> Option<bool> {
    match Extents::new(alloc, pairs) {
        Ok(others) => Some(*extents == others),
        Err(_) => None,
    }
}

#[test]
fn extents_that_overlap(rt: HostRuntime) -> Result<(), Fail> {
    let alloc = rt.alloc();
    let pairs = [(7, 7), (0, 2), (150, 202), (1, 4), (1, 3)];
    let extents = Extents::new(alloc, &pairs)?;
    expect(&rt, extents.pairs() == pairs.as_slice(), "pairs");
    expect(&rt, count_of(&extents) == 59, "count");
    let rows = [
        (4, true),
        (5, false),
        (6, false),
        (7, true),
        (8, false),
        (149, false),
        (150, true),
        (202, true),
    ];
    expect(&rt, has_these(&extents, &rows), "cylinders");
    let same = are_equal(alloc, &extents, &pairs);
    expect(&rt, same == Some(true), "the same pairs");
    let other = are_equal(alloc, &extents, &[(0, 4), (7, 7), (150, 202)]);
    expect(&rt, other == Some(false), "other pairs");
    Ok(())
}

fn is_allowed(extents: &Extents, argument: [u8; 6], on_2311: bool, on_2314: bool) -> bool {
    match Track::from_argument(argument) {
        Some(track) => {
            allowed(extents, Device::D2311, track) == on_2311
                && allowed(extents, Device::D2314, track) == on_2314
        }
        None => false,
    }
}

#[test]
fn arguments_and_tracks(rt: HostRuntime) -> Result<(), Fail> {
    let extents = Extents::new(rt.alloc(), &[(10, 19)])?;
    for (argument, on_2311, on_2314, name) in [
        ([0, 0, 0, 10, 0, 19], false, true, "head 19"),
        ([0, 0, 0, 10, 0, 9], true, true, "head 9"),
        ([0, 0, 0, 10, 0, 20], false, false, "head 20"),
        ([0, 0, 0, 20, 0, 0], false, false, "cylinder 20"),
        ([0, 0, 1, 10, 0, 0], false, false, "cylinder 266"),
        ([0, 0, 0, 10, 1, 0], false, false, "head 256"),
    ] {
        expect(&rt, is_allowed(&extents, argument, on_2311, on_2314), name);
    }
    let track = Track {
        cylinder: 258,
        head: 772,
    };
    let high = Track::from_argument([0, 0, 1, 2, 3, 4]);
    expect(&rt, high == Some(track), "high bytes first");
    for argument in [[0, 1, 0, 10, 0, 0], [1, 0, 0, 10, 0, 0]] {
        expect(&rt, Track::from_argument(argument).is_none(), "a bin");
    }
    Ok(())
}

/// The example at the head of the crate.
fn may_seek(alloc: Global, device: Device) -> Result<bool, ExtentError> {
    let extents = Extents::new(alloc, &[(10, 19)])?;
    let Some(mask) = FileMask::new(0x00) else {
        return Ok(false);
    };
    let Some(seek) = lookup(0x07) else {
        return Ok(false);
    };
    let Some(track) = Track::from_argument([0, 0, 0, 10, 0, 19]) else {
        return Ok(false);
    };
    Ok(!mask.inhibits(seek) && allowed(&extents, device, track))
}

#[test]
fn example(rt: HostRuntime) -> Result<(), Fail> {
    expect(&rt, !may_seek(rt.alloc(), Device::D2311)?, "the 2311");
    expect(&rt, may_seek(rt.alloc(), Device::D2314)?, "the 2314");
    Ok(())
}

fn has(device: Device, cylinders: u16, heads: u16) -> bool {
    device.cylinders() == cylinders && device.heads() == heads
}

#[test]
fn geometry(rt: HostRuntime) {
    expect(&rt, has(Device::D2311, 203, 10), "the 2311");
    expect(&rt, has(Device::D2314, 203, 20), "the 2314");
}

#[test]
fn commands_compare(rt: HostRuntime) {
    expect(&rt, lookup(0x07) == lookup(0x07), "seek is seek");
    expect(&rt, lookup(0x07) != lookup(0x0B), "and no seek cylinder");
}

fn is_told(alloc: Global, error: ExtentError, text: &str) -> bool {
    match format!(in alloc; "{error}") {
        Ok(told) => told.as_str() == text,
        Err(_) => false,
    }
}

#[test]
fn texts_of_errors(rt: HostRuntime) {
    for (error, text) in [
        (ExtentError::Empty, "no extent"),
        (
            ExtentError::Backwards(1),
            "extent 1: first cylinder above last",
        ),
        (
            ExtentError::PastDevice(12),
            "extent 12: past the last cylinder of the device",
        ),
        (ExtentError::Memory, "out of memory"),
    ] {
        expect(&rt, is_told(rt.alloc(), error, text), text);
    }
}
