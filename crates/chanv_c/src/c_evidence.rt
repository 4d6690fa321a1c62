//! The values of a cause.

ghost use Rattle.std.specs.Prelude.{◌≡◌};
ghost use Rattle.chanv_c.specs.Evidence as specs;

use ccw_core::Area;
use chan_walk::{Evidence, GivenBytes, Outside};

/// `struct chanv_evidence`: the values of a cause as plain numbers. The header says which fields
/// each reason fills; the others are 0.
#[repr(C)]
#[derive(Clone, Copy)]
pub struct CEvidence {
    /// The reason's number, 1 to 16; 0 without an explanation.
    pub reason: u32,
    /// The data range of the CCW; for 2 the CCW's own eight bytes.
    pub range: Area,
    /// The first run of bytes of the range that no area lends.
    pub gap: Area,
    /// For 1 the CCW's address, for 14 the address of the CCW that is changed, for 15 of the byte.
    pub address: u32,
    /// The address of the CCW that takes the byte at `address`.
    pub taker: u32,
    /// How many bytes storage has.
    pub storage_len: u32,
    /// The command code.
    pub code: u32,
    /// The three low flag bits of the CCW.
    pub bits: u32,
    /// How many of the argument's six bytes are given.
    pub given: u32,
    /// The part that is outside: 1 bin, 2 cylinder, 3 head.
    pub outside: u32,
    /// For 13 that bin, cylinder or head; for 16 the byte that is set.
    pub value: u32,
    /// How many heads the device has.
    pub below: u32,
    /// 1 if a Set File Mask takes the byte, 0 if a seek does.
    pub sets_mask: u32,
    /// The addresses of the bytes that are given, in order, then zeros.
    pub addresses: [u32; 6],
    /// The bytes at these addresses, then zeros.
    pub bytes: [u8; 6],
    /// The job's file mask.
    pub mask: u8,
    /// 0: C has a byte here that no field takes.
    pub unused: u8,
}

/// An area of no bytes.
const NO_AREA: Area = Area { start: 0, len: 0 };

/// Evidence without a value: all zeros.
pub(crate) const NO_VALUES: CEvidence = CEvidence {
    reason: 0,
    range: NO_AREA,
    gap: NO_AREA,
    address: 0,
    taker: 0,
    storage_len: 0,
    code: 0,
    bits: 0,
    given: 0,
    outside: 0,
    value: 0,
    below: 0,
    sets_mask: 0,
    addresses: [0; 6],
    bytes: [0; 6],
    mask: 0,
    unused: 0,
};

/// The bytes of an argument, and their addresses.
fn given_values(given: GivenBytes) -> CEvidence
    ensures { result ≡ specs.given_values given }
{
    let GivenBytes {
        count,
        bytes,
        addresses,
    } = given;
    CEvidence {
        given: u32::from(count),
        addresses,
        bytes,
        ..NO_VALUES
    }
}

/// The bytes of a seek's argument, if the cause shows it.
fn argument_values(argument: Option<GivenBytes>) -> CEvidence
    ensures { result ≡ specs.argument_values argument }
{
    match argument {
        Some(given) => given_values(given),
        None => NO_VALUES,
    }
}

/// Adds to other values the part of an argument that is outside.
fn outside_values(outside: Outside, values: CEvidence) -> CEvidence
    ensures { result ≡ specs.outside_values outside values }
{
    match outside {
        Outside::Bin(number) => CEvidence {
            outside: 1,
            value: u32::from(number),
            ..values
        },
        Outside::Cylinder(number) => CEvidence {
            outside: 2,
            value: u32::from(number),
            ..values
        },
        Outside::Head { head, heads } => CEvidence {
            outside: 3,
            value: u32::from(head),
            below: u32::from(heads),
            ..values
        },
    }
}

/// The values of a cause about a data range.
fn range_values(range: Area, gap: Area, storage_len: u32, address: u32) -> CEvidence
    ensures { result ≡ record specs.no_values {
      range = range;
      gap = gap;
      storage_len = storage_len;
      address = address;
    } }
{
    CEvidence {
        range,
        gap,
        storage_len,
        address,
        ..NO_VALUES
    }
}

/// The values of a cause, without the reason's number.
fn values_of(evidence: Evidence) -> CEvidence
    ensures { result ≡ specs.values_of evidence }
{
    match evidence {
        Evidence::Misaligned { address } => CEvidence {
            address,
            ..NO_VALUES
        },
        Evidence::OutsideStorage { ccw, length } => range_values(ccw, NO_AREA, length, 0),
        Evidence::TransferNotAllowed { .. } | Evidence::ZeroCount => NO_VALUES,
        Evidence::InvalidCode { code } | Evidence::NotInTable { code } => CEvidence {
            code: u32::from(code),
            ..NO_VALUES
        },
        Evidence::BadFormat { bits } => CEvidence {
            bits: u32::from(bits),
            ..NO_VALUES
        },
        Evidence::DataOutside { data, length } => range_values(data, NO_AREA, length, 0),
        Evidence::Inhibited { mask, code } => CEvidence {
            mask: mask.byte(),
            code: u32::from(code),
            ..NO_VALUES
        },
        Evidence::StoreNotLent { data, gap } | Evidence::FetchNotLent { data, gap } => {
            range_values(data, gap, 0, 0)
        }
        Evidence::ShortSeek { given } => given_values(given),
        Evidence::SeekOutside { outside, argument } => outside_values(
            outside,
            argument_values(argument),
        ),
        Evidence::ChangesCcw { data, ccw } => range_values(data, NO_AREA, 0, ccw),
        Evidence::ChangesArgument {
            data,
            byte,
            taker,
            argument,
        } => CEvidence {
            range: data,
            address: byte,
            taker,
            sets_mask: u32::from(argument.is_none()),
            ..argument_values(argument)
        },
        Evidence::WeakensMask { byte, mask } => CEvidence {
            value: u32::from(byte),
            mask: mask.byte(),
            ..NO_VALUES
        },
    }
}

/// The number of the reason and the values of a cause; all zeros without a cause.
pub(crate) fn cause_for_c(evidence: Option<Evidence>) -> CEvidence
    ensures { result ≡ specs.cause_for_c evidence }
{
    match evidence {
        Some(evidence) => CEvidence {
            reason: u32::from(evidence.reason().number()),
            ..values_of(evidence)
        },
        None => NO_VALUES,
    }
}
