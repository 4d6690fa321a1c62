//! Evidence: the values that show an offence.

ghost use Rattle.std.specs.Prelude.{◌≡◌};
ghost use Rattle.chan_walk.specs.Evidence as specs;

use crate::argument::GivenBytes;
use crate::reason::Reason;
use ccw_core::Area;
use ckd_core::FileMask;

/// Why a program may not run, with the values that show it.
#[derive(Clone, Copy)]
pub enum Evidence {
    /// This address of the CCW isn't a multiple of 8.
    Misaligned {
        address: u32,
    },
    /// The eight bytes of the CCW aren't wholly in so many bytes of storage.
    OutsideStorage {
        ccw: Area,
        length: u32,
    },
    /// A transfer in channel comes first, or after another one.
    TransferNotAllowed {
        first: bool,
    },
    /// The command code can't be any command's.
    InvalidCode {
        code: u8,
    },
    /// The three low flag bits, not all of which are off.
    BadFormat {
        bits: u8,
    },
    /// The count is zero.
    ZeroCount,
    /// The data range isn't wholly in so many bytes of storage.
    DataOutside {
        data: Area,
        length: u32,
    },
    /// The table of commands doesn't have the code.
    NotInTable {
        code: u8,
    },
    /// The file mask inhibits the command of this code.
    Inhibited {
        mask: FileMask,
        code: u8,
    },
    /// The first bytes in a row of the data that no area for storing has.
    StoreNotLent {
        data: Area,
        gap: Area,
    },
    /// The first bytes in a row of the data that no area for fetching has.
    FetchNotLent {
        data: Area,
        gap: Area,
    },
    /// What the seek's data chain gives of its argument: fewer than six bytes.
    ShortSeek {
        given: GivenBytes,
    },
    /// What the argument names that the job doesn't allow, and the argument; a Recalibrate has
    /// none.
    SeekOutside {
        outside: Outside,
        argument: Option<GivenBytes>,
    },
    /// The data that is stored, and the least address of a reachable CCW of which it has a byte.
    ChangesCcw {
        data: Area,
        ccw: u32,
    },
    /// The data that is stored, the least address in it of a byte that a reachable place takes as
    /// its argument, the address of such a place, and the whole argument if it is a seek's; else
    /// the byte is the one that Set File Mask sets. Of several such places it is the one to which
    /// the path leads.
    ChangesArgument {
        data: Area,
        byte: u32,
        taker: u32,
        argument: Option<GivenBytes>,
    },
    /// The byte that is set, and the job's mask, as which it isn't at least as strict.
    WeakensMask {
        byte: u8,
        mask: FileMask,
    },
}

/// The first of three things that is wrong with the argument of a seek.
#[derive(Clone, Copy)]
pub enum Outside {
    /// The number of a bin, which isn't zero.
    Bin(u16),
    /// The number of a cylinder that no extent has.
    Cylinder(u16),
    /// The number of a head that isn't below the device's number of heads.
    Head { head: u16, heads: u16 },
}

impl Evidence {
    /// The reason that it is evidence for.
    pub fn reason(&self) -> Reason
        ensures { result ≡ specs.reason_of self.now }
    {
        match self {
            Evidence::Misaligned { .. } => Reason::Misaligned,
            Evidence::OutsideStorage { .. } => Reason::OutsideStorage,
            Evidence::TransferNotAllowed { .. } => Reason::TransferNotAllowed,
            Evidence::InvalidCode { .. } => Reason::InvalidCode,
            Evidence::BadFormat { .. } => Reason::BadFormat,
            Evidence::ZeroCount => Reason::ZeroCount,
            Evidence::DataOutside { .. } => Reason::DataOutside,
            Evidence::NotInTable { .. } => Reason::NotInTable,
            Evidence::Inhibited { .. } => Reason::Inhibited,
            Evidence::StoreNotLent { .. } => Reason::StoreNotLent,
            Evidence::FetchNotLent { .. } => Reason::FetchNotLent,
            Evidence::ShortSeek { .. } => Reason::ShortSeek,
            Evidence::SeekOutside { .. } => Reason::SeekOutside,
            Evidence::ChangesCcw { .. } => Reason::ChangesCcw,
            Evidence::ChangesArgument { .. } => Reason::ChangesArgument,
            Evidence::WeakensMask { .. } => Reason::WeakensMask,
        }
    }
}
