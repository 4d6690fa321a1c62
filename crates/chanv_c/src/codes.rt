//! The numbers of the header, by its names without `CHANV_`: what calls return; why a program isn't
//! taken in or may not start, or others may not write; what a program may be allowed; the index of
//! nobody; and the usual limit.

pub(crate) const YES: u32 = 0;

pub(crate) const NO: u32 = 1;

pub(crate) const TOO_MANY_PLACES: u32 = 2;

pub(crate) const MEMORY: u32 = 3;

pub(crate) const STORAGE_TOO_LARGE: u32 = 4;

pub(crate) const NOT_A_DEVICE: u32 = 5;

pub(crate) const NOT_A_MASK: u32 = 6;

pub(crate) const NO_EXTENT: u32 = 7;

pub(crate) const EXTENT_BACKWARDS: u32 = 8;

pub(crate) const EXTENT_PAST_DEVICE: u32 = 9;

pub(crate) const NOT_A_LIMIT: u32 = 10;

pub(crate) const NO_ROOM: u32 = 11;

pub(crate) const CHANGED_MEANWHILE: u32 = 12;

pub(crate) const REFUSED_OTHER_START: u32 = 1;

pub(crate) const REFUSED_OTHER_DEVICE: u32 = 2;

pub(crate) const REFUSED_OTHER_LENGTH: u32 = 3;

pub(crate) const REFUSED_CHANGED: u32 = 4;

pub(crate) const REFUSED_MASK: u32 = 5;

pub(crate) const REFUSED_NO_CYLINDER: u32 = 6;

pub(crate) const REFUSED_NOT_FETCHABLE: u32 = 7;

pub(crate) const REFUSED_NOT_STORABLE: u32 = 8;

pub(crate) const REFUSED_STORES_OVER_KEPT: u32 = 9;

pub(crate) const REFUSED_KEEPS_STORED_OVER: u32 = 10;

pub(crate) const REFUSED_WRITES_OVER_KEPT: u32 = 11;

pub(crate) const REFUSED_KEEPS_OUTSIDE: u32 = 12;

pub(crate) const REFUSED_MAY_HANG: u32 = 13;

pub(crate) const REFUSED_INTERRUPTS: u32 = 14;

pub(crate) const REFUSED_ENDS_CHAINING: u32 = 15;

pub(crate) const ALLOW_HANGING: u32 = 1;

pub(crate) const ALLOW_INTERRUPTING: u32 = 2;

pub(crate) const ALLOW_ENDING_CHAINS: u32 = 4;

pub(crate) const NOBODY: usize = usize::MAX;

pub(crate) const USUAL_LIMIT: u32 = 4096;
