//! Why C gets no answer.

ghost use Rattle.std.specs.Prelude.{◌≡◌};
ghost use Rattle.chanv_c.specs.Answers.{refusal_code, refusal_extent};
ghost use Rattle.chanv_c.specs.Faults.{fault_code, fault_extent};

use crate::codes::{
    EXTENT_BACKWARDS, EXTENT_PAST_DEVICE, MEMORY, NO_EXTENT, NOT_A_DEVICE, NOT_A_LIMIT, NOT_A_MASK,
    STORAGE_TOO_LARGE, TOO_MANY_PLACES,
};
use chan_walk::WalkError;
use std::alloc::AllocError;

/// The faults of a job as C gives it, in the order in which they count.
#[derive(Clone, Copy)]
pub enum JobFault {
    /// Storage has more than 16,777,216 bytes.
    StorageTooLarge,
    /// The device number is unknown.
    NotADevice,
    /// The byte isn't a file mask.
    NotAMask,
    /// There is no extent.
    NoExtent,
    /// The extent of this index is the first wrong extent: its first cylinder is above its last.
    ExtentBackwards(usize),
    /// The extent of this index is the first wrong extent: it ends past the device.
    ExtentPastDevice(usize),
    /// The limit is 0, or above 65,536.
    NotALimit,
}

impl JobFault {
    /// The fault's number in the header.
    fn code(self) -> u32
        ensures { result ≡ fault_code self }
    {
        match self {
            JobFault::StorageTooLarge => STORAGE_TOO_LARGE,
            JobFault::NotADevice => NOT_A_DEVICE,
            JobFault::NotAMask => NOT_A_MASK,
            JobFault::NoExtent => NO_EXTENT,
            JobFault::ExtentBackwards(_) => EXTENT_BACKWARDS,
            JobFault::ExtentPastDevice(_) => EXTENT_PAST_DEVICE,
            JobFault::NotALimit => NOT_A_LIMIT,
        }
    }

    /// The index of the extent that is wrong, or 0.
    fn extent(self) -> usize
        ensures { result ≡ fault_extent self }
    {
        match self {
            JobFault::ExtentBackwards(index) | JobFault::ExtentPastDevice(index) => index,
            _ => 0,
        }
    }
}

/// Why there is no answer.
#[derive(Clone, Copy)]
pub enum Refusal {
    /// More places are reachable than the job's limit.
    TooManyPlaces,
    /// An allocation was refused.
    Memory,
    /// The struct of C isn't a job: it has this fault.
    Wrong(JobFault),
}

impl From<AllocError> for Refusal {
    ghost use Rattle.std.specs.Prelude.{◌≡◌};
    ghost use Rattle.chanv_c.specs.declared.refusal.Refusal.TheVariants.{Memory};

    ghost from_gives = { λ _ e. e ≡ Memory };

    fn from(_error: AllocError) -> Refusal {
        Refusal::Memory
    }
}

impl From<WalkError> for Refusal {
    ghost use Rattle.std.specs.Prelude.{◌≡◌};
    ghost use Rattle.chanv_c.specs.Answers.{refusal_after};

    ghost from_gives = { λ error e. e ≡ refusal_after error };

    fn from(error: WalkError) -> Refusal {
        match error {
            WalkError::TooManyPlaces => Refusal::TooManyPlaces,
            WalkError::Memory => Refusal::Memory,
        }
    }
}

impl Refusal {
    /// The refusal's number in the header.
    pub(crate) fn code(self) -> u32
        ensures { result ≡ refusal_code self }
    {
        match self {
            Refusal::TooManyPlaces => TOO_MANY_PLACES,
            Refusal::Memory => MEMORY,
            Refusal::Wrong(fault) => fault.code(),
        }
    }

    /// The index of the extent that is wrong, or 0.
    pub(crate) fn extent(self) -> usize
        ensures { result ≡ refusal_extent self }
    {
        match self {
            Refusal::Wrong(fault) => fault.extent(),
            _ => 0,
        }
    }
}
