//! What the options say with which a deck is made of an image of storage.

ghost use Rattle.std.specs.List.{All};
ghost use Rattle.std.specs.Prelude.{◌≡◌, ◌≤◌, ◌<◌, ◌%◌, unwrap_or};
ghost use Rattle.ccw_core.specs.declared.ccw.TheConstants.{STORAGE_LIMIT};

use ccw_core::Area;
use ckd_core::{Device, Extents, FileMask};

/// The job of a deck that is made of an image.
#[derive(Clone, Copy, PartialEq, Eq)]
pub enum RequestedJob {
    /// The one that mask, extents and areas say.
    Named,
    /// The least job, which grants what the program needs.
    Least,
    /// The open job, which grants everything.
    Open,
}

/// The values of the options: the job of the deck, and the address of the image.
#[derive(Drop)]
pub struct ImageOptions {
    /// The device that the program runs against.
    pub device: Device,
    /// The file mask that the supervisor set.
    pub mask: FileMask,
    /// The address of the first CCW, at most `FFFFFF`.
    pub start: u32,
    /// How many places may be reachable, at most: from 1 to 65,536. With a limit the deck is of
    /// version 2, without one of version 1.
    pub limit: Option<u32>,
    /// The cylinders of the file.
    pub extents: Extents,
    /// The areas lent for fetching. Start and length of each are at most `FFFFFF`.
    pub fetch: Vec<Area>,
    /// The areas lent for storing. Start and length of each are at most `FFFFFF`.
    pub store: Vec<Area>,
    /// The address at which the image begins, at most `FFFFFF`.
    pub at: u32,
    /// The areas of the image that no line of its dump tells, in order.
    pub gaps: Vec<Area>,
    /// How many bytes storage has, with zeros after the image; without a value, as many as the
    /// image needs.
    pub size: Option<u32>,
    /// The job of the deck. If it isn't the named one, mask, extents and areas don't matter.
    pub job: RequestedJob,
    pub ghost start_is_address: { start < STORAGE_LIMIT },
    pub ghost limit_is_limit: { (1 ≤ unwrap_or limit 1) × (unwrap_or limit 1 ≤ 65536) },
    pub ghost fetch_are_areas: { All (λ a.
        (a.start < STORAGE_LIMIT) × (a.len < STORAGE_LIMIT)) fetch.items },
    pub ghost store_are_areas: { All (λ a.
        (a.start < STORAGE_LIMIT) × (a.len < STORAGE_LIMIT)) store.items },
    pub ghost at_is_address: { at < STORAGE_LIMIT },
    pub ghost size_is_size: { (unwrap_or size 0 ≤ STORAGE_LIMIT) × (unwrap_or size 0 % 8 ≡ 0) },
}
