//! Finds the channel programs in storage whose starts aren't known.
//!
//! ```
//! fn has_programs(alloc: Global, storage: &Storage, device: Device) -> Result<bool, AllocError> {
//!     let starts = program_starts(alloc, storage, device)?;
//!     Ok(!starts.is_empty())
//! }
//! ```
#![tactic(auto)]

mod mark_table;
mod programs;
mod trails;

pub use crate::programs::program_starts;
