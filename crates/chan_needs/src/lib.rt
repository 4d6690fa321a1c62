//! What a program needs of each job that it runs under, and what a supervisor may do: run two
//! programs side by side, start a program that was asked about, and let others write meanwhile.
//!
//! ```
//! fn is_compatible(program: &Remembered, row: &Row) -> bool {
//!     program.needs.conflict(row) == None
//! }
//! ```
#![tactic(auto)]

mod conflict;
mod laws;
mod layout;
mod least_bytes;
mod needed_mask;
mod needs;
mod prefix;
mod remembered;
mod start;

pub use crate::conflict::Conflict;
pub use crate::layout::{Extent, NeedLists, Remembered, Row, or_empty, pairs_of};
pub use crate::needs::{Needs, kept_from, needs_from};
pub use crate::prefix::prefix_at;
pub use crate::remembered::{check_write, copy_kept, kept_len, kept_outside};
pub use crate::start::{Start, StartRefusal, check_start};
