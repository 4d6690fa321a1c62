//! The IBM 2311 and 2314 disks as a channel program meets them: geometry, commands, file mask,
//! extents and tracks.
//!
//! A supervisor sets a file mask, lends a file by its extents, and permits a command only if
//! neither the mask nor the extents forbid it:
//!
//! ```
//! fn may_seek(alloc: Global, device: Device) -> Result<bool, ExtentError> {
//!     let extents = Extents::new(alloc, &[(10, 19)])?;
//!     let Some(mask) = FileMask::new(0x00) else {
//!         return Ok(false);
//!     };
//!     let Some(seek) = lookup(0x07) else {
//!         return Ok(false);
//!     };
//!     let Some(track) = Track::from_argument([0, 0, 0, 10, 0, 19]) else {
//!         return Ok(false);
//!     };
//!     Ok(!mask.inhibits(seek) && allowed(&extents, device, track))
//! }
//! ```
#![tactic(auto)]

mod command;
mod device;
mod extents;
mod further;
mod levels;
mod mask;
mod track;

pub use crate::command::{Command, Kind, MaskClass, lookup};
pub use crate::device::{CYLINDERS, Device, LAST_CYLINDER};
pub use crate::extents::{ExtentError, Extents};
pub use crate::further::further_name;
pub use crate::levels::Levels;
pub use crate::mask::FileMask;
pub use crate::track::{Track, allowed};
