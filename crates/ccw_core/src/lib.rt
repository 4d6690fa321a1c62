//! The lowest layer of the verifier: what a System/360 channel sees.
//!
//! The channel command word (CCW) with its flags and its text, main storage, the areas that a
//! program was lent, and devices that remember a failure.
//!
//! ```rust
//! let storage = Storage::new(&[0x06, 0x00, 0x0A, 0x00, 0x20, 0x00, 0x00, 0x50])?;
//! let ccw = storage.ccw_at(0).ok_or("a CCW stands at 0")?;
//! assert_eq!(rt; ccw.text(rt.alloc())?.as_str(), "06 000A00 --L--0 00 0050 read");
//! ```
#![tactic(auto)]

mod areas;
mod ccw;
mod digits;
mod flags;
mod group;
mod storage;
mod text;
mod watched;

pub use crate::areas::{Area, covers, gap_among};
pub use crate::ccw::{Ccw, STORAGE_LIMIT};
pub use crate::digits::{push_ascii, read_digits, write_digits};
pub use crate::flags::{CcwFlags, FLAG_LETTERS};
pub use crate::group::Group;
pub use crate::storage::{Storage, TooLarge};
pub use crate::text::Text;
pub use crate::watched::{DeviceFault, Watched, write_out};
