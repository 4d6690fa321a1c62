//! chanv for C: a supervisor asks whether a channel program may run, why not, which CCWs it can
//! reach, and what it needs of each job that it runs under.
//!
//! `include/chanv.h` declares what this library exports, and lists the rules for a caller.
#![tactic(auto)]

mod c_evidence;
mod c_job;
mod c_place;
mod checks;
mod codes;
mod find;
mod laws;
mod library_version;
mod list;
mod prefix;
mod refusal;
mod take_in;
mod text;
mod verify;
mod why;

pub use crate::c_evidence::CEvidence;
pub use crate::c_job::CJob;
pub use crate::c_place::CPlace;
pub use crate::checks::{CRefusal, chanv_check_start, chanv_check_write};
pub use crate::find::{CBytes, chanv_find};
pub use crate::library_version::chanv_version;
pub use crate::list::chanv_list;
pub use crate::prefix::chanv_make_prefix;
pub use crate::take_in::{CNeeded, needs_by_copy};
pub use crate::text::chanv_text;
pub use crate::verify::{CVerdict, chanv_verify};
pub use crate::why::{CExplanation, chanv_why};
