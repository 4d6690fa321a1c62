//! Whether a channel program may run: the reachable places, their faults, and the verdict.
//!
//! A supervisor starts only what no run can turn against it:
//!
//! ```
//! fn may_run(alloc: Global, job: &Job) -> Result<bool, WalkError> {
//!     let verdict = verify(alloc, job)?;
//!     Ok(verdict == Verdict::Yes)
//! }
//! ```
#![tactic(auto)]

mod argument;
mod bits;
mod direction;
mod evidence;
mod fault;
mod guard;
mod job;
mod job_survey;
mod judgement;
mod laws;
mod lent;
mod limit;
mod look;
mod marks;
mod moved;
mod offence;
mod open_job;
mod place;
mod place_table;
mod places;
mod reason;
mod setting;
mod successor;
mod verdict;
mod visit;
mod walk;
mod walk_error;

pub use crate::argument::{GivenBytes, Operand, seek_argument};
pub use crate::direction::Direction;
pub use crate::evidence::{Evidence, Outside};
pub use crate::guard::Guard;
pub use crate::job::Job;
pub use crate::job_survey::Survey;
pub use crate::judgement::{survey, verify};
pub use crate::lent::Lent;
pub use crate::limit::Limit;
pub use crate::look::{Look, fault_at, look_among, look_at, successors};
pub use crate::moved::{data_moved, guarded_areas};
pub use crate::offence::Offence;
pub use crate::open_job::OpenJob;
pub use crate::place::{Entry, Place, data_of, first_place};
pub use crate::places::{Explored, Places};
pub use crate::reason::Reason;
pub use crate::setting::{Setting, setting_at};
pub use crate::successor::Next;
pub use crate::verdict::Verdict;
pub use crate::walk::explore;
pub use crate::walk_error::WalkError;
