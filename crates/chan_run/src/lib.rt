//! What the program's commands do: from the bytes of a reader to those of a writer, and the status.
//!
//! Standard input and output are a reader and a writer like any other:
//!
//! ```
//! fn judge(rt: &HostRuntime) -> u8 {
//!     let mut input = Watched::new(rt.stdin());
//!     let mut output = Watched::new(rt.stdout());
//!     let mut errors = Watched::new(rt.stderr());
//!     let unnamed = Naming { name: None, is_among: false };
//!     let verify = Action::Verify;
//!     exit_status(judge_deck(rt.alloc(), unnamed, verify, &mut input, &mut output, &mut errors))
//! }
//! ```
//!
//! A `Naming` with a name says which of several inputs it is. `respond` is the answer to a text as
//! bytes, and `deliver` writes an answer.
#![tactic(auto)]

mod answer;
mod deck_parts;
mod delivery;
mod failure;
mod image;
mod image_deck;
mod image_input;
mod image_programs;
mod input;
mod judging;
mod laws;
mod least_job;
mod manner;
mod meanings;
mod name;
mod named_ccw;
mod one_ccw;
mod outcome;
mod response;
mod texts;

pub use crate::delivery::deliver;
pub use crate::failure::Failure;
pub use crate::image_deck::{make_deck, note_usual_device};
pub use crate::image_input::{ImageInput, take_image};
pub use crate::image_programs::find_programs;
pub use crate::judging::{RunError, Status, judge_deck, run};
pub use crate::meanings::{explain_word, list_words};
pub use crate::name::Naming;
pub use crate::named_ccw::respond_to_ccw;
pub use crate::one_ccw::{ShowError, show};
pub use crate::outcome::{Outcome, ends_run, exit_status, greater_status, report, report_usage};
pub use crate::response::{Response, respond};
