//! Why a channel program may not run: the path to a place that offends, the evidence there, and the
//! path to what is changed; and what a verdict leaves open, the notes.
//!
//! ```
//! fn shows(alloc: Global, survey: &Survey) -> Result<Vec<Place>, AllocError>
//!     requires { (j : Job) × IsSurvey j survey.now }
//! {
//!     let witness = witness_from(alloc, survey)?;
//!     Ok(witness.path)
//! }
//! ```
#![tactic(auto)]

mod exchange;
mod finder;
mod findings;
mod hang;
mod laws;
mod notes;
mod offence_evidence;
mod path;
mod remarks;
mod second_path;
mod witness;

pub use crate::exchange::seems_exchanged;
pub use crate::findings::{Findings, Open, findings_from};
pub use crate::hang::can_end;
pub use crate::notes::Notes;
pub use crate::remarks::{Remarks, remarks_from};
pub use crate::witness::{Witness, witness_from};
