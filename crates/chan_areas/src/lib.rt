//! Areas of storage merged into one list, in which a byte or a range is found by binary search.
//!
//! ```
//! fn is_lent(areas: Areas, range: Area) -> bool
//!     requires { All (EndsBelow (2 ^ 32)) areas.items }
//! {
//!     Merged::new(areas).first_outside(range).is_none()
//! }
//! ```
#![tactic(auto)]

mod clip;
mod merged;

pub use crate::merged::{Areas, Merged, add_area, end_of};
