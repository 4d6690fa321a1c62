//! The answer of the verifier.

use crate::reason::Reason;

/// Whether a program may run.
#[derive(Clone, Copy, PartialEq, Eq)]
pub enum Verdict {
    /// Every run is safe.
    Yes,
    /// The first offending CCW, and why it offends.
    No { address: u32, reason: Reason },
}
