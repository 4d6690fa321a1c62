//! Which way data goes.

/// Which way a CCW moves data.
#[derive(Clone, Copy, PartialEq, Eq)]
pub enum Direction {
    /// From the device into storage.
    Store,
    /// From storage to the device.
    Fetch,
}
