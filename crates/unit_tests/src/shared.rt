//! What the tests share: one assertion, and a writer that compares.

use std::io;
use std::io::{ErrorKind, Write};
use std::process::Abort;

/// Asserts what a test found, in one place: an assertion costs the prover more than this call.
pub(crate) fn expect(rt: &impl Abort, holds: bool, name: &str) {
    assert!(rt; holds, "{name}");
}

/// A writer that takes these bytes, one in each call, and fails at any other byte and after the
/// last. It may be that it can't be flushed.
#[derive(Clone, Copy)]
pub(crate) struct Paper<'a> {
    /// The bytes that are still to come.
    pub(crate) left: &'a [u8],
    pub(crate) flushes: bool,
}

impl<'a> Write for Paper<'a> {
    fn write(&mut self, buf: &[u8]) -> io::Result<usize> {
        match (buf, self.left) {
            ([byte, ..], [wanted, left @ ..]) if *byte == *wanted => {
                self.left = left;
                Ok(1)
            }
            _ => Err(io::Error::from(ErrorKind::Other)),
        }
    }

    fn flush(&mut self) -> io::Result<()> {
        if self.flushes {
            Ok(())
        } else {
            Err(io::Error::from(ErrorKind::Other))
        }
    }
}

/// A writer for these bytes, which can be flushed.
pub(crate) fn paper_of(left: &[u8]) -> Paper<'_> {
    Paper {
        left,
        flushes: true,
    }
}
