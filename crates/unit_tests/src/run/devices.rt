//! A reader that fails.

use std::io;
use std::io::{ErrorKind, Read};

/// Gives the bytes of a text one by one, and fails in the place of the read of this number, counted
/// from 0.
#[derive(Drop)]
pub(crate) struct Broken<'a> {
    pub(crate) rest: &'a [u8],
    pub(crate) reads: usize,
    pub(crate) failing: usize,
}

impl<'a> Read for Broken<'a> {
    fn read(&mut self, buf: &mut [u8]) -> io::Result<usize> {
        if self.reads == self.failing {
            return Err(io::Error::from(ErrorKind::Other));
        }
        self.reads = self.reads.saturating_add(1);
        match (self.rest, buf) {
            ([byte, rest @ ..], [first, ..]) => {
                *first = *byte;
                self.rest = rest;
                Ok(1)
            }
            _ => Ok(0),
        }
    }
}
