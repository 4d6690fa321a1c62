//! Readers and writers that remember a failure.

ghost use Rattle.std.specs.Prelude.{◌≡◌, ◌≤◌, ◌<◌, ◌↔◌, true, false, length, IsErr};
ghost use Rattle.std.specs.Prelude.{IfOk, OnOk, OnErr};
ghost use Rattle.std.specs.Io.KnownBytes.{Appends, Keeps, ReadConsumes, WriteAppends};
ghost use Rattle.ccw_core.specs.Written.{AppendsPrefix};

use std::io::{Read, Write};
use std::marker::Model;
use thiserror::Error;

/// The device failed: it returned an error, or took none of the bytes that it was given.
#[derive(Clone, Copy, PartialEq, Eq, Debug, Error)]
#[error("the device failed")]
pub struct DeviceFault;

/// A reader or writer that remembers whether a call of it failed, and whether it has been flushed
/// since the last write.
///
/// A caller that passed it down several layers can still tell whether the device failed.
#[derive(Drop)]
pub struct Watched<T> {
    inner: T,
    failed: bool,
    flushed: bool,
}

impl<T> Model for Watched<T> {
    ghost use Rattle.ccw_core.specs.Watched.{Watch};

    ghost Value = { Watch T };

    ghost view = { λ w. record { device = w.inner; failed = w.failed; flushed = w.flushed } };
}

impl<T> Watched<T> {
    /// Watches a device. No call has failed so far.
    pub fn new(inner: T) -> Watched<T>
        ensures held { result.device ≡ inner }
        ensures sound { result.failed ≡ false }
        ensures unflushed { result.flushed ≡ false }
    {
        Watched {
            inner,
            failed: false,
            flushed: false,
        }
    }

    /// Whether a call has failed since `new`.
    pub fn failed(&self) -> bool
        ensures { result ≡ self.now.failed }
    {
        self.failed
    }

    /// Whether a flush has succeeded since the last write.
    pub fn flushed(&self) -> bool
        ensures { result ≡ self.now.flushed }
    {
        self.flushed
    }

    /// The device itself.
    pub fn into_inner(self) -> T
        ensures { result ≡ self.device }
    {
        let Watched {
            inner,
            failed: _,
            flushed: _,
        } = self;
        inner
    }

    // Remembers that a call failed.
    fn fault(&mut self) -> DeviceFault
        ensures kept { self.new.device ≡ self.old.device }
        ensures noted { self.new.failed ≡ true }
        ensures flushed { self.new.flushed ≡ self.old.flushed }
    {
        self.failed = true;
        DeviceFault
    }
}

impl<R: Read> Watched<R> {
    /// Reads once, into the front of the buffer, and says how many bytes came: 0 at the end of the
    /// input.
    ///
    /// Every error is a fault, even an interruption: no call is tried again.
    pub fn read(&mut self, buffer: &mut [u8]) -> Result<usize, DeviceFault>
        ensures bound { IfOk result (λ n. n ≤ length buffer.new) }
        ensures bytes { ReadConsumes (R.remaining self.old.device) (R.remaining self.new.device)
            result buffer.new }
        ensures ok { OnOk result (self.new.failed ≡ self.old.failed) }
        ensures fault { OnErr result (self.new.failed ≡ true) }
    {
        match self.inner.read(buffer) {
            Ok(n) => Ok(n),
            Err(_) => Err(self.fault()),
        }
    }
}

impl<W: Write> Watched<W> {
    /// Writes once, and says how many bytes, from the front, were taken.
    ///
    /// Every error is a fault, even an interruption. A call that takes none of some bytes is a
    /// fault too. A fault has written nothing.
    pub fn write(&mut self, bytes: &[u8]) -> Result<usize, DeviceFault>
        ensures bound { IfOk result (λ n. n ≤ length bytes.now) }
        ensures moves { IfOk result (λ n. 0 < length bytes.now → 0 < n) }
        ensures bytes { WriteAppends (W.contents self.old.device) (W.contents self.new.device)
            result bytes.now }
        ensures ok { OnOk result (self.new.failed ≡ self.old.failed) }
        ensures fault { OnErr result (self.new.failed ≡ true) }
        ensures unflushed { self.new.flushed ≡ false }
    {
        self.flushed = false;
        match self.inner.write(bytes) {
            Ok(n) if n > 0 || bytes.is_empty() => Ok(n),
            _ => Err(self.fault()),
        }
    }

    /// Flushes the device. The bytes that were written stay as they are.
    pub fn flush(&mut self) -> Result<(), DeviceFault>
        ensures bytes { Keeps (W.contents self.old.device) (W.contents self.new.device) }
        ensures ok { OnOk result (self.new.failed ≡ self.old.failed) }
        ensures flushed { OnOk result (self.new.flushed ≡ true) }
        ensures fault { OnErr result (self.new.failed ≡ true) }
    {
        match self.inner.flush() {
            Ok(()) => {
                self.flushed = true;
                Ok(())
            }
            Err(_) => Err(self.fault()),
        }
    }
}

/// Writes all the bytes, in as many calls as the writer needs. After a fault a prefix of the bytes
/// was written.
pub fn write_out<W: Write>(bytes: &[u8], to: &mut Watched<W>) -> Result<(), DeviceFault>
    requires { to.old.failed ≡ false }
    ensures ok { OnOk result (Appends (W.contents to.old.device) (W.contents to.new.device)
        bytes.now) }
    ensures prefix { AppendsPrefix (W.contents to.old.device) (W.contents to.new.device) bytes.now }
    ensures fault { IsErr result ↔ (to.new.failed ≡ true) }
{
    let mut at = 0;
    while at < bytes.len() {
        at += to.write(&bytes[at..])?;
    }
    Ok(())
}
