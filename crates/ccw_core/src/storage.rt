//! Main storage as it is now.

ghost use Rattle.std.specs.Prelude.{◌≡◌, ◌≤◌, ◌<◌, ◌↔◌, ℕ, length, IsOk, IsErr, IfOk};
ghost use Rattle.std.specs.Prelude.{option_copied};
ghost use Rattle.ccw_core.specs.Ccw.{byte};
ghost use Rattle.ccw_core.specs.Storage.{ccw_at, range_at};
ghost use Rattle.ccw_core.specs.declared.ccw.TheConstants.{STORAGE_LIMIT};

use crate::ccw::{Ccw, STORAGE_LIMIT};
use thiserror::Error;

/// The error for more than [`STORAGE_LIMIT`] bytes of storage.
#[derive(Clone, Copy, PartialEq, Eq, Debug, Error)]
#[error("storage is larger than 16,777,216 bytes")]
pub struct TooLarge;

/// Main storage from address 0 on, borrowed as it is.
#[derive(Clone, Copy, PartialEq, Eq, Debug)]
pub struct Storage<'a> {
    bytes: &'a [u8],
    pub ghost small: { length bytes.now ≤ STORAGE_LIMIT },
    pub ghost fits: { (a : ℕ) → byte bytes.now a < 256 },
}

impl<'a> Storage<'a> {
    ghost use Rattle.ccw_core.specs.Held.{bytes_held};
    ghost use Rattle.ccw_core.specs.declared.ccw.TheConstants.{STORAGE_LIMIT};

    /// Storage of these bytes. `TooLarge` comes exactly above [`STORAGE_LIMIT`] bytes.
    pub fn new(bytes: &'a [u8]) -> Result<Storage<'a>, TooLarge>
        ensures whole { IfOk result (λ s. bytes_held s ≡ bytes.entry.now) }
        ensures ok { IsOk result ↔ (length bytes.entry.now ≤ STORAGE_LIMIT) }
        ensures large { IsErr result ↔ (STORAGE_LIMIT < length bytes.entry.now) }
    {
        if bytes.len() <= STORAGE_LIMIT as usize {
            Ok(Storage { bytes })
        } else {
            Err(TooLarge)
        }
    }

    /// How many bytes storage has, [`STORAGE_LIMIT`] at the most.
    pub fn len(&self) -> u32
        ensures value { result ≡ length (bytes_held self.now) }
        ensures below { result ≤ STORAGE_LIMIT }
    {
        self.bytes.len() as u32
    }

    /// The channel command word at an address. It is `None` exactly if the address isn't a multiple
    /// of 8, or the eight bytes from there on aren't wholly in storage. Nothing wraps round.
    pub fn ccw_at(&self, address: u32) -> Option<Ccw>
        ensures { result ≡ ccw_at (bytes_held self.now) address }
    {
        if address % 8 != 0 {
            return None;
        }
        let word = self.bytes.get(address as usize..)?.first_chunk::<8>()?;
        Some(Ccw::from_bytes(word))
    }

    /// The byte at an address, or zero past the end of storage.
    pub fn byte_at(&self, address: u32) -> u8
        ensures { result ≡ byte (bytes_held self.now) address }
    {
        match self.bytes.get(address as usize) {
            Some(byte) => *byte,
            None => 0,
        }
    }

    /// The bytes of a range, borrowed and not copied: `None` exactly if start plus length is above
    /// the length of storage. An empty range lies in storage up to its very end.
    pub fn range(&self, start: u32, len: u32) -> Option<&'a [u8]>
        ensures { option_copied result ≡ range_at (bytes_held self.now) start len }
    {
        self.bytes.get(start as usize..)?.get(..len as usize)
    }
}
