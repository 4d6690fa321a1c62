//! Showing one CCW.

ghost use Rattle.std.specs.Prelude.{◌≡◌, ◌↔◌, ◌⊎◌, false, true, Err, IsErrOf, OnOk, IfOk, IsSome};
ghost use Rattle.std.specs.Prelude.{IfSome, Ok, string_bytes};
ghost use Rattle.std.specs.Io.KnownBytes.{Appends};
ghost use Rattle.ccw_core.specs.Written.{AppendsPrefix};
ghost use Rattle.chan_run.specs.OneCcw.{SpellsCcw, line_of_bytes, shown_line};
ghost use Rattle.hex.specs.Hex.{decode_sized};

use ccw_core::{Ccw, Watched, write_out};
use chan_deck::ccw_line;
use hex::FromHex;
use std::alloc::{AllocError, Global};
use std::io::Write;
use thiserror::Error;

/// Why a CCW was not shown.
#[derive(Clone, Copy, PartialEq, Eq, Debug, Error)]
pub enum ShowError {
    /// The text isn't sixteen hexadecimal digits.
    #[error("not a CCW")]
    NotCcw,
    /// An allocation was refused.
    #[error("out of memory")]
    Memory,
    /// The writer failed.
    #[error("write failed")]
    Write,
}

/// Writes the line that shows the CCW spelled by sixteen hexadecimal digits of either case: its
/// text and a line feed.
///
/// `NotCcw` comes exactly if the text isn't that, and `Write` exactly if a write failed. Nothing
/// was written after `NotCcw` and `Memory`, and a prefix of the line after `Write`.
pub fn show<W: Write>(alloc: Global, text: &str, to: &mut Watched<W>) -> Result<(), ShowError>
    requires { to.old.failed ≡ false }
    ensures spelled { OnOk result (SpellsCcw text.now) }
    ensures shown { OnOk result (Appends (W.contents to.old.device) (W.contents to.new.device)
        (shown_line false text.now)) }
    ensures not_ccw { IsErrOf result ShowError.NotCcw ↔ ¬ SpellsCcw text.now }
    ensures early { (result ≡ Err ShowError.NotCcw) ⊎ (result ≡ Err ShowError.Memory) → to.new
        ≡ to.old }
    ensures write { IsErrOf result ShowError.Write ↔ (to.new.failed ≡ true) }
    ensures prefix { IsErrOf result ShowError.Write → AppendsPrefix (W.contents to.old.device)
        (W.contents to.new.device) (shown_line false text.now) }
{
    let line = shown_line(alloc, text.as_bytes(), false)?;
    write_out(line.as_bytes(), to).map_err(|_| ShowError::Write)
}

/// The line that `show` writes.
pub(crate) fn shown_line(alloc: Global, text: &[u8], is_named: bool) -> Result<String, ShowError>
    ensures spelled { OnOk result (SpellsCcw text.now) }
    ensures shown { IfOk result (λ line. string_bytes line ≡ shown_line is_named text.now) }
    ensures not_ccw { IsErrOf result ShowError.NotCcw ↔ ¬ SpellsCcw text.now }
    ensures other { IsErrOf result ShowError.Write → ⊥ }
{
    let bytes = spelled_bytes(text).ok_or(ShowError::NotCcw)?;
    line_of(alloc, &bytes, is_named).map_err(|_| ShowError::Memory)
}

fn spelled_bytes(text: &[u8]) -> Option<[u8; 8]>
    ensures found { IsSome result ↔ SpellsCcw text.now }
    ensures value { IfSome result (λ bytes. decode_sized text.now 8 ≡ Ok bytes) }
{
    <[u8; 8]>::from_hex(text).ok()
}

fn line_of(alloc: Global, bytes: &[u8; 8], is_named: bool) -> Result<String, AllocError>
    ensures { IfOk result (λ line. string_bytes line ≡ line_of_bytes is_named bytes.now) }
{
    if is_named {
        return ccw_line(alloc, Ccw::from_bytes(bytes));
    }
    let mut line = Ccw::from_bytes(bytes).text(alloc)?;
    line.push('\n')?;
    Ok(line)
}
