//! Reading the whole input.

ghost use Rattle.std.specs.Prelude.{◌≡◌, ◌≤◌, ◌↔◌, ◌<◌, ◌⊎◌, false, true, length, Err, IfOk};
ghost use Rattle.std.specs.Prelude.{IfErr, IfSome, IsErrOf, None};
ghost use Rattle.chan_run.specs.Input.{GaveAll, GaveOut, GaveTooMuch};
ghost use Rattle.chan_run.specs.declared.failure.Failure.TheVariants as failures;

use crate::failure::Failure;
use ccw_core::{DeviceFault, Watched};
use std::alloc::Global;
use std::io::Read;

/// The most bytes that a deck's text may have.
pub(crate) const TEXT_LIMIT: usize = 67_108_864;

/// How many bytes are asked for at a time.
const CHUNK: usize = 8_192;

/// The bytes that a reader gives up to its end; `None` if there are more than a limit. The failure
/// is `ReadFailed`, exactly if the reader failed, or `OutOfMemory`.
///
/// Each turn of the loop takes at least one byte, ends the input or fails, so it returns over an
/// endless reader, with `None`.
pub(crate) fn read_input<R: Read>(
    alloc: Global,
    limit: usize,
    from: &mut Watched<R>,
) -> Result<Option<Vec<u8>>, Failure>
    requires { from.old.failed ≡ false }
    ensures ok { IfOk result (λ input. IfSome input (λ text. GaveAll (R.remaining from.old.device)
        (R.remaining from.new.device) text.items)) }
    ensures few { IfOk result (λ input. IfSome input (λ text. length text.items ≤ limit)) }
    ensures too_long { IfOk result (λ input. input ≡ None
        → GaveTooMuch limit (R.remaining from.old.device) (R.remaining from.new.device)) }
    ensures read { IsErrOf result failures.ReadFailed ↔ (from.new.failed ≡ true) }
    ensures early { IsErrOf result failures.ReadFailed
        → GaveOut limit (R.remaining from.old.device) (R.remaining from.new.device) }
    ensures known { IfErr result (λ f. (f ≡ failures.ReadFailed) ⊎ (f ≡ failures.OutOfMemory)) }
{
    let mut text = Vec::new(alloc);
    let mut chunk = [0u8; CHUNK];
    loop {
        let count = match from.read(&mut chunk) {
            Ok(count) => count,
            Err(DeviceFault) => return Err(Failure::ReadFailed),
        };
        if count == 0 {
            return Ok(Some(text));
        }
        if count > limit - text.len() {
            return Ok(None);
        }
        text.extend_from_slice(&chunk[..count])
            .map_err(|_| Failure::OutOfMemory)?;
    }
}
