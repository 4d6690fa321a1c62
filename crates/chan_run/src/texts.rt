//! Writing some texts as one line. It takes no memory.

ghost use Rattle.std.specs.Prelude.{◌≡◌, ◌↔◌, ◌≤◌, false, true, length, IfSome, IsErr, IsSome};
ghost use Rattle.std.specs.Prelude.{OnOk};
ghost use Rattle.std.specs.Io.KnownBytes.{Appends};
ghost use Rattle.ccw_core.specs.Written.{AppendsPrefix};
ghost use Rattle.chan_run.specs.Texts.{concatenated};
ghost use Rattle.chan_run.specs.Texts.{WriterGot};

use arrayvec::ArrayString;
use ccw_core::{DeviceFault, Watched, write_out};
use std::io::Write;

/// Writes some bytes.
pub(crate) fn write_bytes<W: Write>(bytes: &[u8], to: &mut Watched<W>) -> Result<(), DeviceFault>
    requires { to.old.failed ≡ false }
    ensures said { WriterGot bytes.now
        (W.contents to.old.device) (W.contents to.new.device) to.new.failed }
    ensures fault { IsErr result ↔ (to.new.failed ≡ true) }
{
    write_out(bytes, to)
}

/// Writes some texts, one after another: with one write, if together they have at most 4,096 bytes,
/// which holds a line with any usual name; else each with a write of its own. It isn't inlined, so
/// that the line's room on the stack is given back.
#[inline(never)]
pub(crate) fn write_texts<W: Write>(texts: &[&str], to: &mut Watched<W>) -> Result<(), DeviceFault>
    requires { to.old.failed ≡ false }
    ensures said { WriterGot (concatenated texts.now)
        (W.contents to.old.device) (W.contents to.new.device) to.new.failed }
    ensures fault { IsErr result ↔ (to.new.failed ≡ true) }
{
    match line_of(texts) {
        Some(line) => write_bytes(line.as_bytes(), to),
        None => write_each(texts, to),
    }
}

/// Some texts, one after another; `None` if together they have more than 4,096 bytes.
fn line_of(texts: &[&str]) -> Option<ArrayString<4096>>
    ensures line { IfSome result (λ line. line.bytes ≡ concatenated texts.now) }
    ensures room { length (concatenated texts.now) ≤ 4096 → IsSome result }
{
    let mut line = ArrayString::new();
    for text in texts {
        if line.try_push_str(text).is_err() {
            return None;
        }
    }
    Some(line)
}

/// Writes some texts, each with a write of its own.
#[tactic(auto, using(crate::proofs::Writing::prefix_after, crate::proofs::Writing::prefix_of_more))]
fn write_each<W: Write>(texts: &[&str], to: &mut Watched<W>) -> Result<(), DeviceFault>
    requires { to.old.failed ≡ false }
    ensures ok { OnOk result (Appends (W.contents to.old.device) (W.contents to.new.device)
        (concatenated texts.now)) }
    ensures prefix { AppendsPrefix (W.contents to.old.device) (W.contents to.new.device)
        (concatenated texts.now) }
    ensures fault { IsErr result ↔ (to.new.failed ≡ true) }
{
    match texts {
        [] => Ok(()),
        [first, rest @ ..] => {
            write_out(first.as_bytes(), to)?;
            write_each(rest, to)
        }
    }
}
