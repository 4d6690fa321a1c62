//! The lines of a verdict and of a program that was found.

ghost use Rattle.std.specs.Prelude.{◌≡◌, ◌++◌, IfOk, OnOk, string_bytes};
ghost use Rattle.chan_deck.specs.VerdictLine as text;

use crate::deck_digits::number_digits;
use ccw_core::{Area, STORAGE_LIMIT, Text};
use chan_walk::Verdict;
use std::alloc::{AllocError, Global};
use std::fmt;

/// A range of storage as text: the addresses of its first byte and of its last, if it is another.
#[derive(Clone, Copy)]
pub(crate) struct Range(pub(crate) Area);

impl fmt::Display for Range {
    fn fmt<W: fmt::Write>(&self, f: &mut fmt::Formatter<W>) -> fmt::Result {
        let first = self.0.start;
        let last = first.saturating_add(self.0.len.saturating_sub(1));
        if last == first {
            return write!(f, "{first:06X}");
        }
        write!(f, "{first:06X}-{last:06X}")
    }
}

/// Adds an address to a text, in six digits, or as many as it needs.
pub(crate) fn push_address<T: Text>(out: &mut T, address: u32) -> Result<(), AllocError>
    ensures { OnOk result (T.written out.new ≡ T.written out.old ++ text.address_text address) }
{
    let digits = number_digits(address);
    if address < STORAGE_LIMIT {
        out.add_ascii(&digits[2..])
    } else if address < 1 << 28 {
        out.add_ascii(&digits[1..])
    } else {
        out.add_ascii(&digits)
    }
}

/// Adds a verdict to a text: `yes`, or `no`, the address and the reason's word.
pub(crate) fn push_verdict(out: &mut String, verdict: Verdict) -> Result<(), AllocError>
    ensures { OnOk result (string_bytes out.new
        ≡ string_bytes out.old ++ text.verdict_words verdict) }
{
    match verdict {
        Verdict::Yes => out.push_str("yes"),
        Verdict::No { address, reason } => {
            out.push_str("no ")?;
            push_address(out, address)?;
            out.push_str(" ")?;
            out.push_str(reason.word())
        }
    }
}

/// The line of a verdict with its end: `yes`, or `no`, the address and the reason's word. An error
/// means that an allocation failed.
pub fn verdict_text(alloc: Global, verdict: Verdict) -> Result<String, AllocError>
    ensures { IfOk result (λ t. string_bytes t ≡ text.verdict_line verdict) }
{
    let mut line = String::new(alloc);
    push_verdict(&mut line, verdict)?;
    line.push('\n')?;
    Ok(line)
}

/// The line of a program that was found: its start in six digits, and the verdict on its open job
/// with what the program looks like, or `too many places` if there is none. An error means that an
/// allocation failed.
pub fn program_text(
    alloc: Global,
    start: u32,
    verdict: Option<Verdict>,
    shape: &str,
) -> Result<String, AllocError>
    ensures { IfOk result (λ t. string_bytes t ≡ text.program_line start verdict shape.now) }
{
    let mut program = String::new(alloc);
    push_address(&mut program, start)?;
    let Some(verdict) = verdict else {
        program.push_str(" too many places\n")?;
        return Ok(program);
    };
    program.push_str(" ")?;
    push_verdict(&mut program, verdict)?;
    program.push_str(shape)?;
    program.push('\n')?;
    Ok(program)
}

/// The line of a program that was found and isn't judged: its start, and `not judged`. An error
/// means that an allocation failed.
pub fn unjudged_text(alloc: Global, start: u32) -> Result<String, AllocError>
    ensures { IfOk result (λ t. string_bytes t ≡ text.unjudged_line start) }
{
    let mut unjudged = String::new(alloc);
    push_address(&mut unjudged, start)?;
    unjudged.push_str(" not judged\n")?;
    Ok(unjudged)
}
