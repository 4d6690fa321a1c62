//! Showing one CCW with the name of its command, from a text as a person writes it.

ghost use Rattle.std.specs.Prelude.{◌≡◌, ◌≢◌, ◌⊎◌, ◌++◌, ◌∷◌, [], IfOk, IsTrue, string_bytes};
ghost use Rattle.chan_run.specs.OneCcw.{IsCcwReread, IsCcwResponse, IsCcwShown, plain_digits};
ghost use Rattle.chan_run.specs.OneCcw.{SpellsCcw, digits_in, shown_line, without_blanks};
ghost use Rattle.chan_run.specs.Outcome.{IsWriteFailure};

use crate::failure::Failure;
use crate::one_ccw::{ShowError, shown_line};
use crate::outcome::Outcome;
use crate::response::Response;
use bitflags::Flags;
use ccw_core::FLAG_LETTERS;
use hex::encode_upper;
use std::alloc::{AllocError, Global};
use thiserror::Error;

/// A text without its blanks.
fn without_blanks(alloc: Global, text: &[u8]) -> Result<Vec<u8>, AllocError>
    ensures { IfOk result (λ plain. plain.items ≡ without_blanks text.now) }
{
    let mut plain = Vec::new(alloc);
    for byte in text {
        if *byte != b' ' {
            plain.push(*byte)?;
        }
    }
    Ok(plain)
}

/// What stands after `0x` or `0X`, or all of a text that doesn't begin so.
#[tactic(auto, unfolding(crate::specs::OneCcw::digits_in))]
fn digits_of(text: &[u8]) -> &[u8]
    ensures { result.now ≡ digits_in text.now }
{
    match text {
        [b'0', b'x' | b'X', digits @ ..] => digits,
        _ => text,
    }
}

/// Why digits aren't those of a CCW. Tests hold the texts.
#[derive(Clone, Copy, PartialEq, Eq, Debug, Error)]
enum DigitsFault {
    /// A character isn't a hexadecimal digit: the first of these.
    #[error("'{0}' isn't a hexadecimal digit")]
    NotDigit(char),
    /// There are too few or too many: so many.
    #[error("a CCW has 16 digits, and this has {0}")]
    Count(usize),
}

/// The line that says why digits aren't those of a CCW.
fn fault_line(alloc: Global, digits: &[u8]) -> Result<String, AllocError>
    ensures { IfOk result (λ text. string_bytes text ≢ []) }
{
    let fault = match digits.iter().find(|byte| !byte.is_ascii_hexdigit()) {
        Some(byte) => DigitsFault::NotDigit(char::from(*byte)),
        None => DigitsFault::Count(digits.len()),
    };
    let mut line = format!(in alloc; "{fault}")?;
    line.push_str("\n")?;
    Ok(line)
}

/// The answer to a text that spells a CCW: the line that shows it with the name of its command. The
/// text is sixteen hexadecimal digits of either case, between which blanks may stand, and `0x`
/// before them; or it is the line that `show` writes. If the text is no CCW, the advice says which
/// character is wrong, or how many digits there are.
pub fn respond_to_ccw(alloc: Global, text: &[u8]) -> Response
    ensures answer { IsCcwResponse text.now result }
    ensures unwritten { IsWriteFailure result.outcome → ⊥ }
{
    match reread_or_shown(alloc, text) {
        Ok(response) => response,
        Err(AllocError) => Response::bare(alloc, Outcome::Failed(Failure::OutOfMemory), ""),
    }
}

/// The answer to a text, where memory lasts.
fn reread_or_shown(alloc: Global, text: &[u8]) -> Result<Response, AllocError>
    ensures answer { IfOk result (λ r. IsCcwShown (plain_digits text.now) r
        ⊎ IsCcwReread text.now r) }
    ensures known { IfOk result (λ r. IsWriteFailure r.outcome → ⊥) }
{
    if let Some(digits) = digits_shown(alloc, text)? {
        let digits = digits.as_slice();
        if is_shown(alloc, digits, false, text)? || is_shown(alloc, digits, true, text)? {
            return shown_ccw(alloc, digits);
        }
    }
    let plain = without_blanks(alloc, text)?;
    shown_ccw(alloc, digits_of(&plain))
}

/// The digits of the CCW that a line may show: its flags are in letters.
fn digits_shown(alloc: Global, line: &[u8]) -> Result<Option<Vec<u8>>, AllocError> {
    if line.len() < 24 || !(b'0'..=b'7').contains(&line[15]) {
        return Ok(None);
    }
    let mut flags = line[15] - b'0';
    for at in 0..FLAG_LETTERS.len() {
        let (flag, _) = FLAG_LETTERS[at];
        if line[10 + at] != b'-' {
            flags |= flag.bits();
        }
    }
    let mut digits = Vec::new(alloc);
    digits.extend_from_slice(&line[..2])?;
    digits.extend_from_slice(&line[3..9])?;
    digits.extend_from_slice(encode_upper(alloc, [flags])?.as_bytes())?;
    digits.extend_from_slice(&line[17..19])?;
    digits.extend_from_slice(&line[20..24])?;
    Ok(Some(digits))
}

/// Whether digits spell a CCW that this text shows, with the name of its command or without.
fn is_shown(alloc: Global, digits: &[u8], is_named: bool, text: &[u8]) -> Result<bool, AllocError>
    ensures { IfOk result (λ shown. IsTrue shown → SpellsCcw digits.now
        × (text.now ++ 10 ∷ [] ≡ shown_line is_named digits.now)) }
{
    let mut wanted = Vec::new(alloc);
    wanted.extend_from_slice(text)?;
    wanted.push(b'\n')?;
    match shown_line(alloc, digits, is_named) {
        Ok(line) => Ok(line.as_bytes() == wanted.as_slice()),
        Err(ShowError::NotCcw) => Ok(false),
        Err(_) => Err(AllocError),
    }
}

/// The answer to digits, where memory lasts.
fn shown_ccw(alloc: Global, digits: &[u8]) -> Result<Response, AllocError>
    ensures answer { IfOk result (IsCcwShown digits.now) }
    ensures known { IfOk result (λ r. IsWriteFailure r.outcome → ⊥) }
{
    match shown_line(alloc, digits, true) {
        Ok(line) => Ok(Response {
            outcome: Outcome::Done,
            output: line.into_bytes(),
            advice: Some(Vec::new(alloc)),
            note: "",
        }),
        Err(ShowError::NotCcw) => {
            let fault = fault_line(alloc, digits)?;
            Ok(Response {
                outcome: Outcome::Failed(Failure::NotCcw),
                output: Vec::new(alloc),
                advice: Some(fault.into_bytes()),
                note: "",
            })
        }
        Err(_) => Err(AllocError),
    }
}
