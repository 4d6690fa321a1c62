//! What `chanv explain` writes: the meaning of a word, or a line for each word.

ghost use Rattle.std.specs.Prelude.{◌≡◌, ◌↔◌, false, true};
ghost use Rattle.chan_run.specs.Outcome.{IsWriteFailure};

use crate::failure::Failure;
use crate::outcome::Outcome;
use crate::texts::write_texts;
use ccw_core::{Watched, write_out};
use chan_deck::{WORDS_AT_LENGTH, WORDS_IN_SHORT, nearest_word, spelled_text, word_row};
use std::alloc::{AllocError, Global};
use std::io::Write;

/// Writes the meaning of a word, and how to fix what it names.
///
/// The word may be in upper or lower case. It may also be a command code, as `07`, the name of a
/// further code, as `restore`, a file mask, as `mask 98`, or the flags of a listing, as `-CL--0`.
///
/// If chanv doesn't know the word, the outcome is `Unknown` with the nearest word, or `NoSuchWord`
/// if none is near; `OutOfMemory` may come in their place. `WriteFailed` comes exactly if a write
/// failed, and then a prefix was written. Only `Done` and `WriteFailed` write anything.
pub fn explain_word<W: Write>(alloc: Global, word: &str, to: &mut Watched<W>) -> Outcome
    requires { to.old.failed ≡ false }
    ensures write { IsWriteFailure result ↔ (to.new.failed ≡ true) }
{
    if let Some(row) = word_row(word) {
        let meaning = match row.split_once("\n") {
            Some((_, lines)) => lines,
            None => row,
        };
        return Outcome::of_write(write_texts(&[meaning, "\n"], to));
    }
    match spelled_text(alloc, word) {
        Ok(Some(text)) => Outcome::of_write(write_out(text.as_bytes(), to)),
        Ok(None) => unknown(alloc, word),
        Err(AllocError) => Outcome::Failed(Failure::OutOfMemory),
    }
}

/// The outcome for an unknown word.
fn unknown(alloc: Global, word: &str) -> Outcome
    ensures other { IsWriteFailure result → ⊥ }
{
    match nearest_word(alloc, word) {
        Ok(Some(nearest)) => Outcome::Unknown(nearest),
        Ok(None) => Outcome::Failed(Failure::NoSuchWord),
        Err(AllocError) => Outcome::Failed(Failure::OutOfMemory),
    }
}

/// Writes a line for each word, with its meaning in a few words. It takes no memory. If a write
/// fails, it has written a prefix of the lines.
pub fn list_words<W: Write>(to: &mut Watched<W>) -> Outcome
    requires { to.old.failed ≡ false }
    ensures write { IsWriteFailure result ↔ (to.new.failed ≡ true) }
{
    for row in WORDS_AT_LENGTH.iter().chain(WORDS_IN_SHORT.iter()) {
        let line = match row.split_once("\n") {
            Some((first, _)) => first,
            None => *row,
        };
        if write_texts(&[line, "\n"], to).is_err() {
            return Outcome::Failed(Failure::WriteFailed);
        }
    }
    Outcome::Done
}
