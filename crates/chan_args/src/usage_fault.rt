//! The texts of the usage faults, in the wording of the command line's library.

use crate::bases::why_refused;
use crate::kind::Kind;
use crate::option_text::number_of;
use std::alloc::{AllocError, Global};
use thiserror::Error;

/// An option whose text isn't accepted, with that text and why.
#[derive(Clone, Copy, Debug, Error)]
#[error("invalid value '{text}' for '--{name} <{value}>'", value = .kind.value())]
pub(crate) struct OptionFault<'a> {
    /// The name of the option, and what its value is.
    pub(crate) name: &'a str,
    pub(crate) kind: Kind,
    /// The text that was given for it.
    pub(crate) text: &'a str,
    /// Why that isn't accepted.
    pub(crate) why: &'a str,
}

/// What is said if there are too many words for a CCW.
const MANY_CCWS: &str = "error: chanv show takes one CCW; --name takes it in any words

Usage: chanv show [--name] <CCW>

For more information, try '--help'.
";

/// What the library's tip begins with, behind an empty line.
const TIP: &str = "\n\n  tip: to pass '";

/// What ends it.
const EMPTY_LINE: &str = "\n\n";

/// What ends the text of a usage fault.
const MORE: &str = "\n\nFor more information, try '--help'.\n";

/// How the library's text on a word begins that a command doesn't take.
const UNEXPECTED: &str = "error: unexpected argument '";

/// The same of an option.
const UNEXPECTED_OPTION: &str = "error: unexpected argument '-";

/// The same of `--start`.
const UNEXPECTED_START: &str = "error: unexpected argument '--start'";

/// The library's tip for the option `--start` of a command that has none: another option.
const STORAGE_TIP: &str = "\n\n  tip: a similar argument exists: '--storage'";

/// The text that too many words were given for a CCW.
pub(crate) fn of_many_ccws(alloc: Global) -> Result<String, AllocError> {
    String::from_str(alloc, MANY_CCWS)
}

/// The text that names an option, its text and why that isn't accepted.
pub(crate) fn of_option(alloc: Global, fault: OptionFault<'_>) -> Result<String, AllocError> {
    let why = why_refused(alloc, fault.kind, fault.text, fault.why)?;
    format!(in alloc; "error: {fault}: {why}{MORE}")
}

/// The text that the name of a file stands in place of a command.
pub(crate) fn of_file(alloc: Global, name: &str) -> Result<String, AllocError> {
    format!(in alloc;
        "error: {name} isn't a command; chanv verify {name} judges a deck, \
        chanv find {name} searches an image{MORE}"
    )
}

/// The text of the library, without its tips to pass an option as a value and to give `--storage`
/// for `--start`. If `deck` gets an address in place of its FILE, the first line says so.
pub(crate) fn of_library(
    alloc: Global,
    words: &[String],
    error: &clap::Error,
) -> Result<String, AllocError> {
    let text = error.to_string(alloc)?;
    if let Some(word) = taken_for_file(words, text.as_str()) {
        let (_, rest) = text.split_once('\n').unwrap_or(("", ""));
        return format!(in alloc;
            "error: chanv deck takes one FILE, and '{word}' is taken for it; \
            give the address as --start {word}\n{rest}"
        );
    }
    let (front, mark, rest) = without_tip(text.as_str());
    format!(in alloc; "{front}{mark}{rest}")
}

/// The first word of `deck` that is a hexadecimal number where the FILE stands, after the command
/// or after an option without a value, if the library's text is on a word that isn't taken.
fn taken_for_file<'a>(words: &'a [String], text: &str) -> Option<&'a str> {
    if !text.starts_with(UNEXPECTED) || text.starts_with(UNEXPECTED_OPTION) {
        return None;
    }
    if words.get(1)?.as_str() != "deck" {
        return None;
    }
    for number in 2..words.len() {
        let (before, word) = (words[number - 1].as_str(), words[number].as_str());
        let is_file = before == "deck" || before == "--least" || before == "--open";
        if is_file && number_of(word, 16).is_some() {
            return Some(word);
        }
    }
    None
}

/// A text without one of the tips that are left out: what comes before the tip, what stands in its
/// place, and what follows.
fn without_tip(text: &str) -> (&str, &str, &str) {
    if text.starts_with(UNEXPECTED_START) {
        if let Some((front, rest)) = text.split_once(STORAGE_TIP) {
            return (front, "", rest);
        }
    }
    around_tip(text).unwrap_or((text, "", ""))
}

/// The same of a tip to pass an option as a value, which ends with an empty line.
fn around_tip(text: &str) -> Option<(&str, &str, &str)> {
    let (front, tip) = text.split_once(TIP)?;
    let (_, rest) = tip.split_once(EMPTY_LINE)?;
    Some((front, EMPTY_LINE, rest))
}
