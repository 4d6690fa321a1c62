//! What clap met for the words and the options of a command.

use crate::command_table::Word;
use clap::ArgMatches;
use std::alloc::{AllocError, Global};

/// The text that clap met for an option, if it met one.
pub(crate) fn text_met<'a>(matches: &ArgMatches<'a>, option: Word) -> Option<&'a str> {
    matches.get_str(option.name)
}

/// Whether clap met an option that has no value.
pub(crate) fn is_flagged(matches: &ArgMatches<'_>, option: Word) -> bool {
    text_met(matches, option).unwrap_or("false") == "true"
}

/// The texts that clap met, in order.
pub(crate) fn texts_met<'a>(
    alloc: Global,
    matches: &ArgMatches<'a>,
    name: &str,
) -> Result<Vec<&'a str>, AllocError> {
    let mut texts = Vec::new(alloc);
    texts.extend_from_slice(matches.get_strs(name).unwrap_or(&[]))?;
    Ok(texts)
}
