//! The command line: which words ask for what.

use crate::action::{Action, Asked};
use crate::command_table::{ALL, AS_DECK, NAME, OF, RANGE, WIDE, command};
use crate::image_request::{ImageRequest, OptionError, for_option, image_request};
use crate::met::{is_flagged, text_met, texts_met};
use crate::option_text::{area_of, offence_of};
use crate::usage_fault::{of_file, of_library, of_many_ccws, of_option};
use ccw_core::Area;
use clap::error::ErrorKind;
use clap::{ArgMatches, Error};
use std::alloc::{AllocError, Global};

/// The request of a command line, with the values of its options.
#[derive(Drop)]
pub enum Request<'a> {
    /// To do this with each of these files in turn. `-` is standard input, and an empty list means
    /// standard input too.
    Run(Task, Vec<&'a str>),
    /// To show the CCW of these words, maybe with the name of its command.
    Show { words: Vec<&'a str>, is_named: bool },
    /// To say what a word means, which may have blanks between its parts; or to list the words that
    /// have a meaning, if there is no part.
    Explain(Vec<&'a str>),
    /// To print this: help or the version.
    Print(String),
    /// Nothing: the word after the program's name isn't a command. The texts are those of the usage
    /// fault, the second one if the word is the name of a file.
    NoCommand(&'a str, String, String),
    /// Nothing: this is the text of the usage fault.
    Usage(String),
    /// It isn't known: an allocation was refused.
    NoMemory,
}

/// What is done with each file.
#[derive(Drop)]
pub enum Task {
    /// Its deck is judged.
    Judge(Action),
    /// The programs in its image are found, or a deck is made of it.
    Search(ImageRequest),
}

/// What the words ask for, or why clap doesn't take them.
fn asked<'a>(alloc: Global, words: &'a [String]) -> Result<Request<'a>, Error> {
    let matches = command(alloc)?.try_get_matches_from(words)?;
    Ok(request_of(alloc, &matches)?)
}

/// The request for the command that clap met, or for `verify` if it met none.
fn request_of<'a>(alloc: Global, matches: &ArgMatches<'a>) -> Result<Request<'a>, AllocError> {
    let asked = match matches.subcommand() {
        Some((name, inner)) => request_named(alloc, name, inner),
        None => Ok(Request::Run(Task::Judge(Action::Verify), Vec::new(alloc))),
    };
    match asked {
        Ok(request) => Ok(request),
        Err(OptionError::Wrong(fault)) => Ok(Request::Usage(of_option(alloc, fault)?)),
        Err(OptionError::Memory) => Err(AllocError),
    }
}

/// The request for the command of this name, of which clap met the rest.
fn request_named<'a>(
    alloc: Global,
    name: &str,
    matches: &ArgMatches<'a>,
) -> Result<Request<'a>, OptionError<'a>> {
    let task = match name {
        "show" => return show_request(alloc, matches).map_err(|_| OptionError::Memory),
        "explain" => {
            let words = texts_met(alloc, matches, "WORD").map_err(|_| OptionError::Memory)?;
            return Ok(Request::Explain(words));
        }
        "find" => Task::Search(image_request(alloc, matches, true)?),
        "deck" => Task::Search(image_request(alloc, matches, false)?),
        _ => Task::Judge(action_named(name, matches)?),
    };
    let files = texts_met(alloc, matches, "FILE").map_err(|_| OptionError::Memory)?;
    Ok(Request::Run(task, files))
}

/// What the command of this name does with a deck.
fn action_named<'a>(name: &str, matches: &ArgMatches<'a>) -> Result<Action, OptionError<'a>> {
    match name {
        "list" => list_action(matches),
        "why" => why_action(matches),
        "graph" => Ok(Action::Graph),
        "needs" => Ok(Action::Needs {
            deck: is_flagged(matches, AS_DECK),
        }),
        _ => Ok(Action::Verify),
    }
}

/// The listing that is asked for: of the places, or of a range.
fn list_action<'a>(matches: &ArgMatches<'a>) -> Result<Action, OptionError<'a>> {
    let Some(text) = text_met(matches, RANGE) else {
        return Ok(Action::List {
            wide: is_flagged(matches, WIDE),
        });
    };
    let Area { start, len } = for_option(&RANGE, text, area_of(text))?;
    Ok(Action::Range { start, len })
}

/// The explanation that is asked for.
fn why_action<'a>(matches: &ArgMatches<'a>) -> Result<Action, OptionError<'a>> {
    let Some(text) = text_met(matches, OF) else {
        return Ok(Action::Why(if is_flagged(matches, ALL) {
            Asked::All
        } else {
            Asked::First
        }));
    };
    let address = for_option(&OF, text, offence_of(text))?;
    Ok(Action::Why(Asked::At(address)))
}

/// The request to show the words that clap met as the CCW.
fn show_request<'a>(alloc: Global, matches: &ArgMatches<'a>) -> Result<Request<'a>, AllocError> {
    let words = texts_met(alloc, matches, "CCW")?;
    let is_named = is_flagged(matches, NAME);
    if is_named || may_be_ccw(words.as_slice()) {
        return Ok(Request::Show { words, is_named });
    }
    Ok(Request::Usage(of_many_ccws(alloc)?))
}

/// Whether words may be one CCW: it is one word, or two of eight characters.
fn may_be_ccw(words: &[&str]) -> bool {
    match words {
        [_] => true,
        [first, second] => first.len() == 8 && second.len() == 8,
        _ => false,
    }
}

/// The words as clap reads them: a call for the help of `help` is one for help.
fn words_as_read<'a>(words: &'a [String]) -> &'a [String] {
    match words {
        [_, help, flag] if help.as_str() == "help" && is_help_flag(flag.as_str()) => &words[..2],
        _ => words,
    }
}

/// The flags of a listing whose meaning is asked for, if they begin like an option.
fn flags_asked<'a>(words: &'a [String]) -> Option<&'a str> {
    match words {
        [_, command, flags] if command.as_str() == "explain" && may_be_flags(flags.as_bytes()) => {
            Some(flags.as_str())
        }
        _ => None,
    }
}

/// Whether a word may be the flags of a listing, of which the first is off.
fn may_be_flags(word: &[u8]) -> bool {
    match word {
        [b'-', _, _, _, _, low] => low.is_ascii_digit(),
        _ => false,
    }
}

/// Whether a word calls for help.
fn is_help_flag(word: &str) -> bool {
    word == "--help" || word == "-h"
}

/// The answer to words that clap doesn't take, because it doesn't know a command.
fn no_command<'a>(
    alloc: Global,
    words: &'a [String],
    error: &Error,
) -> Result<Request<'a>, AllocError> {
    let usage = of_library(alloc, words, error)?;
    match words.get(1) {
        Some(word) if word.as_str() != "help" => {
            let word = word.as_str();
            Ok(Request::NoCommand(word, usage, of_file(alloc, word)?))
        }
        _ => Ok(Request::Usage(usage)),
    }
}

/// The answer to words that clap doesn't take, or that ask for help or the version.
fn not_taken<'a>(
    alloc: Global,
    words: &'a [String],
    error: &Error,
) -> Result<Request<'a>, AllocError> {
    match error.kind() {
        ErrorKind::OutOfMemory => Ok(Request::NoMemory),
        ErrorKind::DisplayHelp | ErrorKind::DisplayVersion => {
            Ok(Request::Print(error.to_string(alloc)?))
        }
        ErrorKind::InvalidSubcommand => no_command(alloc, words, error),
        _ => Ok(Request::Usage(of_library(alloc, words, error)?)),
    }
}

/// Reads the words; the first is the program's name.
///
/// Without a command the request is to verify, and `help --help` is `help`. Behind `explain`, flags
/// that begin like an option are a word. Where clap accepts the words, but not each option's text,
/// the first fault is told, in the order of a deck's lines. `NoMemory` may come in place of each.
#[inline(never)]
pub fn read_request<'a>(alloc: Global, words: &'a [String]) -> Request<'a> {
    request_for(alloc, words_as_read(words)).unwrap_or(Request::NoMemory)
}

/// The request of words as clap reads them.
fn request_for<'a>(alloc: Global, words: &'a [String]) -> Result<Request<'a>, AllocError> {
    if let Some(flags) = flags_asked(words) {
        return Ok(Request::Explain(vec![in alloc; flags]?));
    }
    match asked(alloc, words) {
        Ok(request) => Ok(request),
        Err(error) => not_taken(alloc, words, &error),
    }
}
