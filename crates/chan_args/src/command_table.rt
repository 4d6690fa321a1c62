//! A table of what each command takes, and the command line that is built from it.

use crate::kind::Kind;
use clap::{Arg, ArgAction, Command};
use std::alloc::{AllocError, Global};

/// How often a word of a command is given.
#[derive(Clone, Copy)]
pub(crate) enum Given {
    /// Once or not at all.
    Optional,
    /// Once.
    Required,
    /// Any number of times.
    Repeated,
    /// Any number of times but at least once.
    RequiredRepeated,
    /// Any number of times, and at least once without any of these options.
    RequiredWithout(&'static [&'static str]),
    /// Once beside none of these options, or not at all.
    Without(&'static [&'static str]),
}

/// A word of a command, or an option.
#[derive(Clone, Copy)]
pub(crate) struct Word {
    pub(crate) name: &'static str,
    pub(crate) kind: Kind,
    given: Given,
    /// What help says of it.
    help: &'static str,
}

/// A command.
pub(crate) struct CommandRow {
    name: &'static str,
    /// What help says of it.
    about: &'static str,
    /// Its lines of `USAGE`. From these rows `tests/commands.py` writes that constant, the synopsis
    /// of the manual and the options of the completions.
    usage: &'static str,
    /// Its words and options, in the order of help.
    words: &'static [Word],
    /// The text at the end of its help.
    after_help: &'static str,
}

/// The forms of a command line, for help and for a usage fault before any command.
const USAGE: &str = "chanv verify [FILE]...
       chanv list [--wide|--range <AREA>] [FILE]...
       chanv why [--all|--of <ADDRESS>] [FILE]...
       chanv needs [--deck] [FILE]...
       chanv graph [FILE]...
       chanv find [OPTIONS] [FILE]...
       chanv deck --start <ADDRESS> <--least|--open> [OPTIONS] [FILE]
       chanv deck --start <ADDRESS> --extent <FIRST-LAST> [OPTIONS] [FILE]
       chanv explain [WORD]...
       chanv show [--name] <CCW>";

/// The end of the help of `show`.
const OF_SHOW: &str = "With --name, CCW may have blanks and begin with 0x:
  chanv show --name '06 000A00 20 00 0050'";

/// The end of the help of `verify`.
const OF_VERIFY: &str = "The output:
  yes                the channel program may run
  no ADDRESS REASON  it may not: the CCW at ADDRESS is the first that offends
With FILEs, each line begins with `FILE: `. A text that isn't a deck gets a line
on standard error, such as `chanv: FILE: deck line 9: form`.

The exit status is the greatest of these:
  0  yes: the channel program may run
  1  no: the CCW at ADDRESS is the first that offends
  2  not a deck, longer than 67,108,864 bytes, or too many places are reachable
  3  a FILE can't be opened, reading or writing failed, or memory ran out
  4  the command line is wrong

`chanv explain REASON` explains a reason. `man chanv` names the page on decks.";

/// The end of the help of `list`.
const OF_LIST: &str =
    "AREA is hexadecimal: first and last byte (800-82F), or start and length (800+30).
A CCW with a fault of its own is marked, and the cause follows.

With several FILEs, each listing comes under a line `FILE:`.

The exit status is the same as for `chanv verify`; see its help.";

/// The end of the help of `why`.
const OF_WHY: &str = "After a no, the output has the path to the offending CCW, as a listing has it,
the cause, and a line `also` for each other offence. Standard error says how to
cure it. chanv doesn't look past a CCW that has a fault: ask again after a
repair. After a yes, notes on standard error say what the answer leaves open.

The exit status is the same as for `chanv verify`; see its help.";

/// The end of the help of `graph`.
const OF_GRAPH: &str = "To see the picture:
  chanv graph my.deck | dot -Tsvg > my.svg
With several FILEs, the output has a picture for each, with its name.

The exit status is the same as for `chanv verify`; see its help.";

/// The end of the help of `needs`.
const OF_NEEDS: &str = "The output, in lines of a deck except keep:
  mask XX               the strictest file mask that serves
  extent FFF LLL        cylinders of seeks; without it any extent will do
  fetch SSSSSS LLLLLL   an area that has to be lent for fetching
  store SSSSSS LLLLLL   an area that has to be lent for storing
  keep SSSSSS LLLLLL    an area that nothing else may change during the run
With several FILEs, each answer comes under a line `FILE:`. With --deck the
output is a deck that grants exactly this, and chanv verify says yes to it.

If no job will do, the output explains the no under the job that grants
everything; with --deck standard error explains it. The exit status is then 1,
and otherwise the same as for `chanv verify`; see its help.

The deck's mask, extents and areas don't matter. Its limit counts places under
the job that grants everything, so there may be too many for a deck that
`chanv verify` refuses, but never for a deck that it accepts.";

/// The end of the help of `find`.
const OF_FIND: &str = "The output has a line for each program, in order of its start:
  SSSSSS yes                some job will do; chanv deck --least makes a deck
  SSSSSS no ADDRESS REASON  no job will do
  SSSSSS too many places    more places are reachable than --limit
  SSSSSS not judged         the programs before it have too many places in all
Behind yes and no come the number of CCWs and the names of the first commands.

A program starts at a CCW without a fault that leads to a second CCW, unless
another listed program leads to it. `man chanv` names the page on programs that
find misses. If --at or --storage is wrong, so are the answers.

With several FILEs, the lines of each come under a line `FILE:`.

The exit status is 0, even if there is no program, or the same as for
`chanv deck`; see its help.";

/// The end of the help of `deck`.
const OF_DECK: &str = "Addresses, lengths, sizes and the mask are hexadecimal, with or without 0x
(2048 is 800); cylinders and the limit are decimal. An area is start and length
(900+10), or first and last byte (900-90F). You may repeat --extent, --fetch and
--store.

The image is raw bytes, or a dump as text with an address before the bytes of
each line, which places them; --at places it elsewhere. Other text is refused,
unless --raw says that its characters are the bytes. Storage ends with the
image, filled with zeros to a multiple of 8, unless --storage gives its size. If
--at is wrong, so are the answers.

With --least the deck grants exactly what its program needs, and is judged yes.
If no job will do, standard error explains the verdict on the job that grants
everything. With --open the deck grants everything, so you can draw any program.
With either, leave out mask, extents and areas:
  chanv deck --start 3A98 --least core.bin > my.deck
  chanv deck --start 3A98 --open core.bin | chanv graph | dot -Tpng > my.png

The exit status:
  0  the deck was written
  1  with --least: no job will do
  2  a text can't be read as a dump, the image is too long, or with --least too
     many places are reachable
  3  FILE can't be opened, reading or writing failed, or memory ran out
  4  the command line is wrong, or the image ends past --storage";

// The words of the commands.
const DECKS: Word = Word {
    name: "FILE",
    kind: Kind::Operand,
    given: Given::Repeated,
    help: "a deck; standard input if FILE is - or left out",
};

pub(crate) const ALL: Word = Word {
    name: "all",
    kind: Kind::Flag,
    given: Given::Without(&["of"]),
    help: "adds the cause to each line `also`",
};

pub(crate) const OF: Word = Word {
    name: "of",
    kind: Kind::Offence,
    given: Given::Optional,
    help: "explains the offence at this hexadecimal address instead",
};

pub(crate) const WIDE: Word = Word {
    name: "wide",
    kind: Kind::Flag,
    given: Given::Without(&["range"]),
    help: "says what each CCW does, for people and not for scripts",
};

pub(crate) const RANGE: Word = Word {
    name: "range",
    kind: Kind::Area,
    given: Given::Optional,
    help: "lists all of these bytes as CCWs, reached or not",
};

pub(crate) const AS_DECK: Word = Word {
    name: "deck",
    kind: Kind::Flag,
    given: Given::Optional,
    help: "writes the deck that grants exactly this",
};

pub(crate) const DEVICE: Word = Word {
    name: "device",
    kind: Kind::Device,
    given: Given::Optional,
    help: "2311 or 2314 (default 2314)",
};

pub(crate) const AT: Word = Word {
    name: "at",
    kind: Kind::Address,
    given: Given::Optional,
    help: "hexadecimal address of its first byte (default 0)",
};

pub(crate) const STORAGE: Word = Word {
    name: "storage",
    kind: Kind::Size,
    given: Given::Optional,
    help: "hexadecimal size of storage (default: image's end)",
};

pub(crate) const RAW: Word = Word {
    name: "raw",
    kind: Kind::Flag,
    given: Given::Optional,
    help: "takes a text's characters as the bytes of the image",
};

pub(crate) const MASK: Word = Word {
    name: "mask",
    kind: Kind::Mask,
    given: Given::Optional,
    help: "hexadecimal file mask (default 00)",
};

pub(crate) const START: Word = Word {
    name: "start",
    kind: Kind::Address,
    given: Given::Required,
    help: "hexadecimal address of the first CCW",
};

pub(crate) const LIMIT: Word = Word {
    name: "limit",
    kind: Kind::Limit,
    given: Given::Optional,
    help: "how many places may be reachable (default 4096)",
};

pub(crate) const EXTENT: Word = Word {
    name: "extent",
    kind: Kind::Extent,
    given: Given::RequiredWithout(&["least", "open"]),
    help: "decimal cylinders; needed unless --least or --open",
};

pub(crate) const FETCH: Word = Word {
    name: "fetch",
    kind: Kind::Area,
    given: Given::Repeated,
    help: "hexadecimal area lent for fetching",
};

pub(crate) const STORE: Word = Word {
    name: "store",
    kind: Kind::Area,
    given: Given::Repeated,
    help: "hexadecimal area lent for storing",
};

pub(crate) const LEAST: Word = Word {
    name: "least",
    kind: Kind::Flag,
    given: Given::Without(&["open", "mask", "extent", "fetch", "store"]),
    help: "grants exactly what the program needs",
};

pub(crate) const OPEN: Word = Word {
    name: "open",
    kind: Kind::Flag,
    given: Given::Without(&["mask", "extent", "fetch", "store"]),
    help: "grants everything",
};

pub(crate) const NAME: Word = Word {
    name: "name",
    kind: Kind::Flag,
    given: Given::Optional,
    help: "adds the name of the command",
};

const CCW: Word = Word {
    name: "CCW",
    kind: Kind::Operand,
    given: Given::RequiredRepeated,
    help: "sixteen hexadecimal digits, or twice eight",
};

const IMAGE: Word = Word {
    name: "FILE",
    kind: Kind::Operand,
    given: Given::Optional,
    help: "an image or a dump of storage; standard input if FILE is - or left out",
};

const IMAGES: Word = Word {
    name: "FILE",
    kind: Kind::Operand,
    given: Given::Repeated,
    help: "an image or a dump of storage; standard input if FILE is - or left out",
};

/// The options of a deck that is made of an image, and the image.
const MAKING: &[Word] = &[
    DEVICE, MASK, START, LIMIT, EXTENT, FETCH, STORE, LEAST, OPEN, AT, STORAGE, RAW, IMAGE,
];

/// The options of a search for programs in images, and the images.
const SEARCHING: &[Word] = &[DEVICE, LIMIT, AT, STORAGE, RAW, IMAGES];

/// The commands, in the order of help.
pub(crate) const COMMANDS: &[CommandRow] = &[
    CommandRow {
        name: "verify",
        about: "judges decks: may the program run? chanv alone judges standard input",
        usage: "chanv verify [FILE]...",
        words: &[DECKS],
        after_help: OF_VERIFY,
    },
    CommandRow {
        name: "list",
        about: "lists the CCWs that the program can reach, and the verdict",
        usage: "chanv list [--wide|--range <AREA>] [FILE]...",
        words: &[DECKS, WIDE, RANGE],
        after_help: OF_LIST,
    },
    CommandRow {
        name: "why",
        about: "explains each verdict: the path to the offending CCW, and the cause",
        usage: "chanv why [--all|--of <ADDRESS>] [FILE]...",
        words: &[DECKS, ALL, OF],
        after_help: OF_WHY,
    },
    CommandRow {
        name: "needs",
        about: "lists what a job must grant, and the bytes that must not change",
        usage: "chanv needs [--deck] [FILE]...",
        words: &[DECKS, AS_DECK],
        after_help: OF_NEEDS,
    },
    CommandRow {
        name: "graph",
        about: "draws the program of each deck for Graphviz",
        usage: "chanv graph [FILE]...",
        words: &[DECKS],
        after_help: OF_GRAPH,
    },
    CommandRow {
        name: "find",
        about: "finds programs in images of storage, and judges each",
        usage: "chanv find [OPTIONS] [FILE]...",
        words: SEARCHING,
        after_help: OF_FIND,
    },
    CommandRow {
        name: "deck",
        about: "turns an image of storage into a deck",
        usage: "chanv deck --start <ADDRESS> <--least|--open> [OPTIONS] [FILE]
       chanv deck --start <ADDRESS> --extent <FIRST-LAST> [OPTIONS] [FILE]",
        words: MAKING,
        after_help: OF_DECK,
    },
    CommandRow {
        name: "explain",
        about: "explains a word of the output; without WORD, lists all words",
        usage: "chanv explain [WORD]...",
        words: &[Word {
            name: "WORD",
            kind: Kind::Operand,
            given: Given::Repeated,
            help: "a word of the output, such as changes-ccw, 07 or mask 98",
        }],
        after_help: "",
    },
    CommandRow {
        name: "show",
        about: "prints a channel command word (CCW)",
        usage: "chanv show [--name] <CCW>",
        words: &[CCW, NAME],
        after_help: OF_SHOW,
    },
];

/// The command line that the program takes. It isn't inlined, and nor is `row_command`, so that
/// what each takes of the stack is given back before the words are read.
#[inline(never)]
pub(crate) fn command<'a>(alloc: Global) -> Result<Command<'a>, AllocError> {
    commands_over(alloc, COMMANDS)
}

/// The program with these commands.
fn commands_over<'a>(alloc: Global, rows: &[CommandRow]) -> Result<Command<'a>, AllocError> {
    let mut command = program(alloc);
    for row in rows {
        command = with_command(alloc, command, row);
    }
    command
}

/// The program without commands.
fn program<'a>(alloc: Global) -> Result<Command<'a>, AllocError> {
    Ok(
        Command::new(alloc, "chanv")
            .about("tells whether System/360 channel programs are safe to start")
            .version("1.0.0")
            .override_usage(USAGE),
    )
}

/// Adds the command of a row.
#[inline(never)]
fn with_command<'a>(
    alloc: Global,
    command: Result<Command<'a>, AllocError>,
    row: &CommandRow,
) -> Result<Command<'a>, AllocError> {
    let command = command?;
    command.subcommand(row_command(alloc, row)?)
}

/// The command of a row.
#[inline(never)]
fn row_command<'a>(alloc: Global, row: &CommandRow) -> Result<Command<'a>, AllocError> {
    let mut command = Ok(titled(alloc, row));
    for word in row.words {
        command = with_word(alloc, command, word);
    }
    command
}

/// The command of a row without words.
fn titled<'a>(alloc: Global, row: &CommandRow) -> Command<'a> {
    let mut command = Command::new(alloc, row.name).about(row.about);
    // without options, clap words the usage by what was given
    if row.words.len() > 1 {
        command = command.override_usage(row.usage);
    }
    if !row.after_help.is_empty() {
        command = command.after_help(row.after_help);
    }
    command
}

/// Adds a word.
fn with_word<'a>(
    alloc: Global,
    command: Result<Command<'a>, AllocError>,
    word: &Word,
) -> Result<Command<'a>, AllocError> {
    command?.arg(arg_of(alloc, word)?)
}

/// The argument of a word.
fn arg_of<'a>(alloc: Global, word: &Word) -> Result<Arg<'a>, AllocError> {
    let arg = Arg::new(alloc, word.name).help(word.help);
    let arg = match word.kind {
        Kind::Operand => arg,
        Kind::Flag => arg.long(word.name).action(ArgAction::SetTrue),
        kind => arg.long(word.name).value_name(kind.value()),
    };
    match word.given {
        Given::Optional => Ok(arg),
        Given::Required => Ok(arg.required(true)),
        Given::Repeated => Ok(arg.action(ArgAction::Append)),
        Given::RequiredRepeated => Ok(arg.required(true).action(ArgAction::Append)),
        Given::RequiredWithout(others) => {
            let repeated = arg.action(ArgAction::Append);
            repeated.required_unless_present_any(others)
        }
        Given::Without(others) => arg.conflicts_with_all(others),
    }
}
