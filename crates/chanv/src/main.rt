//! Verifies channel programs of System/360 for count-key-data disks.
//!
//! ```text
//! $ chanv verify < examples/changes-itself.deck
//! no 000810 changes-ccw
//! $ chanv verify examples/search-loop.deck examples/changes-itself.deck
//! examples/search-loop.deck: yes
//! examples/changes-itself.deck: no 000810 changes-ccw
//! ```
#![tactic(auto)]

ghost use Rattle.std.specs.Prelude.{◌≡◌, ◌↔◌, true};
ghost use Rattle.chan_run.specs.Outcome.{IsWriteFailure};

use ccw_core::Watched;
use chan_args::{Action, ImageOptions, ImageRequest, Request, Task, read_request, shown_word};
use chan_run::{
    Failure, ImageInput, Naming, Outcome, Response, deliver, ends_run, exit_status, explain_word,
    find_programs, greater_status, judge_deck, list_words, make_deck, note_usual_device, report,
    report_usage, respond_to_ccw, show, take_image,
};
use std::alloc::AllocError;
use std::env::{Env, FillError};
use std::fs::File;
use std::io::{Read, Write};
use std::process::ExitCode;
use std::rt::{Stdin, Stdout};
use std::{io, str};

/// The first size of the room for a word, in bytes.
const USUAL_ROOM: usize = 256;

/// An input without a name.
const UNNAMED: Naming<'static> = Naming {
    name: None,
    is_among: false,
};

/// The words of the command line.
#[derive(Drop)]
struct Words {
    /// Each as it is shown. So nothing that is written of them is more than a line, or brings a
    /// terminal anything but text.
    shown: Vec<String>,
    /// The bytes of each, by which a file is opened.
    bytes: Vec<Vec<u8>>,
}

impl Words {
    /// The index of the first word from `from` on that is shown as this name, or how many words
    /// there are. No two words are shown alike.
    fn first_shown_as(&self, from: usize, name: &str) -> usize {
        for number in from..self.shown.len() {
            if self.shown[number].as_str() == name {
                return number;
            }
        }
        self.shown.len()
    }
}

/// An input. It is one type, so that only one read buffer is on the stack.
#[derive(Drop)]
enum Input {
    Standard(Stdin),
    File(File),
}

impl Read for Input {
    fn read(&mut self, buf: &mut [u8]) -> io::Result<usize> {
        match self {
            Input::Standard(input) => input.read(buf),
            Input::File(file) => file.read(buf),
        }
    }
}

/// The output of `explain`: whoever has stopped reading has read enough.
#[derive(Drop)]
struct Explanation(Stdout);

impl Write for Explanation {
    fn write(&mut self, bytes: &[u8]) -> io::Result<usize> {
        match self.0.write(bytes) {
            Err(error) if error.kind() == io::ErrorKind::BrokenPipe => Ok(bytes.len()),
            written => written,
        }
    }

    fn flush(&mut self) -> io::Result<()> {
        self.0.flush()
    }
}

fn main(rt: HostRuntime) -> ExitCode {
    ExitCode::from(match read_words(&rt) {
        Ok(words) => carry_out(&rt, &words),
        Err(AllocError) => report_no_memory(&rt),
    })
}

/// The words of the command line.
fn read_words(rt: &HostRuntime) -> Result<Words, AllocError> {
    let mut shown = Vec::new(rt.alloc());
    let mut bytes = Vec::new(rt.alloc());
    for number in 0..usize::MAX {
        let Some(word) = read_word(rt, number)? else {
            break;
        };
        shown.push(shown_word(rt.alloc(), word.as_slice())?)?;
        bytes.push(word)?;
    }
    Ok(Words { shown, bytes })
}

/// The word of this number, if there is one.
fn read_word(rt: &HostRuntime, number: usize) -> Result<Option<Vec<u8>>, AllocError> {
    let mut size = USUAL_ROOM;
    for _ in 0..usize::BITS {
        let mut word = Vec::new(rt.alloc());
        word.resize(size, 0)?;
        match rt.arg(number, word.as_mut_slice()) {
            Ok(len) => {
                word.truncate(len);
                return Ok(Some(word));
            }
            Err(FillError::NotPresent) => return Ok(None),
            Err(FillError::TooLong) => size = size.saturating_add(size),
        }
    }
    Err(AllocError)
}

/// Does what the words ask for, and gives the exit status.
fn carry_out(rt: &HostRuntime, words: &Words) -> u8 {
    match read_request(rt.alloc(), words.shown.as_slice()) {
        Request::Run(task, names) => run_over_all(rt, words, task, names.as_slice()),
        Request::Show { words, is_named } => show_words(rt, words.as_slice(), is_named),
        Request::Explain(parts) => explain_or_list(rt, parts.as_slice()),
        Request::Print(text) => print_out(rt, text),
        Request::NoCommand(word, usage, of_file) => {
            end_without_command(rt, words, word, usage.as_str(), of_file.as_str())
        }
        Request::Usage(usage) => end_as_usage(rt, usage.as_str()),
        Request::NoMemory => report_no_memory(rt),
    }
}

/// Shows the CCW of these words, maybe with the name of its command.
fn show_words(rt: &HostRuntime, words: &[&str], is_named: bool) -> u8 {
    if is_named {
        return show_named_ccw(rt, words);
    }
    show_ccw(rt, words)
}

/// Writes the text of a usage fault, and gives the exit status: that the word isn't a command, or
/// if it is the name of a file, which commands take one.
fn end_without_command(
    rt: &HostRuntime,
    words: &Words,
    word: &str,
    usage: &str,
    of_file: &str,
) -> u8 {
    if is_file(rt, words, word) {
        return end_as_usage(rt, of_file);
    }
    end_as_usage(rt, usage)
}

/// Writes the text of a usage fault, and gives the exit status.
fn end_as_usage(rt: &HostRuntime, text: &str) -> u8 {
    report_usage(text, &mut Watched::new(rt.stderr()))
}

/// Reports what came of an input that may have a name, and gives the exit status.
fn report_on(rt: &HostRuntime, name: Option<&str>, outcome: Outcome) -> u8 {
    report(name, outcome, &mut Watched::new(rt.stderr()))
}

/// Reports that memory ran out, and gives the exit status.
fn report_no_memory(rt: &HostRuntime) -> u8 {
    report_on(rt, None, Outcome::Failed(Failure::OutOfMemory))
}

/// Ends with an outcome of which this is the output, over a word that may be named, and says what
/// came of it.
fn end_with<W: Write>(
    rt: &HostRuntime,
    word: Option<&str>,
    outcome: Outcome,
    output: &mut Watched<W>,
) -> Outcome
    requires { IsWriteFailure outcome ↔ (output.old.failed ≡ true) }
{
    let end = Response::bare(rt.alloc(), outcome, "");
    deliver(word, &end, output, &mut Watched::new(rt.stderr()))
}

/// Writes help or the version, and gives the exit status.
fn print_out(rt: &HostRuntime, text: String) -> u8 {
    let help = Response {
        outcome: Outcome::Done,
        output: text.into_bytes(),
        advice: Some(Vec::new(rt.alloc())),
        note: "",
    };
    deliver_out(rt, &help)
}

/// Delivers an answer, and gives the exit status.
fn deliver_out(rt: &HostRuntime, response: &Response) -> u8
    requires { IsWriteFailure response.now.outcome → ⊥ }
{
    let mut output = Watched::new(rt.stdout());
    exit_status(deliver(None, response, &mut output, &mut Watched::new(rt.stderr())))
}

/// Shows the CCW of which these are the digits, one part behind the other.
fn show_ccw(rt: &HostRuntime, parts: &[&str]) -> u8 {
    let mut output = Watched::new(rt.stdout());
    let answer = match joined(rt, parts, "") {
        Ok(text) => Outcome::of_show(show(rt.alloc(), text.as_str(), &mut output)),
        Err(AllocError) => Outcome::Failed(Failure::OutOfMemory),
    };
    exit_status(end_with(rt, None, answer, &mut output))
}

/// Shows the CCW whose parts have a space between two, with the name of its command.
fn show_named_ccw(rt: &HostRuntime, parts: &[&str]) -> u8 {
    match joined(rt, parts, " ") {
        Ok(text) => deliver_out(rt, &respond_to_ccw(rt.alloc(), text.as_bytes())),
        Err(AllocError) => report_no_memory(rt),
    }
}

/// Explains the word of these parts, or each part, or lists the words that have a meaning if there
/// is no part.
fn explain_or_list(rt: &HostRuntime, parts: &[&str]) -> u8 {
    if parts.is_empty() {
        return list_all_words(rt);
    }
    explain(rt, parts)
}

/// Explains the word whose parts stand with a space between two. If there is no such word, and none
/// is near, each part is a word.
fn explain(rt: &HostRuntime, parts: &[&str]) -> u8 {
    let mut output = Watched::new(Explanation(rt.stdout()));
    let answer = match joined(rt, parts, " ") {
        Ok(word) => explain_word(rt.alloc(), word.as_str(), &mut output),
        Err(AllocError) => Outcome::Failed(Failure::OutOfMemory),
    };
    match answer {
        Outcome::Failed(Failure::NoSuchWord) if parts.len() > 1 => explain_each(rt, parts),
        _ => exit_status(end_with(rt, None, answer, &mut output)),
    }
}

/// Explains each word, up to a failed write, and gives the greatest status. The line on a word that
/// has no meaning names it.
fn explain_each(rt: &HostRuntime, words: &[&str]) -> u8 {
    let mut greatest = 0;
    for word in words {
        let mut output = Watched::new(Explanation(rt.stdout()));
        let answer = explain_word(rt.alloc(), word, &mut output);
        let outcome = end_with(rt, Some(word), answer, &mut output);
        greatest = greater_status(greatest, exit_status(outcome));
        if ends_run(outcome) {
            break;
        }
    }
    greatest
}

/// Some texts with another between two.
fn joined(rt: &HostRuntime, parts: &[&str], between: &str) -> Result<String, AllocError> {
    let mut text = String::new(rt.alloc());
    for (k, part) in parts.iter().enumerate() {
        if k > 0 {
            text.push_str(between)?;
        }
        text.push_str(part)?;
    }
    Ok(text)
}

fn list_all_words(rt: &HostRuntime) -> u8 {
    let mut output = Watched::new(Explanation(rt.stdout()));
    let answer = list_words(&mut output);
    exit_status(end_with(rt, None, answer, &mut output))
}

/// Runs over each input, or over standard input if there is none, and gives the exit status.
fn run_over_all(rt: &HostRuntime, words: &Words, task: Task, names: &[&str]) -> u8 {
    let mut task = task;
    if let Task::Search(
        ImageRequest {
            is_usual_device: true,
            ..
        },
    ) = &task
    {
        note_usual_device(&mut Watched::new(rt.stderr()));
    }
    match names {
        [] | ["-"] => run_over(rt, &mut task, UNNAMED, Input::Standard(rt.stdin())).0,
        _ => run_over_each(rt, words, &mut task, names),
    }
}

/// Runs over each input in turn, up to a failed write, and gives the greatest status. The names
/// are in the order of the words.
fn run_over_each(rt: &HostRuntime, words: &Words, task: &mut Task, names: &[&str]) -> u8 {
    let mut greatest = 0;
    let mut number = 0;
    for name in names {
        let naming = Naming {
            name: Some(name),
            is_among: names.len() > 1,
        };
        number = words.first_shown_as(number, name);
        let (status, is_last) = match open_input(rt, words, number, name) {
            Ok(input) => run_over(rt, task, naming, input),
            Err(failure) => (report_on(rt, naming.name, Outcome::Failed(failure)), false),
        };
        greatest = greater_status(greatest, status);
        if is_last {
            break;
        }
    }
    greatest
}

/// Runs over an input, and gives the exit status and whether a write failed, after which no other
/// input follows.
fn run_over(rt: &HostRuntime, task: &mut Task, naming: Naming<'_>, input: Input) -> (u8, bool) {
    match task {
        Task::Judge(action) => {
            let outcome = judge(rt, *action, naming, input);
            (exit_status(outcome), ends_run(outcome))
        }
        Task::Search(_) if naming.is_among && !print_heading(rt, naming) => {
            (exit_status(Outcome::Failed(Failure::WriteFailed)), true)
        }
        Task::Search(request) => (search(rt, naming.name, request, input), false),
    }
}

/// The input of this name: standard input if it is `-`, and else the file that the word of this
/// number names.
fn open_input(
    rt: &HostRuntime,
    words: &Words,
    number: usize,
    name: &str,
) -> Result<Input, Failure> {
    if name == "-" {
        return Ok(Input::Standard(rt.stdin()));
    }
    Ok(Input::File(open_file(rt, words, number)?))
}

/// Opens the file that the word of this number names, unless it is a folder. A name that isn't
/// UTF-8 can't be opened.
fn open_file(rt: &HostRuntime, words: &Words, number: usize) -> Result<File, Failure> {
    let bytes = words.bytes.get(number).ok_or(Failure::CannotOpen)?;
    let path = str::from_utf8(bytes.as_slice()).map_err(|_| Failure::CannotOpen)?;
    let mut file = File::open(rt, path).map_err(|error| failure_of(error.kind()))?;

    // a read of no bytes waits for none, and tells a folder
    match file.read(&mut []) {
        Err(error) if error.kind() == io::ErrorKind::IsADirectory => Err(Failure::IsFolder),
        _ => Ok(file),
    }
}

/// Why a file can't be opened, as far as the system tells.
fn failure_of(kind: io::ErrorKind) -> Failure {
    match kind {
        io::ErrorKind::NotFound => Failure::NoSuchFile,
        io::ErrorKind::PermissionDenied => Failure::PermissionDenied,
        io::ErrorKind::IsADirectory => Failure::IsFolder,
        _ => Failure::CannotOpen,
    }
}

/// Whether a word that is shown so is the name of a file that can be read.
fn is_file(rt: &HostRuntime, words: &Words, shown: &str) -> bool {
    match open_file(rt, words, words.first_shown_as(0, shown)) {
        Ok(file) => {
            let mut file = file;
            file.read(&mut [0]).is_ok()
        }
        Err(_) => false,
    }
}

/// Judges the deck of an input that is named so.
fn judge(rt: &HostRuntime, action: Action, naming: Naming<'_>, input: Input) -> Outcome {
    let mut input = Watched::new(input);
    let mut output = Watched::new(rt.stdout());
    let mut errors = Watched::new(rt.stderr());
    judge_deck(
        rt.alloc(),
        naming,
        action,
        &mut input,
        &mut output,
        &mut errors,
    )
}

/// Writes the line over the lines of one of several inputs, or reports that it can't.
fn print_heading(rt: &HostRuntime, naming: Naming<'_>) -> bool {
    let status = match joined(rt, &[naming.name.unwrap_or(""), "\n"], ":") {
        Ok(line) => print_out(rt, line),
        Err(AllocError) => report_no_memory(rt),
    };
    status == 0
}

/// Finds the programs in an image that may have a name, or makes a deck of it, and gives the exit
/// status.
fn search(rt: &HostRuntime, name: Option<&str>, request: &mut ImageRequest, input: Input) -> u8 {
    let mut errors = Watched::new(rt.stderr());
    match take_image(rt.alloc(), name, request, input, &mut errors) {
        Ok(image) => exit_status(answer_on(rt, name, &request.options, request.finds, image)),
        Err(status) => status,
    }
}

/// Finds the programs in what an image is read from, or makes a deck of it.
fn answer_on(
    rt: &HostRuntime,
    name: Option<&str>,
    options: &ImageOptions,
    finds: bool,
    image: ImageInput<Input>,
) -> Outcome {
    let mut input = Watched::new(image);
    let mut output = Watched::new(rt.stdout());
    let mut errors = Watched::new(rt.stderr());
    if finds {
        return find_programs(
            rt.alloc(),
            name,
            options,
            &mut input,
            &mut output,
            &mut errors,
        );
    }
    make_deck(
        rt.alloc(),
        name,
        options,
        &mut input,
        &mut output,
        &mut errors,
    )
}
