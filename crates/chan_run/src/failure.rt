//! The lines on standard error in place of an answer.

ghost use Rattle.std.specs.Prelude.{◌≡◌};
ghost use Rattle.chan_run.specs.Failure.{failure_texts, texts_of_failure};

/// A failure's line, the exit status, and whether the line names the input.
type FailureTexts = (&'static str, u8, bool);

/// What the line on a word without a meaning begins with, if another word is near.
pub(crate) const UNKNOWN: &str = "no such word; the nearest is ";

/// What ends that line.
pub(crate) const LISTS_ALL: &str = ", and chanv explain lists all words\n";

/// The line in place of an answer.
#[derive(Clone, Copy, PartialEq, Eq, Debug)]
pub enum Failure {
    /// The input can't be opened.
    CannotOpen,
    /// There is no file of this name.
    NoSuchFile,
    /// The user may not read the file.
    PermissionDenied,
    /// The file is a folder.
    IsFolder,
    /// A read failed.
    ReadFailed,
    /// The text is longer than a deck's may be.
    DeckTooLong,
    /// The image is longer than storage may be.
    ImageTooLong,
    /// The image ends past the size of storage that `--storage` gives.
    ImagePastStorage,
    /// More places are reachable than the limit.
    TooManyPlaces,
    /// The user asked for the least job, but no job will do.
    NoJobWillDo,
    /// A write failed.
    WriteFailed,
    /// An allocation was refused.
    OutOfMemory,
    /// A word isn't a CCW.
    NotCcw,
    /// A word has no meaning.
    NoSuchWord,
}

impl Failure {
    /// What the failure's line says.
    pub(crate) fn line<'a>(self) -> &'a str
        ensures { result.now ≡ (texts_of_failure self).line }
    {
        texts_of(self).0
    }

    /// The exit status.
    pub(crate) fn status(self) -> u8
        ensures { result ≡ (texts_of_failure self).status }
    {
        texts_of(self).1
    }

    /// Whether the line is on the input, so that it names it.
    pub(crate) fn is_on_input(self) -> bool
        ensures { result ≡ (texts_of_failure self).on_input }
    {
        texts_of(self).2
    }
}

/// The line of a failure, its status, and whether the line is on the input.
fn texts_of(failure: Failure) -> FailureTexts
    ensures { failure_texts result.0.now result.1 result.2 ≡ texts_of_failure failure }
{
    match failure {
        Failure::CannotOpen => ("cannot open\n", 3, true),
        Failure::NoSuchFile => ("cannot open: no such file\n", 3, true),
        Failure::PermissionDenied => ("cannot open: permission denied\n", 3, true),
        Failure::IsFolder => ("read failed: it is a folder\n", 3, true),
        Failure::ReadFailed => ("read failed\n", 3, true),
        Failure::DeckTooLong => ("deck too long\n", 2, true),
        Failure::ImageTooLong => ("image too long\n", 2, true),
        Failure::ImagePastStorage => ("image past storage\n", 4, true),
        Failure::TooManyPlaces => ("too many places\n", 2, true),
        Failure::NoJobWillDo => ("no job will do\n", 1, true),
        Failure::WriteFailed => ("write failed\n", 3, false),
        Failure::OutOfMemory => ("out of memory\n", 3, true),
        Failure::NotCcw => ("not a CCW\n", 4, false),
        Failure::NoSuchWord => ("no such word; chanv explain lists all words\n", 4, true),
    }
}
