//! Why a line of a deck is refused.

ghost use Rattle.std.specs.Prelude.{◌≡◌};
ghost use Rattle.chan_deck.specs.CauseWord.{word_of_cause};

/// Why a line of a deck is refused. The causes are tried in this order, and the first that applies
/// is named; but after the line `end` only `After` applies.
#[derive(Clone, Copy, PartialEq, Eq, Debug)]
pub enum Cause {
    /// The text ends here: no byte is left, or the rest has no line feed, and `end` hasn't come.
    Ended,
    /// Line 1 is no header.
    Header,
    /// The line has none of the forms that may stand at this point.
    Form,
    /// The mask isn't a file mask.
    Mask,
    /// The extent's first cylinder is above its last.
    ExtentBackwards,
    /// The extent's last cylinder is past the device's last.
    ExtentPastDevice,
    /// The number of bytes of storage isn't a multiple of 8, or is above 16,777,216.
    Size,
    /// The put's address isn't a multiple of 8, isn't above that of the put before it, or leaves
    /// storage.
    PutAddress,
    /// The put's eight bytes are all zero.
    PutZero,
    /// A byte follows the line `end`.
    After,
    /// The limit on places is 0 or above 65,536.
    Limit,
}

impl Cause {
    /// The word of the cause, as a refused deck's line gives it.
    pub fn word<'a>(self) -> &'a str
        ensures { result.now ≡ word_of_cause self }
    {
        match self {
            Cause::Ended => "ended",
            Cause::Header => "header",
            Cause::Form => "form",
            Cause::Mask => "mask",
            Cause::ExtentBackwards => "extent-backwards",
            Cause::ExtentPastDevice => "extent-past-device",
            Cause::Size => "size",
            Cause::PutAddress => "put-address",
            Cause::PutZero => "put-zero",
            Cause::After => "after",
            Cause::Limit => "limit",
        }
    }
}
