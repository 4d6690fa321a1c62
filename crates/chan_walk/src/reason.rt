//! The reasons why a program may not run.

ghost use Rattle.std.specs.Prelude.{◌≡◌};
ghost use Rattle.chan_walk.specs.Reason.{is_no_command, number_of, word_of};

/// Why a program may not run.
#[derive(Clone, Copy, PartialEq, Eq, Debug)]
pub enum Reason {
    /// The address of the CCW isn't a multiple of 8.
    Misaligned,
    /// The eight bytes of the CCW aren't wholly in storage.
    OutsideStorage,
    /// A transfer in channel comes first, or after another one.
    TransferNotAllowed,
    /// The command code can't be any command's.
    InvalidCode,
    /// One of the three low flag bits is on.
    BadFormat,
    /// The count is zero.
    ZeroCount,
    /// The data range isn't wholly in storage.
    DataOutside,
    /// The devices don't have the command, or this project leaves it out.
    NotInTable,
    /// The file mask inhibits the command.
    Inhibited,
    /// Something is stored outside the areas lent for storing.
    StoreNotLent,
    /// Something is fetched outside the areas lent for fetching.
    FetchNotLent,
    /// A seek has no whole argument.
    ShortSeek,
    /// A seek leaves the extents, or names a head that the device lacks.
    SeekOutside,
    /// Something is stored over a reachable CCW.
    ChangesCcw,
    /// Something is stored over the argument of a reachable seek, or over a mask that is set.
    ChangesArgument,
    /// Set File Mask would set a weaker mask.
    WeakensMask,
}

impl Reason {
    /// The reason's number, 1 to 16: the order by which the least counts.
    #[tactic(auto, unfolding(crate::specs::Reason::number_of))]
    pub fn number(self) -> u8
        ensures { result ≡ number_of self }
    {
        match self {
            Reason::Misaligned => 1,
            Reason::OutsideStorage => 2,
            Reason::TransferNotAllowed => 3,
            Reason::InvalidCode => 4,
            Reason::BadFormat => 5,
            Reason::ZeroCount => 6,
            Reason::DataOutside => 7,
            Reason::NotInTable => 8,
            Reason::Inhibited => 9,
            Reason::StoreNotLent => 10,
            Reason::FetchNotLent => 11,
            Reason::ShortSeek => 12,
            Reason::SeekOutside => 13,
            Reason::ChangesCcw => 14,
            Reason::ChangesArgument => 15,
            Reason::WeakensMask => 16,
        }
    }

    /// Whether it says that no command of the table stands there that the channel can carry out. So
    /// it is where a program is read in only while this one runs.
    #[tactic(auto, unfolding(crate::specs::Reason::is_no_command))]
    pub fn is_no_command(self) -> bool
        ensures { result ≡ is_no_command self }
    {
        self.number() <= 8
    }

    /// The reason's word in a verdict.
    #[tactic(auto, unfolding(crate::specs::Reason::word_of))]
    pub fn word(self) -> &'static str
        ensures { result.now ≡ word_of self }
    {
        match self {
            Reason::Misaligned => "misaligned",
            Reason::OutsideStorage => "outside-storage",
            Reason::TransferNotAllowed => "transfer-not-allowed",
            Reason::InvalidCode => "invalid-code",
            Reason::BadFormat => "bad-format",
            Reason::ZeroCount => "zero-count",
            Reason::DataOutside => "data-outside",
            Reason::NotInTable => "not-in-table",
            Reason::Inhibited => "inhibited",
            Reason::StoreNotLent => "store-not-lent",
            Reason::FetchNotLent => "fetch-not-lent",
            Reason::ShortSeek => "short-seek",
            Reason::SeekOutside => "seek-outside",
            Reason::ChangesCcw => "changes-ccw",
            Reason::ChangesArgument => "changes-argument",
            Reason::WeakensMask => "weakens-mask",
        }
    }
}
