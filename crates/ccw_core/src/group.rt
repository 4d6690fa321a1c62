//! The groups of command codes.

ghost use Rattle.std.specs.Prelude.{◌≡◌};
ghost use Rattle.ccw_core.specs.Group.{group_of, group_word};

/// The group of a command code, by its low bits (System/360 Principles of Operation, A22-6821).
#[derive(Clone, Copy, PartialEq, Eq)]
pub enum Group {
    /// `xxxx0000`: no command; a program check.
    Invalid,
    /// `xxxx0100`.
    Sense,
    /// `xxxx1000`: transfer in channel.
    Transfer,
    /// `xxxx1100`.
    ReadBackward,
    /// `xxxxxx01`; the searches of a disk are of this group.
    Write,
    /// `xxxxxx10`.
    Read,
    /// `xxxxxx11`.
    Control,
}

impl Group {
    /// The group of a command code.
    pub(crate) fn of(command: u8) -> Group
        ensures { result ≡ group_of command }
    {
        match (command % 16, command % 4) {
            (0b0000, _) => Group::Invalid,
            (0b0100, _) => Group::Sense,
            (0b1000, _) => Group::Transfer,
            (0b1100, _) => Group::ReadBackward,
            (_, 0b01) => Group::Write,
            (_, 0b10) => Group::Read,
            _ => Group::Control,
        }
    }

    /// The group's word in the text of a CCW.
    pub fn word(self) -> &'static str
        ensures { result.now ≡ group_word self }
    {
        match self {
            Group::Invalid => "invalid",
            Group::Sense => "sense",
            Group::Transfer => "transfer",
            Group::ReadBackward => "read-backward",
            Group::Write => "write",
            Group::Read => "read",
            Group::Control => "control",
        }
    }
}
