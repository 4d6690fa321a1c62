//! Further codes: the command table leaves them out, but manuals of these or of later disks list
//! them.

/// The name of a code that isn't in the command table, from manuals of these or of later disks,
/// with `-mt` at its end if the multi-track bit is on; `None` if this project knows no name. It
/// helps a reader of old programs, and changes no verdict. Tests hold the names.
pub fn further_name(code: u8) -> Option<&'static str> {
    let name = match code {
        0x02 => "read-ipl",
        0x0F => "space-count",
        0x14 => "unconditional-reserve",
        0x94 => "release",
        0xB4 => "reserve",
        0x17 => "restore",
        0x22 => "read-sector",
        0x23 => "set-sector",
        0x2D => "search-key-data-equal",
        0xAD => "search-key-data-equal-mt",
        0x4D => "search-key-data-high",
        0xCD => "search-key-data-high-mt",
        0x6D => "search-key-data-equal-or-high",
        0xED => "search-key-data-equal-or-high-mt",
        0x25 => "continue-scan-equal",
        0xA5 => "continue-scan-equal-mt",
        0x45 => "continue-scan-high",
        0xC5 => "continue-scan-high-mt",
        0x65 => "continue-scan-equal-or-high",
        0xE5 => "continue-scan-equal-or-high-mt",
        0x35 => "continue-scan-set",
        0xB5 => "continue-scan-set-mt",
        0x75 => "continue-scan-no-set",
        0xF5 => "continue-scan-no-set-mt",
        0x27 => "perform-subsystem-function",
        0x3E => "read-subsystem-data",
        0x47 => "locate-record",
        0x63 => "define-extent",
        0xE7 => "prefix",
        0x54 => "sense-subsystem-status",
        0x64 => "read-device-characteristics",
        0xE4 => "sense-id",
        0xFA => "read-configuration-data",
        0x5E => "read-multiple-count-key-data",
        0xDE => "read-track",
        0xA4 => "read-and-reset-buffered-log",
        _ => return None,
    };
    Some(name)
}
