//! The kinds of words, with all that is said of the value of an option of each kind.

/// What a word of a command is or, for an option with a value, what the value is.
#[derive(Clone, Copy, Debug)]
pub(crate) enum Kind {
    /// A word by itself.
    Operand,
    /// An option without a value.
    Flag,
    /// A device, by its number.
    Device,
    /// The byte of a file mask.
    Mask,
    /// An address in storage.
    Address,
    /// The address of an offence, which may be past storage, to which a chain may lead.
    Offence,
    /// A size of storage.
    Size,
    /// A limit on places.
    Limit,
    /// First and last cylinder of an extent.
    Extent,
    /// An area of storage.
    Area,
}

impl Kind {
    /// What help calls the value; a word without a value has an empty text.
    pub(crate) fn value(self) -> &'static str {
        self.said().0
    }

    /// What the option accepts: the cause if its text has another form.
    pub(crate) fn form(self) -> &'static str {
        self.said().1
    }

    /// Both texts.
    fn said(self) -> (&'static str, &'static str) {
        match self {
            Kind::Operand | Kind::Flag => ("", ""),
            Kind::Device => ("NUMBER", "2311 or 2314"),
            Kind::Mask => ("BYTE", "a hexadecimal byte with no bits on but C0 and 18"),
            Kind::Address => ("ADDRESS", "a hexadecimal address, at most FFFFFF"),
            Kind::Offence => ("ADDRESS", "a hexadecimal address, at most FFFFFFFF"),
            Kind::Size => ("SIZE", "a hexadecimal multiple of 8, at most 1000000"),
            Kind::Limit => ("PLACES", "a decimal number, 1 to 65536"),
            Kind::Extent => (
                "FIRST-LAST",
                "decimal cylinders in order, 0 to 202, as 10-19",
            ),
            Kind::Area => (
                "AREA",
                "hexadecimal start and length or first and last byte, each at most FFFFFF, \
                as 900+10 or 900-90F",
            ),
        }
    }
}
