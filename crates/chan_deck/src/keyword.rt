//! The forms of a deck's lines, by their keywords.

use crate::item::Item;

/// A form of lines.
#[derive(Clone, Copy)]
pub(crate) enum Form {
    Header,
    Device,
    Mask,
    Start,
    Limit,
    Extent,
    Fetch,
    Store,
    Storage,
    Put,
    End,
}

/// The forms, in the order in which they come in a deck.
pub(crate) const FORMS: [Form; 11] = [
    Form::Header,
    Form::Device,
    Form::Mask,
    Form::Start,
    Form::Limit,
    Form::Extent,
    Form::Fetch,
    Form::Store,
    Form::Storage,
    Form::Put,
    Form::End,
];

impl Form {
    /// The first word of a line of the form.
    pub(crate) fn keyword(self) -> &'static str {
        match self {
            Form::Header => "chanv",
            Form::Device => "device",
            Form::Mask => "mask",
            Form::Start => "start",
            Form::Limit => "limit",
            Form::Extent => "extent",
            Form::Fetch => "fetch",
            Form::Store => "store",
            Form::Storage => "storage",
            Form::Put => "put",
            Form::End => "end",
        }
    }

    /// The place of the form among all.
    pub(crate) fn number(self) -> u8 {
        match self {
            Form::Header => 0,
            Form::Device => 1,
            Form::Mask => 2,
            Form::Start => 3,
            Form::Limit => 4,
            Form::Extent => 5,
            Form::Fetch => 6,
            Form::Store => 7,
            Form::Storage => 8,
            Form::Put => 9,
            Form::End => 10,
        }
    }

    /// The form as a pattern, and what its letters stand for.
    pub(crate) fn pattern(self) -> &'static str {
        match self {
            Form::Header => "chanv deck 1, chanv deck 2",
            Form::Device => "device 2311, device 2314",
            Form::Mask => "mask XX, where X is 0-9 or A-F",
            Form::Start => "start XXXXXX, where X is 0-9 or A-F",
            Form::Limit => "limit NNNNN, where N is 0-9",
            Form::Extent => "extent NNN NNN, where N is 0-9",
            Form::Fetch => "fetch XXXXXX XXXXXX, where X is 0-9 or A-F",
            Form::Store => "store XXXXXX XXXXXX, where X is 0-9 or A-F",
            Form::Storage => "storage XXXXXXX, where X is 0-9 or A-F",
            Form::Put => "put XXXXXX XXXXXXXXXXXXXXXX, where X is 0-9 or A-F",
            Form::End => "end",
        }
    }
}

/// The form whose keyword a line begins with, if it is one of these.
pub(crate) fn begun_as(forms: &[Form], line: &[u8]) -> Option<Form> {
    let word = match line.iter().position(|b| *b == b' ') {
        Some(end) => &line[..end],
        None => line,
    };
    forms
        .iter()
        .copied()
        .find(|form| form.keyword().as_bytes() == word)
}

/// The forms that may stand behind a line that says this, in a deck of version 2 or not, or at the
/// start.
pub(crate) fn forms_behind(last: Option<Item>, is_second: bool) -> &'static [Form] {
    match last {
        None | Some(Item::Formless | Item::Missing) => &[Form::Header],
        Some(Item::Header(_)) => &[Form::Device],
        Some(Item::Device(_)) => &[Form::Mask],
        Some(Item::Mask(_)) => &[Form::Start],
        Some(Item::Start(_)) if is_second => &[Form::Limit],
        Some(Item::Start(_) | Item::Limit(_)) => &[Form::Extent],
        Some(Item::Extent(_, _)) => &[Form::Extent, Form::Fetch, Form::Store, Form::Storage],
        Some(Item::Fetch(_)) => &[Form::Fetch, Form::Store, Form::Storage],
        Some(Item::Store(_)) => &[Form::Store, Form::Storage],
        Some(Item::Storage(_) | Item::Put(_, _)) => &[Form::Put, Form::End],
        Some(Item::End) => &[],
    }
}
