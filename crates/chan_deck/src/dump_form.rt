//! The forms of a line of a dump of storage as text: where the address is, and where the bytes are.

/// Which columns behind the address have bytes.
#[derive(Clone, Copy, PartialEq, Eq)]
pub(crate) enum Bytes {
    /// All up to the text.
    All,
    /// So many.
    In(usize),
    /// All, but a byte alone behind words of four is the key of storage.
    Keyed,
}

/// A form of a line: how many words may come first; what comes before the address, and after it,
/// with any characters at `~`; which columns have bytes; and a line of this form.
type Form = (usize, &'static str, &'static str, Bytes, &'static str);

/// The forms of a line: what Hercules and CP display, rows of `chanv list`, what gdb examines, an
/// address with a colon, and an address with blanks. The first that fits counts.
const FORMS: [Form; 11] = [
    (8, "R:", ":K:~=", Bytes::In(36), "R:00000800:K:06=07000900"),
    (8, "V:", ":K:~=", Bytes::In(36), "V:00000800:K:06=07000900"),
    (8, "R", " ", Bytes::Keyed, "R00000800  07000900 40000006"),
    (8, "V", " ", Bytes::Keyed, "V00000800  07000900 40000006"),
    (0, "", " fresh ~ ~ ", Bytes::In(24), LISTED),
    (0, "", " in ~ ~ ", Bytes::In(24), LISTED),
    (0, "", " out ~ ~ ", Bytes::In(24), LISTED),
    (0, "", " search ~ ~ ", Bytes::In(24), LISTED),
    (1, "", " <~>:", Bytes::All, "0x800 <core>: 0x07 0x00 0x09"),
    (1, "", ":", Bytes::All, "00000800: 0700 0900 4000 0006"),
    (1, "", "", Bytes::All, "000800  07000900 40000006"),
];

const LISTED: &str = "000800 fresh t . 07 000900 -C---0 00 0006";

/// How many digits of bytes tell that a word before an address is a label.
const LABELLED: usize = 8;

/// What a text column or a comment begins with.
pub(crate) const MARKS: &[u8] = b"|*>;";

/// The address of a line, and the columns of its bytes.
#[derive(Clone, Copy)]
pub(crate) struct Front<'a> {
    pub(crate) digits: &'a [u8],
    /// The column of the address.
    pub(crate) column: usize,
    pub(crate) from: usize,
    pub(crate) bytes: Bytes,
    /// Whether blanks alone come after the address.
    pub(crate) is_blank: bool,
    /// Whether the line is one of a log, which has other lines.
    pub(crate) is_logged: bool,
}

/// The address of a line, if the line has one.
pub(crate) fn front_of(line: &[u8]) -> Option<Front<'_>> {
    FORMS.iter().find_map(|form| front_in(line, form).ok())
}

/// Whether a line has an address and bytes, and isn't one of a deck.
pub(crate) fn is_dump_line(line: &[u8]) -> bool {
    !line.starts_with(b"put ") && front_of(line).is_some_and(|front| has_bytes(line, front.from))
}

/// A line of the form that a line comes nearest to, and the first column that doesn't fit.
pub(crate) fn nearest_form(line: &[u8]) -> (&'static str, usize) {
    let mut nearest = ("", 0);
    for form in &FORMS {
        let (.., sample) = *form;
        let reached = front_in(line, form).err().unwrap_or(line.len());
        if reached >= nearest.1 {
            nearest = (sample, reached);
        }
    }
    nearest
}

/// The address of a line, if the line has it in a form, maybe after some words; otherwise the first
/// column that doesn't fit. After a label there have to be bytes.
fn front_in<'a>(line: &'a [u8], form: &Form) -> Result<Front<'a>, usize> {
    let (words, before, ..) = *form;
    let (mut from, mut skipped, mut wrong) = (0usize, 0usize, Err(0));
    for word in line.split(is_blank) {
        if !word.is_empty() {
            let front = front_by(line, from, form);
            let is_bare = |front: Front<'_>| !front.is_logged && !has_bytes(line, front.from);
            match front {
                Ok(front) if skipped == 0 || !is_bare(front) => return Ok(front),
                _ if skipped == 0 => wrong = front,
                _ => {}
            }
            if skipped == words || before.is_empty() && !may_be_label(word) {
                return wrong;
            }
            skipped = skipped.saturating_add(1);
        }
        from = from.saturating_add(word.len()).saturating_add(1);
    }
    wrong
}

/// Whether a byte parts words.
pub(crate) fn is_blank(byte: &u8) -> bool {
    byte.is_ascii_whitespace()
}

/// Whether a word may be a label, and not an address with a wrong digit or the begin of a comment.
fn may_be_label(word: &[u8]) -> bool {
    let digits = word.iter().filter(|byte| byte.is_ascii_digit()).count();
    match word {
        [b'0'..=b'9' | b';' | b'*' | b'|', ..] => false,
        _ => digits <= word.len() / 2,
    }
}

/// Whether enough digits come from a column on to be bytes.
fn has_bytes(line: &[u8], from: usize) -> bool {
    let rest = line.get(from..).unwrap_or(&[]);
    let signs = rest.iter().filter(|byte| !is_blank(byte)).take(LABELLED);
    signs.filter(|byte| byte.is_ascii_hexdigit()).count() == LABELLED
}

/// The address at a column of a line, if what comes there has a form: three to sixteen digits, and
/// not letters alone, which may be a word; or any digits after `0x`.
fn front_by<'a>(line: &'a [u8], from: usize, form: &Form) -> Result<Front<'a>, usize> {
    let (_, before, after, bytes, _) = *form;
    let text = line.get(from..).unwrap_or(&[]);
    let text = text.strip_prefix(before.as_bytes()).ok_or(from)?;
    let marked = text.strip_prefix(b"0x");
    let text = marked.unwrap_or(text);
    let column = line.len().saturating_sub(text.len());
    let len = text.iter().position(|byte| !byte.is_ascii_hexdigit());
    let (digits, rest) = text.split_at(len.unwrap_or(text.len()));
    let end = column.saturating_add(digits.len());
    let rest = rest_behind(rest, after).ok_or(if before.is_empty() { end } else { from })?;
    let is_word = digits.iter().all(|digit| !digit.is_ascii_digit()) || digits.len() < 3;
    let is_last = after.is_empty();
    let is_other = match rest {
        [next, ..] if is_last && !ends_word(next) => true,
        _ if is_last => marked.is_some() && rest.trim_ascii_start().starts_with(b"0x"),
        [next, _, _, _, behind, ..] => !is_blank(next) && is_blank(behind),
        _ => false,
    };
    if bytes == Bytes::Keyed && digits.len() < 8 {
        return Err(from);
    }
    if is_word && marked.is_none() || is_other || !(1..=16).contains(&digits.len()) {
        return Err(end);
    }
    Ok(Front {
        digits,
        column,
        from: line.len().saturating_sub(rest.len()),
        bytes,
        is_blank: is_last,
        is_logged: after.starts_with(":K:"),
    })
}

/// Whether an address may end before a byte.
pub(crate) fn ends_word(next: &u8) -> bool {
    next.is_ascii_whitespace() || MARKS.contains(next)
}

/// What comes in a text after some parts, of which the first begins it and any characters come
/// before each other.
fn rest_behind<'a>(text: &'a [u8], parts: &str) -> Option<&'a [u8]> {
    let mut rest = text;
    for (at, part) in parts.split("~").enumerate() {
        let mut places = rest.windows(part.len().max(1));
        let skipped = if at == 0 {
            0
        } else {
            places.position(|it| it == part.as_bytes())?
        };
        rest = rest.get(skipped..)?.strip_prefix(part.as_bytes())?;
    }
    Some(rest)
}
