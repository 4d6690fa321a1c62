//! The lines of a text.

ghost use Rattle.std.specs.Prelude.{◌≡◌, ◌+◌, ◌<◌, ◌==◌, ◌^◌, length, position};
ghost use Rattle.std.specs.Prelude.{IfSome, IfNone, [], ◌∷◌, ◌++◌};
ghost use Rattle.chan_deck.specs.Refused.{split};

use crate::cause::Cause;
use crate::deck_error::DeckError::{self, At};
use crate::item::{AREA_LINE, EXTENT_LINE, Item, PUT_LINE, field};

/// Where the next line feed is.
fn line_end(text: &[u8]) -> Option<usize>
    ensures place { result ≡ position (λ b. b == 10) text.now }
    ensures within { IfSome result (λ i. i < length text.now) }
{
    text.iter().position(|b| *b == b'\n')
}

/// The next whole line without its line feed, and what follows it.
pub(crate) fn next_line(text: &[u8]) -> Option<(&[u8], &[u8])>
    ensures some { IfSome result (λ x. split text.now
        ≡ (x.0.now ∷ (split x.1.now).0, (split x.1.now).1)) }
    ensures none { IfNone result (split text.now ≡ ([], text.now)) }
    ensures shorter { IfSome result (λ x. length x.0.now + length x.1.now < length text.now) }
{
    let end = line_end(text)?;
    let (line, rest) = text.split_at(end);
    let (_, rest) = rest.split_at(1);
    Some((line, rest))
}

/// The first line, if a line feed is where the lines of long lists have it. If the line says
/// something, no other line feed is in it.
#[inline(always)]
fn likely_line(text: &[u8]) -> Option<(&[u8], &[u8])>
    ensures { IfSome result (λ x. text.now ≡ x.0.now ++ 10 ∷ x.1.now) }
{
    if let Some(parts) = field(text, b"", PUT_LINE, b"\n") {
        return Some(parts);
    }
    if let Some(parts) = field(text, b"", AREA_LINE, b"\n") {
        return Some(parts);
    }
    field(text, b"", EXTENT_LINE, b"\n")
}

/// Where reading stands in a text.
#[derive(Drop)]
pub(crate) struct Cursor<'a> {
    /// What is left of the text.
    rest: &'a [u8],
    /// The number of the line that was read last, or 0.
    line: u64,
    ghost few: { line + length rest.now + 1 < 2 ^ 64 },
}

impl<'a> Cursor<'a> {
    ghost use Rattle.std.specs.Prelude.{ℕ, List, MatchResult};
    ghost use Rattle.chan_deck.specs.DeckValue.{DeckValue, Spells};
    ghost use Rattle.chan_deck.specs.Reading.{IsNextLine, IsDeckError, HasReadTo, Opening};
    ghost use Rattle.chan_deck.specs.Reading.{IsLessLeft};
    ghost use Rattle.chan_deck.specs.Reading.{Whole, refusal};
    ghost use Rattle.chan_deck.specs.declared.deck_error.DeckError.TheVariants as errors;

    /// A cursor at the start of a text.
    pub(crate) fn new(text: &'a [u8]) -> Cursor<'a>
        ensures { HasReadTo text.now Opening result }
    {
        Cursor {
            rest: text,
            line: 0,
        }
    }

    /// What the next line says. Inline, so that a loop over lines that owns its cursor keeps it in
    /// registers.
    #[inline(always)]
    pub(crate) fn next_item(&mut self) -> Item
        ensures next { IsNextLine self.old result self.new }
        ensures shorter { IsLessLeft (length self.old.rest.now) result
            (length self.new.rest.now) }
    {
        if let Some((line, rest)) = likely_line(self.rest) {
            match Item::read(line) {
                Item::Formless => {}
                item => {
                    self.rest = rest;
                    self.line += 1;
                    return item;
                }
            }
        }
        self.searched_item()
    }

    /// What the next line says, whose line feed is searched for.
    fn searched_item(&mut self) -> Item
        ensures next { IsNextLine self.old result self.new }
        ensures shorter { IsLessLeft (length self.old.rest.now) result
            (length self.new.rest.now) }
    {
        let Some((line, rest)) = next_line(self.rest) else {
            return Item::Missing;
        };
        self.rest = rest;
        self.line += 1;
        Item::read(line)
    }

    /// The refusal of the line that was read last; if no whole line was left, of the text's end.
    pub(crate) fn refused(&self, item: Item, cause: Cause) -> DeckError
        ensures { result ≡ refusal self.now.line item cause }
    {
        match item {
            Item::Missing => self.refused_next(Cause::Ended),
            _ => At {
                line: self.line,
                cause,
            },
        }
    }

    /// The refusal of the line after the one that was read last.
    fn refused_next(&self, cause: Cause) -> DeckError
        ensures { result ≡ errors.At (self.now.line + 1) cause }
    {
        At {
            line: self.line + 1,
            cause,
        }
    }

    /// Nothing follows the line that was read last, which ends a deck.
    pub(crate) fn end(&self) -> Result<(), DeckError>
        ensures { (t : List ℕ) (d : DeckValue) → HasReadTo t (Whole d) self.now
            → MatchResult result (λ done. Spells t d) (IsDeckError t) }
    {
        if self.rest.is_empty() {
            return Ok(());
        }
        Err(self.refused_next(Cause::After))
    }
}
