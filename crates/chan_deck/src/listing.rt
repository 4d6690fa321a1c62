//! The listing of the places that a program can come to.

ghost use Rattle.std.specs.Prelude.{◌≡◌, ◌↔◌, ◌++◌, codes, false, true, option_map, string_bytes};
ghost use Rattle.std.specs.Prelude.{IfOk, IsErrOf, OnOk};
ghost use Rattle.ckd_core.specs.Entries.{entry_of};
ghost use Rattle.std.specs.Io.KnownBytes.{Appends};
ghost use Rattle.ccw_core.specs.Written.{AppendsPrefix};
ghost use Rattle.ccw_core.specs.Storage.{ccw_at};
ghost use Rattle.chan_deck.specs.Listing as list;
ghost use Rattle.chan_walk.specs.Job.{storage_of};

use crate::verdict_line::{push_address, verdict_text};
use ccw_core::{Ccw, DeviceFault, Text, Watched, write_out};
use chan_walk::{Entry, Explored, Job, Look, Place, Verdict};
use ckd_core::{Command, lookup};
use std::alloc::{AllocError, Global};
use std::io::Write;
use thiserror::Error;

/// Why a listing was not written whole.
#[derive(Clone, Copy, PartialEq, Eq, Debug, Error)]
pub enum ListError {
    /// A write failed.
    #[error("write failed")]
    Write,
    /// An allocation was refused.
    #[error("out of memory")]
    Memory,
}

impl From<AllocError> for ListError {
    ghost use Rattle.std.specs.Prelude.{◌≡◌};
    ghost use Rattle.chan_deck.specs.declared.listing.ListError.TheVariants.{Memory};

    ghost from_gives = { λ _ e. e ≡ Memory };

    fn from(_error: AllocError) -> ListError {
        ListError::Memory
    }
}

impl From<DeviceFault> for ListError {
    ghost use Rattle.std.specs.Prelude.{◌≡◌};
    ghost use Rattle.chan_deck.specs.declared.listing.ListError.TheVariants.{Write};

    ghost from_gives = { λ _ e. e ≡ Write };

    fn from(_fault: DeviceFault) -> ListError {
        ListError::Write
    }
}

/// How a CCW is entered.
pub(crate) fn way_word(entered: Entry) -> &'static str
    ensures { result.now ≡ list.way_word entered }
{
    match entered {
        Entry::Fresh => "fresh",
        Entry::ChainIn => "in",
        Entry::ChainOut => "out",
        Entry::ChainSearch => "search",
    }
}

/// Whether a place counts as reached by a transfer in channel.
pub(crate) fn transfer_word(after_transfer: bool) -> &'static str
    ensures { result.now ≡ list.transfer_word after_transfer }
{
    if after_transfer { "t" } else { "-" }
}

/// What stands in a row between the way of entry and the CCW: whether a transfer led there, and
/// whether the row is marked, with the blanks around.
fn marks_between(after_transfer: bool, marked: bool) -> &'static str
    ensures { result.now ≡ codes " " ++ list.transfer_word after_transfer ++ codes " "
        ++ list.mark_word marked ++ codes " " }
{
    match (after_transfer, marked) {
        (true, true) => " t * ",
        (true, false) => " t . ",
        (false, true) => " - * ",
        (false, false) => " - . ",
    }
}

/// What a CCW is to the operation: a transfer, a part of a data chain, or this command.
pub(crate) fn name_of(entered: Entry, ccw: &Ccw, command: Option<Command>) -> &'static str
    ensures { result.now ≡ list.operation_name entered ccw.now (option_map entry_of command) }
{
    if ccw.is_transfer() {
        return "transfer-in-channel";
    }
    if entered != Entry::Fresh {
        return "chained";
    }
    match command {
        Some(command) => command.name(),
        None => "unknown",
    }
}

/// Adds the CCW at a place and its name to a text, or `no-ccw` where none stands.
fn push_word<T: Text>(
    out: &mut T,
    entered: Entry,
    ccw: Option<Ccw>,
    command: Option<Command>,
) -> Result<(), AllocError>
    ensures { OnOk result (T.written out.new
        ≡ T.written out.old ++ list.word_text entered ccw (option_map entry_of command)) }
{
    let Some(ccw) = ccw else {
        return out.add_word("no-ccw");
    };
    ccw.push_text(out)?;
    out.add_word(" ")?;
    out.add_word(name_of(entered, &ccw, command))
}

/// The text of a CCW and the name of the command that begins there, as a row of a listing has them,
/// with a line feed. An error means that an allocation failed.
pub fn ccw_line(alloc: Global, ccw: Ccw) -> Result<String, AllocError>
    ensures { IfOk result (λ t. string_bytes t ≡ list.ccw_line ccw) }
{
    let mut line = String::new(alloc);
    let command = lookup(ccw.command());
    push_word(&mut line, Entry::Fresh, Some(ccw), command)?;
    line.push('\n')?;
    Ok(line)
}

/// Adds the row of a place to a text without its line feed, given the CCW that stands there and the
/// command of its code.
pub(crate) fn push_words<T: Text>(
    out: &mut T,
    place: Place,
    ccw: Option<Ccw>,
    command: Option<Command>,
    marked: bool,
) -> Result<(), AllocError>
    ensures { OnOk result (T.written out.new
        ≡ T.written out.old ++ list.row_words place ccw (option_map entry_of command) marked) }
{
    push_address(out, place.address)?;
    out.add_word(" ")?;
    out.add_word(way_word(place.entered))?;
    out.add_word(marks_between(place.after_transfer, marked))?;
    push_word(out, place.entered, ccw, command)
}

/// Adds the row of a place with its line feed in the same way.
fn push_row<T: Text>(
    out: &mut T,
    place: Place,
    ccw: Option<Ccw>,
    command: Option<Command>,
    marked: bool,
) -> Result<(), AllocError>
    ensures { OnOk result (T.written out.new
        ≡ T.written out.old ++ list.row_with place ccw (option_map entry_of command) marked) }
{
    push_words(out, place, ccw, command, marked)?;
    out.add_word("\n")
}

/// The CCW that stands at an address, and the command of its code.
pub(crate) fn standing_at(job: &Job, address: u32) -> (Option<Ccw>, Option<Command>)
    ensures ccw { result.0 ≡ ccw_at (storage_of job.now) address }
    ensures command { option_map entry_of result.1
        ≡ list.command_of (ccw_at (storage_of job.now) address) }
{
    match job.storage.ccw_at(address) {
        Some(ccw) => (Some(ccw), lookup(ccw.command())),
        None => (None, None),
    }
}

/// The row of a place, with its line feed: `address way transfer mark ccw name`. An error means
/// that an allocation failed.
///
/// The place may have any address and need not be one that the job's program can come to. The CCW
/// is the one in the job's storage; if there is none, because the address isn't a multiple of 8 or
/// leaves storage, `no-ccw` replaces it and its name.
pub fn row_text(alloc: Global, job: &Job, place: Place, marked: bool) -> Result<String, AllocError>
    ensures { IfOk result (λ t. string_bytes t ≡ list.row (storage_of job.now) place marked) }
{
    let (ccw, command) = standing_at(job, place.address);
    let mut row = String::new(alloc);
    push_row(&mut row, place, ccw, command, marked)?;
    Ok(row)
}

/// Whether a verdict names an address.
fn is_named(verdict: Verdict, address: u32) -> bool
    ensures { result ≡ list.is_named verdict address }
{
    match verdict {
        Verdict::Yes => false,
        Verdict::No { address: named, .. } => named == address,
    }
}

/// Writes the row of a place, marked where the verdict names its address.
fn write_row<W: Write>(
    alloc: Global,
    job: &Job,
    place: Place,
    verdict: Verdict,
    to: &mut Watched<W>,
) -> Result<(), ListError>
    requires { to.old.failed ≡ false }
    ensures ok { OnOk result (Appends (W.contents to.old.device) (W.contents to.new.device)
        (list.marked_row (storage_of job.now) verdict place)) }
    ensures prefix { AppendsPrefix (W.contents to.old.device) (W.contents to.new.device)
        (list.marked_row (storage_of job.now) verdict place) }
    ensures write { IsErrOf result ListError.Write ↔ (to.new.failed ≡ true) }
{
    let row = row_text(alloc, job, place, is_named(verdict, place.address))?;
    write_out(row.as_bytes(), to)?;
    Ok(())
}

/// Writes the row of each place in this way.
fn write_rows<W: Write>(
    alloc: Global,
    job: &Job,
    explored: &Explored,
    verdict: Verdict,
    to: &mut Watched<W>,
) -> Result<(), ListError>
    requires { to.old.failed ≡ false }
    ensures ok { OnOk result (Appends (W.contents to.old.device) (W.contents to.new.device)
        (list.rows (storage_of job.now) verdict explored.now)) }
    ensures prefix { AppendsPrefix (W.contents to.old.device) (W.contents to.new.device)
        (list.rows (storage_of job.now) verdict explored.now) }
    ensures write { IsErrOf result ListError.Write ↔ (to.new.failed ≡ true) }
{
    for place in explored.places() {
        write_row(alloc, job, place, verdict, to)?;
    }
    Ok(())
}

/// Writes a row for each of the places, in order, and then the line of the verdict. The rows whose
/// address the verdict names are marked.
///
/// Each row is written with one write: no text of the whole listing is held. `Write` comes exactly
/// if a write failed. After an error a prefix of the listing was written. The places and the
/// verdict are taken as the caller hands them in, whether or not they are the job's.
pub fn write_listing<W: Write>(
    alloc: Global,
    job: &Job,
    explored: &Explored,
    verdict: Verdict,
    to: &mut Watched<W>,
) -> Result<(), ListError>
    requires { to.old.failed ≡ false }
    ensures ok { OnOk result (Appends (W.contents to.old.device) (W.contents to.new.device)
        (list.listing (storage_of job.now) explored.now verdict)) }
    ensures prefix { AppendsPrefix (W.contents to.old.device) (W.contents to.new.device)
        (list.listing (storage_of job.now) explored.now verdict) }
    ensures write { IsErrOf result ListError.Write ↔ (to.new.failed ≡ true) }
{
    write_rows(alloc, job, explored, verdict, to)?;
    let line = verdict_text(alloc, verdict)?;
    write_out(line.as_bytes(), to)?;
    Ok(())
}

/// The listing of a job that was judged: a row for each of its reachable places, in order, and then
/// the line of its verdict, as `write_listing` writes them. Nothing is looked at again. An error
/// means that an allocation failed.
pub fn listing_text(alloc: Global, looks: &[Look], verdict: Verdict) -> Result<Vec<u8>, AllocError>
    ensures { IfOk result (λ t. t.items ≡ list.seen_listing looks.now verdict) }
{
    let mut text = Vec::new(alloc);
    for look in looks {
        push_look(&mut text, look, verdict)?;
    }
    text.extend_from_slice(verdict_text(alloc, verdict)?.as_bytes())?;
    Ok(text)
}

/// Adds the row of what a look showed, marked where the verdict names its address.
fn push_look(out: &mut Vec<u8>, look: &Look, verdict: Verdict) -> Result<(), AllocError>
    ensures { OnOk result (out.new.items ≡ out.old.items ++ list.seen_row verdict look.now) }
{
    let place = look.place();
    let marked = is_named(verdict, place.address);
    push_row(out, place, look.ccw(), look.command(), marked)
}
