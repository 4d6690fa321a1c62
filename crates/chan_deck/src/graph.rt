//! The picture of a program, in Graphviz's language. It is proved that its title has the verdict,
//! and that its last line closes it; tests hold the rest.

ghost use Rattle.std.specs.Prelude.{◌≡◌, ◌++◌, codes, option_map, string_bytes, IfOk, OnOk};
ghost use Rattle.chan_deck.specs.Graph.{IsPictureOf, escaped, escaped_byte, titled};
ghost use Rattle.chan_deck.specs.VerdictLine.{verdict_words};
ghost use Rattle.chan_walk.specs.Offence.{first_verdict};
ghost use Rattle.chan_why.specs.Findings.{AreFindings};

use crate::because::push_evidence;
use crate::deed::{Shown, push_amount, push_reported};
use crate::explanation::push_setting;
use crate::listing::{name_of, transfer_word, way_word};
use crate::note_lines::notes_on;
use crate::picture_layout::{
    Arrow, Layout, MOST_ROWS, Row, Scene, arrow_to, arrows_to_boxes, boxes_behind, first_row,
    indices_at, is_left_out_of, layout_of, row_at, shown_of,
};
use crate::verdict_line::{Range, push_verdict};
use chan_walk::{
    Direction, Entry, Evidence, Job, Look, Offence, Place, Verdict, data_of, first_place,
};
use chan_why::{Findings, can_end};
use ckd_core::{Device, Kind};
use std::alloc::{AllocError, Global};
use std::fmt;
use std::fmt::Write as _;

/// Above so many boxes arrows have no labels, which Graphviz takes long to place.
const MOST_LABELLED: usize = 200;

/// How many extents the title names, and how many notes it has.
const MOST_EXTENTS: usize = 4;

const MOST_NOTES: usize = 8;

const STYLES: &str = "  node [shape=plain, fontname=\"monospace\", fontsize=10];
  edge [arrowsize=0.7, fontname=\"sans-serif\", fontsize=9];
  { rank=source; start [shape=plaintext, fontname=\"sans-serif\", margin=0.03]; }
";

/// A program that was judged, as it is drawn.
#[derive(Clone, Copy)]
pub(crate) struct Picture<'a> {
    /// The name of its deck in ASCII, which begins the title; none for standard input.
    name: Option<&'a str>,
    job: &'a Job<'a>,
    verdict: Verdict,
    /// The looks at its places, and its offences, as `Survey::into_parts` gives them.
    looks: &'a [Look],
    offences: &'a [Offence],
    /// The cause of each offence.
    causes: &'a [Evidence],
    /// The last place of the path to the verdict's place that stores over what stands there, as its
    /// witness tells.
    stored_over: Option<Place>,
    /// The notes on the job, a line each; lines that don't begin with `note: ` are left out.
    notes: &'a str,
}

/// A place as the name of its node.
#[derive(Clone, Copy)]
struct Node(Place);

impl fmt::Display for Node {
    fn fmt<W: fmt::Write>(&self, f: &mut fmt::Formatter<W>) -> fmt::Result {
        let address = self.0.address;
        let way = way_word(self.0.entered);
        let transfer = transfer_word(self.0.after_transfer);
        write!(f, "{address:06X} {way} {transfer}")
    }
}

/// A cell of a box: the row at an address, or the one that says how many rows are left out.
#[derive(Clone, Copy)]
enum Cell {
    Row(u32),
    LeftOut,
}

impl fmt::Display for Cell {
    fn fmt<W: fmt::Write>(&self, f: &mut fmt::Formatter<W>) -> fmt::Result {
        match self {
            Cell::Row(address) => write!(f, "row{address:06X}"),
            Cell::LeftOut => f.write_str("more"),
        }
    }
}

/// Where an arrow begins or ends: at a box, or at the right of a cell of it.
#[derive(Clone, Copy)]
struct End {
    node: Node,
    cell: Option<Cell>,
}

impl fmt::Display for End {
    fn fmt<W: fmt::Write>(&self, f: &mut fmt::Formatter<W>) -> fmt::Result {
        let node = self.node;
        match self.cell {
            Some(cell) => write!(f, "\"{node}\":{cell}:e"),
            None => write!(f, "\"{node}\""),
        }
    }
}

// ---- the title

/// Adds a byte of a name, with a backslash before a quote and a backslash.
fn push_escaped_byte(out: &mut String, byte: u8) -> Result<(), AllocError>
    ensures { OnOk result (string_bytes out.new ≡ string_bytes out.old ++ escaped_byte byte) }
{
    if byte == b'"' || byte == b'\\' {
        out.push('\\')?;
        return out.push(char::from(byte));
    }
    if byte < 128 {
        out.push(char::from(byte))
    } else {
        out.push('?')
    }
}

/// The start of the picture, as far as the verdict: its title begins with the name of the deck.
fn title_of(alloc: Global, name: Option<&str>, verdict: Verdict) -> Result<String, AllocError>
    ensures { IfOk result (λ text. string_bytes text
        ≡ codes "digraph program {\n  graph [label=\""
        ++ titled (option_map (λ n. n.now) name.entry) ++ verdict_words verdict) }
{
    let mut title = String::from_str(alloc, "digraph program {\n  graph [label=\"")?;
    if let Some(name) = name {
        push_name(&mut title, name.as_bytes())?;
    }
    push_verdict(&mut title, verdict)?;
    Ok(title)
}

/// Adds the name of a deck, a colon and a space.
fn push_name(out: &mut String, name: &[u8]) -> Result<(), AllocError>
    ensures { OnOk result (string_bytes out.new
        ≡ string_bytes out.old ++ (escaped name.now ++ codes ": ")) }
{
    for at in 0..name.len() {
        push_escaped_byte(out, name[at])?;
    }
    out.push_str(": ")
}

/// Adds the cylinders granted.
fn push_cylinders(out: &mut String, extents: &[(u16, u16)]) -> Result<(), AllocError> {
    out.push_str(", cylinders")?;
    let shown = shown_of(extents.len(), MOST_EXTENTS);
    for (k, (first, last)) in extents.iter().take(shown).enumerate() {
        let comma = if k == 0 { "" } else { "," };
        write!(out, "{comma} {first}-{last}")?;
    }
    let more = extents.len().saturating_sub(shown);
    if more > 0 {
        write!(out, " and {more} more")?;
    }
    Ok(())
}

/// Adds the notes, of many only the first.
fn push_notes(out: &mut String, notes: &str) -> Result<(), AllocError> {
    let is_note = |line: &&str| line.starts_with("note: ");
    let count = notes.lines().filter(is_note).count();
    let shown = shown_of(count, MOST_NOTES);
    for line in notes.lines().filter(is_note).take(shown) {
        write!(out, "\\n{line}")?;
    }
    let more = count.saturating_sub(shown);
    if more > 0 {
        write!(out, "\\n{more} more notes")?;
    }
    Ok(())
}

/// Adds the second line of the title: for whom the verdict is one; and the notes.
fn push_grants(out: &mut String, picture: &Picture) -> Result<(), AllocError> {
    let job = picture.job;
    let device = match job.device {
        Device::D2311 => "2311",
        Device::D2314 => "2314",
    };
    let (mask, size) = (job.mask.byte(), job.storage.len());
    write!(out, "{device}, mask {mask:02X}")?;
    push_cylinders(out, job.extents.pairs())?;
    let color = match picture.verdict {
        Verdict::Yes => "#006000",
        Verdict::No { .. } => "#B00000",
    };
    write!(out, ", storage {size:07X}")?;
    push_notes(out, picture.notes)?;
    write!(
        out,
        "\", labelloc=t, fontname=\"sans-serif\", fontsize=12,\n    \
         fontcolor=\"{color}\", ranksep=0.45, nodesep=0.4, newrank=true];\n"
    )
}

// ---- boxes

/// The name of what stands at a place, in two parts: for a CCW of a data chain also its way.
pub(crate) fn name_at(look: &Look) -> (&'static str, &'static str) {
    let entered = look.place().entered;
    match look.ccw() {
        None => ("no-ccw", ""),
        Some(ccw) if entered == Entry::Fresh || ccw.is_transfer() => {
            (name_of(entered, &ccw, look.command()), "")
        }
        Some(_) => ("chained, ", way_word(entered)),
    }
}

/// The name of what stands at a place, with what is set there.
fn name_text(alloc: Global, shown: &Shown, look: &Look) -> Result<String, AllocError> {
    let (name, way) = name_at(look);
    let mut text = format!(in alloc; "{name}{way}")?;
    let setting = shown.setting_of(look);
    if setting.is_some() {
        text.push(' ')?;
    }
    push_setting(&mut text, setting)?;
    Ok(text)
}

/// What a CCW does with its data range, if it has one.
pub(crate) fn verb_at(look: &Look) -> Option<&'static str> {
    let ccw = look.ccw()?;
    if ccw.is_transfer() || ccw.count() == 0 {
        return None;
    }
    if look.moves(Direction::Store) {
        return Some("stores");
    }
    if look.moves(Direction::Fetch) {
        return Some("fetches");
    }
    let reads = match look.command() {
        Some(command) => command.kind() == Kind::Inward,
        None => look.place().entered == Entry::ChainIn,
    };
    reads.then_some("skips")
}

/// A row as the picture has it; `width` is that of the longest name in its box.
fn drawn_row(alloc: Global, shown: &Shown, row: &Row, width: usize) -> Result<String, AllocError> {
    let address = row.look.place().address;
    let name = name_text(alloc, shown, row.look)?;
    let mut text = format!(in alloc; "{address:06X}  {name}")?;
    push_data(&mut text, shown, row.look, width.saturating_sub(name.len()))?;
    push_until_and_stored(&mut text, row)?;
    Ok(text)
}

/// Adds what a row does with which bytes of data, after so many blanks, if it moves data.
fn push_data(
    out: &mut String,
    shown: &Shown,
    look: &Look,
    blanks: usize,
) -> Result<(), AllocError> {
    if let (Some(verb), Some(ccw)) = (verb_at(look), look.ccw()) {
        for _ in 0..blanks {
            out.push(' ')?;
        }
        let range = Range(data_of(&ccw));
        write!(out, "  {verb:<7} {range},")?;
        push_amount(out, ccw)?;
        shown.push_compared(out, look)?;
    }
    push_reported(out, look)
}

/// Adds by which transfer a row is repeated until it is found, and which CCW stores over it.
fn push_until_and_stored(out: &mut String, row: &Row) -> Result<(), AllocError> {
    if let Some(transfer) = row.until {
        write!(out, "  until found (TIC at {transfer:06X})")?;
    }
    if let Some(address) = row.stored_by {
        write!(out, "  stored over by {address:06X}")?;
    }
    Ok(())
}

/// Adds a text as it stands in a table, where several blanks would else be one.
fn push_unbroken(out: &mut String, text: &str) -> Result<(), AllocError> {
    for character in text.chars() {
        if character == ' ' {
            out.push_str("&#160;")?;
        } else {
            out.push(character)?;
        }
    }
    Ok(())
}

/// Adds a line of a box. Arrows may lead to it if it is a cell of its own.
fn push_line(out: &mut String, cell: Option<Cell>, text: &str) -> Result<(), AllocError> {
    out.push_str("<tr><td align=\"left\"")?;
    if let Some(cell) = cell {
        write!(out, " port=\"{cell}\"")?;
    }
    out.push('>')?;
    push_unbroken(out, text)?;
    out.push_str("</td></tr>")
}

/// Adds the lines of the rows of a box.
fn push_rows(
    alloc: Global,
    out: &mut String,
    shown: &Shown,
    scene: Scene<'_>,
    rows: &[usize],
) -> Result<(), AllocError> {
    let mut width = 0;
    for at in rows {
        if let Some(look) = scene.looks.get(*at) {
            width = width.max(name_text(alloc, shown, look)?.len());
        }
    }
    for (k, at) in rows.iter().enumerate() {
        if is_left_out_of(rows.len(), k) {
            if k == MOST_ROWS / 2 {
                let more = rows.len().saturating_sub(MOST_ROWS);
                let text = format!(in alloc; "...     {more} more")?;
                push_line(out, Some(Cell::LeftOut), text.as_str())?;
            }
        } else if let Some(row) = row_at(scene, *at) {
            let cell = Cell::Row(row.look.place().address);
            let text = drawn_row(alloc, shown, &row, width)?;
            push_line(out, Some(cell), text.as_str())?;
        }
    }
    Ok(())
}

/// Adds the lines of a reason and its cause, which is broken in two where it goes on to something
/// else.
fn push_reason(
    alloc: Global,
    out: &mut String,
    offence: Offence,
    cause: Evidence,
) -> Result<(), AllocError> {
    let word = offence.reason.word();
    let reason = format!(in alloc; "{word}:")?;
    push_line(out, None, reason.as_str())?;
    let mut text = String::new(alloc);
    push_evidence(alloc, &mut text, cause)?;
    let cause = match (text.split_once(", over "), text.split_once(": ")) {
        (Some((data, over)), _) => format!(in alloc; "  {data},\n  over {over}")?,
        (None, Some((wrong, given))) => format!(in alloc; "  {wrong}:\n  {given}")?,
        (None, None) => format!(in alloc; "  {text}")?,
    };
    for line in cause.lines() {
        push_line(out, None, line)?;
    }
    Ok(())
}

/// The offences of a place, each with its cause.
fn offences_at(
    alloc: Global,
    picture: &Picture,
    place: Place,
) -> Result<Vec<(Offence, Evidence)>, AllocError> {
    let mut found = Vec::new(alloc);
    let (first, end) = indices_at(picture.offences, place.address);
    for at in first..end {
        match (picture.offences.get(at), picture.causes.get(at)) {
            (Some(offence), Some(cause)) if offence.place == place => {
                found.push((*offence, *cause))?;
            }
            _ => (),
        }
    }
    Ok(found)
}

/// Whether the verdict names one of the offences of a place.
fn is_named(verdict: Verdict, offences: &[(Offence, Evidence)]) -> bool {
    let Verdict::No { address, reason } = verdict else {
        return false;
    };
    let mut named = offences.iter();
    named.any(|(offence, _)| offence.place.address == address && offence.reason == reason)
}

/// Adds the box of some rows, of which this place is the first: a pink one if it offends, and then
/// it is alone; a yellow one if it is endless.
fn push_box(
    alloc: Global,
    out: &mut String,
    (picture, shown): (&Picture, &Shown),
    scene: Scene<'_>,
    place: Place,
    rows: &[usize],
    is_endless: bool,
) -> Result<(), AllocError> {
    let name = Node(place);
    let offences = offences_at(alloc, picture, place)?;
    let width = if is_named(picture.verdict, &offences) {
        2
    } else {
        1
    };
    let colors = if !offences.is_empty() {
        " color=\"#B00000\" bgcolor=\"#FFE9E9\""
    } else if is_endless {
        " bgcolor=\"#FFF6D5\""
    } else {
        ""
    };
    write!(
        out,
        "  \"{name}\" [label=<<table border=\"{width}\" cellborder=\"0\" cellspacing=\"0\" \
         cellpadding=\"1\"{colors}>"
    )?;
    push_rows(alloc, out, shown, scene, rows)?;
    if is_endless {
        push_line(out, None, "never ends by itself")?;
    }
    for (offence, cause) in &offences {
        push_reason(alloc, out, *offence, *cause)?;
    }
    out.push_str("</table>>];\n")
}

/// Adds the boxes, and a frame round those of one address.
fn push_boxes(
    alloc: Global,
    out: &mut String,
    (picture, shown): (&Picture, &Shown),
    scene: Scene<'_>,
    layout: &Layout,
    ends: &[bool],
) -> Result<(), AllocError> {
    let looks = scene.looks;
    let mut frame: Option<u32> = None;
    for (at, look) in looks.iter().enumerate() {
        if layout.head(at) != Some(at) {
            continue;
        }
        let place = look.place();
        if frame.is_some() && frame != Some(place.address) {
            out.push_str("  }\n")?;
            frame = None;
        }
        if frame.is_none() && layout.is_framed(at) {
            let address = place.address;
            write!(
                out,
                "  subgraph \"cluster_{address:06X}\" {{ label=\"\"; style=dashed; color=gray40;\n"
            )?;
            frame = Some(address);
        }
        let rows = layout.rows(alloc, at)?;
        let is_endless = ends.get(at).copied() == Some(false);
        push_box(
            alloc,
            out,
            (picture, shown),
            scene,
            place,
            &rows,
            is_endless,
        )?;
    }
    if frame.is_some() {
        out.push_str("  }\n")?;
    }
    Ok(())
}

// ---- arrows

/// The place whose node a row's box has.
fn node_of(looks: &[Look], layout: &Layout, at: usize) -> Option<Node> {
    let look = looks.get(layout.head(at)?)?;
    Some(Node(look.place()))
}

/// Where an arrow begins or ends that belongs to this row of a box.
fn row_of(looks: &[Look], layout: &Layout, at: usize) -> Option<End> {
    let cell = if layout.is_left_out(at) {
        Cell::LeftOut
    } else {
        Cell::Row(looks.get(at)?.place().address)
    };
    Some(End {
        node: node_of(looks, layout, at)?,
        cell: Some(cell),
    })
}

/// Where an arrow from one row to another begins and ends: in one box at the rows, and else at the
/// boxes, since it leads from the last row to the first. One that leads back ends at that row,
/// which is far from where the arrow comes to the box.
fn ends_of(looks: &[Look], layout: &Layout, from: usize, to: usize) -> Option<(End, End)> {
    let (from, to) = if layout.head(from) == layout.head(to) {
        (row_of(looks, layout, from)?, row_of(looks, layout, to)?)
    } else {
        let begin = End {
            node: node_of(looks, layout, from)?,
            cell: None,
        };
        let end = row_of(looks, layout, to)?;
        if to < from {
            (begin, end)
        } else {
            (begin, End { cell: None, ..end })
        }
    };
    Some((from, to))
}

/// Adds an arrow from a row to one that it doesn't lead to straight. One by status modifier is
/// dashed, and keeps its boxes in one column.
fn push_arrow(
    out: &mut String,
    picture: &Picture,
    layout: &Layout,
    at: usize,
    arrow: Option<Arrow>,
    is_found: bool,
) -> Result<(), AllocError> {
    let Some(arrow) = arrow.filter(|arrow| layout.head(arrow.to) == Some(arrow.to)) else {
        return Ok(());
    };
    let Some((from, to)) = ends_of(picture.looks, layout, at, arrow.to) else {
        return Ok(());
    };
    write!(out, "  {from} -> {to}")?;
    let is_labelled = layout.boxes <= MOST_LABELLED;
    let (style, comma) = if is_found {
        ("style=dashed, weight=8", ", ")
    } else {
        ("", "")
    };
    let found = if is_found && is_labelled {
        "if found"
    } else {
        ""
    };
    match arrow.through {
        Some(transfer) if is_labelled => {
            write!(
                out,
                " [{style}{comma}label=\" {found}{comma}TIC at {transfer:06X} \"];\n"
            )
        }
        _ if is_found => write!(out, " [{style}, label=\" {found} \"];\n"),
        _ => out.push_str(";\n"),
    }
}

/// The address of what a place stores over, if it is a CCW or an argument.
fn changed_at(cause: Evidence) -> Option<u32> {
    match cause {
        Evidence::ChangesCcw { ccw, .. } => Some(ccw),
        Evidence::ChangesArgument { taker, .. } => Some(taker),
        _ => None,
    }
}

/// Whether the boxes to which a row leads have no row at this address.
fn is_past(layout: &Layout, looks: &[Look], behind: &[usize], address: u32) -> bool {
    let first = looks.partition_point(|look| look.place().address < address);
    let end = looks.partition_point(|look| look.place().address <= address);
    let is_behind = |at| layout.head(at).is_some_and(|head| behind.contains(&head));
    !(first..end).any(is_behind)
}

/// Adds the red arrows from the row of a place to those of what it stores over, one to each.
/// `between` has the arrows that lead to boxes; none, if there are too many boxes.
fn push_changes(
    alloc: Global,
    out: &mut String,
    picture: &Picture,
    scene: Scene<'_>,
    layout: &Layout,
    between: &[(usize, usize)],
    at: usize,
) -> Result<(), AllocError> {
    let looks = scene.looks;
    let (Some(look), Some(from)) = (looks.get(at), row_of(looks, layout, at)) else {
        return Ok(());
    };
    let behind = boxes_behind(alloc, between, at)?;
    let mut last: Option<usize> = None;
    for (_, cause) in &offences_at(alloc, picture, look.place())? {
        let Some(address) = changed_at(*cause) else {
            continue;
        };
        let row = first_row(scene, address);
        if row == last {
            continue;
        }
        last = row;
        if let Some(to) = row.and_then(|at| row_of(looks, layout, at)) {
            let is_told = layout.boxes <= MOST_LABELLED;
            let whose = if is_told && is_past(layout, looks, &behind, address) {
                " for the next run"
            } else {
                ""
            };
            write!(
                out,
                "  {from} -> {to} [style=dotted, color=\"#B00000\", fontcolor=\"#B00000\", \
                 penwidth=1.5, constraint=false, label=\" stores over{whose} \"];\n"
            )?;
        }
    }
    Ok(())
}

/// Adds the arrows from each row, and that to the end of the program from a box at whose last row
/// it ends.
fn push_arrows(
    alloc: Global,
    out: &mut String,
    picture: &Picture,
    scene: Scene<'_>,
    layout: &Layout,
) -> Result<(), AllocError> {
    let looks = scene.looks;
    let mut between = Vec::new(alloc);
    if !picture.offences.is_empty() && layout.boxes <= MOST_LABELLED {
        between = arrows_to_boxes(alloc, scene, layout)?;
    }
    for at in 0..looks.len() {
        let (Some(row), Some(from)) = (row_at(scene, at), node_of(looks, layout, at)) else {
            continue;
        };
        push_arrow(out, picture, layout, at, row.next, false)?;
        push_arrow(out, picture, layout, at, row.skip, row.until.is_none())?;
        if row.next.is_none() && row.skip.is_none() && row.look.fault().is_none() {
            write!(
                out,
                "  \"end {from}\" [label=end, shape=plaintext, fontname=\"sans-serif\", \
                 margin=0.03];\n  \"{from}\" -> \"end {from}\";\n"
            )?;
        }
        push_changes(alloc, out, picture, scene, layout, &between, at)?;
    }
    Ok(())
}

/// The picture of what was found of a program, in Graphviz's language. An error means that an
/// allocation failed.
///
/// CCWs stand in boxes, a row each; those behind each other to which no other way leads share one.
/// A transfer in channel is a label on the arrow through it, unless something is stored over it. A
/// place that offends is alone in a pink box, with its reasons and their causes; after a yes, boxes
/// from which the program never ends by itself are yellow. A dashed arrow is taken if a search
/// finds, and a dotted one leads from a row to the row that it stores over; it says so if only the
/// next run would come to that row.
pub fn graph_text(
    alloc: Global,
    name: Option<&str>,
    findings: Findings,
) -> Result<String, AllocError>
    requires { AreFindings findings }
    ensures { IfOk result (λ text. IsPictureOf (option_map (λ n. n.now) name.entry)
        (first_verdict findings.entry.survey.offences) (string_bytes text)) }
{
    let notes = notes_on(alloc, &findings)?;
    let Findings {
        job,
        survey,
        witness,
        evidence,
        ..
    } = findings;
    let verdict = survey.verdict();
    let (looks, offences) = survey.into_parts()?;
    let picture = Picture {
        name,
        job,
        verdict,
        looks: &looks,
        offences: &offences,
        causes: &evidence,
        stored_over: witness.stored_over,
        notes: notes.as_str(),
    };
    picture_text(alloc, &picture)
}

/// The text of a picture.
fn picture_text(alloc: Global, picture: &Picture) -> Result<String, AllocError>
    ensures { IfOk result (λ text. IsPictureOf (option_map (λ n. n.now) picture.now.name)
        picture.now.verdict (string_bytes text)) }
{
    let mut text = title_of(alloc, picture.name, picture.verdict)?;
    text.push_str("\\n")?;
    let body = body_of(alloc, picture)?;
    text.push_str(body.as_str())?;
    text.push_str("}\n")?;
    Ok(text)
}

/// Notes that the CCWs at some addresses are stored over, unless that is noted already.
fn note_stores(stored_by: &mut [Option<u32>], looks: &[Look], from: u32, to: u64, by: u32) {
    let first = looks.partition_point(|look| look.place().address < from);
    for at in first..looks.len().min(stored_by.len()) {
        if u64::from(looks[at].place().address) >= to {
            return;
        }
        stored_by[at] = stored_by[at].or(Some(by));
    }
}

/// For each place the address of the CCW that stores over its own and so offends; for the verdict's
/// place of the CCW that stores over what stands there.
fn stores_over(alloc: Global, picture: &Picture) -> Result<Vec<Option<u32>>, AllocError> {
    let looks = picture.looks;
    let mut stored_by = Vec::new(alloc);
    stored_by.resize(looks.len(), None)?;
    if let (Verdict::No { address, .. }, Some(by)) = (picture.verdict, picture.stored_over) {
        let to = u64::from(address).saturating_add(1);
        note_stores(&mut stored_by, looks, address, to, by.address);
    }
    for (offence, cause) in picture.offences.iter().zip(picture.causes) {
        if let Evidence::ChangesCcw { data, .. } = cause {
            let to = u64::from(data.start).saturating_add(u64::from(data.len));
            let by = offence.place.address;
            note_stores(&mut stored_by, looks, data.start.saturating_sub(7), to, by);
        }
    }
    Ok(stored_by)
}

/// All that stands between the verdict in the title and the last line.
fn body_of(alloc: Global, picture: &Picture) -> Result<String, AllocError> {
    let first = first_place(picture.job);
    let shown = Shown::new(alloc, picture.job, picture.looks)?;
    let stored_by = stores_over(alloc, picture)?;
    let scene = Scene {
        looks: picture.looks,
        stored_by: &stored_by,
    };
    let layout = layout_of(alloc, first, scene, picture.offences)?;
    let ends = match picture.verdict {
        Verdict::Yes => can_end(alloc, picture.looks)?,
        Verdict::No { .. } => Vec::new(alloc),
    };
    let mut out = String::new(alloc);
    push_grants(&mut out, picture)?;
    out.push_str(STYLES)?;
    push_boxes(alloc, &mut out, (picture, &shown), scene, &layout, &ends)?;
    let arrow = arrow_to(scene, Some(first));
    if let Some(first) = arrow.and_then(|arrow| node_of(scene.looks, &layout, arrow.to)) {
        write!(out, "  start -> \"{first}\";\n")?;
    }
    push_arrows(alloc, &mut out, picture, scene, &layout)?;
    Ok(out)
}
