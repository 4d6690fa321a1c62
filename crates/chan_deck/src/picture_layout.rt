//! How a picture is laid out: which places have a row in it, which rows share a box, and where
//! arrows lead. It helps a person, so it isn't proved; tests compare it with the listing.

use chan_walk::{Look, Offence, Place};
use std::alloc::{AllocError, Global};

/// Of a box with many more rows than these only the first and the last half of so many are drawn.
pub(crate) const MOST_ROWS: usize = 40;

/// How many of some are shown, if most are as many as this: all, if what says how many are left out
/// would take the room of the only one.
pub(crate) fn shown_of(count: usize, most: usize) -> usize {
    if count > most.saturating_add(1) {
        most
    } else {
        count
    }
}

/// Whether a row, numbered from zero, is left out of a box with so many.
pub(crate) fn is_left_out_of(length: usize, number: usize) -> bool {
    let first = MOST_ROWS / 2;
    shown_of(length, MOST_ROWS) < length && first <= number && number < length.saturating_sub(first)
}

/// The looks at the places of a program, in order, and for each the address of the CCW that is said
/// to store over its CCW.
#[derive(Clone, Copy)]
pub(crate) struct Scene<'a> {
    pub(crate) looks: &'a [Look],
    pub(crate) stored_by: &'a [Option<u32>],
}

/// An arrow from one row to another. Rows have the index of their look.
#[derive(Clone, Copy)]
pub(crate) struct Arrow {
    pub(crate) to: usize,
    /// The address of the transfer in channel through which it leads.
    pub(crate) through: Option<u32>,
}

/// A row of a picture, with the arrows from it.
#[derive(Clone, Copy)]
pub(crate) struct Row<'a> {
    pub(crate) look: &'a Look,
    /// The address of the transfer that repeats this search until it finds; then it has no arrow
    /// for that.
    pub(crate) until: Option<u32>,
    pub(crate) next: Option<Arrow>,
    /// The arrow that status modifier takes.
    pub(crate) skip: Option<Arrow>,
    /// The address of the CCW that stores over this one.
    pub(crate) stored_by: Option<u32>,
}

/// Whether a transfer in channel stands at a place.
fn shows_transfer(look: &Look) -> bool {
    look.ccw().is_some_and(|ccw| ccw.is_transfer())
}

/// Whether a place is drawn as a label on arrows alone: a transfer without a fault is, unless
/// something is stored over it.
fn is_passage(scene: Scene<'_>, at: usize) -> bool {
    stored_at(scene, at).is_none()
        && scene
            .looks
            .get(at)
            .is_some_and(|look| shows_transfer(look) && look.fault().is_none())
}

/// The address of the CCW that stores over that of a look.
fn stored_at(scene: Scene<'_>, at: usize) -> Option<u32> {
    scene.stored_by.get(at).copied().flatten()
}

/// Whether two places differ only in whether a transfer leads there, which matters for a transfer
/// alone.
fn are_twins(one: &Look, other: &Look) -> bool {
    let (place, twin) = (one.place(), other.place());
    place.address == twin.address && place.entered == twin.entered && !shows_transfer(one)
}

/// The first of a place and its twin.
pub(crate) fn first_twin(looks: &[Look], at: usize) -> usize {
    let before = at.saturating_sub(1);
    match (looks.get(before), looks.get(at)) {
        (Some(one), Some(other)) if are_twins(one, other) => before,
        _ => at,
    }
}

/// The arrow to a place, if it was looked at.
pub(crate) fn arrow_to(scene: Scene<'_>, place: Option<Place>) -> Option<Arrow> {
    let looks = scene.looks;
    let at = look_index(looks, place?)?;
    let look = looks.get(at)?;
    if !is_passage(scene, at) {
        return Some(Arrow {
            to: first_twin(looks, at),
            through: None,
        });
    }
    let target = look_index(looks, look.next().next?)?;
    Some(Arrow {
        to: first_twin(looks, target),
        through: Some(look.place().address),
    })
}

/// The index of a place among those looked at, which are in order.
fn look_index(looks: &[Look], place: Place) -> Option<usize> {
    let number = place.number();
    let at = looks.partition_point(|look| look.place().number() < number);
    match looks.get(at) {
        Some(look) if look.place() == place => Some(at),
        _ => None,
    }
}

/// The row of a place, if it has one of its own.
pub(crate) fn row_at<'a>(scene: Scene<'a>, at: usize) -> Option<Row<'a>> {
    let look = scene.looks.get(at)?;
    if is_passage(scene, at) || first_twin(scene.looks, at) != at {
        return None;
    }
    let onward = look.next();
    let next = arrow_to(scene, onward.next);
    let skip = arrow_to(scene, onward.skip);
    let until = match (next, skip) {
        (Some(next), Some(_)) if next.to == at => next.through,
        _ => None,
    };
    Some(Row {
        look,
        until,
        next: next.filter(|_| until.is_none()),
        skip,
        stored_by: stored_at(scene, at),
    })
}

/// The first row at an address.
pub(crate) fn first_row(scene: Scene<'_>, address: u32) -> Option<usize> {
    let looks = scene.looks;
    let first = looks.partition_point(|look| look.place().address < address);
    let end = looks.partition_point(|look| look.place().address <= address);
    (first..end).find(|at| row_at(scene, *at).is_some())
}

/// The index of the first offence at an address, and that behind the last. Offences are in order of
/// addresses.
pub(crate) fn indices_at(offences: &[Offence], address: u32) -> (usize, usize) {
    let first = offences.partition_point(|offence| offence.place.address < address);
    let end = offences.partition_point(|offence| offence.place.address <= address);
    (first, end)
}

/// Whether a place offends.
fn offends(offences: &[Offence], place: Place) -> bool {
    let (first, end) = indices_at(offences, place.address);
    let found = offences.get(first..end);
    found.is_some_and(|found| found.iter().any(|offence| offence.place == place))
}

/// Which rows stand in which box.
#[derive(Drop)]
pub(crate) struct Layout {
    /// For each place with a row the row that begins its box.
    heads: Vec<Option<usize>>,
    /// For each place with a row the row's number in its box.
    numbers: Vec<usize>,
    /// For each row that begins a box how many rows the box has.
    lengths: Vec<usize>,
    /// For each place whether another row has its address, so that they are in one frame.
    framed: Vec<bool>,
    /// How many boxes there are.
    pub(crate) boxes: usize,
}

impl Layout {
    /// Adds a place, whose row stands in the box that begins with the row `head`.
    fn add(&mut self, at: usize, head: Option<usize>) -> Result<(), AllocError> {
        if head == Some(at) {
            self.boxes = self.boxes.saturating_add(1);
        }
        let mut number = 0;
        if let Some(length) = head.and_then(|head| self.lengths.get_mut(head)) {
            number = *length;
            *length = number.saturating_add(1);
        }
        self.heads.push(head)?;
        self.numbers.push(number)?;
        Ok(())
    }

    /// The row that begins the box of a row.
    pub(crate) fn head(&self, at: usize) -> Option<usize> {
        self.heads.get(at).copied().flatten()
    }

    /// Whether the row is left out of its box, which has too many.
    pub(crate) fn is_left_out(&self, at: usize) -> bool {
        let number = self.numbers.get(at).copied().unwrap_or(0);
        let length = self.head(at).and_then(|head| self.lengths.get(head));
        is_left_out_of(length.copied().unwrap_or(0), number)
    }

    /// Whether another row has the address of this one.
    pub(crate) fn is_framed(&self, at: usize) -> bool {
        self.framed.get(at).copied().unwrap_or(false)
    }

    /// The rows of the box that begins with this one.
    pub(crate) fn rows(&self, alloc: Global, at: usize) -> Result<Vec<usize>, AllocError> {
        let mut rows = Vec::new(alloc);
        for row in at..self.heads.len() {
            match self.head(row) {
                Some(head) if head == at => rows.push(row)?,
                Some(_) => return Ok(rows),
                None => (),
            }
        }
        Ok(rows)
    }
}

/// Counts an arrow for the row to which it leads.
fn count_arrow(ways: &mut Vec<u32>, arrow: Option<Arrow>) {
    if let Some(ways) = arrow.and_then(|arrow| ways.get_mut(arrow.to)) {
        *ways = ways.saturating_add(1);
    }
}

/// How many arrows lead to each row; one more leads to that of the first place.
fn ways_in(alloc: Global, first: Place, scene: Scene<'_>) -> Result<Vec<u32>, AllocError> {
    let mut ways = Vec::new(alloc);
    ways.resize(scene.looks.len(), 0)?;
    count_arrow(&mut ways, arrow_to(scene, Some(first)));
    for at in 0..scene.looks.len() {
        if let Some(row) = row_at(scene, at) {
            count_arrow(&mut ways, row.next);
            count_arrow(&mut ways, row.skip);
        }
    }
    Ok(ways)
}

/// For each place whether another row has its address.
fn framed_rows(alloc: Global, scene: Scene<'_>) -> Result<Vec<bool>, AllocError> {
    let mut framed = Vec::new(alloc);
    let mut last: Option<(usize, u32)> = None;
    for at in 0..scene.looks.len() {
        framed.push(false)?;
        let Some(row) = row_at(scene, at) else {
            continue;
        };
        let address = row.look.place().address;
        if let Some((before, other)) = last {
            if other == address && before < framed.len() && at < framed.len() {
                framed[before] = true;
                framed[at] = true;
            }
        }
        last = Some((at, address));
    }
    Ok(framed)
}

/// Whether a row goes on to this one alone, and directly.
fn leads_straight(row: &Row, to: usize) -> bool {
    match (row.next, row.skip) {
        (Some(arrow), None) | (None, Some(arrow)) => arrow.to == to && arrow.through.is_none(),
        _ => false,
    }
}

/// Lays out a program that begins at `first`.
pub(crate) fn layout_of(
    alloc: Global,
    first: Place,
    scene: Scene<'_>,
    offences: &[Offence],
) -> Result<Layout, AllocError> {
    let ways = ways_in(alloc, first, scene)?;
    let mut lengths = Vec::new(alloc);
    lengths.resize(scene.looks.len(), 0)?;
    let mut layout = Layout {
        heads: Vec::new(alloc),
        numbers: Vec::new(alloc),
        lengths,
        framed: framed_rows(alloc, scene)?,
        boxes: 0,
    };
    share_boxes(&mut layout, scene, ways.as_slice(), offences)?;
    Ok(layout)
}

/// Puts each row into a box. Two rows behind each other share a box if the first leads to the
/// second alone, nothing else leads there, neither offends, and no other row has the address of
/// either. `ways` has how many arrows lead to each row.
fn share_boxes(
    layout: &mut Layout,
    scene: Scene<'_>,
    ways: &[u32],
    offences: &[Offence],
) -> Result<(), AllocError> {
    // The row before, if more may join it, and the head of its box.
    let mut open: Option<(Row, usize)> = None;
    for at in 0..scene.looks.len() {
        let Some(row) = row_at(scene, at) else {
            layout.add(at, None)?;
            continue;
        };
        let is_alone = layout.is_framed(at) || offends(offences, row.look.place());
        let head = match open {
            Some((before, head))
                if !is_alone && leads_straight(&before, at) && ways.get(at).copied() == Some(1) => {
                head
            }
            _ => at,
        };
        layout.add(at, Some(head))?;
        open = if is_alone { None } else { Some((row, head)) };
    }
    Ok(())
}

/// The arrows that lead to boxes: of each the row that begins the box where it begins, in order,
/// and the row to which it leads.
pub(crate) fn arrows_to_boxes(
    alloc: Global,
    scene: Scene<'_>,
    layout: &Layout,
) -> Result<Vec<(usize, usize)>, AllocError> {
    let mut arrows = Vec::new(alloc);
    for at in 0..scene.looks.len() {
        let (Some(row), Some(head)) = (row_at(scene, at), layout.head(at)) else {
            continue;
        };
        for arrow in [row.next, row.skip] {
            if let Some(arrow) = arrow.filter(|arrow| layout.head(arrow.to) == Some(arrow.to)) {
                arrows.push((head, arrow.to))?;
            }
        }
    }
    Ok(arrows)
}

/// The rows that begin the boxes to which a box leads by one arrow or more.
pub(crate) fn boxes_behind(
    alloc: Global,
    arrows: &[(usize, usize)],
    head: usize,
) -> Result<Vec<usize>, AllocError> {
    let mut behind = Vec::new(alloc);
    push_behind(&mut behind, arrows, head)?;
    // each arrow adds one box at most
    for next in 0..arrows.len() {
        let Some(head) = behind.get(next).copied() else {
            return Ok(behind);
        };
        push_behind(&mut behind, arrows, head)?;
    }
    Ok(behind)
}

/// Adds the boxes to which a box leads by one arrow, unless they are there.
fn push_behind(
    behind: &mut Vec<usize>,
    arrows: &[(usize, usize)],
    head: usize,
) -> Result<(), AllocError> {
    let first = arrows.partition_point(|(from, _)| *from < head);
    let end = arrows.partition_point(|(from, _)| *from <= head);
    for (_, to) in arrows.get(first..end).unwrap_or(&[]) {
        if !behind.contains(to) {
            behind.push(*to)?;
        }
    }
    Ok(())
}
