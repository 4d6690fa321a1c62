//! Bytes of storage that an image doesn't hold though its program takes them. Tests hold the texts.

use crate::verdict_line::Range;
use ccw_core::Area;
use chan_walk::Look;
use std::alloc::{AllocError, Global};
use std::fmt::Write as _;

/// How many CCWs the notes name.
const MOST: usize = 100;

/// Which bytes of storage an image holds.
#[derive(Clone, Copy)]
pub struct ImageBytes<'a> {
    /// The area that was read.
    pub area: Area,
    /// The gaps of the dump in this area, in order.
    pub gaps: &'a [Area],
}

impl ImageBytes<'_> {
    /// Where the byte at an address is, if the image doesn't hold it.
    pub(crate) fn lack_at(&self, address: u32) -> Option<&'static str> {
        if !has_byte(self.area, address) {
            return Some("outside the image");
        }
        let behind = self.gaps.partition_point(|gap| gap.start <= address);
        let gap = self.gaps.get(behind.checked_sub(1)?)?;
        has_byte(*gap, address).then_some("in a gap of the dump")
    }
}

/// Whether an area has the byte at an address.
fn has_byte(area: Area, address: u32) -> bool {
    address
        .checked_sub(area.start)
        .is_some_and(|offset| offset < area.len)
}

/// The notes on the arguments of seeks and Set File Masks that an image doesn't hold.
#[derive(Drop)]
pub struct UnreadNotes {
    text: String,
    /// The CCWs that the text names.
    takers: Vec<u32>,
    are_more: bool,
}

impl UnreadNotes {
    pub fn new(alloc: Global) -> UnreadNotes {
        UnreadNotes {
            text: String::new(alloc),
            takers: Vec::new(alloc),
            are_more: false,
        }
    }

    /// Adds the notes on what the CCWs of a program take, each CCW once. An error means that an
    /// allocation failed.
    pub fn add(&mut self, looks: &[Look], image: &ImageBytes<'_>) -> Result<(), AllocError> {
        for look in looks {
            let taker = look.place().address;
            let is_lacking = |address: &u32| image.lack_at(*address).is_some();
            if look.argument().iter().any(is_lacking) && !self.takers.contains(&taker) {
                if self.takers.len() < MOST {
                    self.takers.push(taker)?;
                    push_lacking(&mut self.text, taker, look.argument(), image)?;
                } else {
                    self.are_more = true;
                }
            }
        }
        Ok(())
    }

    /// The notes, each in a line. An error means that an allocation failed.
    pub fn into_text(self) -> Result<String, AllocError> {
        let mut text = self.text;
        if self.are_more {
            text.push_str("note: further CCWs take bytes that the image doesn't hold\n")?;
        }
        Ok(text)
    }
}

/// Adds a note for each run of addresses at which a CCW takes bytes that an image doesn't hold.
fn push_lacking(
    out: &mut String,
    taker: u32,
    addresses: &[u32],
    image: &ImageBytes<'_>,
) -> Result<(), AllocError> {
    let mut run: Option<(Area, &'static str)> = None;
    for address in addresses {
        let lack = image.lack_at(*address);
        match run {
            Some((area, whence)) if lack == Some(whence) && follows(area, *address) => {
                let len = area.len.saturating_add(1);
                run = Some((Area { len, ..area }, whence));
            }
            _ => {
                push_run(out, taker, run)?;
                run = lack.map(|lack| (
                    Area {
                        start: *address,
                        len: 1,
                    },
                    lack,
                ));
            }
        }
    }
    push_run(out, taker, run)
}

/// Whether an address is the next after an area.
fn follows(area: Area, address: u32) -> bool {
    area.start.checked_add(area.len) == Some(address)
}

/// Adds the note on a run of bytes, if there is one.
fn push_run(
    out: &mut String,
    taker: u32,
    run: Option<(Area, &'static str)>,
) -> Result<(), AllocError> {
    let Some((area, lack)) = run else {
        return Ok(());
    };
    let range = Range(area);
    write!(
        out,
        "note: {range}, which {taker:06X} takes, lies {lack}, so it is zero here\n"
    )
}
