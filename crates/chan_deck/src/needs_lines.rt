//! What a program needs as text.

ghost use Rattle.std.specs.Prelude.{◌≡◌, [], ◌∷◌, ◌++◌, map, IfOk, OnOk};
ghost use Rattle.std.specs.List.{AllByRecursion};
ghost use Rattle.ckd_core.specs.Extents.{IsExtent};
ghost use Rattle.chan_needs.specs.Listed.{listed, pair};
ghost use Rattle.chan_deck.specs.Item.{text};
ghost use Rattle.chan_deck.specs.Needs as texts;

use crate::deck_digits::area_digits;
use crate::item::Item;
use crate::writing::{write_extents, write_fetch, write_store};
use ccw_core::{Area, STORAGE_LIMIT};
use chan_needs::{Needs, pairs_of};
use std::alloc::{AllocError, Global};

/// All of the largest storage, as two areas: six digits aren't enough for its length.
const HALVES: [Area; 2] = [
    Area {
        start: 0,
        len: 0xFF_FFFF,
    },
    Area {
        start: 0xFF_FFFF,
        len: 1,
    },
];

/// Adds an area of storage in six digits.
fn push_area(areas: &mut Vec<Area>, area: Area) -> Result<(), AllocError>
    ensures { OnOk result (areas.new.items ≡ areas.old.items ++ texts.six_digit_parts area) }
{
    if area.len == STORAGE_LIMIT {
        return areas.extend_from_slice(&HALVES);
    }
    areas.push(area)?;
    Ok(())
}

/// Areas of storage in six digits: an area of 1000000 bytes, which is all that storage can have,
/// becomes two.
pub fn in_six_digits(alloc: Global, areas: &[Area]) -> Result<Vec<Area>, AllocError>
    ensures { IfOk result (λ v. v.items ≡ texts.in_six_digits areas.now) }
{
    let mut parts = Vec::new(alloc);
    for area in areas {
        push_area(&mut parts, *area)?;
    }
    Ok(parts)
}

/// The line of an area that is kept.
fn write_keep(out: &mut Vec<u8>, area: Area) -> Result<(), AllocError>
    ensures { OnOk result (out.new.items ≡ out.old.items ++ (texts.keep_line area ++ 10 ∷ [])) }
{
    out.extend_from_slice(b"keep ")?;
    out.extend_from_slice(&area_digits(area))?;
    out.extend_from_slice(b"\n")
}

/// A line for each area that is kept.
fn write_kept(out: &mut Vec<u8>, areas: &[Area]) -> Result<(), AllocError>
    ensures { OnOk result (out.new.items ≡ out.old.items ++ text (map texts.keep_line areas.now)) }
{
    for area in areas {
        write_keep(out, *area)?;
    }
    Ok(())
}

/// The needs of a program as text: in a deck's grammar the lines `mask`, `extent`, `fetch` and
/// `store` of a job that grants just these, and a line `keep` for each area that is kept. An error
/// means that an allocation failed.
pub fn needs_text(alloc: Global, needs: &Needs) -> Result<Vec<u8>, AllocError>
    requires { AllByRecursion IsExtent (map pair needs.now.extents.items) }
    ensures { IfOk result (λ text. text.items ≡ texts.needs_text (listed needs.now)) }
{
    let extents = pairs_of(alloc, &needs.extents)?;
    let fetch = in_six_digits(alloc, &needs.fetch)?;
    let store = in_six_digits(alloc, &needs.store)?;
    let keep = in_six_digits(alloc, &needs.keep)?;
    let mut text = Vec::new(alloc);
    Item::Mask(needs.mask.byte()).push(&mut text)?;
    write_extents(&mut text, &extents)?;
    write_fetch(&mut text, &fetch)?;
    write_store(&mut text, &store)?;
    write_kept(&mut text, &keep)?;
    Ok(text)
}
