//! The note on a command that a mask inhibits which the program itself sets.

use crate::led_to::led_to;
use chan_walk::{Look, Operand, Survey};
use ckd_core::FileMask;
use std::alloc::{AllocError, Global};
use std::fmt::Write as _;

/// The note on the first command that the program's own mask inhibits, if there is one: of each
/// mask that the program sets, the command of least address to which a run may come before another
/// mask is set. An error means that an allocation failed.
pub(crate) fn own_mask_note(alloc: Global, survey: &Survey) -> Result<String, AllocError> {
    let looks = survey.looks();
    let mut text = String::new(alloc);
    if !looks.iter().any(|look| mask_set(look).is_some()) {
        return Ok(text);
    }
    let mut is_end = Vec::new(alloc);
    for look in looks {
        is_end.push(mask_set(look).is_some())?;
    }
    for mask in (0..=255u8).filter_map(|byte| FileMask::new(byte)) {
        if let Some(address) = first_inhibited(alloc, survey, mask, is_end.as_slice())? {
            let byte = mask.byte();
            write!(
                text,
                "note: {address:06X} is a command that the program's own mask {byte:02X} inhibits: \
                 a run ends there\n"
            )?;
        }
    }
    Ok(text)
}

/// The least address of a command that a mask inhibits and to which a run may come after the
/// program has set that mask, if there is one.
fn first_inhibited(
    alloc: Global,
    survey: &Survey,
    mask: FileMask,
    is_end: &[bool],
) -> Result<Option<u32>, AllocError> {
    let mut from = Vec::new(alloc);
    for look in survey.looks() {
        if mask_set(look) == Some(mask.byte()) {
            from.push(look.place())?;
        }
    }
    let is_led = led_to(alloc, survey, from.as_slice(), is_end)?;
    let mut first = None;
    for (look, led) in survey.looks().iter().zip(is_led.iter()) {
        let is_inhibited = look.command().is_some_and(|command| mask.inhibits(command));
        let address = look.place().address;
        if *led && is_inhibited && first.is_none_or(|first| address < first) {
            first = Some(address);
        }
    }
    Ok(first)
}

/// The byte that Set File Mask sets if it begins at the place of a look.
fn mask_set(look: &Look) -> Option<u8> {
    match look.operand() {
        Operand::Mask { byte, .. } => Some(byte),
        _ => None,
    }
}
