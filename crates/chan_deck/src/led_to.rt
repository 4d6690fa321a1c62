//! Which places of a program others lead to.

use chan_walk::{Look, Place, Survey};
use std::alloc::{AllocError, Global};

/// For each look of a survey, whether some places lead to it by one step or more, if the looks that
/// `is_end` marks lead no further. Each look is followed once. An error means that an allocation
/// failed.
pub(crate) fn led_to(
    alloc: Global,
    survey: &Survey,
    from: &[Place],
    is_end: &[bool],
) -> Result<Vec<bool>, AllocError> {
    let looks = survey.looks();
    let mut is_led = Vec::new(alloc);
    is_led.resize(looks.len(), false)?;
    let mut left = Vec::new(alloc);
    for place in from {
        push_next(&mut left, survey, *place)?;
    }
    // each look that is led to adds two at most
    for _ in 0..=left.len().saturating_add(looks.len().saturating_mul(2)) {
        let Some(place) = left.pop() else {
            return Ok(is_led);
        };
        let index = survey.index_of(place).unwrap_or(looks.len());
        let Some(led) = is_led.get_mut(index) else {
            continue;
        };
        if !*led {
            *led = true;
            if is_end.get(index) != Some(&true) {
                push_next(&mut left, survey, place)?;
            }
        }
    }
    Ok(is_led)
}

/// Adds the places to which a place leads by one step.
fn push_next(left: &mut Vec<Place>, survey: &Survey, place: Place) -> Result<(), AllocError> {
    let index = survey.index_of(place).unwrap_or(survey.looks().len());
    let Some(look) = survey.looks().get(index) else {
        return Ok(());
    };
    let next = look.next();
    for place in [next.next, next.skip] {
        if let Some(place) = place {
            left.push(place)?;
        }
    }
    Ok(())
}
