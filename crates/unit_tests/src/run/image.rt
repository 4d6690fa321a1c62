//! Decks of images, over devices that fail.
//!
//! The decks that are made of images are seen from outside, in `tests/images.py`.

use crate::run::devices::Broken;
use crate::shared::{expect, paper_of};
use ccw_core::{Area, Watched};
use chan_args::{ImageOptions, RequestedJob};
use chan_run::{Failure, Outcome, make_deck};
use ckd_core::{Device, Extents, FileMask};
use std::alloc::{AllocError, Global};

/// A No Operation, after two bytes of the image.
const IMAGE: &[u8] = &[0, 0, 0x03, 0, 0, 0, 0, 0, 0, 1];

const DECK: &str = "chanv deck 1
device 2314
mask 00
start 000800
extent 010 019
fetch 000900 000010
storage 0000808
put 000800 0300000000000001
end
";

/// The same with the least job: the program may run anywhere, under the strictest mask.
const LEAST: &str = "chanv deck 1
device 2314
mask 58
start 000800
extent 000 202
storage 0000808
put 000800 0300000000000001
end
";

/// Two bytes before the program, for which 16 bytes are lent for fetching.
fn options(alloc: Global, job: RequestedJob) -> Option<ImageOptions> {
    let area = Area {
        start: 0x900,
        len: 0x10,
    };
    Some(ImageOptions {
        device: Device::D2314,
        mask: FileMask::new(0)?,
        start: 0x800,
        limit: None,
        extents: Extents::new(alloc, &[(10, 19)]).ok()?,
        fetch: vec![in alloc; area].ok()?,
        store: Vec::new(alloc),
        at: 0x7FE,
        gaps: Vec::new(alloc),
        size: None,
        job,
    })
}

/// What comes of an image: the outcome, what is written, and what is said.
#[derive(Clone, Copy)]
struct Made<'a> {
    outcome: Outcome,
    text: &'a [u8],
    said: &'a [u8],
}

/// Whether this comes of the image when a read fails, with the job that is said or with the least.
/// A write after the text fails.
fn is_made(alloc: Global, job: RequestedJob, failing: usize, made: &Made) -> bool {
    match options(alloc, job) {
        Some(options) => is_answered(alloc, &options, failing, made),
        None => false,
    }
}

fn is_answered(alloc: Global, options: &ImageOptions, failing: usize, made: &Made) -> bool {
    let mut from = Watched::new(Broken {
        rest: IMAGE,
        reads: 0,
        failing,
    });
    let mut to = Watched::new(paper_of(made.text));
    let mut errors = Watched::new(paper_of(made.said));
    let found = make_deck(
        alloc,
        Some("a.bin"),
        options,
        &mut from,
        &mut to,
        &mut errors,
    );
    let all_came = to.into_inner().left.is_empty() && errors.into_inner().left.is_empty();
    found == made.outcome && all_came
}

#[test]
fn each_read_of_an_image_failing_in_turn(rt: HostRuntime) {
    let refused = Made {
        outcome: Outcome::Failed(Failure::ReadFailed),
        text: &[],
        said: b"chanv: a.bin: read failed\n",
    };
    for failing in 0..IMAGE.len() + 1 {
        expect(
            &rt,
            is_made(rt.alloc(), RequestedJob::Named, failing, &refused),
            "read",
        );
    }
}

#[test]
fn each_write_of_a_deck_failing_in_turn(rt: HostRuntime) {
    let deck = DECK.as_bytes();
    for room in 0..deck.len() {
        let front = Made {
            outcome: Outcome::Failed(Failure::WriteFailed),
            text: &deck[..room],
            said: b"chanv: write failed\n",
        };
        expect(
            &rt,
            is_made(rt.alloc(), RequestedJob::Named, usize::MAX, &front),
            "write",
        );
    }
    let whole = Made {
        outcome: Outcome::Done,
        text: deck,
        said: &[],
    };
    expect(
        &rt,
        is_made(rt.alloc(), RequestedJob::Named, usize::MAX, &whole),
        "whole",
    );
}

/// What is granted beside the least job counts for nothing. The program refuses it before.
#[test]
fn the_least_job_beside_another(rt: HostRuntime) {
    let least = Made {
        outcome: Outcome::Done,
        text: LEAST.as_bytes(),
        said: &[],
    };
    expect(
        &rt,
        is_made(rt.alloc(), RequestedJob::Least, usize::MAX, &least),
        "least",
    );
}
