//! The reachable places of a program.

ghost use Rattle.std.specs.Prelude.{◌≡◌, ℕ, ◌<◌, ◌↔◌, length, slice_get, IfOk, OnErr};
ghost use Rattle.std.specs.Int.{bit_at};
ghost use Rattle.std.specs.Iterator.{YieldsFirst, item_count};
ghost use Rattle.chan_walk.specs.Marks.{HasWay, ListsMarks};

use crate::marks::{bits_at, push_ways};
use crate::place::Place;
use crate::walk_error::WalkError;
use std::alloc::Global;
use std::collections::BTreeMap;
use std::marker::Model;

/// The reachable places of a program, each once, in order: those that it can come to in the initial
/// storage. It borrows nothing from the job.
#[derive(Drop)]
pub struct Explored {
    /// For each address the ways in which it is entered, a bit for each.
    marks: BTreeMap<u32, u8>,
    /// The same places, written out.
    places: Vec<Place>,
}

impl Model for Explored {
    ghost use Rattle.std.specs.Prelude.{List};
    ghost use Rattle.chan_walk.specs.declared.place.Place.{Place};
    ghost use Rattle.chan_walk.specs.Marks.{ListsMarks};

    ghost Value = { List Place };

    ghost view = { λ e. e.places.items };

    ghost invariant = { λ e. ListsMarks e.marks e.places.items };
}

impl Explored {
    /// How many places there are.
    pub fn len(&self) -> usize
        ensures { result ≡ length self.now }
    {
        self.places.len()
    }

    /// The place of this index in the order, counted from 0; `None` from `len` on. The cost is the
    /// same for each.
    pub fn place(&self, index: usize) -> Option<Place>
        ensures { result ≡ slice_get self.now index }
    {
        self.places.get(index).copied()
    }

    /// The ways in which the CCW at an address is entered: bit 2 * `e` + `t` is on if there is a
    /// place with that address whose entry is number `e` in the order of `Entry`, counted from 0,
    /// and which counts as reached by a transfer in channel, `t` = 1, or doesn't, `t` = 0. It is 0
    /// if no place has the address.
    ///
    /// The cost is the logarithm of the number of places.
    pub fn marks_at(&self, address: u32) -> u8
        ensures ways { (w : ℕ) → w < 8 → (bit_at result w ≡ 1) ↔ HasWay self.now address w }
        ensures small { result < 256 }
    {
        bits_at(&self.marks, address)
    }

    /// The places, each once, in order.
    pub fn places(&self) -> Places<'_>
        ensures { result ≡ self.now }
    {
        Places { rest: &self.places }
    }

    /// The places as a slice.
    pub(crate) fn as_slice(&self) -> &[Place]
        ensures { result.now ≡ self.now }
    {
        self.places.as_slice()
    }

    /// The marked places, written out in order.
    pub(crate) fn from_marks(alloc: Global, marks: BTreeMap<u32, u8>) -> Result<Explored, WalkError>
        ensures ok { IfOk result (λ places. ListsMarks marks places) }
        ensures memory { OnErr result (result ≡ Err WalkError.Memory) }
    {
        let mut places = Vec::new(alloc);
        for (address, bits) in &marks {
            push_ways(&mut places, *address, *bits)?;
        }
        Ok(Explored { marks, places })
    }
}

/// The places of an `Explored`, in order.
#[derive(Clone, Drop)]
pub struct Places<'a> {
    rest: &'a [Place],
}

impl<'a> Model for Places<'a> {
    ghost use Rattle.std.specs.Prelude.{List};
    ghost use Rattle.chan_walk.specs.declared.place.Place.{Place};

    ghost Value = { List Place };

    ghost view = { λ p. p.rest.now };
}

impl<'a> Iterator for Places<'a> {
    type Item = Place;

    ghost next_gives = { YieldsFirst (λ s. s) };

    ghost remaining = { item_count (λ s. s) };

    fn next(&mut self) -> Option<Place> {
        let (first, rest) = self.rest.split_first()?;
        self.rest = rest;
        Some(*first)
    }
}
