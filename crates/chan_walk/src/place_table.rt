//! Where each place of a walk is found by its address.

ghost use Rattle.std.specs.Prelude.{◌≡◌, ◌<◌, ◌^◌, ◌++◌, ◌∷◌, List, [], length, IfOk, IfErr, OnOk};
ghost use Rattle.std.specs.Prelude.{Some};
ghost use Rattle.chan_walk.specs.Look.{places_of_looks};
ghost use Rattle.chan_walk.specs.PlaceTable as table;
ghost use Rattle.chan_walk.specs.PlaceTable.{FindsPlaces, IsIndexOf, ListsPlaces};
ghost use Rattle.chan_walk.specs.declared.place.Place as places;

use crate::look::Look;
use crate::place::Place;
use std::alloc::{AllocError, Global};

/// So many places are found without lists.
const FEW: usize = 16;

/// A table gets more lists once a place was compared with more places than this.
const LONG: usize = 64;

/// A table of so many lists gets no more: each then has the places of some eight doublewords.
const MOST: usize = 262_144;

/// 2 ^ 32 divided by the golden ratio, so that its multiples are spread evenly over 32 bits.
const GOLDEN: u32 = 0x9E37_79B1;

/// The places of a walk in the order in which they were found. The address of each tells in which
/// list it is, beside a few others. While the places are few, there is no list.
#[derive(Drop)]
pub(crate) struct PlaceTable {
    /// For each list one more than the index of the last place in it; 0 if it is empty.
    last: Vec<u32>,
    /// For each place one more than the index of the place before it in its list; 0 if there is
    /// none.
    before: Vec<u32>,
}

impl PlaceTable {
    /// The table of no places.
    pub(crate) fn new(alloc: Global) -> PlaceTable
        ensures { FindsPlaces result [] }
    {
        PlaceTable {
            last: Vec::new(alloc),
            before: Vec::new(alloc),
        }
    }

    /// Takes out all places, and makes so many lists for others.
    fn empty(&mut self, lists: usize) -> Result<(), AllocError>
        requires some { 0 < lists }
        requires few { lists < 2 ^ 32 }
        ensures { OnOk result (ListsPlaces self.new []) }
    {
        self.before.clear();
        self.last.clear();
        self.last.resize(lists, 0)?;
        Ok(())
    }

    /// The index of a place, if it is one of those looked at.
    pub(crate) fn index_of(&self, looks: &[Look], place: Place) -> Option<usize>
        requires { FindsPlaces self.now (places_of_looks looks.now) }
        ensures { IsIndexOf (places_of_looks looks.now) place result }
    {
        self.search(looks, place).ok()
    }

    /// The index of a place, if it is one of those looked at; otherwise how many of them it was
    /// compared with.
    pub(crate) fn search(&self, looks: &[Look], place: Place) -> Result<usize, usize>
        requires { FindsPlaces self.now (places_of_looks looks.now) }
        ensures found { IfOk result
            (λ index. IsIndexOf (places_of_looks looks.now) place (Some index)) }
        ensures none { IfErr result (λ _. IsIndexOf (places_of_looks looks.now) place None) }
    {
        if self.last.is_empty() {
            return index_among(looks, place).ok_or(0);
        }
        let mut compared = 0;
        let mut end = self.last[list_of(place.address, self.last.len())] as usize;
        while end > 0 {
            let index = end - 1;
            if looks[index].place().number() == place.number() {
                return Ok(index);
            }
            end = self.before[index] as usize;
            compared += 1;
        }
        Err(compared)
    }

    /// Adds a place after those looked at, given how many of them `search` compared it with.
    pub(crate) fn push(
        &mut self,
        looks: &[Look],
        place: Place,
        compared: usize,
    ) -> Result<(), AllocError>
        requires finds { FindsPlaces self.old (places_of_looks looks.now) }
        requires few { length looks.now < 2 ^ 31 }
        ensures { OnOk result (FindsPlaces self.new (places_of_looks looks.now ++ place ∷ [])) }
    {
        if self.last.is_empty() && looks.len() < FEW {
            return Ok(());
        }
        let is_full = looks.len() >= self.last.len() || compared > LONG;
        if is_full && self.last.len() < MOST {
            self.spread(looks)?;
        }
        self.add_last(place)
    }

    /// Adds a place after the others, as the last of its list.
    fn add_last(&mut self, place: Place) -> Result<(), AllocError>
        requires places { (ps : List places.Place) × ListsPlaces self.old ps }
        requires few { length self.old.before.items < 2 ^ 31 }
        ensures { OnOk result ((ps : List places.Place) → ListsPlaces self.old ps
            → ListsPlaces self.new (ps ++ place ∷ [])) }
    {
        let list = list_of(place.address, self.last.len());
        self.before.push(self.last[list])?;
        self.last[list] = self.before.len() as u32;
        Ok(())
    }

    /// Parts the places looked at among four times as many lists, or makes the first.
    fn spread(&mut self, looks: &[Look]) -> Result<(), AllocError>
        requires few { length self.old.last.items < MOST }
        requires places { length looks.now < 2 ^ 31 }
        ensures { OnOk result (ListsPlaces self.new (places_of_looks looks.now)) }
    {
        let lists = 4 * self.last.len().max(FEW);
        self.empty(lists)?;
        for look in looks {
            self.add_last(look.place())?;
        }
        Ok(())
    }
}

/// The index of a place among those looked at, if it is one of them. It is compared with each. It
/// isn't inlined, because most places of a long walk are found by lists.
#[inline(never)]
fn index_among(looks: &[Look], place: Place) -> Option<usize>
    ensures { IsIndexOf (places_of_looks looks.now) place result }
{
    let number = place.number();
    looks
        .iter()
        .position(|look| look.place().number() == number)
}

/// The list in which the places at an address are.
fn list_of(address: u32, lists: usize) -> usize
    requires some { 0 < lists }
    requires few { lists < 2 ^ 32 }
    ensures list { result ≡ table.list_of lists address }
    ensures within { result < lists }
{
    let mixed = (address / 8).wrapping_mul(GOLDEN);
    (u64::from(mixed) * lists as u64 / 0x1_0000_0000) as usize
}
