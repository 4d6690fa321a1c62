//! The tests of `chan_run`.

mod decks;
mod devices;
mod image;
mod one_ccw;
mod outcomes;
mod statuses;
mod word;
