//! The unit tests of the library crates: their public calls over worked cases, decks, and readers
//! and writers that fail too.
//!
//! They stand in a crate of their own so that each crate is proved once, and not a second time with
//! its tests. A test is a row of a table that small functions judge: each holds one value that has
//! to be let go, and answers with a `bool`. That keeps the proofs short.
#![tactic(auto)]

#[cfg(test)]
mod ccw;
#[cfg(test)]
mod ckd;
#[cfg(test)]
mod deck;
#[cfg(test)]
mod growing;
#[cfg(test)]
mod run;
#[cfg(test)]
mod shared;
#[cfg(test)]
mod walk;
