//! The tests of `chan_walk`.

mod arguments;
mod explore;
mod guard;
mod needs;
mod program;
mod starts;
mod verdicts;
