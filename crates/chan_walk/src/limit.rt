//! How many places of a program may be reachable.

ghost use Rattle.std.specs.Prelude.{◌≡◌, ◌↔◌, IsSome, IfSome};
ghost use Rattle.chan_walk.specs.Limit.{IsLimit, usual_limit};

use std::marker::Model;

/// How many places a job may have within reach, at most: a number from 1 to 65,536.
#[derive(Clone, Copy, PartialEq, Eq)]
pub struct Limit {
    places: u32,
}

impl Model for Limit {
    ghost use Rattle.std.specs.Prelude.{ℕ};
    ghost use Rattle.chan_walk.specs.Limit.{IsLimit};

    ghost Value = { ℕ };

    ghost view = { λ l. l.places };

    ghost invariant = { λ l. IsLimit l.places };

    ghost inverse = { λ n. record { places = n } };
}

impl Limit {
    /// The limit of so many places: `None` exactly for 0 and above 65,536.
    pub fn new(places: u32) -> Option<Limit>
        ensures limit { IsSome result ↔ IsLimit places }
        ensures value { IfSome result (λ limit. limit ≡ places) }
    {
        if (1..=65_536).contains(&places) {
            Some(Limit { places })
        } else {
            None
        }
    }

    /// The limit of 4,096 places.
    pub fn usual() -> Limit
        ensures { result ≡ usual_limit }
    {
        Limit { places: 4096 }
    }

    /// How many places these are.
    pub fn get(&self) -> u32
        ensures value { result ≡ self.now }
        ensures limit { IsLimit result }
    {
        self.places
    }
}
