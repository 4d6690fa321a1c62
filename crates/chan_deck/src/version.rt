//! The versions of a deck.

ghost use Rattle.std.specs.Prelude.{◌≡◌};
ghost use Rattle.chan_deck.specs.DeckValue.{header_of, limit_of, version_number};

use chan_walk::Limit;

/// What a header says: in which version the deck is.
#[derive(Clone, Copy)]
pub(crate) enum VersionNumber {
    One,
    Two,
}

/// The version of a deck. In version 2 a line says the limit on places.
#[derive(Clone, Copy)]
pub(crate) enum Version {
    One,
    Two(Limit),
}

impl Version {
    pub(crate) fn number(self) -> u8
        ensures { result ≡ version_number self }
    {
        match self {
            Version::One => 1,
            Version::Two(_) => 2,
        }
    }

    /// What the header of a deck in this version says.
    pub(crate) fn header(self) -> VersionNumber
        ensures { result ≡ header_of self }
    {
        match self {
            Version::One => VersionNumber::One,
            Version::Two(_) => VersionNumber::Two,
        }
    }

    /// The limit that the deck's job has.
    pub(crate) fn limit(self) -> Limit
        ensures { result ≡ limit_of self }
    {
        match self {
            Version::One => Limit::usual(),
            Version::Two(limit) => limit,
        }
    }
}

impl PartialEq for Version {
    ghost use Rattle.std.specs.Cmp.{partial_equiv_from_equiv};
    ghost use Rattle.chan_deck.specs.SameDecks.{same_versions, same_versions-IsEquivalence};

    ghost eq = { same_versions };

    ghost laws = { partial_equiv_from_equiv same_versions-IsEquivalence };

    /// The same number and limit.
    fn eq(&self, other: &Version) -> bool {
        self.number() == other.number() && self.limit().get() == other.limit().get()
    }
}

impl Eq for Version {
    ghost use Rattle.chan_deck.specs.SameDecks.{same_versions-IsEquivalence};

    ghost laws = { same_versions-IsEquivalence };
}
