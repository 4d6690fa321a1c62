//! Decks.

ghost use Rattle.std.specs.Prelude.{◌≡◌};
ghost use Rattle.chan_deck.specs.DeckValue.{limit_of, version_number};
ghost use Rattle.chan_deck.specs.declared.version.Version.TheVariants.{Two};
ghost use Rattle.chan_walk.specs.Job.{extents_of, fetch_of, storage_of, store_of};

use crate::version::Version;
use ccw_core::{Area, Storage};
use chan_walk::{Job, Limit};
use ckd_core::{Device, Extents, FileMask};
use std::marker::Model;

/// Storage and a job, as a deck spells them. `read_deck` makes one, and `upgrade`.
#[derive(Drop)]
pub struct Deck {
    /// The version of its text; version 2 has the limit on places too.
    pub(crate) version: Version,
    pub(crate) device: Device,
    /// The file mask that the supervisor set.
    pub(crate) mask: FileMask,
    /// The address of the first CCW.
    pub(crate) start: u32,
    /// The cylinders of the file.
    pub(crate) extents: Extents,
    /// The areas lent for fetching, in the order of their lines.
    pub(crate) fetch: Vec<Area>,
    /// The areas lent for storing, in the order of their lines.
    pub(crate) store: Vec<Area>,
    /// Main storage from address 0 on, zeros included: at most 16,777,216 bytes.
    pub(crate) storage: Vec<u8>,
}

impl Model for Deck {
    ghost use Rattle.chan_deck.specs.DeckValue.{DeckValue, IsDeck};

    ghost Value = { DeckValue };

    ghost use Rattle.chan_deck.specs.DeckInside.{value_of_deck};

    ghost view = { value_of_deck };

    ghost invariant = { λ d. IsDeck (value_of_deck d) };
}

impl Deck {
    /// The version in which the deck is spelled: 1 or 2.
    pub fn version(&self) -> u8
        ensures { result ≡ version_number self.now.version }
    {
        self.version.number()
    }

    /// The deck in version 2, with this limit on places and everything else as it is.
    pub fn upgrade(self, limit: Limit) -> Deck
        ensures { result ≡ record self { version = Two limit } }
    {
        Deck {
            version: Version::Two(limit),
            ..self
        }
    }

    /// The job, as a view of the deck: nothing is copied. In version 1 its limit is the usual one.
    pub fn job(&self) -> Job<'_>
        ensures storage { storage_of result ≡ self.now.storage }
        ensures start { result.start ≡ self.now.start }
        ensures device { result.device ≡ self.now.device }
        ensures mask { result.mask ≡ self.now.mask }
        ensures extents { extents_of result ≡ self.now.extents }
        ensures fetch { fetch_of result ≡ self.now.fetch }
        ensures store { store_of result ≡ self.now.store }
        ensures limit { result.limit ≡ limit_of self.now.version }
    {
        // A deck's storage is never too large: the type's invariant says so.
        let storage = Storage::new(&self.storage).unwrap();
        Job {
            storage,
            start: self.start,
            device: self.device,
            mask: self.mask,
            extents: &self.extents,
            fetch: &self.fetch,
            store: &self.store,
            limit: self.version.limit(),
        }
    }
}

impl PartialEq for Deck {
    ghost use Rattle.std.specs.Cmp.{partial_equiv_from_equiv};
    ghost use Rattle.chan_deck.specs.SameDecks.{same_decks, same_decks-IsEquivalence};

    ghost eq = { same_decks };

    ghost laws = { partial_equiv_from_equiv same_decks-IsEquivalence };

    /// The same version with its limit, device, mask, start, extents, areas and storage; so the
    /// texts are the same.
    fn eq(&self, other: &Deck) -> bool {
        self.version == other.version
            && self.device == other.device
            && self.mask == other.mask
            && self.start == other.start
            && self.extents == other.extents
            && self.fetch == other.fetch
            && self.store == other.store
            && self.storage == other.storage
    }
}

impl Eq for Deck {
    ghost use Rattle.chan_deck.specs.SameDecks.{same_decks-IsEquivalence};

    ghost laws = { same_decks-IsEquivalence };
}
