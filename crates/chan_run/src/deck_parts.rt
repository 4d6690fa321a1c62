//! The parts of the deck that options and an image make.

ghost use Rattle.std.specs.Prelude.{◌≡◌};
ghost use Rattle.chan_deck.specs.PartsValue.{HasShortAddresses, value_of_parts};
ghost use Rattle.chan_run.specs.Image.{deck_of};

use chan_args::ImageOptions;
use chan_deck::Parts;
use chan_walk::Limit;

/// The limit on places that the options say, if they say one.
pub(crate) fn limit_in(options: &ImageOptions) -> Option<Limit>
    ensures { result ≡ options.now.limit }
{
    Limit::new(options.limit?)
}

/// The parts of the deck that the options and an image of storage make.
pub(crate) fn deck_parts<'a>(options: &'a ImageOptions, image: &'a [u8]) -> Parts<'a>
    ensures made { value_of_parts result ≡ deck_of options.entry.now image.entry.now }
    ensures short { HasShortAddresses result }
    ensures image { (result.at ≡ options.entry.now.at) × (result.image ≡ image.entry) }
{
    Parts {
        limit: limit_in(options),
        device: options.device,
        mask: options.mask,
        start: options.start,
        extents: &options.extents,
        fetch: &options.fetch,
        store: &options.store,
        at: options.at,
        image,
    }
}
