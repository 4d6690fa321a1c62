//! The tests of `chan_deck`.

mod listing;
mod reading;

/// The search loop: search for a record by its identifier, try the next one, read what was found.
pub(crate) const SEARCH_LOOP: &str = "chanv deck 1
device 2314
mask 00
start 000800
extent 010 019
fetch 000900 000010
store 000A00 000100
storage 0001000
put 000800 3100090040000005
put 000808 0800080000000000
put 000810 06000A0020000050
end
";

pub(crate) const SEARCH_LOOP_LISTING: &str =
    "000800 fresh t . 31 000900 -C---0 00 0005 write search-id-equal
000808 fresh - . 08 000800 -----0 00 0000 transfer transfer-in-channel
000810 fresh - . 06 000A00 --L--0 00 0050 read read-data
yes
";
