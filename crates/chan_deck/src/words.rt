//! The words that `chanv explain` knows, with what each means.

use std::alloc::{AllocError, Global};
use strsim::levenshtein;

/// A row for each word that is explained at length, in the order of the list. The row's first line
/// is the word, a colon, a space, and what the word means in a few words. Further lines say it at
/// length.
pub const WORDS_AT_LENGTH: [&'static str; 42] = [
    "misaligned: a CCW at an address that isn't a multiple of 8
The CCW's address isn't a multiple of 8, so there can be no CCW.
Correct the start, or the transfer in channel that leads there: nothing else
leads to such an address. `chanv why` shows the path.",
    "outside-storage: a CCW that doesn't lie wholly in main storage
The CCW's eight bytes don't lie wholly in main storage.
If the program starts there, correct --start, which is hexadecimal, or --at.
If a chain goes on too far, switch off chain data and chain command in its last
CCW. Otherwise correct the transfer in channel that leads there, or judge a
larger storage: a line `storage` in a deck, or --storage.",
    "transfer-not-allowed: a transfer in channel that comes first or after another
The program begins with a transfer in channel, or a transfer leads to a
transfer.
Start at a command, and let a transfer point straight at the CCW to which the
next transfer would lead.",
    "invalid-code: a command code whose low four bits are zero
A new operation begins at the CCW, and the low four bits of its code are zero,
which no command has.
If storage has only zeros there, suspect the image: it may be incomplete, or
--start or --at may be wrong. If the program reads in CCWs that it then runs,
run the part that reads them, and then ask about the rest. Otherwise correct
the code; or switch on chain data in the CCW before it, if it should continue a
data chain; or switch off chain command there, if the program should end. In a
row with `invalid chained` the code doesn't count.",
    "bad-format: a flag that is on and must be off
One of the three low bits of the CCW's flags is on.
Switch off the bits 07 of the CCW's byte 4: they must be zero in every CCW
except a transfer in channel. Bit 04 is indirect addressing on later systems,
which chanv doesn't cover.",
    "zero-count: a count of zero
The CCW's count is zero, which the channel refuses.
Set it to 1 or more. Every CCW except a transfer in channel needs a count, even
a No Operation, which moves no data. If a data chain leads there though there is
no CCW, switch off chain data in the CCW before it, with which the data ends.",
    "data-outside: a data range that leaves main storage
The CCW's data address plus its count is more than the length of main storage.
If the image lacks buffers at its end, judge a larger storage: a line `storage`
in a deck, or --storage. Otherwise correct address or count. The whole range
counts, even if the CCW skips or moves no data.",
    "not-in-table: a command code that chanv doesn't know
A new operation begins at the CCW, and its code isn't in the table of commands
that chanv knows; `man chanv` names the page with the table. The table leaves
out Read IPL, Restore, Space Count, File Scan, Reserve, Release and all commands
of later disks.
Use a command of the table. If the CCW should continue a data chain, switch on
chain data in the CCW before it.",
    "inhibited: a command that the file mask inhibits
A new operation begins at the CCW, and the file mask inhibits its command.
Judge under the mask that the supervisor will have set: the line `mask` of a
deck, or --mask. `chanv needs` lists the strictest mask that serves. Otherwise
use a command that the mask permits. A Set File Mask in the program doesn't
help, because the job's mask judges all commands.",
    "store-not-lent: a store into bytes that aren't lent for storing
The CCW stores, and a byte of its data range lies in no area lent for storing.
`chanv needs` lists all areas that the program needs, and `chanv why` names the
bytes. Lend them, by a line `store` in a deck or by --store, or shorten the
count. If you don't want all of a record, chain data to a CCW with the flag
skip, which stores nothing.",
    "fetch-not-lent: a fetch of bytes that aren't lent for fetching
The CCW fetches, and a byte of its data range lies in no area lent for
fetching. Writes fetch, but so do searches, seeks and Set File Mask.
`chanv needs` lists all areas that the program needs, and `chanv why` names the
bytes. Lend them, by a line `fetch` in a deck or by --fetch, or shorten the
count.",
    "short-seek: a seek without six bytes for its argument
The CCW is a seek, and the data chain that begins there gives fewer than the six
bytes of its argument.
Set the seek's count to 6, or switch on its chain data and let the CCWs that
follow give the rest. `chanv why` says how many bytes there are.",
    "seek-outside: a seek outside the extents, the heads or bin 0
A seek's argument has a bin other than zero, a cylinder in no extent, or a head
that the device lacks; or no extent has cylinder 0, to which a Recalibrate goes.
`chanv why` has the values. Correct the argument, which is two bytes each of
bin, cylinder and head; or lend the cylinder, by a line `extent` in a deck or by
--extent. All three seeks are judged by the whole argument, even Seek Head,
which uses the head alone.",
    "changes-ccw: a store over a reachable CCW
The CCW stores, and its data range meets a CCW that the program can reach.
Move the data, shorten the count, or use the flag skip. If a loader reads over
its own CCWs, put its last search and read outside that data. The whole range
counts, however few bytes the device gives, and so does a CCW that comes
earlier. `chanv why` names the CCW, and shows how the program comes there.",
    "changes-argument: a store over a seek's argument or a mask byte
The CCW stores, and its data range meets the argument of a seek or the mask
byte of a Set File Mask that the program can reach. `chanv why` names the byte.
If the data is the argument that the seek should use, as in an index search,
judge the program in two parts: switch off chain command in the CCW before the
seek, run that part, and then ask about the program that starts at the seek.
Otherwise move the data or the argument, shorten the count, or use the flag
skip. The whole range counts, however few bytes the device gives.",
    "weakens-mask: a Set File Mask to a byte that permits more or isn't a mask
A Set File Mask sets a byte that isn't a file mask, or that permits what the
job's mask inhibits.
Judge under the mask that is in force before the program's own: the line `mask`
of a deck, or --mask. Or set a byte that is at least as strict. From lax to
strict, the bits for writes are C0, 00, 80 and 40, the bits for seeks are 00,
08, 10 and 18, and no other bit may be on.",
    "ended: the deck ends before its line `end` is complete
The deck ends before the line `end`, or that line has no line feed.
Check that nothing was cut off: each line ends with a line feed, even the last.",
    "header: the first line isn't the header of a deck
Line 1 is neither `chanv deck 1` nor `chanv deck 2`.
Write one of the two, with nothing before it and only a line feed after it.
An image of storage isn't a deck: `chanv deck` turns it into a deck.",
    "form: the line has none of the forms that may come here
The line has none of the forms that may come here.
`chanv why` shows which may. See that the lines are in order, that there is one
space between two parts and nothing after the last, and that each number has all
its digits, hexadecimal digits in capitals. A deck of version 2 has a line
`limit`; a deck of version 1 has none. `man chanv` names the page on decks.",
    "mask: the file mask; or a deck's byte that isn't a file mask
The file mask: a byte that says which writes and seeks a program may issue. A
deck has the mask that is in force at the start, and `chanv needs` lists the
strictest mask that serves.
As the cause of a refused deck: one of the bits 27 is on. Only the bits C0,
which decide over writes, and 18, over seeks, may be on.",
    "extent-backwards: the extent's last cylinder is below its first
The extent's first cylinder is above its last.
Write the lower number first. Both are decimal.",
    "extent-past-device: the extent goes on past cylinder 202
The extent's last cylinder is above 202, the last of a 2311 and of a 2314.
Write a number of at most 202. It is decimal.",
    "size: storage can't have this size
The number of bytes of storage isn't a multiple of 8, or is above 16,777,216.
Write a multiple of 8 that is at most 1000000. It is hexadecimal.",
    "put-address: the put's address is out of order or out of storage
The put's address isn't a multiple of 8, isn't above the address of the put
before it, or leaves storage.
Write the puts in order of address, each of eight bytes on a multiple of 8,
and see that the line `storage` gives as many bytes as they need.",
    "put-zero: the put's bytes are all zero
The put's eight bytes are all zero.
Leave the line out: storage is zero wherever there is no put.",
    "after: something follows the line `end`
Something follows the line `end`; chanv names the line after it.
Remove everything after the line feed of `end`, even an empty line.",
    "limit: how many places may be reachable; or a number that isn't a limit
How many places may be reachable: 4,096 in a deck of version 1, and what the
line `limit` says in a deck of version 2.
As the cause of a refused deck: the number is 0 or above 65,536. Write 00001 to
65536. It is decimal.",
    "cannot-open: a FILE that can't be opened
The FILE can't be opened: it doesn't exist, you may not read it, or its name
isn't UTF-8.
Correct the name or the permissions. If the name isn't UTF-8, rename the FILE,
or hand it to standard input.",
    "no-such-file: a FILE that doesn't exist
The system says that no file has this name.
Correct the name, or the folder where you run chanv.",
    "permission-denied: a FILE that you may not read
The system says that you may not read the FILE, or not enter its folder.
Correct the permissions, or hand the FILE to standard input.",
    "is-a-folder: a FILE that is a folder
The FILE is a folder, which has no text.
Name the files in it.",
    "read-failed: an input that can't be read to its end
Reading failed: the FILE may be a folder, or standard input may be closed.
Name a file, or see that the input can be read to its end.",
    "deck-too-long: a text longer than a deck may be
The deck's text has more than 67,108,864 bytes.
Merge its areas, and leave out areas that the program doesn't need. An image of
storage isn't a deck: `chanv deck` turns it into a deck.",
    "image-too-long: an image longer than storage may be
The image, from its address on, ends past the 16,777,216 bytes that storage may
have.
Cut the image down to what the program needs, or lower its address.",
    "image-past-storage: an image that ends past the size of storage
The image, from its address on, ends past the size that --storage gives.
Give a larger size, lower the image's address, or leave --storage out: then
storage ends with the image.",
    "too-many-places: more places reachable than the limit
More places are reachable than the limit: 4,096, unless the deck says otherwise.
There is neither a yes nor a no.
Raise the limit, to at most 65,536: by the line `limit` of a deck of version 2,
or by --limit. A place is a CCW with a way to enter it: a chain that runs on
through storage reaches one every 8 bytes.",
    "no-job-will-do: a program for which no job will do
You asked for the least job, but no job will do: the verdict is no even if the
job grants everything. The explanation after this line says which CCW offends,
and why.
If the image belongs at another address, or storage is longer, say so by --at or
--storage. Otherwise correct the program; `chanv explain` has more on the
reason.",
    "write-failed: an output that can't be written
Writing to standard output failed: it is full or closed, or its reader has gone
away. The output may be only a part of the answer.
Correct the output, and run the command again.",
    "out-of-memory: an allocation that was refused
An allocation was refused, so there is no answer, or only a part of it.
Raise the limit on memory. Judging takes at most a few times the length of the
deck and of its storage.",
    "not-a-ccw: a word that isn't a CCW's sixteen digits
The word isn't sixteen hexadecimal digits.
Write a CCW's eight bytes as two digits each, without spaces.",
    "no-such-word: a word that chanv doesn't know
chanv doesn't know this word.
`chanv explain` without a word lists all words.",
    "deck: a text with main storage and a job, which chanv judges
This deck is judged yes. Its program searches for a record and reads it. Words
and numbers have one blank between them and none around; addresses, lengths,
sizes, the mask and the bytes of storage are hexadecimal, cylinders are decimal.
`man chanv` names the page on decks.
chanv deck 1
device 2314
mask 00
start 000800
extent 010 019
fetch 000900 000010
store 000A00 000100
storage 0001000
put 000800 3100090040000005
put 000808 0800080000000000
put 000810 06000A0020000050
end",
];

/// The rows of the other words, which come after these. The checker can't read both as one table.
pub const WORDS_IN_SHORT: [&'static str; 124] = [
    "yes: no run of the program does harm, whatever the disk holds",
    "no: the CCW at this address offends, for this reason",
    "place: a CCW together with the way in which the program enters it",
    "fresh: a new operation begins at the CCW, so its code counts",
    "in: a data chain leads to the CCW, in an operation that stores",
    "out: a data chain leads to the CCW, in an operation that fetches",
    "search: a data chain leads to the CCW, in a search",
    "t: a transfer in channel led to the CCW, or the program starts there",
    "-: no transfer in channel led to the CCW; among flags, the flag is off",
    "*: the verdict names the address of this row; in a path, the last row",
    ".: the verdict doesn't name the address of this row; in a path, a row before the last",
    "flags: D chain data, C chain command, L suppress length, S skip, P interrupt; digit: low bits",
    "D: the flag chain data (80): the next CCW's address, count and flags continue the operation",
    "C: the flag chain command (40): after this operation the next CCW begins a new one",
    "L: the flag suppress length indication (20): a record of another length is no error",
    "S: the flag skip (10): data from the device is not stored",
    "P: the flag program-controlled interruption (08): the channel interrupts when it comes here",
    "invalid: the group of codes whose low four bits are zero; the channel refuses them",
    "control: the group of codes that end in 11: seeks, Set File Mask, No Operation",
    "read: the group of codes that end in 10: data goes from the device into storage",
    "write: the group of codes that end in 01: writes, and the searches of a disk",
    "read-backward: the group of codes that end in 1100; chanv knows no such command",
    "transfer: the group of codes that end in 1000: transfer in channel, the channel's jump",
    "chained: a data chain leads to the CCW, so its code doesn't count",
    "unknown: a code that isn't in the table of commands",
    "no-ccw: no CCW is at this address: it isn't a multiple of 8, or the CCW leaves storage",
    "because: the cause of the no, with its values",
    "stored over by: the path stores over its end; chanv can't judge bytes that aren't there yet",
    "reached by: the path to the CCW that is stored over, or to the CCW that takes the argument",
    "also: another address and reason that offend; chanv doesn't look past a CCW that has a fault",
    "extent: a run of cylinders, first and last, that seeks may go to",
    "fetch: an area lent for fetching, from storage to the disk: its address and its length",
    "store: an area lent for storing, from the disk into storage: its address and its length",
    "put: a line of a deck: the address of a doubleword, and its eight bytes",
    "device: the disk that the program runs against, 2311 or 2314",
    "start: the address of the program's first CCW; in a picture, where the program begins",
    "end: the last line of a deck; in a picture, where the program may end",
    "storage: main storage; in a deck and in --storage, how many bytes it has, in hexadecimal",
    "CCW: a channel command word: code, data address, flags, a spare byte and count",
    "SLI: see L",
    "PCI: see P",
    "keep: bytes that nothing else may change while the program runs",
    "kept: the guarded bytes of the open job; `chanv needs` lists them as keep",
    "lent: the job allows the program to fetch from these bytes, or to store into them",
    "job: a channel program before its start, with everything that it may use",
    "open job: the job that grants everything: mask C0, cylinders 0 to 202, and all of storage",
    "least job: the job that grants exactly what the program needs",
    "dump: main storage as text, an address and bytes a line; find and deck read it as an image",
    "image: main storage as raw bytes, or as a dump in text; `chanv deck` makes a deck of it",
    "argument: the bytes that a seek (bin, cylinder, head), a search or a Set File Mask takes",
    "cylinder: where a seek moves the arm, 0 to 202",
    "head: which of a cylinder's tracks is read or written",
    "record: data on a track, before it a count with its number, and perhaps a key",
    "key: the bytes of a record before its data, by which a search can find it",
    "guarded: bytes that no reachable CCW may store over: CCWs, arguments of seeks, mask bytes",
    "clear: a place without a fault of its own",
    "fetches: in a picture, the bytes that the CCW fetches from storage",
    "stores: in a picture, the bytes that the CCW stores into storage",
    "stores over for the next run: in a picture, this run doesn't come back to what is stored over",
    "skips: in a picture, the bytes that the CCW would store without its flag skip",
    "TIC: a transfer in channel, the channel's jump",
    "until found: the search goes on until it finds, by the transfer back to it that TIC names",
    "=>: in a wide listing, the place of this row offends, for the reasons at its end",
    "found: in a picture, a search that succeeds; on standard error, the refused line of a deck",
    "expected: what the refused line of a deck may contain",
    "note: a line on standard error that changes no answer and no status",
    "help: a line on standard error that says how to cure a no",
    "never ends by itself: in a picture, only the device or a Halt I/O stops it from here on",
    "not judged: find has judged 16,777,216 places before; judge it alone, by a deck of chanv deck",
    "cannot open: see cannot-open",
    "no such file: see no-such-file",
    "permission denied: see permission-denied",
    "is a folder: see is-a-folder",
    "read failed: see read-failed",
    "deck too long: see deck-too-long",
    "image too long: see image-too-long",
    "image past storage: see image-past-storage",
    "too many places: see too-many-places",
    "no job will do: see no-job-will-do",
    "write failed: see write-failed",
    "out of memory: see out-of-memory",
    "not a CCW: see not-a-ccw",
    "no such word: see no-such-word",
    "transfer-in-channel: the channel's jump to the CCW's data address (codes 08, 18 to F8)",
    "no-operation: moves no data (code 03)",
    "seek: moves the arm to a cylinder and selects a head (code 07)",
    "seek-cylinder: moves the arm to a cylinder and selects a head (code 0B)",
    "seek-head: selects a head (code 1B)",
    "recalibrate: moves the arm to cylinder 0 and selects head 0 (code 13)",
    "set-file-mask: sets the file mask, which inhibits writes and seeks (code 1F)",
    "sense: stores the sense bytes, which describe the last error (code 04)",
    "search-home-address-equal: looks for a home address that equals the argument (code 39)",
    "search-id-equal: looks for a record whose ID equals the argument (code 31)",
    "search-id-high: looks for a record whose ID is above the argument (code 51)",
    "search-id-equal-or-high: looks for a record whose ID is at least the argument (code 71)",
    "search-key-equal: looks for a record whose key equals the argument (code 29)",
    "search-key-high: looks for a record whose key is above the argument (code 49)",
    "search-key-equal-or-high: looks for a record whose key is at least the argument (code 69)",
    "read-home-address: stores the home address of the track (code 1A)",
    "read-count: stores the count of a record (code 12)",
    "read-record-zero: stores count, key and data of record zero (code 16)",
    "read-data: stores the data of a record (code 06)",
    "read-key-data: stores key and data of a record (code 0E)",
    "read-count-key-data: stores count, key and data of a record (code 1E)",
    "write-home-address: writes the home address of the track (code 19)",
    "write-record-zero: writes count, key and data of record zero (code 15)",
    "write-count-key-data: lays out a new record with count, key and data (code 1D)",
    "write-special-count-key-data: lays out a record that continues on another track (code 01)",
    "erase: erases the rest of the track (code 11)",
    "write-data: writes the data of a record (code 05)",
    "write-key-data: writes key and data of a record (code 0D)",
    "search-home-address-equal-mt: as without -mt, also on the cylinder's next tracks (code B9)",
    "search-id-equal-mt: as without -mt, also on the cylinder's next tracks (code B1)",
    "search-id-high-mt: as without -mt, also on the cylinder's next tracks (code D1)",
    "search-id-equal-or-high-mt: as without -mt, also on the cylinder's next tracks (code F1)",
    "search-key-equal-mt: as without -mt, also on the cylinder's next tracks (code A9)",
    "search-key-high-mt: as without -mt, also on the cylinder's next tracks (code C9)",
    "search-key-equal-or-high-mt: as without -mt, also on the cylinder's next tracks (code E9)",
    "read-home-address-mt: as without -mt, also on the cylinder's next tracks (code 9A)",
    "read-count-mt: as without -mt, also on the cylinder's next tracks (code 92)",
    "read-record-zero-mt: as without -mt, also on the cylinder's next tracks (code 96)",
    "read-data-mt: as without -mt, also on the cylinder's next tracks (code 86)",
    "read-key-data-mt: as without -mt, also on the cylinder's next tracks (code 8E)",
    "read-count-key-data-mt: as without -mt, also on the cylinder's next tracks (code 9E)",
];

/// The word of a row.
fn word_in(row: &'static str) -> &'static str {
    row.split_once(": ").map_or(row, |(word, _)| word)
}

/// The row of a word, in upper or lower case.
pub fn word_row(word: &str) -> Option<&'static str> {
    let mut rows = WORDS_AT_LENGTH.iter().chain(&WORDS_IN_SHORT);
    rows.find(|row| word_in(row).eq_ignore_ascii_case(word))
        .copied()
}

/// The word nearest to a text in any case: the first with the fewest edits, if there is at most one
/// edit for three letters of the word. An error means that an allocation failed.
pub fn nearest_word(alloc: Global, text: &str) -> Result<Option<&'static str>, AllocError> {
    let mut small = String::from_str(alloc, text)?;
    small.make_ascii_lowercase();
    let (mut nearest, mut fewest) = (None, usize::MAX);
    for row in WORDS_AT_LENGTH.iter().chain(&WORDS_IN_SHORT) {
        let word = word_in(row);
        let edits = levenshtein(alloc, small.as_str(), word)?;
        if edits < fewest {
            (nearest, fewest) = (Some(word), edits);
        }
    }
    Ok(nearest.filter(|word| fewest <= word.len() / 3))
}
