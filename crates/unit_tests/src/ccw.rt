//! The tests of `ccw_core`.

use crate::shared::expect;
use ccw_core::{
    Area, Ccw, CcwFlags, DeviceFault, Group, Storage, TooLarge, Watched, covers, write_out,
};
use std::alloc::Global;
use std::io;
use std::io::{ErrorKind, Read, Write};
use std::test::Fail;

// Takes one byte at a time, answers its second write as it is told, and goes on after that.
#[derive(Drop)]
struct Faltering {
    taken: [u8; 3],
    writes: usize,
    second: Answer,
}

#[derive(Clone, Copy)]
enum Answer {
    Interrupted,
    BrokenPipe,
    Nothing,
}

impl Write for Faltering {
    fn write(&mut self, buf: &[u8]) -> io::Result<usize> {
        self.writes = self.writes.saturating_add(1);
        match (self.writes, self.second, buf) {
            (2, Answer::Interrupted, _) => Err(io::Error::from(ErrorKind::Interrupted)),
            (2, Answer::BrokenPipe, _) => Err(io::Error::from(ErrorKind::BrokenPipe)),
            (1 | 3, _, [first, ..]) => {
                self.taken[self.writes - 1] = *first;
                Ok(1)
            }
            _ => Ok(0),
        }
    }

    fn flush(&mut self) -> io::Result<()> {
        Ok(())
    }
}

// Takes one byte at a time, up to three of them.
#[derive(Drop)]
struct Slow {
    taken: [u8; 3],
    count: usize,
}

impl Write for Slow {
    fn write(&mut self, buf: &[u8]) -> io::Result<usize> {
        match buf {
            [first, ..] if self.count < 3 => {
                self.taken[self.count] = *first;
                self.count += 1;
                Ok(1)
            }
            _ => Ok(0),
        }
    }

    fn flush(&mut self) -> io::Result<()> {
        Ok(())
    }
}

// Gives one byte at a time, fails at its second read, and goes on after that.
#[derive(Drop)]
struct Stumbling {
    reads: u8,
}

impl Read for Stumbling {
    fn read(&mut self, buf: &mut [u8]) -> io::Result<usize> {
        self.reads = self.reads.saturating_add(1);
        if self.reads == 2 {
            return Err(io::Error::from(ErrorKind::Interrupted));
        }
        Ok(buf.len().min(1))
    }
}

fn flags_of(flags: u8) -> Option<CcwFlags> {
    Ccw::new(1, 0, flags, 0, 1)?.known_flags()
}

#[test]
fn new_and_flags(rt: HostRuntime) {
    let at_most = Ccw::new(6, 16_777_215, 0, 0, 1);
    expect(&rt, at_most.is_some(), "the largest address");
    expect(&rt, Ccw::new(6, 16_777_216, 0, 0, 1) == None, "above it");
    let known = Some(CcwFlags::CD | CcwFlags::SLI | CcwFlags::PCI);
    expect(&rt, flags_of(0xA8) == known, "A8");
    expect(&rt, flags_of(0x04) == None, "04");
}

fn has_fields(word: &Ccw) -> bool {
    word.command() == 0x06
        && word.address() == 0x0A00
        && word.flags() == 0x20
        && word.spare() == 0
        && word.count() == 0x50
}

fn is_shown(alloc: Global, word: &Ccw, text: &str) -> bool {
    match word.text(alloc) {
        Ok(shown) => shown.as_str() == text,
        Err(_) => false,
    }
}

#[test]
fn fields_bytes_and_text(rt: HostRuntime) {
    let bytes = [0x06, 0x00, 0x0A, 0x00, 0x20, 0x00, 0x00, 0x50];
    let word = Ccw::from_bytes(&bytes);
    expect(&rt, has_fields(&word), "fields");
    expect(&rt, word.to_bytes() == bytes, "bytes");
    let made = Ccw::new(0x06, 0x00_0A00, 0x20, 0, 0x50);
    expect(&rt, made == Some(word), "made of its fields");
    let text = "06 000A00 --L--0 00 0050 read";
    expect(&rt, is_shown(rt.alloc(), &word, text), text);
}

fn is_of(command: u8, group: Group) -> bool {
    match Ccw::new(command, 0, 0, 0, 1) {
        Some(word) => { word.group() == group && word.is_transfer() == (group == Group::Transfer) }
        None => false,
    }
}

#[test]
fn groups(rt: HostRuntime) {
    for (command, group, name) in [
        (0xF0, Group::Invalid, "F0"),
        (0xE4, Group::Sense, "E4"),
        (0x08, Group::Transfer, "08"),
        (0xF8, Group::Transfer, "F8"),
        (0x0C, Group::ReadBackward, "0C"),
        (0x31, Group::Write, "31"),
        (0x9E, Group::Read, "9E"),
        (0x1B, Group::Control, "1B"),
    ] {
        expect(&rt, is_of(command, group), name);
    }
}

fn stands_at_eight(storage: &Storage) -> bool {
    match storage.ccw_at(8) {
        Some(word) => word.is_transfer() && word.address() == 0x0800,
        None => false,
    }
}

fn holds(storage: &Storage, start: u32, len: u32, bytes: &[u8]) -> bool {
    storage.range(start, len) == Some(bytes)
}

#[test]
fn words_in_storage(rt: HostRuntime) -> Result<(), Fail> {
    let bytes = [0, 0, 0, 0, 0, 0, 0, 0, 8, 0, 8, 0, 0, 0, 0, 0, 0, 0, 0, 0];
    let storage = Storage::new(&bytes)?;
    expect(&rt, storage.len() == 20, "the length");
    expect(&rt, stands_at_eight(&storage), "a word stands at 8");
    for address in [4, 9, 16, 0xFFFF_FFF8] {
        expect(&rt, storage.ccw_at(address).is_none(), "no word");
    }
    expect(&rt, holds(&storage, 8, 3, &[8, 0, 8]), "three bytes at 8");
    expect(&rt, holds(&storage, 20, 0, &[]), "no byte at the end");
    for (start, len) in [(20, 1), (21, 0), (0, 21), (0xFFFF_FFFF, 0xFFFF_FFFF)] {
        expect(&rt, storage.range(start, len).is_none(), "no such range");
    }
    Ok(())
}

#[test]
fn largest_storage(rt: HostRuntime) -> Result<(), Fail> {
    let bytes = vec![in rt.alloc(); 0u8; 16_777_217]?;
    expect(&rt, Storage::new(&bytes) == Err(TooLarge), "too large");
    let storage = Storage::new(&bytes[1..])?;
    expect(&rt, storage.len() == 16_777_216, "the largest");
    Ok(())
}

fn area(start: u32, len: u32) -> Area {
    Area { start, len }
}

#[test]
fn covers_ranges(rt: HostRuntime) {
    expect(&rt, covers(&[], 0, 0), "no byte");
    expect(&rt, !covers(&[], 0, 1), "a byte of nothing");
    let high = [area(0xFFFF_FFF0, 32)];
    expect(&rt, covers(&high, 0xFFFF_FFF8, 16), "past the top");
    expect(&rt, !covers(&high, 0, 1), "no wrapping");
    let adjoining = [area(0xA10, 16), area(0xA00, 16), area(0xA08, 0)];
    expect(&rt, covers(&adjoining, 0xA00, 0x20), "together");
    expect(&rt, !covers(&adjoining, 0xA00, 0x21), "a byte more");
    expect(&rt, !covers(&adjoining, 0x9FF, 2), "a byte before");
}

// A write that failed isn't tried once more, although the writer would take it.
fn fails_at_the_second_write(second: Answer) -> bool {
    let mut to = Watched::new(Faltering {
        taken: [0; 3],
        writes: 0,
        second,
    });
    if to.failed() || write_out(b"abc", &mut to).is_ok() || !to.failed() {
        return false;
    }
    let writer = to.into_inner();
    writer.taken == [b'a', 0, 0] && writer.writes == 2
}

#[test]
fn a_writer_that_fails(rt: HostRuntime) {
    for second in [Answer::Interrupted, Answer::BrokenPipe, Answer::Nothing] {
        expect(&rt, fails_at_the_second_write(second), "the second write");
    }
}

fn takes_three_bytes() -> bool {
    let mut to = Watched::new(Slow {
        taken: [0; 3],
        count: 0,
    });
    if write_out(b"abc", &mut to).is_err() || to.failed() {
        return false;
    }
    to.write(b"d") == Err(DeviceFault) && to.failed() && to.into_inner().taken == *b"abc"
}

#[test]
fn a_writer_that_takes_one_byte_at_a_time(rt: HostRuntime) {
    expect(&rt, takes_three_bytes(), "three bytes, and no fourth");
}

fn reads<T: Read>(from: &mut Watched<T>, wanted: Result<usize, DeviceFault>) -> bool {
    let mut buffer = [0u8; 4];
    from.read(&mut buffer) == wanted
}

#[test]
fn a_reader_that_fails(rt: HostRuntime) {
    let mut from = Watched::new(Stumbling { reads: 0 });
    expect(
        &rt,
        reads(&mut from, Ok(1)) && !from.failed(),
        "the first read",
    );
    expect(
        &rt,
        reads(&mut from, Err(DeviceFault)) && from.failed(),
        "the second",
    );
    expect(&rt, reads(&mut from, Ok(1)) && from.failed(), "the third");
    expect(&rt, from.into_inner().reads == 3, "each read once");
}

// Whether a read of at most two bytes gives these.
fn gives(from: &mut Watched<&[u8]>, wanted: &[u8]) -> bool {
    let mut buffer = [0u8; 2];
    match from.read(&mut buffer) {
        Ok(count) => count == wanted.len() && buffer.starts_with(wanted),
        Err(_) => false,
    }
}

#[test]
fn a_reader_in_memory(rt: HostRuntime) {
    let mut from = Watched::new(b"abc".as_slice());
    expect(&rt, gives(&mut from, b"ab"), "two bytes");
    expect(&rt, gives(&mut from, b"c"), "the last");
    expect(&rt, gives(&mut from, b"") && !from.failed(), "the end");
}

fn is_written_whole(alloc: Global) -> bool {
    let mut to = Watched::new(Vec::new(alloc));
    write_out(b"whole", &mut to).is_ok()
        && to.write(b"") == Ok(0)
        && to.into_inner().as_slice() == b"whole".as_slice()
}

#[test]
fn a_writer_in_memory(rt: HostRuntime) {
    expect(&rt, is_written_whole(rt.alloc()), "the whole text");
}

#[test]
fn texts_of_errors(rt: HostRuntime) -> Result<(), Fail> {
    let large = format!(in rt.alloc(); "{TooLarge}")?;
    let is_so = large.as_str() == "storage is larger than 16,777,216 bytes";
    expect(&rt, is_so, "TooLarge");
    let fault = format!(in rt.alloc(); "{DeviceFault}")?;
    expect(&rt, fault.as_str() == "the device failed", "DeviceFault");
    Ok(())
}
