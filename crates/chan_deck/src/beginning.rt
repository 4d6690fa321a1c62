//! Where an image of storage begins, as its search loops tell, and whether it is text. Tests hold
//! the texts.

use ccw_core::{Ccw, STORAGE_LIMIT};
use ckd_core::{Kind, lookup};
use std::alloc::{AllocError, Global};
use std::fmt::Write as _;

/// The length of the shortest block of a tape; shorter ones are noise.
const LEAST_BLOCK: usize = 18;

/// A search loop of an image, a search and a transfer back to it.
#[derive(Clone, Copy, PartialEq, Eq, PartialOrd, Ord)]
struct SearchLoop {
    /// Where the image begins if it is one: the address of the image's first byte, plus
    /// `STORAGE_LIMIT`, since the byte at address 0 may come later.
    begin: u32,
    /// The address to which the transfer leads.
    target: u32,
}

/// The notes on an image that begins at this address: that it is empty or a file of another form,
/// where else its search loops fit, or that its words seem to be swapped. An error means that an
/// allocation failed.
pub fn image_notes(alloc: Global, at: u32, image: &[u8]) -> Result<Vec<u8>, AllocError> {
    let mut text = String::new(alloc);
    push_kind(&mut text, image)?;
    let here = at.saturating_add(STORAGE_LIMIT);
    let mut loops = search_loops(alloc, at, image)?;
    let (fit_here, likely) = most_voted(&mut loops, here);
    let swapped = match likely {
        _ if fit_here > 1 => 0,
        Some((_, votes)) if votes > 1 => 0,
        _ => swapped_votes(alloc, here, image)?,
    };
    if swapped > 1 {
        write!(
            text,
            "note: {swapped} search loops fit if the bytes of each word of four are \
             swapped: dump with --endian=big\n"
        )?;
    } else if let Some((likely, votes)) = likely {
        let leads_to_bytes = word_at(image, at, likely.target).is_some_and(|word| *word != [0; 8]);
        if votes > 1 || (fit_here == 0 && !leads_to_bytes) {
            let are_others = fit_here > 1 || votes <= fit_here;
            push_beginning(&mut text, likely.begin, votes, are_others)?;
        }
    }
    Ok(text.into_bytes())
}

/// Adds the note on an image that is empty or a file of another form.
fn push_kind(text: &mut String, image: &[u8]) -> Result<(), AllocError> {
    let (tape, first, len) = match image {
        [] => return text.push_str("note: the image is empty\n"),
        [0x1F, 0x8B, ..] => {
            return text.push_str("note: this is compressed by gzip; unpack it first\n");
        }
        [0x02, 0xC5, 0xE2, 0xC4, ..] => {
            return text.push_str("note: this is an object deck; link and load it first\n");
        }
        [low, high, 0, 0, 0x80..=0xFF, 0, rest @ ..] if is_aws(&[*low, *high], rest) => {
            (
                "an AWS tape of Hercules",
                7,
                u32::from_le_bytes([*low, *high, 0, 0]),
            )
        }
        [a, b, c, 0, rest @ ..] if is_simh(&[*a, *b, *c, 0], rest) => {
            ("a tape of SimH", 5, u32::from_le_bytes([*a, *b, *c, 0]))
        }
        _ => return Ok(()),
    };
    write!(
        text,
        "note: this is {tape}, with headers between its blocks; take its first block out by \
         tail -c +{first} | head -c {len}\n"
    )
}

/// Whether a block of this length comes next, and then a header that says so, as on an AWS tape.
fn is_aws(len: &[u8; 2], rest: &[u8]) -> bool {
    let block = usize::from(u16::from_le_bytes(*len));
    let header = rest.get(block..).unwrap_or(&[]);
    block > 0 && header.get(2..4) == Some(len.as_slice())
}

/// Whether a block of this length comes next, which is even if a byte is added, and then the length
/// again, as on a tape of SimH.
fn is_simh(len: &[u8; 4], rest: &[u8]) -> bool {
    let block = u32::from_le_bytes(*len) as usize;
    let end = rest.get(block.next_multiple_of(2)..).unwrap_or(&[]);
    block >= LEAST_BLOCK && end.starts_with(len)
}

/// The doubleword at an address of an image that begins at another.
fn word_at(image: &[u8], at: u32, address: u32) -> Option<&[u8; 8]> {
    let offset = address.checked_sub(at)?;
    image.get(offset as usize..)?.first_chunk()
}

/// Whether a CCW without a fault may be at an address of an image that begins at another.
fn leads_to_ccw(image: &[u8], at: u32, address: u32) -> bool {
    let Some(word) = word_at(image, at, address) else {
        return false;
    };
    let ccw = Ccw::from_bytes(word);
    lookup(ccw.command()).is_some() && ccw.flags() % 8 == 0 && ccw.count() > 0
}

/// How many search loops agree on a beginning if the bytes of each word of four are swapped.
fn swapped_votes(alloc: Global, here: u32, image: &[u8]) -> Result<usize, AllocError> {
    let mut loops = Vec::new(alloc);
    for (number, word) in image.chunks_exact(4).enumerate() {
        // the transfer's word has its code last, and follows the two words of the search
        if word[3] % 16 == 8 && number >= 2 {
            let offset = number.saturating_sub(2).saturating_mul(4);
            let words = swapped_words(image.get(offset..).unwrap_or(&[]));
            if let Some(target) = words.and_then(|words| loop_target(&words)) {
                push_loop(&mut loops, offset, target, image.len())?;
            }
        }
    }
    let (fit_here, likely) = most_voted(&mut loops, here);
    Ok(likely.map_or(0, |(_, votes)| votes).max(fit_here))
}

/// The first four words of four bytes, the bytes of each turned round.
fn swapped_words(bytes: &[u8]) -> Option<[u8; 16]> {
    let [a, b, c, d, e, f, g, h, i, j, k, l, m, n, o, p]: [u8; 16] = *bytes.first_chunk()?;
    Some([d, c, b, a, h, g, f, e, l, k, j, i, p, o, n, m])
}

/// Adds that so many search loops fit a beginning, as a `SearchLoop` has it, and what to do: a
/// single loop may fit by accident, and others are those of a second region. If the byte at address
/// 0 comes later, the bytes before it are to be dropped.
fn push_beginning(
    text: &mut String,
    begin: u32,
    votes: usize,
    are_others: bool,
) -> Result<(), AllocError> {
    let loops = if votes == 1 { "loop fits" } else { "loops fit" };
    let (other, verb) = match votes {
        _ if are_others => (" other", "judge their part by"),
        1 => ("", "try"),
        _ => ("", "say"),
    };
    write!(text, "note: {votes}{other} search {loops} if ")?;
    match begin.checked_sub(STORAGE_LIMIT) {
        Some(address) => write!(
            text,
            "the image begins at {address:06X}: {verb} --at {address:X}\n"
        ),
        None => {
            let bytes = STORAGE_LIMIT.saturating_sub(begin);
            let first = bytes.saturating_add(1);
            write!(
                text,
                "byte {bytes:06X} of the image is at 000000: drop the bytes before it, by \
                 tail -c +{first}\n"
            )
        }
    }
}

/// The search loops of an image that begins at this address. A loop for another beginning doesn't
/// count if its transfer leads to a CCW as the image stands: it may belong there.
fn search_loops(alloc: Global, at: u32, image: &[u8]) -> Result<Vec<SearchLoop>, AllocError> {
    let mut found = Vec::new(alloc);
    for (offset, code) in image.get(8..).unwrap_or(&[]).iter().enumerate() {
        // most bytes aren't the code of the transfer, which follows the eight bytes of the search
        if code % 16 != 8 {
            continue;
        }
        if let Some(target) = image.get(offset..).and_then(loop_target) {
            let fits_here = target.checked_sub(at) == u32::try_from(offset).ok();
            if fits_here || !leads_to_ccw(image, at, target) {
                push_loop(&mut found, offset, target, image.len())?;
            }
        }
    }
    Ok(found)
}

/// Adds the loop at an offset whose transfer leads there, if the image, of this length, then lies
/// in the largest storage or begins before it.
fn push_loop(
    loops: &mut Vec<SearchLoop>,
    offset: usize,
    target: u32,
    len: usize,
) -> Result<(), AllocError> {
    let begin = u64::from(target.saturating_add(STORAGE_LIMIT)).checked_sub(offset as u64);
    if let Some(begin) = begin {
        if begin.saturating_add(len as u64) <= 2 * u64::from(STORAGE_LIMIT) {
            let begin = begin as u32;
            loops.push(SearchLoop { begin, target })?;
        }
    }
    Ok(())
}

/// Where the transfer leads that follows a search, if these bytes begin with the two.
fn loop_target(bytes: &[u8]) -> Option<u32> {
    let transfer = Ccw::from_bytes(bytes.get(8..)?.first_chunk()?);
    if !transfer.is_transfer() || transfer.address() % 8 != 0 {
        return None;
    }
    let search = Ccw::from_bytes(bytes.first_chunk()?);
    let chains = search.chains_command() && !search.chains_data() && search.flags() % 8 == 0;
    let command = lookup(search.command())?;
    if command.kind() != Kind::Search || !chains || search.count() == 0 {
        return None;
    }
    Some(transfer.address())
}

/// How many loops agree on `here` as the beginning; and a loop of those that agree on another, more
/// than on any other, and how many they are. Of several beginnings with as many, each more than
/// one, the first counts.
fn most_voted(loops: &mut [SearchLoop], here: u32) -> (usize, Option<(SearchLoop, usize)>) {
    let (mut fit_here, mut likely, mut most) = (0, None, 0);
    loops.sort_unstable();
    for agreed in loops.chunk_by(|one, other| one.begin == other.begin) {
        let votes = agreed.len();
        match agreed.first() {
            Some(first) if first.begin == here => fit_here = votes,
            Some(first) if votes > most => (likely, most) = (Some((*first, votes)), votes),
            _ if most == 1 => likely = None,
            _ => {}
        }
    }
    (fit_here, likely)
}
