//! The argument of an operation: of a seek, gathered along the data chain that begins at it, or of
//! Set File Mask.

ghost use Rattle.std.specs.Prelude.{◌≡◌, ◌&&◌, not, ◌+◌, ◌<◌, ◌≤◌, ◌^◌, ◌⊎◌, ℕ, true, false};
ghost use Rattle.std.specs.Prelude.{length, slice_index, IfSome, IfNone, Some, None};
ghost use Rattle.ccw_core.specs.Ccw.{byte, ccw as held_ccw, chains_data as chained, is_transfer};
ghost use Rattle.ccw_core.specs.Ccw.{has_count as counted, has_data_in as data_in};
ghost use Rattle.ccw_core.specs.Ccw.{is_formed as formed};
ghost use Rattle.ccw_core.specs.Held.{bytes_held};
ghost use Rattle.ccw_core.specs.Storage.{ccw_at as ccw_in};
ghost use Rattle.chan_walk.specs.Argument.{HasArgument, is_part};
ghost use Rattle.chan_walk.specs.Operand as reads;
ghost use Rattle.chan_walk.specs.Operand.{AreZeroFrom, IsFrontOf, AreOfArgument, IsOperand};
ghost use Rattle.chan_walk.specs.Visit.{IsVisit};
ghost use Rattle.ccw_core.specs.declared.ccw.TheConstants.{STORAGE_LIMIT};

use crate::bits::{has_count, has_data_in, is_formed};
use crate::visit::Visit;
use ccw_core::{Ccw, Storage};

/// The bytes that a seek's data chain gives of its argument, and their addresses, in order.
#[derive(Clone, Copy)]
pub struct GivenBytes {
    /// How many they are: six if the argument is whole.
    pub count: u8,
    /// The bytes; the places after them hold zeros.
    pub bytes: [u8; 6],
    /// Their addresses; the places after them hold zeros.
    pub addresses: [u32; 6],
}

impl GivenBytes {
    /// The bytes.
    pub fn bytes(&self) -> &[u8]
        ensures { result.now ≡ reads.bytes_given self.now }
    {
        let count = usize::from(self.count).min(6);
        &self.bytes[..count]
    }

    /// Their addresses.
    pub fn addresses(&self) -> &[u32]
        ensures { result.now ≡ reads.addresses_given self.now }
    {
        let count = usize::from(self.count).min(6);
        &self.addresses[..count]
    }
}

/// What was read of the argument of the operation that begins at a place.
#[derive(Clone, Copy)]
pub enum Operand {
    /// Neither a seek nor Set File Mask begins there.
    Nothing,
    /// What the seek's data chain gives of its argument: fewer than six bytes.
    Short(GivenBytes),
    /// The whole argument of the seek.
    Whole(GivenBytes),
    /// The byte that Set File Mask sets, and its address.
    Mask { at: [u32; 1], byte: u8 },
}

impl Operand {
    /// The whole argument of a seek, if it was read.
    pub fn whole(self) -> Option<GivenBytes>
        ensures { result ≡ reads.whole_of self }
    {
        match self {
            Operand::Whole(given) => Some(given),
            _ => None,
        }
    }

    /// The byte that Set File Mask sets, and 0 if none was read.
    pub fn byte(self) -> u8
        ensures { result ≡ reads.byte_of self }
    {
        match self {
            Operand::Mask { byte, .. } => byte,
            _ => 0,
        }
    }

    /// The addresses of the bytes of a whole argument.
    pub(crate) fn addresses(&self) -> &[u32]
        ensures { result.now ≡ reads.operand_addresses self.now }
    {
        match self {
            Operand::Whole(given) => &given.addresses,
            Operand::Mask { at, .. } => at,
            _ => &[],
        }
    }
}

/// A CCW of a data chain, and the address at which it stands.
#[derive(Clone, Copy)]
struct Link {
    address: u32,
    ccw: Ccw,
}

/// A CCW can give bytes of an argument.
fn gives_bytes(storage: &Storage, ccw: &Ccw) -> bool
    ensures { result ≡ (not (is_transfer ccw.now) && formed ccw.now && counted ccw.now
        && data_in (length (bytes_held storage.now)) ccw.now) }
{
    !ccw.is_transfer() && is_formed(ccw) && has_count(ccw) && has_data_in(storage, ccw)
}

/// What a CCW gives of an argument: bytes in a row.
#[derive(Clone, Copy)]
struct Part {
    from: u32,
    count: usize,
}

/// What a CCW gives of an argument, if it can give any of it.
#[tactic(auto, using(crate::proofs::Algorithms::Following::found_parts))]
fn part_at(storage: &Storage, address: u32, ccw: Ccw) -> Option<Part>
    requires { ccw_in (bytes_held storage.now) address ≡ Some ccw }
    ensures part { IfSome result (λ _. is_part (bytes_held storage.now) address ≡ true) }
    ensures inside { IfSome result (λ _. address < 2 ^ 25) }
    ensures range { IfSome result (λ part. part.from + part.count ≤ STORAGE_LIMIT) }
    ensures some { IfSome result (λ part. 0 < part.count) }
    ensures from { IfSome result
        (λ part. part.from ≡ (held_ccw (bytes_held storage.now) address).address) }
    ensures count { IfSome result
        (λ part. part.count ≡ (held_ccw (bytes_held storage.now) address).count) }
    ensures none { IfNone result (is_part (bytes_held storage.now) address ≡ false) }
{
    if !gives_bytes(storage, &ccw) {
        return None;
    }
    Some(Part {
        from: ccw.address(),
        count: usize::from(ccw.count()),
    })
}

/// The CCW to which data chaining leads from another: `None` if that doesn't chain data, or if no
/// CCW stands there.
fn onward(storage: &Storage, address: u32, ccw: Ccw) -> Option<Link>
    requires stands { ccw_in (bytes_held storage.now) address ≡ Some ccw }
    requires low { address < 2 ^ 25 }
    ensures chains { IfSome result
        (λ _. chained (held_ccw (bytes_held storage.now) address) ≡ true) }
    ensures found { IfSome result
        (λ next. next.address ≡ reads.onward (bytes_held storage.now) address) }
    ensures stands { IfSome result
        (λ next. ccw_in (bytes_held storage.now) next.address ≡ Some next.ccw) }
    ensures none { IfNone result
        ((chained (held_ccw (bytes_held storage.now) address) ≡ false) ⊎ (ccw_in
        (bytes_held storage.now) (reads.onward (bytes_held storage.now) address) ≡ None)) }
{
    if !ccw.chains_data() {
        return None;
    }
    let next = address + 8;
    let ccw = storage.ccw_at(next)?;
    if !ccw.is_transfer() {
        return Some(Link { address: next, ccw });
    }
    let address = ccw.address();
    let ccw = storage.ccw_at(address)?;
    Some(Link { address, ccw })
}

/// Notes the addresses of some bytes in a row, from the place `have` on.
fn note(addresses: &mut [u32; 6], have: usize, from: u32, count: usize)
    requires room { have + count ≤ 6 }
    requires range { from + count ≤ STORAGE_LIMIT }
    requires size { length addresses.old ≡ 6 }
    ensures size { length addresses.new ≡ 6 }
    ensures before { (i : ℕ) → i < have → slice_index addresses.new i
        ≡ slice_index addresses.old i }
    ensures added { (i : ℕ) → i < count → slice_index addresses.new (have + i) ≡ from + i }
    ensures after { (i : ℕ) → have + count ≤ i → slice_index addresses.new i
        ≡ slice_index addresses.old i }
{
    for k in 0..count {
        addresses[have + k] = from + k as u32;
    }
}

/// The addresses of the first bytes of an argument; the places after them hold zeros.
#[derive(Clone, Copy)]
struct Front {
    count: u8,
    addresses: [u32; 6],
}

/// The addresses of the six bytes of the argument of a seek whose own CCW, `ccw`, stands at
/// `address`; or of those that its data chain gives, if they are fewer. At most five further CCWs
/// and five transfers are looked at, each of them once.
fn front_of(storage: &Storage, address: u32, ccw: Ccw) -> Front
    requires { ccw_in (bytes_held storage.now) address ≡ Some ccw }
    ensures { IsFrontOf (bytes_held storage.now) address result.count result.addresses }
{
    let mut addresses = [0u32; 6];
    let mut have: usize = 0;
    let mut here = Link { address, ccw };
    loop {
        let Some(part) = part_at(storage, here.address, here.ccw) else {
            return Front {
                count: have as u8,
                addresses,
            };
        };
        let more = part.count.min(6 - have);
        note(&mut addresses, have, part.from, more);
        have += more;
        if have == 6 {
            return Front {
                count: 6,
                addresses,
            };
        }
        match onward(storage, here.address, here.ccw) {
            Some(next) => here = next,
            None => return Front {
                count: have as u8,
                addresses,
            },
        }
    }
}

/// The bytes at the first of these addresses, `count` of them, and zeros after them.
fn bytes_of(storage: &Storage, count: usize, addresses: [u32; 6]) -> [u8; 6]
    requires { count ≤ 6 }
    ensures size { length result ≡ 6 }
    ensures bytes { (i : ℕ) → i < count → slice_index result i
        ≡ byte (bytes_held storage.now) (slice_index addresses i) }
    ensures zeros { AreZeroFrom count result }
{
    let mut bytes = [0u8; 6];
    for k in 0..count {
        bytes[k] = storage.byte_at(addresses[k]);
    }
    bytes
}

/// The argument of a seek whose own CCW, `ccw`, stands at `address`; or what its data chain gives
/// of it. Each byte is read once. It isn't inlined, so that a look at any other command is short.
#[inline(never)]
fn gather(storage: &Storage, address: u32, ccw: Ccw) -> GivenBytes
    requires { ccw_in (bytes_held storage.now) address ≡ Some ccw }
    ensures { AreOfArgument (bytes_held storage.now) address result }
{
    let Front { count, addresses } = front_of(storage, address, ccw);
    GivenBytes {
        count,
        bytes: bytes_of(storage, usize::from(count), addresses),
        addresses,
    }
}

/// What is read of the argument of the seek or the Set File Mask that begins at a place, if one
/// does: each of its bytes is read here, and nowhere else.
pub(crate) fn read_operand(storage: &Storage, visit: &Visit) -> Operand
    requires { IsVisit (bytes_held storage.now) visit.now }
    ensures operand { IsOperand (bytes_held storage.now) visit.now.place visit.now.ccw result }
    ensures low { visit.now.ccw.address < STORAGE_LIMIT }
{
    let address = visit.ccw.address();
    if visit.begins_seek() {
        let given = gather(storage, visit.place.address, visit.ccw);
        if given.count == 6 {
            return Operand::Whole(given);
        }
        return Operand::Short(given);
    }
    if visit.begins_set_mask() {
        return Operand::Mask {
            at: [address],
            byte: storage.byte_at(address),
        };
    }
    Operand::Nothing
}

/// The argument of a seek at an address: the first six bytes of the joined data ranges of the data
/// chain that begins there, whether or not a seek is there.
///
/// `None` comes exactly if there is no argument: if the CCW is a transfer in channel, if the chain
/// ends before six bytes, or if a CCW that is needed for them is misaligned, outside storage,
/// wrongly formed, of count zero, has its data outside storage, or is a transfer that a transfer
/// leads to. It doesn't matter whether bytes are lent. At most six CCWs and five transfers are
/// looked at.
pub fn seek_argument(storage: &Storage, address: u32) -> Option<[u8; 6]>
    ensures { HasArgument (bytes_held storage.now) address result }
{
    let ccw = storage.ccw_at(address)?;
    let given = gather(storage, address, ccw);
    if given.count == 6 {
        Some(given.bytes)
    } else {
        None
    }
}
