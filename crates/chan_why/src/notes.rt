//! The notes on a job: what is lent in vain, what flags ask for, and which kept areas the machine
//! itself stores into. It is proved which CCWs interrupt and at which the program ends though chain
//! data is on, since remarks say so too; tests hold the rest.

ghost use Rattle.std.specs.Prelude.{◌≡◌, ◌↔◌, ℕ, IfOk, IsTrue, OnOk};
ghost use Rattle.std.specs.List.Sorted.{IsStrictlyIncreasing};
ghost use Rattle.chan_walk.specs.Argument.{Has};
ghost use Rattle.chan_walk.specs.Places.{AreReached};
ghost use Rattle.chan_walk.specs.Look.{AreLooks, IsLook, places_of_looks};
ghost use Rattle.chan_why.specs.Notes as noted;
ghost use Rattle.chan_why.specs.Notes.{AddsAddress, AreAddressesOf, IsSeenWith, NothingFollows};
ghost use Rattle.chan_walk.specs.declared.job.Job.{Job};

use ccw_core::{Area, Ccw, CcwFlags};
use chan_areas::end_of;
use chan_walk::{Direction, Guard, Job, Look, Survey, data_moved, guarded_areas};
use ckd_core::Kind;
use std::alloc::{AllocError, Global};

/// The points that a yes leaves open.
///
/// A reachable CCW counts, whether or not its place has an own fault: the program asks for it all
/// the same.
#[derive(Drop)]
pub struct Notes {
    /// The areas lent for fetching that end past storage, in the job's order.
    pub fetch_past_storage: Vec<Area>,
    /// The areas lent for storing that end past storage, in the job's order.
    pub store_past_storage: Vec<Area>,
    /// The areas lent for fetching from which no reachable CCW fetches a byte, in the job's order;
    /// each empty area is one.
    pub unused_fetch: Vec<Area>,
    /// The areas lent for storing into which no reachable CCW stores a byte, in the job's order;
    /// each empty area is one.
    pub unused_store: Vec<Area>,
    /// The addresses of the reachable CCWs, transfers apart, whose flag for a program-controlled
    /// interruption is on; each once, rising.
    pub interrupting: Vec<u32>,
    /// The addresses of the reachable No Operations and Recalibrates with chain data on; each once,
    /// rising. As an operation that moves no data never goes on by chain data, the program ends
    /// there, even if chain command is on too.
    pub ending: Vec<u32>,
    /// The kept areas, as the merged list of the guarded bytes has them, that have a byte of 000018
    /// to 000047 or of 000050 to 000053; each whole, rising. The machine itself stores there,
    /// whatever was lent: old PSWs and the CSW in the first range, the timer in the second. No
    /// verdict takes these stores into account.
    pub machine_stores: Vec<Area>,
    /// The addresses of the reachable CCWs, transfers apart, whose byte 5 isn't zero; each once,
    /// rising. The channel ignores that byte, but flags may have slipped there from byte 4.
    pub spare: Vec<u32>,
}

/// The notes on a job, from its own survey. `AllocError` comes if a growth was refused.
///
/// With n places and a areas lent, the cost is that of sorting the places and, for each area, of a
/// binary search.
pub fn notes_from(alloc: Global, job: &Job, survey: &Survey) -> Result<Notes, AllocError> {
    let looks = survey.looks();
    Ok(Notes {
        fetch_past_storage: past_storage(alloc, job, job.fetch)?,
        store_past_storage: past_storage(alloc, job, job.store)?,
        unused_fetch: unused(alloc, looks, Direction::Fetch, job.fetch)?,
        unused_store: unused(alloc, looks, Direction::Store, job.store)?,
        interrupting: interrupting(alloc, looks)?,
        ending: ending(alloc, looks)?,
        machine_stores: machine_stores(alloc, survey.guard())?,
        spare: spare(alloc, looks)?,
    })
}

/// Those of some areas that end past storage.
fn past_storage(alloc: Global, job: &Job, areas: &[Area]) -> Result<Vec<Area>, AllocError> {
    let length = u64::from(job.storage.len());
    let mut past = Vec::new(alloc);
    for area in areas {
        if end_of(area) > length {
            past.push(*area)?;
        }
    }
    Ok(past)
}

/// Those of some areas of which no reachable CCW moves a byte in this direction.
fn unused(
    alloc: Global,
    looks: &[Look],
    direction: Direction,
    areas: &[Area],
) -> Result<Vec<Area>, AllocError> {
    let moved = data_moved(alloc, looks, direction)?;
    let mut unused = Vec::new(alloc);
    for area in areas {
        if !moved.meets(area.start, area.len) {
            unused.push(*area)?;
        }
    }
    Ok(unused)
}

/// The kept areas that have a byte into which the machine itself stores.
fn machine_stores(alloc: Global, guard: &Guard) -> Result<Vec<Area>, AllocError> {
    let guarded = guarded_areas(alloc, guard)?;
    let mut met = Vec::new(alloc);
    for area in guarded.as_slice() {
        if has_machine_byte(area) {
            met.push(*area)?;
        }
    }
    Ok(met)
}

/// Whether the machine itself stores into a byte of an area: old PSWs and the CSW at 000018 to
/// 000047, or the timer at 000050 to 000053.
fn has_machine_byte(area: &Area) -> bool {
    let (start, end) = (area.start, end_of(area));
    area.len > 0 && (start < 0x48 && 0x18 < end || start < 0x54 && 0x50 < end)
}

/// The addresses of the reachable CCWs, transfers apart, whose flag for a program-controlled
/// interruption is on.
#[tactic(auto, using(crate::proofs::Noted::addresses_none))]
pub(crate) fn interrupting(alloc: Global, looks: &[Look]) -> Result<Vec<u32>, AllocError>
    ensures { IfOk result (λ v. (j : Job) → AreLooks j looks.now
        → AreReached j (places_of_looks looks.now) → AreAddressesOf noted.interrupts j v.items) }
{
    let mut addresses = Vec::new(alloc);
    for look in looks {
        add_address(&mut addresses, look, interrupts(look))?;
    }
    Ok(each_once(addresses))
}

/// The addresses of the reachable No Operations and Recalibrates with chain data on.
#[tactic(auto, using(crate::proofs::Noted::addresses_none))]
pub(crate) fn ending(alloc: Global, looks: &[Look]) -> Result<Vec<u32>, AllocError>
    ensures { IfOk result (λ v. (j : Job) → AreLooks j looks.now
        → AreReached j (places_of_looks looks.now) → AreAddressesOf noted.ends_there j v.items) }
{
    let mut addresses = Vec::new(alloc);
    for look in looks {
        add_address(&mut addresses, look, ends_there(look))?;
    }
    Ok(each_once(addresses))
}

/// The addresses of the reachable CCWs, transfers apart, whose byte 5 isn't zero.
fn spare(alloc: Global, looks: &[Look]) -> Result<Vec<u32>, AllocError> {
    let mut addresses = Vec::new(alloc);
    for look in looks {
        match look.ccw() {
            Some(ccw) if !ccw.is_transfer() && ccw.spare() != 0 => {
                addresses.push(look.place().address)?;
            }
            _ => (),
        }
    }
    Ok(each_once(addresses))
}

/// Adds the address of a place, if its CCW counts.
fn add_address(addresses: &mut Vec<u32>, look: &Look, counts: bool) -> Result<(), AllocError>
    ensures { OnOk result (AddsAddress counts look.now.place.address
        addresses.old.items addresses.new.items) }
{
    if counts {
        addresses.push(look.place().address)?;
    }
    Ok(())
}

/// The same addresses, each once, rising.
fn each_once(addresses: Vec<u32>) -> Vec<u32>
    ensures rising { IsStrictlyIncreasing result.items }
    ensures same { (a : ℕ) → Has result.items a ↔ Has addresses.items a }
{
    let mut addresses = addresses;
    addresses.sort_unstable();
    addresses.dedup();
    addresses
}

/// Program-controlled interruption: the channel asks for an interruption when it takes up the CCW.
#[tactic(auto, unfolding(crate::specs::Notes::asks_interruption))]
fn asks_interruption(ccw: &Ccw) -> bool
    ensures { result ≡ noted.asks_interruption ccw.now }
{
    ccw.has_flag(CcwFlags::PCI)
}

/// Whether the CCW at a place is no transfer, and its flag for a program-controlled interruption is
/// on.
fn interrupts(look: &Look) -> bool
    ensures { IsTrue result ↔ IsSeenWith noted.interrupts look.now }
{
    match look.ccw() {
        Some(ccw) => !ccw.is_transfer() && asks_interruption(&ccw),
        None => false,
    }
}

/// Whether No Operation or Recalibrate begins at a place, with chain data on.
fn ends_there(look: &Look) -> bool
    ensures { (j : Job) → IsLook j look.now
        → IsTrue result ↔ IsSeenWith noted.ends_there look.now }
{
    match (look.ccw(), look.command()) {
        (Some(ccw), Some(command)) => { command.kind() == Kind::Idle && ccw.chains_data() }
        _ => false,
    }
}

/// A law, like those of `laws`: where No Operation or Recalibrate begins with chain data on, the
/// program ends; where another command begins with chain data on, it goes on.
#[tactic(auto, using(crate::proofs::Noted::nothing_follows))]
fn nothing_follows()
    ensures { NothingFollows }
{}
