//! The prefix through which a supervisor starts a program.

ghost use Rattle.std.specs.Prelude.{◌≡◌, ◌<◌, ◌++◌, ◌↔◌, ℕ, length, IfOk, IsTrue, MatchOption};
ghost use Rattle.std.specs.Prelude.{OnOk};
ghost use Rattle.ccw_core.specs.Ccw as ccw;
ghost use Rattle.ccw_core.specs.declared.ccw.TheConstants.{STORAGE_LIMIT};
ghost use Rattle.chan_walk.specs.Alarm.{first_cylinder};
ghost use Rattle.chan_walk.specs.Job.{extents_of};
ghost use Rattle.chan_needs.specs.Prefix as specs;
ghost use Rattle.chan_needs.specs.Prefix.{CanStandAt, setting_ccws, taken_by_prefix};

use byteorder::{BigEndian, ByteOrder};
use ccw_core::Ccw;
use chan_walk::Job;
use std::alloc::{AllocError, Global};

/// The command codes of a prefix.
const SEEK: u8 = 0x07;

const SET_FILE_MASK: u8 = 0x1F;

const TRANSFER: u8 = 0x08;

/// Chain command, the only flag of a prefix. Were suppress length indication on too, the chain
/// would go on although the device had taken no mask.
const CHAIN_COMMAND: u8 = 0x40;

/// The prefix through which the job's program starts, for the address at which it will stand, a
/// multiple of 8. It moves the arm to the first cylinder of the first extent, sets the job's mask
/// and goes on to the program in the same chain. Under mask 00, with which each chain begins, it
/// sets none. It has 32 bytes, or 24 under mask 00.
///
/// `None` comes exactly if the prefix can't stand there: the address isn't a multiple of 8, or the
/// prefix reaches past storage, or the program's start lies past storage. `Err` means that memory
/// ran out.
pub fn prefix_at(alloc: Global, address: u32, job: &Job) -> Result<Option<Vec<u8>>, AllocError>
    ensures { IfOk result (λ o. MatchOption o (CanStandAt address job.now → ⊥)
        (λ v. CanStandAt address job.now × (v.items ≡ specs.prefix_at address job.now))) }
{
    if !can_stand_at(address, job) {
        return Ok(None);
    }
    let mut bytes = Vec::new(alloc);
    push_setting_ccws(&mut bytes, address, job)?;
    push_ccw(&mut bytes, TRANSFER, job.start, 0, 0)?;
    bytes.extend_from_slice(&taken_by_prefix(job))?;
    Ok(Some(bytes))
}

/// Whether the job's prefix can stand at an address.
#[tactic(auto, unfolding(ccw_core::specs::Storage::is_aligned))]
fn can_stand_at(address: u32, job: &Job) -> bool
    ensures { IsTrue result ↔ CanStandAt address job.now }
{
    let end = u64::from(address) + u64::from(prefix_len(job));
    address % 8 == 0 && end <= u64::from(job.storage.len()) && job.start < job.storage.len()
}

/// How many bytes the job's prefix has.
fn prefix_len(job: &Job) -> u32
    ensures { (a : ℕ) → length (specs.prefix_at a job.now) ≡ result }
{
    if job.mask.byte() == 0 { 24 } else { 32 }
}

/// Adds the CCWs that move the arm and set the mask.
fn push_setting_ccws(bytes: &mut Vec<u8>, address: u32, job: &Job) -> Result<(), AllocError>
    requires { CanStandAt address job.now }
    ensures { OnOk result (bytes.new.items ≡ bytes.old.items ++ setting_ccws address job.now) }
{
    if job.mask.byte() == 0 {
        return push_ccw(bytes, SEEK, address + 16, CHAIN_COMMAND, 6);
    }
    push_ccw(bytes, SEEK, address + 24, CHAIN_COMMAND, 6)?;
    push_ccw(bytes, SET_FILE_MASK, address + 30, CHAIN_COMMAND, 1)?;
    Ok(())
}

/// Adds a CCW.
fn push_ccw(
    bytes: &mut Vec<u8>,
    command: u8,
    address: u32,
    flags: u8,
    count: u16,
) -> Result<(), AllocError>
    requires { address < STORAGE_LIMIT }
    ensures { let c : ccw.Fields = record
        { command = command; address = address; flags = flags; spare = 0; count = count } in
        OnOk result (bytes.new.items ≡ bytes.old.items ++ ccw.bytes_of c) }
{
    // the address is below the limit
    let added = Ccw::new(command, address, flags, 0, count).unwrap();
    bytes.extend_from_slice(&added.to_bytes())
}

/// What the CCWs of a prefix take: the seek its argument, Set File Mask the job's mask.
fn taken_by_prefix(job: &Job) -> [u8; 8]
    ensures { result ≡ taken_by_prefix (first_cylinder (extents_of job.now)) job.now.mask }
{
    let mut bytes = [0, 0, 0, 0, 0, 0, job.mask.byte(), 0];
    // a job has an extent
    BigEndian::write_u16(&mut bytes[2..4], job.extents.pairs()[0].0);
    bytes
}
