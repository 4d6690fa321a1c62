//! Whether a program that C remembers may start, and whether others may write meanwhile.

ghost use Rattle.std.specs.Prelude.{◌≡◌, ◌≢◌, ◌≤◌, ◌<◌, ◌⊎◌, None, IfErr, IfOk, OnOk, map};
ghost use Rattle.chan_needs.specs.Remembered.{IsKeeperOf, WritesWell};
ghost use Rattle.chan_needs.specs.Row.{in_row};
ghost use Rattle.chan_needs.specs.declared.start.Start as declared;
ghost use Rattle.chanv_c.specs.Answers.{IsAnswerCode, IsRefusal};
ghost use Rattle.chanv_c.specs.Faults.{HasNoFault};
ghost use Rattle.chanv_c.specs.Start as specs;
ghost use Rattle.chanv_c.specs.Job.{uncounted};
ghost use Rattle.chanv_c.specs.Start.{IsStartReply, IsWriteRefused, StartsIfDue, StartsWellFor};
ghost use Rattle.chanv_c.specs.Start.{no_refusal_for_c, refusal_for_c, start_code, start_for_c};
ghost use Rattle.chanv_c.specs.declared.codes.TheConstants.{MEMORY, NO, NO_ROOM, YES};
ghost use Rattle.chanv_c.specs.declared.codes.TheConstants.{STORAGE_TOO_LARGE};

use crate::c_job::{CJob, make_ready};
use crate::codes::{
    NO, NOBODY, REFUSED_CHANGED, REFUSED_KEEPS_STORED_OVER, REFUSED_MASK, REFUSED_NO_CYLINDER,
    REFUSED_NOT_FETCHABLE, REFUSED_NOT_STORABLE, REFUSED_OTHER_DEVICE, REFUSED_OTHER_LENGTH,
    REFUSED_OTHER_START, REFUSED_STORES_OVER_KEPT, REFUSED_WRITES_OVER_KEPT, USUAL_LIMIT, YES,
};
use crate::refusal::Refusal;
use ccw_core::Area;
use chan_needs::{Conflict, Remembered, Row, Start, StartRefusal, check_start, check_write};
use std::alloc::Global;

/// `struct chanv_refusal`.
#[repr(C)]
#[derive(Clone, Copy)]
pub struct CRefusal {
    pub extent: usize,
    pub row: usize,
    pub code: u32,
    pub value: u32,
}

/// The refusal of an answer that isn't a refusal: it names nobody, and all else is 0.
pub(crate) const NO_REFUSAL: CRefusal = CRefusal {
    extent: 0,
    row: NOBODY,
    code: 0,
    value: 0,
};

/// Whether a remembered program may start under the job, together with what is in flight: `YES` if
/// it may; `NO` if not, with the first refusal in `out`. Otherwise it says why there is no answer,
/// like `chanv_verify`, with the first wrong extent if there is one. The call counts no places, so
/// the job's limit doesn't matter.
///
/// A zeroed program may not start, and a row of zeros stops no program.
#[unsafe(no_mangle)]
pub extern "C" fn chanv_check_start(
    alloc: Global,
    job: &CJob<'_>,
    in_flight: &[Row<'_>],
    program: &Remembered<'_>,
    out: &mut CRefusal,
) -> u32
    ensures answer { result ≤ NO → (k : declared.Start)
        × IsStartReply (uncounted job.now) program.now (map in_row in_flight.now) k
        × (result ≡ start_code k) × (out.new ≡ start_for_c k) }

    // If what is remembered is true, a program with a yes may start.
    ensures well { result ≡ YES
        → StartsWellFor (uncounted job.now) program.now (map in_row in_flight.now) }

    // If what is remembered is true, a program that fits has a yes, unless memory runs out.
    ensures due { StartsIfDue (uncounted job.now) program.now (map in_row in_flight.now)
        ((result ≡ YES) ⊎ (result ≡ MEMORY)) }

    ensures number { IsAnswerCode ⊥ (uncounted job.now) result out.new.extent }
    ensures room { result ≢ NO_ROOM }
    ensures nothing { NO < result → out.new ≡ no_refusal_for_c out.new.extent }
    ensures no_extent { result < STORAGE_TOO_LARGE → out.new.extent ≡ 0 }
{
    *out = NO_REFUSAL;
    let uncounted = CJob {
        limit: USUAL_LIMIT,
        ..*job
    };
    match start_reply(alloc, &uncounted, in_flight, program) {
        Ok(Start::Yes) => YES,
        Ok(Start::No(refusal)) => {
            *out = refusal_for_c(refusal);
            NO
        }
        Err(refusal) => {
            out.extent = refusal.extent();
            refusal.code()
        }
    }
}

/// Whether others may write to the area now: `YES` if no row in flight keeps a byte of it;
/// otherwise `NO`, with the first row that does and its least such byte in `out`. The call takes no
/// memory.
#[unsafe(no_mangle)]
pub extern "C" fn chanv_check_write(in_flight: &[Row<'_>], area: &Area, out: &mut CRefusal) -> u32
    ensures spared { result ≡ YES → IsKeeperOf (map in_row in_flight.now) area.now None }

    // If what is remembered of those in flight is true, the history goes on with what is written.
    ensures well { result ≡ YES → WritesWell (map in_row in_flight.now) area.now }

    ensures kept { result ≡ NO → IsWriteRefused (map in_row in_flight.now) area.now out.new }
    ensures nothing { result ≡ YES → out.new ≡ no_refusal_for_c 0 }
    ensures codes { result ≤ NO }
{
    *out = NO_REFUSAL;
    match check_write(in_flight, *area) {
        None => YES,
        Some((row, byte)) => {
            *out = CRefusal {
                row,
                ..refused(REFUSED_WRITES_OVER_KEPT, byte)
            };
            NO
        }
    }
}

/// A refusal that names no row.
pub(crate) fn refused(code: u32, value: u32) -> CRefusal
    ensures { result ≡ specs.refused code value }
{
    CRefusal {
        code,
        value,
        ..NO_REFUSAL
    }
}

/// The fields of a refusal.
fn refusal_for_c(refusal: StartRefusal) -> CRefusal
    ensures { result ≡ refusal_for_c refusal }
{
    match refusal {
        StartRefusal::OtherStart => refused(REFUSED_OTHER_START, 0),
        StartRefusal::OtherDevice => refused(REFUSED_OTHER_DEVICE, 0),
        StartRefusal::OtherLength => refused(REFUSED_OTHER_LENGTH, 0),
        StartRefusal::Changed(byte) => refused(REFUSED_CHANGED, byte),
        StartRefusal::Mask => refused(REFUSED_MASK, 0),
        StartRefusal::Cylinder(cylinder) => refused(REFUSED_NO_CYLINDER, u32::from(cylinder)),
        StartRefusal::Fetch(byte) => refused(REFUSED_NOT_FETCHABLE, byte),
        StartRefusal::Store(byte) => refused(REFUSED_NOT_STORABLE, byte),
        StartRefusal::Conflict(row, Conflict::Stores(byte)) => CRefusal {
            row,
            ..refused(REFUSED_STORES_OVER_KEPT, byte)
        },
        StartRefusal::Conflict(row, Conflict::Keeps(byte)) => CRefusal {
            row,
            ..refused(REFUSED_KEEPS_STORED_OVER, byte)
        },
    }
}

/// Whether the program may start under the job that C asks about, together with those in flight.
fn start_reply(
    alloc: Global,
    asked: &CJob<'_>,
    in_flight: &[Row<'_>],
    program: &Remembered<'_>,
) -> Result<Start, Refusal>
    ensures answer { IfOk result (IsStartReply asked.now program.now (map in_row in_flight.now)) }
    ensures right { OnOk result (HasNoFault asked.now) }
    ensures refusal { IfErr result (IsRefusal ⊥ asked.now) }
{
    let ready = make_ready(alloc, asked)?;
    let job = ready.job(asked);
    Ok(check_start(alloc, &job, program, in_flight)?)
}
