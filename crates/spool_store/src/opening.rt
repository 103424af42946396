//! Opening a spool whose areas are on the disk, and writing it anew where its area in force is of the first version or has no room.
ghost use Rattle.std.specs.Prelude.{◌≡◌, IfOk, IfErr, IfSome, map};
ghost use Rattle.kumo_disk.specs.Disk.{DiskSeen};
ghost use Rattle.spool_store.specs.Reading.{Recovers, HasContent};
ghost use Rattle.spool_store.specs.Crash.{IsOnDisk, Since, StandsForRead};
ghost use Rattle.spool_store.specs.Store.{unplaced, waiting_of, IsOpenFault, HasOpenCause};
ghost use Rattle.spool_store.specs.Whole.{IsWhole};

use crate::faults::{OpenFault, RewriteFault};
use crate::limits::AREA_LIMIT;
use crate::open::{Opened, reopen};
use crate::rewrite::rewrite;
use kumo_disk::Disk;
use std::alloc::Global;

/// Opens a spool of which a crash leaves what is read. Its area in force then has version 2 and room to settle each pending message.
pub fn open_synced<D: Disk>(alloc: Global, disk: &mut D) -> Result<(Opened, Vec<u8>), OpenFault>
    requires { IsOnDisk (D.seen disk.old) }
    ensures answer { IfSome (D.seen disk.old).told (λ read. IfOk result (λ x. Recovers read x.0.kept.items)) }
    ensures fault { IfSome (D.seen disk.old).told (λ read. IfErr result (IsOpenFault read)) }
    ensures pending { IfOk result (λ x. map unplaced x.0.pending ≡ map waiting_of x.0.kept.items) }
    ensures since { Since StandsForRead (D.seen disk.old) (D.seen disk.new) }
    ensures whole { IfOk result (λ x. IsWhole x.0.log x.0.pending 0 (D.seen disk.new)) }
    ensures content { IfOk result (λ x. HasContent x.0.kept.items (D.seen disk.new)) }
    ensures cause { HasOpenCause (D.seen disk.old).faults (D.seen disk.new).faults result }
{
    let opened = match reopen(alloc, disk) {
        Ok(opened) => opened,
        Err(fault) => return Err(fault),
    };
    if opened.pending.live_size() > AREA_LIMIT {
        return Err(OpenFault::TooLarge(opened.pending.len() as u64));
    }
    let Opened { log, pending, kept } = opened;
    let mut log = log;
    let mut pending = pending;
    let mut payload = Vec::new(alloc);
    if log.header.version == 2 && log.end + 1 + 22 * pending.len() as u64 <= AREA_LIMIT {
        return Ok((Opened { log, pending, kept }, payload));
    }
    match rewrite(disk, &mut log, &mut pending, &mut payload) {
        Ok(()) => Ok((Opened { log, pending, kept }, payload)),
        Err(RewriteFault::DiskFault) => Err(OpenFault::DiskFault),
        Err(RewriteFault::Memory) => Err(OpenFault::Memory),
    }
}
