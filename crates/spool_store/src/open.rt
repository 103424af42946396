//! Opening a spool: both headers say which area is in force, and its records say which messages are pending.
ghost use Rattle.std.specs.Prelude.{◌≡◌, ◌<◌, ◌+◌, ◌%◌, ◌^◌, ◌==◌, [], map, IfOk, IfErr, IfSome, OnOk};
ghost use Rattle.kumo_base.specs.Causes.{HasCause};
ghost use Rattle.kumo_disk.specs.Disk.{area_of, Lasts, IsDurable};
ghost use Rattle.kumo_disk.specs.Calls.{Ran};
ghost use Rattle.spool_log.specs.Area.{Form, IsVersion};
ghost use Rattle.spool_log.specs.Log.{IsFound, IsReady};
ghost use Rattle.spool_log.specs.declared.log.Found.TheVariants as found;
ghost use Rattle.spool_store.specs.Reading.{force_of, force_in, Nothing, InForce, Recovers, HasContent};
ghost use Rattle.spool_store.specs.Crash.{IsOnDisk, Since, StandsForRead};
ghost use Rattle.spool_store.specs.Store.{HasOpenCause, IsOpenFault, unplaced, waiting_of};
ghost use Rattle.spool_store.specs.Standing.{Stands};
ghost use Rattle.spool_store.specs.inside.Opening.{IsStill, IsNotLarge, IsWrongHeader, IsLogOf, start_found, force_chosen, IsEither, Begins, IsOfDisk, first_header};

use crate::faults::OpenFault;
use crate::gather::gather;
use crate::replay::replay;
use kumo_base::Failed;
use kumo_disk::Disk;
use spool_format::Kept;
use spool_index::Pending;
use spool_log::{Found, Log, LogFault, clear};
use std::alloc::Global;

// Which log is in force.
#[derive(Clone, Copy)]
enum Choice {
    // None: both areas are blank.
    Nothing,
    Chosen(Log),
    // Neither generation follows the other.
    Apart,
}

/// A spool that was opened: its log, which was read to its end, where each pending message stands, and the messages.
#[derive(Drop)]
pub struct Opened {
    pub log: Log,
    pub pending: Pending,
    pub kept: Vec<Kept>,
}

// Both areas as they read are on the disk.
pub fn sync_both<D: Disk>(disk: &mut D) -> Result<(), Failed>
    ensures same { (D.seen disk.new).told ≡ (D.seen disk.old).told }
    ensures on_disk { OnOk result (IsOnDisk (D.seen disk.new)) }
    ensures time { Lasts (D.seen disk.old) (D.seen disk.new) }
    ensures cause { HasCause (D.seen disk.old).faults (D.seen disk.new).faults result }
{
    disk.sync(0)?;
    disk.sync(1)
}

// Reads one header.
fn header_of<D: Disk>(disk: &mut D, area: u8) -> Result<Found, OpenFault>
    requires { area < 2 }
    ensures found { IfSome (D.seen disk.old).told (λ read. IfOk result (IsFound area (area_of area read))) }
    ensures fault { IfSome (D.seen disk.old).told (λ read. IfErr result (IsWrongHeader area (area_of area read))) }
    ensures never_large { IfErr result IsNotLarge }
    ensures area { IfOk result (IsLogOf area) }
    ensures still { IsStill (D.seen disk.old) (D.seen disk.new) }
    ensures cause { HasOpenCause (D.seen disk.old).faults (D.seen disk.new).faults result }
{
    match Log::open(disk, area) {
        Ok(Found::Blank) => Ok(Found::Blank),
        Ok(Found::Open(log)) => {
            if log.header.version == 1 || log.header.version == 2 {
                Ok(Found::Open(log))
            } else {
                Err(OpenFault::Damaged(area, 4))
            }
        }
        Err(LogFault::DiskFault) => Err(OpenFault::DiskFault),
        Err(LogFault::Damaged(at)) => Err(OpenFault::Damaged(area, at)),
        Err(LogFault::Memory) => Err(OpenFault::Memory),
    }
}

// Whether the second generation follows the first.
fn follows(first: u64, second: u64) -> bool
    ensures { result ≡ ((first + 1) % 2 ^ 64 == second) }
{
    first.wrapping_add(1) == second
}

// The log in force.
fn choose(first: Found, second: Found) -> Choice
    requires first { IsLogOf 0 first }
    requires second { IsLogOf 1 second }
    ensures force { force_of (start_found first) (start_found second) ≡ force_chosen result }
    ensures either { IsEither first second result }
{
    match (first, second) {
        (Found::Blank, Found::Blank) => Choice::Nothing,
        (Found::Open(log), Found::Blank) => Choice::Chosen(log),
        (Found::Blank, Found::Open(log)) => Choice::Chosen(log),
        (Found::Open(first), Found::Open(second)) => {
            if follows(first.header.generation, second.header.generation) {
                Choice::Chosen(second)
            } else if follows(second.header.generation, first.header.generation) {
                Choice::Chosen(first)
            } else {
                Choice::Apart
            }
        }
    }
}

// Makes area 0 a log, where it is blank.
fn begin<D: Disk>(disk: &mut D) -> Result<Log, Failed>
    requires { IsDurable 0 (D.seen disk.old) }
    ensures ran { Ran 0 Begins (D.seen disk.old) (D.seen disk.new) }
    ensures form { OnOk result (IfSome (D.seen disk.new).told (λ read. Form first_header [] 16 (area_of 0 read))) }
    ensures ready { IfOk result (λ log. IsReady log (D.seen disk.new)) }
    ensures log { IfOk result (λ log. log ≡ record { area = 0; header = first_header; end = 16 }) }
    ensures cause { HasCause (D.seen disk.old).faults (D.seen disk.new).faults result }
{
    clear(disk, 0)?;
    Log::create(disk, 0, 1)
}

// Where both areas are blank.
fn fresh<D: Disk>(alloc: Global, disk: &mut D) -> Result<Opened, OpenFault>
    requires on_disk { IsOnDisk (D.seen disk.old) }
    requires blank { IfSome (D.seen disk.old).told (λ read. force_in read ≡ Nothing) }
    ensures answer { IfSome (D.seen disk.old).told (λ read. IfOk result (λ o. Recovers read o.kept.items)) }
    ensures fault { IfErr result IsOfDisk }
    ensures pending { IfOk result (λ o. map unplaced o.pending ≡ map waiting_of o.kept.items) }
    ensures since { Since StandsForRead (D.seen disk.old) (D.seen disk.new) }
    ensures stands { IfOk result (λ o. Stands o.log o.pending (D.seen disk.new)) }
    ensures content { IfOk result (λ o. HasContent o.kept.items (D.seen disk.new)) }
    ensures version { IfOk result (λ o. IsVersion o.log.header.version) }
    ensures cause { HasOpenCause (D.seen disk.old).faults (D.seen disk.new).faults result }
{
    match begin(disk) {
        Ok(log) => Ok(Opened {
            log,
            pending: Pending::new(alloc),
            kept: Vec::new(alloc),
        }),
        Err(_) => Err(OpenFault::DiskFault),
    }
}

// Where an area is in force.
fn resume<D: Disk>(alloc: Global, disk: &mut D, log: Log) -> Result<Opened, OpenFault>
    requires area { log.area < 2 }
    requires version { IsVersion log.header.version }
    requires on_disk { IsOnDisk (D.seen disk.old) }
    requires begins { IfSome (D.seen disk.old).told (λ read. IsFound log.area (area_of log.area read) (found.Open log)) }
    requires in_force { IfSome (D.seen disk.old).told (λ read. force_in read ≡ InForce log.area) }
    ensures answer { IfSome (D.seen disk.old).told (λ read. IfOk result (λ o. Recovers read o.kept.items)) }
    ensures fault { IfSome (D.seen disk.old).told (λ read. IfErr result (IsOpenFault read)) }
    ensures never_large { IfErr result IsNotLarge }
    ensures pending { IfOk result (λ o. map unplaced o.pending ≡ map waiting_of o.kept.items) }
    ensures still { IsStill (D.seen disk.old) (D.seen disk.new) }
    ensures stands { IfOk result (λ o. Stands o.log o.pending (D.seen disk.new)) }
    ensures version { IfOk result (λ o. IsVersion o.log.header.version) }
    ensures cause { HasOpenCause (D.seen disk.old).faults (D.seen disk.new).faults result }
{
    match replay(alloc, disk, log) {
        Ok((here, pending)) => match gather(alloc, disk, log.area, &pending) {
            Ok(kept) => Ok(Opened {
                log: here,
                pending,
                kept,
            }),
            Err(fault) => Err(fault),
        },
        Err(fault) => Err(fault),
    }
}

// Opens a spool of which a crash leaves what is read. Area 0 is made where both are blank.
pub fn reopen<D: Disk>(alloc: Global, disk: &mut D) -> Result<Opened, OpenFault>
    requires { IsOnDisk (D.seen disk.old) }
    ensures answer { IfSome (D.seen disk.old).told (λ read. IfOk result (λ o. Recovers read o.kept.items)) }
    ensures fault { IfSome (D.seen disk.old).told (λ read. IfErr result (IsOpenFault read)) }
    ensures never_large { IfErr result IsNotLarge }
    ensures pending { IfOk result (λ o. map unplaced o.pending ≡ map waiting_of o.kept.items) }
    ensures since { Since StandsForRead (D.seen disk.old) (D.seen disk.new) }
    ensures stands { IfOk result (λ o. Stands o.log o.pending (D.seen disk.new)) }
    ensures content { IfOk result (λ o. HasContent o.kept.items (D.seen disk.new)) }
    ensures version { IfOk result (λ o. IsVersion o.log.header.version) }
    ensures cause { HasOpenCause (D.seen disk.old).faults (D.seen disk.new).faults result }
{
    let first = match header_of(disk, 0) {
        Ok(first) => first,
        Err(fault) => return Err(fault),
    };
    let second = match header_of(disk, 1) {
        Ok(second) => second,
        Err(fault) => return Err(fault),
    };
    match choose(first, second) {
        Choice::Nothing => match fresh(alloc, disk) {
            Ok(opened) => Ok(opened),
            Err(fault) => Err(fault),
        },
        Choice::Chosen(log) => match resume(alloc, disk, log) {
            Ok(opened) => Ok(opened),
            Err(fault) => Err(fault),
        },
        Choice::Apart => Err(OpenFault::Damaged(1, 8)),
    }
}
