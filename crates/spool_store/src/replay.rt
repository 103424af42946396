//! Reading the records of the area in force, which leaves the places of the messages that are pending.
//!
//! The messages themselves are not kept while the records are read: most of them may have been settled since.
ghost use Rattle.std.specs.Prelude.{◌≡◌, ◌≤◌, ◌<◌, ◌+◌, ◌^◌, length, IfOk, IfErr, IfSome, IfNone, MatchOption, Some};
ghost use Rattle.kumo_disk.specs.Disk.{area_of};
ghost use Rattle.spool_log.specs.Area.{IsVersion};
ghost use Rattle.spool_log.specs.Log.{IsFound};
ghost use Rattle.spool_log.specs.declared.log.Found.TheVariants as found;
ghost use Rattle.spool_format.specs.Held.{held_in};
ghost use Rattle.spool_format.specs.Settled.{settled_in};
ghost use Rattle.spool_format.specs.Deferred.{deferred_in};
ghost use Rattle.spool_store.specs.Content.{after, hold_in, settle_in, defer_in};
ghost use Rattle.spool_store.specs.Store.{HasOpenCause};
ghost use Rattle.spool_store.specs.inside.Opening.{IsStill, IsNotLarge};
ghost use Rattle.spool_store.specs.inside.Replay.{Takes, Seen, IsReplayed, BreaksAt};

use crate::faults::OpenFault;
use kumo_base::Memory;
use kumo_disk::Disk;
use spool_format::{FormatFault, read_deferred, read_held, read_settled};
use spool_index::{Pending, Place};
use spool_log::{Log, LogFault, Step};
use std::alloc::Global;

// Takes in a message that is held, unless it is pending. Its payload stands at this offset.
fn take_held(alloc: Global, pending: &mut Pending, at: u64, payload: &[u8]) -> Result<bool, Memory>
    ensures { IfOk result (λ good. Takes good (λ items. hold_in at items (held_in payload.now)) pending.old pending.new) }
{
    let message = match read_held(alloc, payload) {
        Ok(message) => message,
        Err(FormatFault::Malformed) => return Ok(false),
        Err(FormatFault::Memory) => return Err(Memory),
    };
    if pending.find(message.id).is_some() {
        return Ok(false);
    }
    pending.push(Place {
        id: message.id,
        at,
        size: payload.len() as u32,
        failures: 0,
        due: message.created,
    })?;
    Ok(true)
}

// Takes in that a message is settled, where it is pending.
fn take_settled(pending: &mut Pending, payload: &[u8]) -> bool
    ensures { Takes result (λ items. settle_in items (settled_in payload.now)) pending.old pending.new }
{
    let Some(id) = read_settled(payload) else {
        return false;
    };
    if pending.find(id).is_none() {
        return false;
    }
    pending.settle(id);
    true
}

// Takes in that a message is deferred, where it is pending.
fn take_deferred(pending: &mut Pending, payload: &[u8]) -> bool
    ensures { Takes result (λ items. defer_in items (deferred_in payload.now)) pending.old pending.new }
{
    let Some(deferral) = read_deferred(payload) else {
        return false;
    };
    if pending.find(deferral.id).is_none() {
        return false;
    }
    pending.delay(deferral.id, deferral.failures, deferral.due);
    true
}

// Takes in a record, whose gate stands at this offset, and answers whether it is a good one.
fn take_in(
    alloc: Global,
    pending: &mut Pending,
    version: u8,
    at: u64,
    kind: u8,
    payload: &[u8],
) -> Result<bool, Memory>
    requires { at < 2 ^ 63 }
    ensures { IfOk result (λ good. Takes good (λ items. after version at items (record { kind = kind; payload = payload.now }))
        pending.old pending.new) }
{
    if kind == 1 {
        take_held(alloc, pending, at + 6, payload)
    } else if kind == 2 {
        Ok(take_settled(pending, payload))
    } else if kind == 3 && version == 2 {
        Ok(take_deferred(pending, payload))
    } else {
        Ok(false)
    }
}

// Reads one record more, and answers the offset behind it. At the end the log knows its end.
fn step<D: Disk>(
    alloc: Global,
    disk: &mut D,
    log: &mut Log,
    at: u64,
    pending: &mut Pending,
    payload: &mut Vec<u8>,
) -> Result<Option<u64>, OpenFault>
    requires area { log.old.area < 2 }
    requires low { at + 1 < 2 ^ 63 }
    requires seen { IfSome (D.seen disk.old).told (λ read. Seen log.old.header at pending.old (area_of log.old.area read)) }
    ensures next { IfSome (D.seen disk.old).told (λ read. IfOk result (λ o. IfSome o (λ next.
        Seen log.old.header next pending.new (area_of log.old.area read)))) }
    ensures end { IfSome (D.seen disk.old).told (λ read. IfOk result (λ o. IfNone o
        (IsReplayed log.old.header at pending.new (area_of log.old.area read)))) }
    ensures log { IfOk result (λ o. MatchOption o
        (log.new ≡ record { area = log.old.area; header = log.old.header; end = at })
        (λ next. (log.new ≡ log.old) × (at < next) × (next + 1 < 2 ^ 63))) }
    ensures fault { IfSome (D.seen disk.old).told (λ read. IfErr result (BreaksAt log.old.area (area_of log.old.area read))) }
    ensures never_large { IfErr result IsNotLarge }
    ensures still { IsStill (D.seen disk.old) (D.seen disk.new) }
    ensures cause { HasOpenCause (D.seen disk.old).faults (D.seen disk.new).faults result }
{
    let area = log.area;
    let version = log.header.version;
    match log.read_record(disk, at, payload) {
        Ok(Step::Record { kind, next }) => {
            match take_in(alloc, pending, version, at, kind, payload) {
                Ok(true) => Ok(Some(next)),
                Ok(false) => Err(OpenFault::Damaged(area, at)),
                Err(_) => Err(OpenFault::Memory),
            }
        }
        Ok(Step::End) => Ok(None),
        Err(LogFault::DiskFault) => Err(OpenFault::DiskFault),
        Err(LogFault::Damaged(_)) => Err(OpenFault::Damaged(area, at)),
        Err(LogFault::Memory) => Err(OpenFault::Memory),
    }
}

// Reads all records of a log that was found. It then knows its end.
pub fn replay<D: Disk>(alloc: Global, disk: &mut D, log: Log) -> Result<(Log, Pending), OpenFault>
    requires area { log.area < 2 }
    requires version { IsVersion log.header.version }
    requires begins { IfSome (D.seen disk.old).told (λ read. IsFound log.area (area_of log.area read) (found.Open log)) }
    ensures replayed { IfSome (D.seen disk.old).told (λ read. IfOk result (λ x.
        IsReplayed log.header x.0.end x.1 (area_of log.area read))) }
    ensures log { IfOk result (λ x. (x.0.area ≡ log.area) × (x.0.header ≡ log.header) × (x.0.end + 1 < 2 ^ 63)) }
    ensures fault { IfSome (D.seen disk.old).told (λ read. IfErr result (BreaksAt log.area (area_of log.area read))) }
    ensures never_large { IfErr result IsNotLarge }
    ensures still { IsStill (D.seen disk.old) (D.seen disk.new) }
    ensures cause { HasOpenCause (D.seen disk.old).faults (D.seen disk.new).faults result }
{
    let mut pending = Pending::new(alloc);
    let mut payload = Vec::new(alloc);
    let mut here = log;
    let mut at = 16;
    'records: loop {
        match step(alloc, disk, &mut here, at, &mut pending, &mut payload) {
            Ok(Some(next)) => at = next,
            Ok(None) => return Ok((here, pending)),
            Err(fault) => return Err(fault),
        }
    }
}
