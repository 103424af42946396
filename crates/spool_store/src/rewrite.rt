//! Writing the pending messages of a spool anew, into the area that is not in force.
//!
//! Until the last step that area is blank in every image, so that the other one is in force. From then on it is in force itself,
//! and has the same messages pending.
ghost use Rattle.std.specs.Prelude.{◌≡◌, ◌≢◌, ◌≤◌, ◌<◌, ◌+◌, ◌-◌, ◌%◌, ◌^◌, ◌++◌, ◌==◌, if◌then◌else◌, ℕ, List, [], length, take, drop, map, All, IfOk, IfErr, IfSome, OnOk, sum_by};
ghost use Rattle.kumo_base.specs.Causes.{HasCause};
ghost use Rattle.kumo_disk.specs.Disk.{area_of, Same, IsDurable};
ghost use Rattle.kumo_disk.specs.Calls.{Ran};
ghost use Rattle.spool_log.specs.Area.{LogRecord};
ghost use Rattle.spool_log.specs.Head.{Clears};
ghost use Rattle.spool_log.specs.Log.{IsDraft, HasDraft, StaysShut};
ghost use Rattle.spool_index.specs.Places.{compacted_cost, compacted_size, laid_out};
ghost use Rattle.spool_store.specs.inside.Rewriting.{deferral_of, copy_of, copies_of, AreWithin};
ghost use Rattle.spool_format.specs.declared.kept.Kept.{Kept};
ghost use Rattle.spool_store.specs.Reading.{HasContent};
ghost use Rattle.spool_store.specs.Store.{unplaced};
ghost use Rattle.spool_store.specs.Crash.{Since, StandsForRead};
ghost use Rattle.spool_store.specs.Standing.{Stands, IsUndone, HasRewriteCause};

use crate::faults::RewriteFault;
use kumo_base::{Failed, Memory};
use kumo_disk::Disk;
use spool_format::{Deferral, write_deferred};
use spool_index::{Pending, Place};
use spool_log::{Draft, Log, clear};

/// Writes the pending messages anew into the other area, which is then in force with the next generation (modulo 2^64). The buffer
/// is emptied first, and its memory is used again.
///
/// In each image since the call began the same messages are pending. At `Memory` nothing was done. At `DiskFault` the count of
/// faults has risen, and neither the log nor the disk is to be used again.
pub fn rewrite<D: Disk>(
    disk: &mut D,
    log: &mut Log,
    pending: &mut Pending,
    payload: &mut Vec<u8>,
) -> Result<(), RewriteFault>
    requires { Stands log.old pending.old (D.seen disk.old) }
    ensures since { Since StandsForRead (D.seen disk.old) (D.seen disk.new) }
    ensures content { (kept : List Kept) → HasContent kept (D.seen disk.old) → HasContent kept (D.seen disk.new) }
    ensures stands { OnOk result (Stands log.new pending.new (D.seen disk.new)) }
    ensures pending { OnOk result (map unplaced pending.new ≡ map unplaced pending.old) }
    ensures log { OnOk result ((log.new.header.version ≡ 2) × (log.new.end + 1 ≡ compacted_size pending.old)) }
    ensures next { OnOk result ((log.new.area ≡ 1 - log.old.area)
        × (log.new.header.generation ≡ (log.old.header.generation + 1) % 2 ^ 64)) }
    ensures memory { IfErr result (IsUndone ((log.new ≡ log.old) × (pending.new ≡ pending.old) × (disk.new ≡ disk.old))) }
    ensures cause { HasRewriteCause (D.seen disk.old).faults (D.seen disk.new).faults result }
{
    if make_room(pending, payload).is_err() {
        return Err(RewriteFault::Memory);
    }
    match write_anew(disk, log, pending, payload) {
        Ok(()) => {
            pending.relocate();
            Ok(())
        }
        Err(_) => Err(RewriteFault::DiskFault),
    }
}

// Writes the messages into the other area, which is then in force.
fn write_anew<D: Disk>(
    disk: &mut D,
    log: &mut Log,
    pending: &Pending,
    payload: &mut [u8],
) -> Result<(), Failed>
    requires stands { Stands log.old pending.now (D.seen disk.old) }
    requires room { All (λ p. p.size ≤ length payload.old) pending.now }
    ensures since { Since StandsForRead (D.seen disk.old) (D.seen disk.new) }
    ensures stands { OnOk result (Stands log.new (laid_out 16 pending.now) (D.seen disk.new)) }
    ensures next { OnOk result (log.new ≡ record {
      area = 1 - log.old.area;
      header = record { version = 2; generation = (log.old.header.generation + 1) % 2 ^ 64 };
      end = 16 + sum_by compacted_cost pending.now;
    }) }
    ensures cause { HasCause (D.seen disk.old).faults (D.seen disk.new).faults result }
{
    let draft = draft_anew(disk, *log, pending, payload)?;
    *log = draft.open(disk)?;
    Ok(())
}

// Makes a draft of all messages in the other area, which was emptied before.
fn draft_anew<D: Disk>(
    disk: &mut D,
    log: Log,
    pending: &Pending,
    payload: &mut [u8],
) -> Result<Draft, Failed>
    requires area { log.area < 2 }
    requires durable { IsDurable (1 - log.area) (D.seen disk.old) }
    requires room { All (λ p. p.size ≤ length payload.old) pending.now }
    requires within { IfSome (D.seen disk.old).told (λ read. AreWithin (area_of log.area read) pending.now) }
    ensures ran { Ran (1 - log.area) Clears (D.seen disk.old) (D.seen disk.new) }
    ensures draft { IfOk result (λ draft. IfSome (D.seen disk.old).told (λ read.
        IsDraft draft (copies_of (area_of log.area read) pending.now) (D.seen disk.new))) }
    ensures has { IfOk result (λ draft. HasDraft draft (D.seen disk.new)) }
    ensures made { IfOk result (λ draft. draft ≡ record {
      area = 1 - log.area;
      header = record { version = 2; generation = (log.header.generation + 1) % 2 ^ 64 };
      end = 16 + sum_by compacted_cost pending.now;
    }) }
    ensures cause { HasCause (D.seen disk.old).faults (D.seen disk.new).faults result }
{
    let other = 1 - log.area;
    clear(disk, other)?;
    let mut draft = Draft::begin(disk, other, log.header.generation.wrapping_add(1))?;
    copy_all(disk, log.area, pending, &mut draft, payload)?;
    Ok(draft)
}

// A buffer for the payload of each message. After `Memory` it has any bytes.
fn make_room(pending: &Pending, payload: &mut Vec<u8>) -> Result<(), Memory>
    ensures { OnOk result (All (λ p. p.size ≤ length payload.new.items) pending.now) }
{
    payload.clear();
    payload.resize(largest(pending) as usize, 0)?;
    Ok(())
}

// The length of the longest payload, or 0.
fn largest(pending: &Pending) -> u32
    ensures bound { All (λ p. p.size ≤ result) pending.now }
    ensures least { (n : ℕ) → All (λ p. p.size ≤ n) pending.now → result ≤ n }
{
    let mut most = 0;
    let mut walk = pending.walk();
    while let Some(place) = walk.next() {
        if most < place.size {
            most = place.size;
        }
    }
    most
}

// Reads a piece, which may be empty.
fn read_piece<D: Disk>(disk: &mut D, area: u8, at: u64, piece: &mut [u8]) -> Result<(), Failed>
    requires area { area < 2 }
    requires within { IfSome (D.seen disk.old).told (λ read. at + length piece.old ≤ length (area_of area read)) }
    ensures bytes { OnOk result (IfSome (D.seen disk.old).told (λ read.
        piece.new ≡ take (length piece.new) (drop at (area_of area read)))) }
    ensures same { (D.seen disk.new).told ≡ (D.seen disk.old).told }
    ensures ran { Ran area Same (D.seen disk.old) (D.seen disk.new) }
    ensures cause { HasCause (D.seen disk.old).faults (D.seen disk.new).faults result }
{
    if piece.is_empty() {
        return Ok(());
    }
    disk.read_exact(area, at, piece)
}

// Adds the record of a message's failures, where it has some.
fn push_deferral<D: Disk>(disk: &mut D, draft: &mut Draft, place: Place) -> Result<(), Failed>
    requires { HasDraft draft.old (D.seen disk.old) }
    ensures ran { Ran draft.old.area StaysShut (D.seen disk.old) (D.seen disk.new) }
    ensures draft { (rs : List LogRecord) → IsDraft draft.old rs (D.seen disk.old)
        → OnOk result (IsDraft draft.new (rs ++ deferral_of place) (D.seen disk.new)) }
    ensures next { OnOk result (draft.new ≡ record {
      area = draft.old.area;
      header = draft.old.header;
      end = draft.old.end + (if place.failures == 0 then 0 else 34);
    }) }
    ensures cause { HasCause (D.seen disk.old).faults (D.seen disk.new).faults result }
{
    if place.failures == 0 {
        return Ok(());
    }
    let deferral = Deferral {
        id: place.id,
        failures: place.failures,
        due: place.due,
    };
    draft.push(disk, 3, &write_deferred(deferral))
}

// Adds the records of a message, whose payload is read from the area that is in force.
fn copy_one<D: Disk>(
    disk: &mut D,
    area: u8,
    place: Place,
    draft: &mut Draft,
    payload: &mut [u8],
) -> Result<(), Failed>
    requires area { area < 2 }
    requires draft { HasDraft draft.old (D.seen disk.old) }
    requires room { place.size ≤ length payload.old }
    requires within { IfSome (D.seen disk.old).told (λ read. place.at + place.size ≤ length (area_of area read)) }
    ensures ran { Ran draft.old.area StaysShut (D.seen disk.old) (D.seen disk.new) }
    ensures draft { (rs : List LogRecord) → IsDraft draft.old rs (D.seen disk.old) → OnOk result (IfSome (D.seen disk.old).told (λ read.
        IsDraft draft.new (rs ++ copy_of (area_of area read) place) (D.seen disk.new))) }
    ensures has { OnOk result (HasDraft draft.new (D.seen disk.new)) }
    ensures next { OnOk result (draft.new ≡ record {
      area = draft.old.area;
      header = draft.old.header;
      end = draft.old.end + compacted_cost place;
    }) }
    ensures room { length payload.new ≡ length payload.old }
    ensures cause { HasCause (D.seen disk.old).faults (D.seen disk.new).faults result }
{
    let (piece, _) = payload.split_at_mut(place.size as usize);
    read_piece(disk, area, place.at, piece)?;
    draft.push(disk, 1, piece)?;
    push_deferral(disk, draft, place)
}

// Adds the records of all messages.
fn copy_all<D: Disk>(
    disk: &mut D,
    area: u8,
    pending: &Pending,
    draft: &mut Draft,
    payload: &mut [u8],
) -> Result<(), Failed>
    requires area { area < 2 }
    requires apart { draft.old.area ≢ area }
    requires draft { IsDraft draft.old [] (D.seen disk.old) }
    requires room { All (λ p. p.size ≤ length payload.old) pending.now }
    requires within { IfSome (D.seen disk.old).told (λ read. AreWithin (area_of area read) pending.now) }
    ensures ran { Ran draft.old.area StaysShut (D.seen disk.old) (D.seen disk.new) }
    ensures draft { OnOk result (IfSome (D.seen disk.old).told (λ read.
        IsDraft draft.new (copies_of (area_of area read) pending.now) (D.seen disk.new))) }
    ensures has { OnOk result (HasDraft draft.new (D.seen disk.new)) }
    ensures next { OnOk result (draft.new ≡ record {
      area = draft.old.area;
      header = draft.old.header;
      end = draft.old.end + sum_by compacted_cost pending.now;
    }) }
    ensures cause { HasCause (D.seen disk.old).faults (D.seen disk.new).faults result }
{
    let mut walk = pending.walk();
    while let Some(place) = walk.next() {
        copy_one(disk, area, place, draft, payload)?;
    }
    Ok(())
}
