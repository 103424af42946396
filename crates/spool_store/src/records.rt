//! One more record in the area in force: a message that is held, one that is settled, one that is deferred.
//!
//! Each function appends one record, and then the pending messages are as the record says; after a fault of the disk the spool is
//! not used again. Nothing here asks whether there is room.
ghost use Rattle.std.specs.Prelude.{◌≡◌, ◌⊎◌, ◌+◌, ◌++◌, ◌≤◌, ◌^◌, ◌<◌, List, [], ◌∷◌, length, true, false, IfErr, OnOk};
ghost use Rattle.kumo_base.specs.Causes.{HasCause};
ghost use Rattle.kumo_base.specs.Limits.{latest_moment};
ghost use Rattle.queue_name.specs.Message.{IsProperMessage};
ghost use Rattle.spool_format.specs.Held.{held_payload};
ghost use Rattle.spool_format.specs.Deferred.{IsProperDeferral};
ghost use Rattle.spool_format.specs.declared.kept.Kept.{Kept};
ghost use Rattle.spool_index.specs.Places.{has, without, with_delay};
ghost use Rattle.spool_store.specs.Content.{fresh, without_kept, with_deferral_kept};
ghost use Rattle.spool_store.specs.Reading.{Recovers, HasContent};
ghost use Rattle.spool_store.specs.Crash.{Since, Either};
ghost use Rattle.spool_store.specs.Standing.{Stands, IsUndone, HasRewriteCause};

use crate::faults::RewriteFault;
use kumo_base::Failed;
use kumo_disk::Disk;
use queue_name::Message;
use spool_format::laws::{written_deferral_is_read, written_id_is_read, written_message_is_read};
use spool_format::{Deferral, write_deferred, write_held, write_settled};
use spool_index::{Pending, Place};
use spool_log::Log;

/// Holds a message that is not pending.
pub fn add_held<D: Disk>(
    disk: &mut D,
    log: &mut Log,
    pending: &mut Pending,
    payload: &mut Vec<u8>,
    message: &Message,
) -> Result<(), RewriteFault>
    requires stands { Stands log.old pending.old (D.seen disk.old) }
    requires fresh { has message.now.id pending.old ≡ false }
    requires proper { IsProperMessage message.now }
    ensures since { (before : List Kept) → HasContent before (D.seen disk.old)
        → Since (Either before (before ++ fresh message.now ∷ [])) (D.seen disk.old) (D.seen disk.new) }
    ensures content { (before : List Kept) → HasContent before (D.seen disk.old)
        → OnOk result (HasContent (before ++ fresh message.now ∷ []) (D.seen disk.new)) }
    ensures stands { OnOk result (Stands log.new pending.new (D.seen disk.new)) }
    ensures pending { OnOk result (pending.new ≡ pending.old ++ (record {
      id = message.now.id;
      at = log.old.end + 6;
      size = length (held_payload message.now);
      failures = 0;
      due = message.now.created;
    }) ∷ []) }
    ensures log { OnOk result (log.new ≡ record {
      area = log.old.area;
      header = log.old.header;
      end = log.old.end + (6 + length (held_payload message.now));
    }) }
    ensures memory { IfErr result (IsUndone ((log.new ≡ log.old) × (pending.new ≡ pending.old) × (disk.new ≡ disk.old))) }
    ensures cause { HasRewriteCause (D.seen disk.old).faults (D.seen disk.new).faults result }
{
    written_message_is_read(message);
    match write_held(message, payload) {
        Ok(()) => {}
        Err(_) => return Err(RewriteFault::Memory),
    }
    let place = Place {
        id: message.id,
        at: log.end + 6,
        size: payload.len() as u32,
        failures: 0,
        due: message.created,
    };
    match pending.push(place) {
        Ok(()) => {}
        Err(_) => return Err(RewriteFault::Memory),
    }
    match log.append(disk, 1, payload) {
        Ok(()) => Ok(()),
        Err(Failed) => Err(RewriteFault::DiskFault),
    }
}

/// Settles a message that is pending. It takes no memory.
pub fn add_settled<D: Disk>(
    disk: &mut D,
    log: &mut Log,
    pending: &mut Pending,
    id: u128,
) -> Result<(), Failed>
    requires stands { Stands log.old pending.old (D.seen disk.old) }
    requires known { has id pending.old ≡ true }
    ensures since { (before : List Kept) → HasContent before (D.seen disk.old)
        → Since (Either before (without_kept id before)) (D.seen disk.old) (D.seen disk.new) }
    ensures content { (before : List Kept) → HasContent before (D.seen disk.old)
        → OnOk result (HasContent (without_kept id before) (D.seen disk.new)) }
    ensures stands { OnOk result (Stands log.new pending.new (D.seen disk.new)) }
    ensures pending { OnOk result (pending.new ≡ without id pending.old) }
    ensures log { OnOk result (log.new ≡ record { area = log.old.area; header = log.old.header; end = log.old.end + 22 }) }
    ensures cause { HasCause (D.seen disk.old).faults (D.seen disk.new).faults result }
{
    written_id_is_read();
    let payload = write_settled(id);
    log.append(disk, 2, &payload)?;
    pending.settle(id);
    Ok(())
}

/// Defers a message that is pending, in an area of version 2. It takes no memory.
pub fn add_deferred<D: Disk>(
    disk: &mut D,
    log: &mut Log,
    pending: &mut Pending,
    deferral: Deferral,
) -> Result<(), Failed>
    requires stands { Stands log.old pending.old (D.seen disk.old) }
    requires version { log.old.header.version ≡ 2 }
    requires known { has deferral.id pending.old ≡ true }
    requires proper { IsProperDeferral deferral }
    ensures since { (before : List Kept) → HasContent before (D.seen disk.old)
        → Since (Either before (with_deferral_kept deferral before)) (D.seen disk.old) (D.seen disk.new) }
    ensures content { (before : List Kept) → HasContent before (D.seen disk.old)
        → OnOk result (HasContent (with_deferral_kept deferral before) (D.seen disk.new)) }
    ensures stands { OnOk result (Stands log.new pending.new (D.seen disk.new)) }
    ensures pending { OnOk result (pending.new ≡ with_delay deferral.id deferral.failures deferral.due pending.old) }
    ensures log { OnOk result (log.new ≡ record { area = log.old.area; header = log.old.header; end = log.old.end + 34 }) }
    ensures cause { HasCause (D.seen disk.old).faults (D.seen disk.new).faults result }
{
    written_deferral_is_read();
    let payload = write_deferred(deferral);
    log.append(disk, 3, &payload)?;
    pending.delay(deferral.id, deferral.failures, deferral.due);
    Ok(())
}
