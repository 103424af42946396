//! Room in the area in force: where more bytes would not fit, the pending messages are written anew first.
ghost use Rattle.std.specs.Prelude.{◌≡◌, ◌⊎◌, ◌+◌, ◌*◌, ◌++◌, ◌≤◌, ◌<◌, ◌^◌, List, [], ◌∷◌, length, map, false, IfErr, OnOk, MatchResult};
ghost use Rattle.queue_name.specs.Message.{IsProperMessage};
ghost use Rattle.spool_format.specs.Held.{held_payload};
ghost use Rattle.spool_format.specs.declared.kept.Kept.{Kept};
ghost use Rattle.spool_index.specs.Places.{has, live_size, compacted_size};
ghost use Rattle.spool_store.specs.Content.{fresh};
ghost use Rattle.spool_store.specs.Reading.{Recovers, HasContent};
ghost use Rattle.spool_store.specs.Crash.{Since, Either};
ghost use Rattle.spool_store.specs.Store.{unplaced, waiting_of};
ghost use Rattle.spool_store.specs.Standing.{Stands, IsUndone, HasRewriteCause};
ghost use Rattle.spool_store.specs.Whole.{IsWhole};

use crate::faults::RewriteFault;
use crate::limits::AREA_LIMIT;
use crate::records::add_held;
use crate::rewrite::rewrite;
use kumo_disk::Disk;
use queue_name::Message;
use spool_format::held_length;
use spool_index::Pending;
use spool_log::Log;

/// Makes room for so many bytes more, where they and the record of a later message still fit an area.
pub fn fit<D: Disk>(
    disk: &mut D,
    log: &mut Log,
    pending: &mut Pending,
    payload: &mut Vec<u8>,
    more: u64,
) -> Result<(), RewriteFault>
    requires stands { Stands log.old pending.old (D.seen disk.old) }
    requires version { log.old.header.version ≡ 2 }
    requires more { more ≤ 2 ^ 62 }
    ensures since { (kept : List Kept) → HasContent kept (D.seen disk.old)
        → Since (λ read image. Recovers image kept) (D.seen disk.old) (D.seen disk.new) }
    ensures content { (kept : List Kept) → HasContent kept (D.seen disk.old) → OnOk result (HasContent kept (D.seen disk.new)) }
    ensures stands { OnOk result (Stands log.new pending.new (D.seen disk.new)) }
    ensures pending { OnOk result (map unplaced pending.new ≡ map unplaced pending.old) }
    ensures version { OnOk result (log.new.header.version ≡ 2) }
    ensures fits { OnOk result ((log.new.end + 1 + more ≤ AREA_LIMIT) ⊎ (log.new.end + 1 ≡ compacted_size pending.old)) }
    ensures moved { OnOk result ((log.new.end ≡ log.old.end) ⊎ (log.new.end + 1 ≡ compacted_size pending.old)) }
    ensures memory { IfErr result (IsUndone ((log.new ≡ log.old) × (pending.new ≡ pending.old) × (disk.new ≡ disk.old))) }
    ensures cause { HasRewriteCause (D.seen disk.old).faults (D.seen disk.new).faults result }
{
    if log.end + 1 + more <= AREA_LIMIT {
        return Ok(());
    }
    match rewrite(disk, log, pending, payload) {
        Ok(()) => Ok(()),
        Err(fault) => Err(fault),
    }
}

/// Holds a message that is not pending, where its record and so many bytes more fit, if need be after the others were written anew.
pub fn hold_within<D: Disk>(
    disk: &mut D,
    log: &mut Log,
    pending: &mut Pending,
    payload: &mut Vec<u8>,
    message: &Message,
    more: u64,
) -> Result<(), RewriteFault>
    requires stands { Stands log.old pending.old (D.seen disk.old) }
    requires version { log.old.header.version ≡ 2 }
    requires fresh { has message.now.id pending.old ≡ false }
    requires proper { IsProperMessage message.now }
    requires more { more ≤ 2 ^ 62 }
    ensures since { (before : List Kept) → HasContent before (D.seen disk.old)
        → Since (Either before (before ++ fresh message.now ∷ [])) (D.seen disk.old) (D.seen disk.new) }
    ensures content { (before : List Kept) → HasContent before (D.seen disk.old)
        → MatchResult result (λ _. HasContent (before ++ fresh message.now ∷ []) (D.seen disk.new)) (IsUndone (HasContent before (D.seen disk.new))) }
    ensures stands { MatchResult result (λ _. Stands log.new pending.new (D.seen disk.new)) (IsUndone (Stands log.new pending.new (D.seen disk.new))) }
    ensures pending { MatchResult result
        (λ _. map unplaced pending.new ≡ map unplaced pending.old ++ waiting_of (fresh message.now) ∷ [])
        (IsUndone (map unplaced pending.new ≡ map unplaced pending.old)) }
    ensures version { MatchResult result (λ _. log.new.header.version ≡ 2) (IsUndone (log.new.header.version ≡ 2)) }
    ensures fits { OnOk result ((log.new.end + 1 + more ≤ AREA_LIMIT + (6 + length (held_payload message.now)))
        ⊎ (log.new.end + 1 ≡ compacted_size pending.old + (6 + length (held_payload message.now)))) }
    ensures memory { IfErr result (IsUndone ((log.new.end ≡ log.old.end) ⊎ (log.new.end + 1 ≡ compacted_size pending.old))) }
    ensures cause { HasRewriteCause (D.seen disk.old).faults (D.seen disk.new).faults result }
{
    match fit(disk, log, pending, payload, more) {
        Ok(()) => {}
        Err(fault) => return Err(fault),
    }
    match add_held(disk, log, pending, payload, message) {
        Ok(()) => Ok(()),
        Err(fault) => Err(fault),
    }
}
