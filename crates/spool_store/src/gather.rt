//! Reading each pending message again, from where its payload stands.
ghost use Rattle.std.specs.Prelude.{◌≡◌, ◌<◌, ◌≤◌, ◌+◌, length, take, drop, map, Some, IfOk, IfErr, IfSome, OnOk};
ghost use Rattle.kumo_disk.specs.Disk.{area_of};
ghost use Rattle.spool_format.specs.Held.{held_in};
ghost use Rattle.spool_store.specs.Content.{Item, place_of};
ghost use Rattle.spool_store.specs.Store.{unplaced, waiting_of, HasOpenCause};
ghost use Rattle.spool_store.specs.inside.Opening.{IsStill, IsNotLarge, IsNoDamage, IsNotOfDisk};
ghost use Rattle.spool_store.specs.inside.Replay.{StandsThere, AllStandThere, IsRead, AreRead};

use crate::faults::OpenFault;
use kumo_disk::Disk;
use spool_format::{FormatFault, Kept, read_held};
use spool_index::{Pending, Place};
use std::alloc::Global;

// Reads so many bytes from an offset on.
fn read_bytes<D: Disk>(
    disk: &mut D,
    area: u8,
    at: u64,
    size: u32,
    into: &mut Vec<u8>,
) -> Result<(), OpenFault>
    requires area { area < 2 }
    requires some { 0 < size }
    requires within { IfSome (D.seen disk.old).told (λ read. at + size ≤ length (area_of area read)) }
    ensures bytes { IfSome (D.seen disk.old).told (λ read. OnOk result (into.new.items ≡ take size (drop at (area_of area read)))) }
    ensures long { OnOk result (length into.new.items ≡ size) }
    ensures fault { IfErr result IsNoDamage }
    ensures still { IsStill (D.seen disk.old) (D.seen disk.new) }
    ensures cause { HasOpenCause (D.seen disk.old).faults (D.seen disk.new).faults result }
{
    into.clear();
    if into.resize(size as usize, 0).is_err() {
        return Err(OpenFault::Memory);
    }
    match disk.read_exact(area, at, into) {
        Ok(()) => Ok(()),
        Err(_) => Err(OpenFault::DiskFault),
    }
}

// The message that a payload holds, with what is known of its place.
fn kept_of(alloc: Global, area: u8, place: Place, payload: &[u8]) -> Result<Kept, OpenFault>
    requires { length payload.now ≡ place.size }
    ensures read { (item : Item) → place ≡ place_of item → held_in payload.now ≡ Some item.kept.message → IfOk result (λ k. k ≡ item.kept) }
    ensures fault { (item : Item) → place ≡ place_of item → held_in payload.now ≡ Some item.kept.message → IfErr result IsNoDamage }
    ensures waiting { IfOk result (λ k. waiting_of k ≡ unplaced place) }
    ensures never_large { IfErr result IsNotLarge }
    ensures no_disk { IfErr result IsNotOfDisk }
{
    match read_held(alloc, payload) {
        Ok(message) => {
            if message.id == place.id {
                Ok(Kept {
                    message,
                    failures: place.failures,
                    due: place.due,
                })
            } else {
                Err(OpenFault::Damaged(area, place.at.saturating_sub(6)))
            }
        }
        Err(FormatFault::Malformed) => Err(OpenFault::Damaged(area, place.at.saturating_sub(6))),
        Err(FormatFault::Memory) => Err(OpenFault::Memory),
    }
}

// Reads one message.
fn read_kept<D: Disk>(
    alloc: Global,
    disk: &mut D,
    area: u8,
    place: Place,
    payload: &mut Vec<u8>,
) -> Result<Kept, OpenFault>
    requires area { area < 2 }
    requires stands { IfSome (D.seen disk.old).told (λ read. StandsThere (area_of area read) place) }
    ensures kept { IfSome (D.seen disk.old).told (λ read. IfOk result (IsRead (area_of area read) place)) }
    ensures waiting { IfOk result (λ k. waiting_of k ≡ unplaced place) }
    ensures fault { IfSome (D.seen disk.old).told (λ read. IfErr result IsNoDamage) }
    ensures never_large { IfErr result IsNotLarge }
    ensures still { IsStill (D.seen disk.old) (D.seen disk.new) }
    ensures cause { HasOpenCause (D.seen disk.old).faults (D.seen disk.new).faults result }
{
    if place.size == 0 {
        return Err(OpenFault::Damaged(area, place.at.saturating_sub(6)));
    }
    match read_bytes(disk, area, place.at, place.size, payload) {
        Ok(()) => {}
        Err(fault) => return Err(fault),
    }
    match kept_of(alloc, area, place, payload) {
        Ok(kept) => Ok(kept),
        Err(fault) => Err(fault),
    }
}

// Reads all pending messages.
pub fn gather<D: Disk>(
    alloc: Global,
    disk: &mut D,
    area: u8,
    pending: &Pending,
) -> Result<Vec<Kept>, OpenFault>
    requires area { area < 2 }
    requires stand { IfSome (D.seen disk.old).told (λ read. AllStandThere (area_of area read) pending.now) }
    ensures kept { IfSome (D.seen disk.old).told (λ read. IfOk result (λ kept. AreRead (area_of area read) pending.now kept.items)) }
    ensures pending { IfOk result (λ kept. map unplaced pending.now ≡ map waiting_of kept.items) }
    ensures fault { IfSome (D.seen disk.old).told (λ read. IfErr result IsNoDamage) }
    ensures never_large { IfErr result IsNotLarge }
    ensures still { IsStill (D.seen disk.old) (D.seen disk.new) }
    ensures cause { HasOpenCause (D.seen disk.old).faults (D.seen disk.new).faults result }
{
    let mut kept = Vec::new(alloc);
    let mut payload = Vec::new(alloc);
    let mut walk = pending.walk();
    'places: while let Some(place) = walk.next() {
        let message = match read_kept(alloc, disk, area, place, &mut payload) {
            Ok(message) => message,
            Err(fault) => return Err(fault),
        };
        match kept.push(message) {
            Ok(()) => {}
            Err(_) => return Err(OpenFault::Memory),
        }
    }
    Ok(kept)
}
