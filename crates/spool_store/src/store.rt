//! The store: the messages that were accepted and have no fate yet, on a disk.
ghost use Rattle.std.specs.Prelude.{◌≡◌, ◌⊎◌, ◌+◌, ◌*◌, ◌-◌, ◌++◌, ◌≤◌, ◌<◌, ◌^◌, min, List, [], ◌∷◌, length, map, Bool, true, false, IfOk, IfErr, IfSome, OnOk, MatchResult, Err};
ghost use Rattle.kumo_base.specs.Causes.{HasCause, Rose};
ghost use Rattle.queue_name.specs.Message.{IsProperMessage};
ghost use Rattle.spool_format.specs.Deferred.{IsProperDeferral};
ghost use Rattle.spool_format.specs.declared.kept.Kept.{Kept};
ghost use Rattle.spool_index.specs.Places.{ids_of, has, without, with_delay, live_size, compacted_size};
ghost use Rattle.spool_store.specs.Content.{fresh, without_kept, with_deferral_kept};
ghost use Rattle.spool_store.specs.Reading.{Recovers, HasContent};
ghost use Rattle.spool_store.specs.Crash.{Since, Either, IsOnDisk, IsOpened, IsNotSynced};
ghost use Rattle.spool_store.specs.declared.faults.HoldFault.TheVariants as hold_fault;
ghost use Rattle.spool_store.specs.Store.{StoreSeen, HasRoom, wants_compact, unplaced, waiting_of, IsOpenFault, IsOpenCause, IsHoldRefusal, IsSettleRefusal, IsCompactRefusal};

use crate::faults::{CompactFault, HoldFault, OpenFault, RewriteFault, SettleFault};
use crate::fitting::{fit, hold_within};
use crate::limits::AREA_LIMIT;
use crate::open::{Opened, sync_both};
use crate::opening::open_synced;
use crate::pending_ids::PendingIds;
use crate::records::{add_deferred, add_settled};
use crate::rewrite::rewrite;
use kumo_disk::Disk;
use queue_name::Message;
use spool_format::{Deferral, Kept, held_length};
use spool_index::Pending;
use spool_log::Log;
use std::alloc::Global;
use std::marker::Model;

/// A spool in use. After a fault of its disk it is down: then no call of it makes a call on the disk, and opening the disk again
/// gives what is pending.
#[derive(Drop)]
pub struct Store<D: Disk + Drop> {
    disk: D,
    log: Log,
    pending: Pending,
    payload: Vec<u8>,
    room: u64,
    down: bool,
}

impl<D: Disk + Drop> Model for Store<D> {
    ghost use Rattle.std.specs.Prelude.{◌≡◌, ◌+◌, false, map};
    ghost use Rattle.spool_store.specs.Store.{StoreSeen, unplaced};
    ghost use Rattle.spool_store.specs.Whole.{IsWhole};

    ghost Value = { StoreSeen D };

    ghost view = { λ s. record { disk = s.disk; pending = map unplaced s.pending; length = s.log.end + 1; room = s.room; down = s.down } };

    ghost invariant = { λ s. s.down ≡ false → IsWhole s.log s.pending s.room (D.seen s.disk) };
}

impl<D: Disk + Drop> Store<D> {
    /// Opens a spool, and answers what is pending in it, in the order of holding. Both areas are synced first; where both are blank
    /// area 0 is made; where the area in force is of the first version, or has no room to settle each pending message, they are
    /// written anew. From the opening syncs on each image stands for what was read. The disk comes back with a refusal:
    /// `Damaged` comes exactly where the bytes are damaged there, `TooLarge` exactly where they are sound and what is pending may need
    /// more than an area may have.
    pub fn open(alloc: Global, disk: D) -> Result<(Store<D>, Vec<Kept>), (OpenFault, D)>
        ensures answer { IfSome (D.seen disk).told (λ read. IfOk result (λ x. Recovers read x.1.items)) }
        ensures fault { IfSome (D.seen disk).told (λ read. IfErr result (λ e. IsOpenFault read e.0)) }
        ensures pending { IfOk result (λ x. x.0.pending ≡ map waiting_of x.1.items) }
        ensures content { IfOk result (λ x. HasContent x.1.items (D.seen x.0.disk)) }
        ensures up { IfOk result (λ x. (x.0.down ≡ false) × (x.0.room ≡ 0)) }
        ensures has_room { IfOk result (λ x. HasRoom x.0) }
        ensures within { IfOk result (λ x. live_size x.0.pending ≤ AREA_LIMIT) }
        ensures on_disk { IfOk result (λ x. IsOnDisk (D.seen x.0.disk)) }
        ensures opened { IfOk result (λ x. IsOpened D.seen disk x.0.disk) }
        ensures stopped { IfErr result (λ e. IsNotSynced (D.seen disk) (D.seen e.1) ⊎ IsOpened D.seen disk e.1) }
        ensures faults { IfErr result (λ e. IsOpenCause (Rose (D.seen disk).faults (D.seen e.1).faults) e.0) }
        ensures later { MatchResult result (λ x. (D.seen disk).faults ≤ (D.seen x.0.disk).faults)
            (λ e. (D.seen disk).faults ≤ (D.seen e.1).faults) }
    {
        let mut disk = disk;
        match sync_both(&mut disk) {
            Ok(()) => {}
            Err(_) => return Err((OpenFault::DiskFault, disk)),
        }
        match open_synced(alloc, &mut disk) {
            Ok((Opened { log, pending, kept }, payload)) => Ok((
                Store {
                    disk,
                    log,
                    pending,
                    payload,
                    room: 0,
                    down: false,
                },
                kept,
            )),
            Err(fault) => Err((fault, disk)),
        }
    }

    /// How many messages are pending.
    pub fn len(&self) -> usize
        ensures { result ≡ length self.now.pending }
    {
        self.pending.len()
    }

    /// The ids of all pending messages, in the order of holding.
    pub fn pending(&self) -> PendingIds<'_>
        ensures { result ≡ ids_of self.now.pending }
    {
        PendingIds {
            walk: self.pending.walk(),
        }
    }

    /// Whether a message is pending.
    pub fn contains(&self, id: u128) -> bool
        ensures { result ≡ has id self.now.pending }
    {
        match self.pending.find(id) {
            Some(_) => true,
            None => false,
        }
    }

    /// Whether the disk has failed.
    pub fn is_down(&self) -> bool
        ensures { result ≡ self.now.down }
    {
        self.down
    }

    /// For how many deferrals there is room.
    pub fn room(&self) -> u64
        ensures { result ≡ self.now.room }
    {
        self.room
    }

    /// Holds a message: at `Ok` it is on the disk. `SpoolFull` comes exactly where the store is up and the pending messages with the
    /// new one may need more than an area may have; where only the area in force has no room, the others are written anew first.
    pub fn hold(&mut self, message: &Message) -> Result<(), HoldFault>
        requires fresh { has message.now.id self.old.pending ≡ false }
        requires proper { IsProperMessage message.now }
        // Each image since the call began has the messages from before, with the new one or without.
        ensures since { self.old.down ≡ false → (before : List Kept) → HasContent before (D.seen self.old.disk)
            → Since (Either before (before ++ fresh message.now ∷ [])) (D.seen self.old.disk) (D.seen self.new.disk) }
        ensures content { (before : List Kept) → HasContent before (D.seen self.old.disk) → self.new.down ≡ false → MatchResult result
            (λ _. HasContent (before ++ fresh message.now ∷ []) (D.seen self.new.disk)) (λ _. HasContent before (D.seen self.new.disk)) }
        ensures on_disk { self.new.down ≡ false → IsOnDisk (D.seen self.new.disk) }
        ensures has_room { self.new.down ≡ false → HasRoom self.new }
        ensures within { self.new.down ≡ false → live_size self.new.pending ≤ AREA_LIMIT }
        ensures ok { OnOk result ((self.new.pending ≡ self.old.pending ++ waiting_of (fresh message.now) ∷ [])
            × (self.new.room ≡ self.old.room) × (self.old.down ≡ false) × (self.new.down ≡ false)) }
        ensures refused { IfErr result (IsHoldRefusal self.old self.new (waiting_of (fresh message.now))
            (Rose (D.seen self.old.disk).faults (D.seen self.new.disk).faults)) }
        ensures full { self.old.down ≡ false → AREA_LIMIT < live_size (self.old.pending ++ waiting_of (fresh message.now) ∷ [])
            → result ≡ Err hold_fault.SpoolFull }
        ensures faults { (D.seen self.old.disk).faults ≤ (D.seen self.new.disk).faults }
    {
        if self.down {
            return Err(HoldFault::Down);
        }
        let size = held_length(message);
        if self.pending.live_size() + 96 + size > AREA_LIMIT {
            return Err(HoldFault::SpoolFull);
        }
        let more = 6 + size + 22 * (self.pending.len() as u64 + 1) + 34 * self.room;
        match hold_within(
            &mut self.disk,
            &mut self.log,
            &mut self.pending,
            &mut self.payload,
            message,
            more,
        ) {
            Ok(()) => Ok(()),
            Err(RewriteFault::DiskFault) => {
                self.down = true;
                Err(HoldFault::DiskFault)
            }
            Err(RewriteFault::Memory) => Err(HoldFault::Memory),
        }
    }

    /// Settles a message: at `Ok` that is on the disk. It takes no memory.
    pub fn settle(&mut self, id: u128) -> Result<(), SettleFault>
        requires known { has id self.old.pending ≡ true }
        ensures since { self.old.down ≡ false → (before : List Kept) → HasContent before (D.seen self.old.disk)
            → Since (Either before (without_kept id before)) (D.seen self.old.disk) (D.seen self.new.disk) }
        ensures content { (before : List Kept) → HasContent before (D.seen self.old.disk)
            → OnOk result (HasContent (without_kept id before) (D.seen self.new.disk)) }
        ensures on_disk { self.new.down ≡ false → IsOnDisk (D.seen self.new.disk) }
        ensures has_room { self.new.down ≡ false → HasRoom self.new }
        ensures within { self.new.down ≡ false → live_size self.new.pending ≤ AREA_LIMIT }
        ensures ok { OnOk result ((self.new.pending ≡ without id self.old.pending)
            × (self.new.room ≡ min self.old.room (length self.new.pending)) × (self.old.down ≡ false) × (self.new.down ≡ false)) }
        ensures length { OnOk result (self.new.length ≡ self.old.length + 22) }
        ensures refused { IfErr result (IsSettleRefusal self.old self.new (Rose (D.seen self.old.disk).faults (D.seen self.new.disk).faults)) }
        ensures faults { (D.seen self.old.disk).faults ≤ (D.seen self.new.disk).faults }
    {
        if self.down {
            return Err(SettleFault::Down);
        }
        match add_settled(&mut self.disk, &mut self.log, &mut self.pending, id) {
            Ok(()) => {
                self.room = self.room.min(self.pending.len() as u64);
                Ok(())
            }
            Err(_) => {
                self.down = true;
                Err(SettleFault::DiskFault)
            }
        }
    }

    /// Defers a message, for which there is room: at `Ok` its failures and the moment from which it is tried next are on the disk.
    /// It takes no memory.
    pub fn defer(&mut self, deferral: Deferral) -> Result<(), SettleFault>
        requires known { has deferral.id self.old.pending ≡ true }
        requires proper { IsProperDeferral deferral }
        requires room { self.old.down ≡ false → 0 < self.old.room }
        ensures since { self.old.down ≡ false → (before : List Kept) → HasContent before (D.seen self.old.disk)
            → Since (Either before (with_deferral_kept deferral before)) (D.seen self.old.disk) (D.seen self.new.disk) }
        ensures content { (before : List Kept) → HasContent before (D.seen self.old.disk)
            → OnOk result (HasContent (with_deferral_kept deferral before) (D.seen self.new.disk)) }
        ensures on_disk { self.new.down ≡ false → IsOnDisk (D.seen self.new.disk) }
        ensures has_room { self.new.down ≡ false → HasRoom self.new }
        ensures within { self.new.down ≡ false → live_size self.new.pending ≤ AREA_LIMIT }
        ensures ok { OnOk result ((self.new.pending ≡ with_delay deferral.id deferral.failures deferral.due self.old.pending)
            × (self.new.room + 1 ≡ self.old.room) × (self.old.down ≡ false) × (self.new.down ≡ false)) }
        ensures length { OnOk result (self.new.length ≡ self.old.length + 34) }
        ensures refused { IfErr result (IsSettleRefusal self.old self.new (Rose (D.seen self.old.disk).faults (D.seen self.new.disk).faults)) }
        ensures faults { (D.seen self.old.disk).faults ≤ (D.seen self.new.disk).faults }
    {
        if self.down {
            return Err(SettleFault::Down);
        }
        match add_deferred(&mut self.disk, &mut self.log, &mut self.pending, deferral) {
            Ok(()) => {
                self.room -= 1;
                Ok(())
            }
            Err(_) => {
                self.down = true;
                Err(SettleFault::DiskFault)
            }
        }
    }

    /// Makes room for so many deferrals besides the settling of all pending messages, if need be by writing them anew.
    pub fn make_room(&mut self, deferrals: u64) -> Result<(), CompactFault>
        requires { deferrals ≤ length self.old.pending }
        ensures since { self.old.down ≡ false → (kept : List Kept) → HasContent kept (D.seen self.old.disk)
            → Since (λ read image. Recovers image kept) (D.seen self.old.disk) (D.seen self.new.disk) }
        ensures content { (kept : List Kept) → HasContent kept (D.seen self.old.disk) → self.new.down ≡ false → HasContent kept (D.seen self.new.disk) }
        ensures on_disk { self.new.down ≡ false → IsOnDisk (D.seen self.new.disk) }
        ensures has_room { self.new.down ≡ false → HasRoom self.new }
        ensures within { self.new.down ≡ false → live_size self.new.pending ≤ AREA_LIMIT }
        ensures ok { OnOk result ((self.new.pending ≡ self.old.pending) × (self.new.room ≡ deferrals)
            × (self.old.down ≡ false) × (self.new.down ≡ false)) }
        ensures refused { IfErr result (IsCompactRefusal self.old self.new (Rose (D.seen self.old.disk).faults (D.seen self.new.disk).faults)) }
        ensures faults { (D.seen self.old.disk).faults ≤ (D.seen self.new.disk).faults }
    {
        if self.down {
            return Err(CompactFault::Down);
        }
        let more = 22 * self.pending.len() as u64 + 34 * deferrals;
        match fit(
            &mut self.disk,
            &mut self.log,
            &mut self.pending,
            &mut self.payload,
            more,
        ) {
            Ok(()) => {
                self.room = deferrals;
                Ok(())
            }
            Err(RewriteFault::DiskFault) => {
                self.down = true;
                Err(CompactFault::DiskFault)
            }
            Err(RewriteFault::Memory) => Err(CompactFault::Memory),
        }
    }

    /// Whether the area is at least 65,536 bytes long and longer than twice what it would be if it was written anew.
    pub fn wants_compact(&self) -> bool
        ensures { result ≡ wants_compact self.now }
    {
        self.log.end >= 65_535 && self.pending.compacted_size() <= self.log.end / 2
    }

    /// Writes the pending messages anew into the other area.
    pub fn compact(&mut self) -> Result<(), CompactFault>
        ensures since { self.old.down ≡ false → (kept : List Kept) → HasContent kept (D.seen self.old.disk)
            → Since (λ read image. Recovers image kept) (D.seen self.old.disk) (D.seen self.new.disk) }
        ensures content { (kept : List Kept) → HasContent kept (D.seen self.old.disk) → self.new.down ≡ false → HasContent kept (D.seen self.new.disk) }
        ensures on_disk { self.new.down ≡ false → IsOnDisk (D.seen self.new.disk) }
        ensures has_room { self.new.down ≡ false → HasRoom self.new }
        ensures within { self.new.down ≡ false → live_size self.new.pending ≤ AREA_LIMIT }
        ensures ok { OnOk result ((self.new.pending ≡ self.old.pending) × (self.new.room ≡ self.old.room)
            × (self.new.length ≡ compacted_size self.old.pending) × (self.old.down ≡ false) × (self.new.down ≡ false)) }
        ensures refused { IfErr result (IsCompactRefusal self.old self.new (Rose (D.seen self.old.disk).faults (D.seen self.new.disk).faults)) }
        ensures faults { (D.seen self.old.disk).faults ≤ (D.seen self.new.disk).faults }
    {
        if self.down {
            return Err(CompactFault::Down);
        }
        match rewrite(
            &mut self.disk,
            &mut self.log,
            &mut self.pending,
            &mut self.payload,
        ) {
            Ok(()) => Ok(()),
            Err(RewriteFault::DiskFault) => {
                self.down = true;
                Err(CompactFault::DiskFault)
            }
            Err(RewriteFault::Memory) => Err(CompactFault::Memory),
        }
    }

    /// The disk.
    pub fn into_disk(self) -> D
        ensures { result ≡ self.disk }
    {
        self.disk
    }
}
