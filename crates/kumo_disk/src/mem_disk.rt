//! A disk in memory, of which a crash may leave what the calls that were made allow.
//!
//! It keeps every call with the bytes that the call replaced or cut off, so a call costs what it writes or cuts off, and what was
//! read before a call is found by going back from what is read now. Chosen calls can be made to fail.
ghost use Rattle.std.specs.Prelude.{◌≡◌, ◌⊎◌, ◌≤◌, ◌<◌, ◌∷◌, ◌++◌, ◌+◌, ◌^◌, [], length, take, drop, All, IfOk, IfSome, OnOk, OnErr, IsErr, MatchOption, slice_get};
ghost use Rattle.kumo_base.specs.Causes.{Rose, HasCause};
ghost use Rattle.kumo_disk.specs.Disk.{area_of, with_bytes, Lasts, Each, ReadMoves, IsDurable, Same, Written, Torn, Shortened, Cut, Places};
ghost use Rattle.kumo_disk.specs.Failing.{plan_of, no_plan, with_chosen, with_fuse, mended, WillFail, after_call};
ghost use Rattle.kumo_disk.specs.Memory.{mem_seen, reads, with_area, Holds, HoldsImage, refusals, LeavesEach, SameAs, ShowsSame};
ghost use Rattle.kumo_disk.specs.inside.Keeping.{Keeps, IsRefused};

use crate::crash::{Areas, Synced, branches, first_unsynced};
use crate::disk::Disk;
use crate::kept_call::{Effect, KeptCall, overwrite, piece_of, place};
use crate::schedule::{DiskCall, Schedule};
use kumo_base::{Failed, Memory};
use std::alloc::Global;

/// A disk in memory. After a call that was made to fail it reads as before, and a crash may leave what the call would have done.
#[derive(Drop)]
pub struct MemDisk {
    alloc: Global,
    first: Vec<u8>,
    second: Vec<u8>,
    calls: Vec<KeptCall>,
    schedule: Schedule,
    faults: u64,
    refused: u64,
}

impl MemDisk {
    /// An empty disk.
    pub fn new(alloc: Global) -> MemDisk
        ensures holds { Holds [] [] (mem_seen result) }
        ensures plan { plan_of result ≡ no_plan }
    {
        MemDisk::of(alloc, Vec::new(alloc), Vec::new(alloc))
    }

    /// A disk with these bytes in its areas, both durable.
    pub fn of(alloc: Global, first: Vec<u8>, second: Vec<u8>) -> MemDisk
        ensures holds { Holds first.items second.items (mem_seen result) }
        ensures plan { plan_of result ≡ no_plan }
    {
        MemDisk {
            alloc,
            first,
            second,
            calls: Vec::new(alloc),
            schedule: Schedule::new(alloc),
            faults: 0,
            refused: 0,
        }
    }

    /// What a read gives of an area.
    pub fn bytes(&self, area: u8) -> &[u8]
        requires { area < 2 }
        ensures { result.now ≡ area_of area (reads self.now) }
    {
        if area == 0 {
            self.first.as_slice()
        } else {
            self.second.as_slice()
        }
    }

    /// Makes the k-th call of a kind fail, counted from 1 over the disk's life. At `Memory` nothing is made to fail.
    pub fn fail_at(&mut self, kind: DiskCall, k: u64) -> Result<(), Memory>
        ensures same { ShowsSame (mem_seen self.old) (mem_seen self.new) }
        ensures ok { OnOk result (plan_of self.new ≡ with_chosen kind k (plan_of self.old)) }
        ensures err { OnErr result (plan_of self.new ≡ plan_of self.old) }
    {
        self.schedule.fail_at(kind, k)
    }

    /// Makes the k-th call from now, counted from 1, and every later one fail. The sooner of two fuses counts.
    pub fn fuse(&mut self, k: u64)
        ensures same { ShowsSame (mem_seen self.old) (mem_seen self.new) }
        ensures plan { plan_of self.new ≡ with_fuse k (plan_of self.old) }
    {
        self.schedule.fuse(k);
    }

    /// Makes no call fail any more.
    pub fn mend(&mut self)
        ensures same { ShowsSame (mem_seen self.old) (mem_seen self.new) }
        ensures plan { plan_of self.new ≡ mended (plan_of self.old) }
    {
        self.schedule.mend();
    }

    /// Some of the images that a crash may leave now, each as a disk that holds it; the first one as the disk reads. For each call
    /// that no sync of its area follows: without this call, and with parts of it, all later calls made or none.
    pub fn images(&self) -> Result<Vec<MemDisk>, Memory>
        ensures sound { IfOk result (λ disks. All (λ d. HoldsImage (mem_seen self.now) d) disks.items) }
        ensures first { IfOk result (λ disks. MatchOption (slice_get disks.items 0) ⊥
            (λ d. Holds (reads self.now).first (reads self.now).second (mem_seen d))) }
    {
        let calls = self.calls.as_slice();
        let areas = Areas::copied(self.alloc, self.first.as_slice(), self.second.as_slice())?;
        let mut found = branches(
            self.alloc,
            calls,
            first_unsynced(calls),
            Synced::neither(),
            &areas,
        )?;
        let _ = found.pop();
        let mut disks = Vec::new(self.alloc);
        disks.push(MemDisk::of(self.alloc, areas.first, areas.second))?;
        while let Some(branch) = found.pop() {
            let Areas { first, second } = branch.areas;
            disks.push(MemDisk::of(self.alloc, first, second))?;
        }
        Ok(disks)
    }

    /// Keeps a call, and puts these bytes at its offset. At `Memory` all is as it was.
    fn change(&mut self, call: KeptCall, bytes: &[u8]) -> Result<(), Memory>
        requires area { call.area < 2 }
        requires at { call.at ≤ length (area_of call.area (reads self.old)) }
        ensures calls { OnOk result (self.new.calls.items ≡ self.old.calls.items ++ call ∷ []) }
        ensures ok { OnOk result (reads self.new
            ≡ with_area call.area (with_bytes call.at bytes.now (area_of call.area (reads self.old))) (reads self.old)) }
        ensures err { OnErr result ((reads self.new ≡ reads self.old) × (self.new.calls.items ≡ self.old.calls.items)) }
        ensures faults { (self.new.faults ≡ self.old.faults) × (self.new.refused ≡ self.old.refused) }
        ensures plan { plan_of self.new ≡ plan_of self.old }
    {
        let area = call.area;
        let at = call.at;
        self.calls.push(call)?;
        let held = if area == 0 {
            overwrite(&mut self.first, at, bytes)
        } else {
            overwrite(&mut self.second, at, bytes)
        };
        if held.is_err() {
            let _ = self.calls.pop();
        }
        held
    }

    /// Writes, and keeps it. At `Memory` all is as it was.
    fn write(&mut self, area: u8, at: usize, bytes: &[u8]) -> Result<(), Memory>
        requires area { area < 2 }
        requires at { at ≤ length (area_of area (reads self.old)) }
        ensures keeps { OnOk result (Keeps area (Effect.Write (length bytes.now)) at self.old self.new) }
        ensures ok { OnOk result (reads self.new
            ≡ with_area area (with_bytes at bytes.now (area_of area (reads self.old))) (reads self.old)) }
        ensures err { OnErr result ((reads self.new ≡ reads self.old) × (self.new.calls.items ≡ self.old.calls.items)) }
        ensures faults { (self.new.faults ≡ self.old.faults) × (self.new.refused ≡ self.old.refused) }
        ensures plan { plan_of self.new ≡ plan_of self.old }
    {
        let placed = bytes.len();
        let replaced = piece_of(self.alloc, self.bytes(area), at, placed)?;
        let unwritten = Vec::new(self.alloc);
        let call = KeptCall {
            area,
            effect: Effect::Write(placed),
            at,
            placed,
            replaced,
            unwritten,
        };
        self.change(call, bytes)?;
        Ok(())
    }

    /// Cuts an area, and keeps nothing.
    fn truncate(&mut self, area: u8, end: usize)
        requires { area < 2 }
        ensures cut { reads self.new ≡ with_area area (take end (area_of area (reads self.old))) (reads self.old) }
        ensures calls { self.new.calls.items ≡ self.old.calls.items }
        ensures faults { (self.new.faults ≡ self.old.faults) × (self.new.refused ≡ self.old.refused) }
        ensures plan { plan_of self.new ≡ plan_of self.old }
    {
        if area == 0 {
            self.first.truncate(end);
        } else {
            self.second.truncate(end);
        }
    }

    /// Cuts, and keeps it. At `Memory` all is as it was.
    fn shorten(&mut self, area: u8, end: usize) -> Result<(), Memory>
        requires area { area < 2 }
        requires end { end ≤ length (area_of area (reads self.old)) }
        ensures keeps { OnOk result (Keeps area Effect.Shorten end self.old self.new) }
        ensures ok { OnOk result (reads self.new ≡ with_area area (take end (area_of area (reads self.old))) (reads self.old)) }
        ensures err { OnErr result ((reads self.new ≡ reads self.old) × (self.new.calls.items ≡ self.old.calls.items)) }
        ensures faults { (self.new.faults ≡ self.old.faults) × (self.new.refused ≡ self.old.refused) }
        ensures plan { plan_of self.new ≡ plan_of self.old }
    {
        let long = self.bytes(area).len();
        let replaced = piece_of(self.alloc, self.bytes(area), end, long - end)?;
        let unwritten = Vec::new(self.alloc);
        let call = KeptCall {
            area,
            effect: Effect::Shorten,
            at: end,
            placed: 0,
            replaced,
            unwritten,
        };
        self.calls.push(call)?;
        self.truncate(area, end);
        Ok(())
    }

    /// Keeps a call that leaves the bytes as they read, with the bytes that it did not write. At `Memory` all is as it was.
    fn keep(&mut self, area: u8, effect: Effect, at: usize, bytes: &[u8]) -> Result<(), Memory>
        ensures keeps { OnOk result (Keeps area effect at self.old self.new) }
        ensures calls { OnErr result (self.new.calls.items ≡ self.old.calls.items) }
        ensures same { reads self.new ≡ reads self.old }
        ensures faults { (self.new.faults ≡ self.old.faults) × (self.new.refused ≡ self.old.refused) }
        ensures plan { plan_of self.new ≡ plan_of self.old }
    {
        let unwritten = Vec::from_slice(self.alloc, bytes)?;
        let replaced = Vec::new(self.alloc);
        self.calls.push(KeptCall {
            area,
            effect,
            at,
            placed: 0,
            replaced,
            unwritten,
        })?;
        Ok(())
    }

    /// Keeps a call that failed, where there is memory for it.
    fn keep_failed(&mut self, area: u8, effect: Effect, at: usize, bytes: &[u8])
        ensures keeps { Keeps area effect at self.old self.new ⊎ IsRefused self.old self.new }
        ensures same { reads self.new ≡ reads self.old }
        ensures faults { self.new.faults ≡ self.old.faults }
        ensures plan { plan_of self.new ≡ plan_of self.old }
    {
        match self.keep(area, effect, at, bytes) {
            Ok(()) => {}
            Err(_) => self.refused = self.refused.saturating_add(1),
        }
    }
}

impl Disk for MemDisk {
    ghost seen = { λ disk. mem_seen disk };

    fn length(&mut self, area: u8) -> Result<u64, Failed>
        requires { area < 2 }
        ensures bound { IfOk result (λ n. n < 2 ^ 63) }
        ensures value { IfSome (mem_seen self.old).told (λ read. IfOk result (λ n. n ≡ length (area_of area read))) }
        ensures same { (mem_seen self.new).told ≡ (mem_seen self.old).told }
        ensures time { Lasts (mem_seen self.old) (mem_seen self.new) }
        ensures images { IfSome (mem_seen self.old).told (λ _. Each area Same (mem_seen self.old) (mem_seen self.new)) }
        ensures cause { HasCause (mem_seen self.old).faults (mem_seen self.new).faults result }
        ensures each { LeavesEach area Same (mem_seen self.old) (mem_seen self.new) }
        ensures fails { WillFail (plan_of self.old) DiskCall.Length → IsErr result }
        ensures only { OnErr result (WillFail (plan_of self.old) DiskCall.Length) }
        ensures plan { plan_of self.new ≡ after_call DiskCall.Length (plan_of self.old) }
    {
        if self.schedule.fails(DiskCall::Length) {
            self.faults = self.faults.saturating_add(1);
            return Err(Failed);
        }
        Ok(self.bytes(area).len() as u64)
    }

    fn read(&mut self, area: u8, at: u64, buffer: &mut [u8]) -> Result<usize, Failed>
        requires area { area < 2 }
        requires buffer { 0 < length buffer.old }
        ensures bound { IfOk result (λ n. n ≤ length buffer.new) }
        ensures bytes { IfSome (mem_seen self.old).told (λ read. IfOk result (λ n. Places (area_of area read) at n buffer.new)) }
        ensures same { (mem_seen self.new).told ≡ (mem_seen self.old).told }
        ensures time { Lasts (mem_seen self.old) (mem_seen self.new) }
        ensures images { IfSome (mem_seen self.old).told (λ _. Each area Same (mem_seen self.old) (mem_seen self.new)) }
        ensures cause { HasCause (mem_seen self.old).faults (mem_seen self.new).faults result }
        ensures each { LeavesEach area Same (mem_seen self.old) (mem_seen self.new) }
        ensures fails { WillFail (plan_of self.old) DiskCall.Read → IsErr result }
        ensures only { OnErr result (WillFail (plan_of self.old) DiskCall.Read) }
        ensures plan { plan_of self.new ≡ after_call DiskCall.Read (plan_of self.old) }
    {
        if self.schedule.fails(DiskCall::Read) {
            self.faults = self.faults.saturating_add(1);
            return Err(Failed);
        }
        Ok(place(self.bytes(area), at, buffer))
    }

    fn read_exact(&mut self, area: u8, at: u64, buffer: &mut [u8]) -> Result<(), Failed>
        requires area { area < 2 }
        requires buffer { 0 < length buffer.old }
        requires within { IfSome (mem_seen self.old).told (λ read. at + length buffer.old ≤ length (area_of area read)) }
        ensures bytes { OnOk result (IfSome (mem_seen self.old).told (λ read. buffer.new ≡ take (length buffer.new) (drop at (area_of area read)))) }
        ensures same { (mem_seen self.new).told ≡ (mem_seen self.old).told }
        ensures time { Lasts (mem_seen self.old) (mem_seen self.new) }
        ensures images { IfSome (mem_seen self.old).told (λ _. Each area Same (mem_seen self.old) (mem_seen self.new)) }
        ensures cause { HasCause (mem_seen self.old).faults (mem_seen self.new).faults result }
        ensures each { LeavesEach area Same (mem_seen self.old) (mem_seen self.new) }
        ensures fails { WillFail (plan_of self.old) DiskCall.Read → IsErr result }
        ensures only { OnErr result (WillFail (plan_of self.old) DiskCall.Read) }
        ensures plan { plan_of self.new ≡ after_call DiskCall.Read (plan_of self.old) }
    {
        if self.schedule.fails(DiskCall::Read) {
            self.faults = self.faults.saturating_add(1);
            return Err(Failed);
        }
        place(self.bytes(area), at, buffer);
        Ok(())
    }

    fn write_at(&mut self, area: u8, at: u64, bytes: &[u8]) -> Result<(), Failed>
        requires area { area < 2 }
        requires some { 0 < length bytes.now }
        requires at { IfSome (mem_seen self.old).told (λ read. at ≤ length (area_of area read)) }
        ensures bound { OnOk result (at + length bytes.now < 2 ^ 63) }
        ensures written { OnOk result (ReadMoves area (Written at bytes.now) (mem_seen self.old) (mem_seen self.new)) }
        ensures part { ReadMoves area (λ old. Torn at (length bytes.now) (length old) old) (mem_seen self.old) (mem_seen self.new) }
        ensures time { Lasts (mem_seen self.old) (mem_seen self.new) }
        ensures images { IfSome (mem_seen self.old).told (λ read.
            Each area (Torn at (length bytes.now) (length (area_of area read))) (mem_seen self.old) (mem_seen self.new)) }
        ensures cause { HasCause (mem_seen self.old).faults (mem_seen self.new).faults result }
        ensures each { LeavesEach area (Torn at (length bytes.now) (length (area_of area (reads self.old)))) (mem_seen self.old) (mem_seen self.new)
            ⊎ IsErr result × Rose (refusals self.old) (refusals self.new) }
        ensures failed { OnErr result (reads self.new ≡ reads self.old) }
        ensures fails { WillFail (plan_of self.old) DiskCall.WriteAt → IsErr result }
        ensures only { OnErr result (WillFail (plan_of self.old) DiskCall.WriteAt ⊎ Rose (refusals self.old) (refusals self.new)) }
        ensures plan { plan_of self.new ≡ after_call DiskCall.WriteAt (plan_of self.old) }
    {
        if self.schedule.fails(DiskCall::WriteAt) {
            self.keep_failed(area, Effect::Write(bytes.len()), at as usize, bytes);
            self.faults = self.faults.saturating_add(1);
            return Err(Failed);
        }
        match self.write(area, at as usize, bytes) {
            Ok(()) => Ok(()),
            Err(_) => {
                self.refused = self.refused.saturating_add(1);
                self.faults = self.faults.saturating_add(1);
                Err(Failed)
            }
        }
    }

    fn cut(&mut self, area: u8, end: u64) -> Result<(), Failed>
        requires area { area < 2 }
        requires end { IfSome (mem_seen self.old).told (λ read. end ≤ length (area_of area read)) }
        ensures done { OnOk result (ReadMoves area (Shortened end) (mem_seen self.old) (mem_seen self.new)) }
        ensures part { ReadMoves area (Cut end) (mem_seen self.old) (mem_seen self.new) }
        ensures time { Lasts (mem_seen self.old) (mem_seen self.new) }
        ensures images { IfSome (mem_seen self.old).told (λ _. Each area (Cut end) (mem_seen self.old) (mem_seen self.new)) }
        ensures cause { HasCause (mem_seen self.old).faults (mem_seen self.new).faults result }
        ensures each { LeavesEach area (Cut end) (mem_seen self.old) (mem_seen self.new)
            ⊎ IsErr result × Rose (refusals self.old) (refusals self.new) }
        ensures failed { OnErr result (reads self.new ≡ reads self.old) }
        ensures fails { WillFail (plan_of self.old) DiskCall.Cut → IsErr result }
        ensures only { OnErr result (WillFail (plan_of self.old) DiskCall.Cut ⊎ Rose (refusals self.old) (refusals self.new)) }
        ensures plan { plan_of self.new ≡ after_call DiskCall.Cut (plan_of self.old) }
    {
        if self.schedule.fails(DiskCall::Cut) {
            self.keep_failed(area, Effect::Shorten, end as usize, &[]);
            self.faults = self.faults.saturating_add(1);
            return Err(Failed);
        }
        match self.shorten(area, end as usize) {
            Ok(()) => Ok(()),
            Err(_) => {
                self.refused = self.refused.saturating_add(1);
                self.faults = self.faults.saturating_add(1);
                Err(Failed)
            }
        }
    }

    fn sync(&mut self, area: u8) -> Result<(), Failed>
        requires { area < 2 }
        ensures durable { OnOk result (IsDurable area (mem_seen self.new)) }
        ensures same { (mem_seen self.new).told ≡ (mem_seen self.old).told }
        ensures time { Lasts (mem_seen self.old) (mem_seen self.new) }
        ensures images { IfSome (mem_seen self.old).told (λ _. Each area Same (mem_seen self.old) (mem_seen self.new)) }
        ensures cause { HasCause (mem_seen self.old).faults (mem_seen self.new).faults result }
        ensures each { OnOk result (LeavesEach area (SameAs (area_of area (reads self.old))) (mem_seen self.old) (mem_seen self.new)) }
        ensures failed { OnErr result (LeavesEach area Same (mem_seen self.old) (mem_seen self.new)) }
        ensures fails { WillFail (plan_of self.old) DiskCall.Sync → IsErr result }
        ensures only { OnErr result (WillFail (plan_of self.old) DiskCall.Sync ⊎ Rose (refusals self.old) (refusals self.new)) }
        ensures plan { plan_of self.new ≡ after_call DiskCall.Sync (plan_of self.old) }
    {
        if self.schedule.fails(DiskCall::Sync) {
            self.faults = self.faults.saturating_add(1);
            return Err(Failed);
        }
        match self.keep(area, Effect::Sync, 0, &[]) {
            Ok(()) => Ok(()),
            Err(_) => {
                self.refused = self.refused.saturating_add(1);
                self.faults = self.faults.saturating_add(1);
                Err(Failed)
            }
        }
    }
}
