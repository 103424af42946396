//! Reading a log record by record.
ghost use Rattle.std.specs.Prelude.{◌≡◌, ◌≤◌, ◌<◌, ◌+◌, ◌^◌, length, take, drop, IfOk, IfErr, IfSome, OnOk};
ghost use Rattle.kumo_disk.specs.Disk.{area_of, Same};
ghost use Rattle.kumo_disk.specs.Calls.{Ran};
ghost use Rattle.spool_log.specs.Log.{HasDiskCause, StepAt, FaultAt, GoesOn, Learns};
ghost use Rattle.spool_log.specs.inside.Steps.{Judges, size_in, IsOther};

use crate::log::Log;
use kumo_disk::Disk;

/// Why an area could not be opened or read.
#[derive(Clone, Copy, Debug, PartialEq, Eq)]
pub enum LogFault {
    /// The disk failed, and its count of faults has risen.
    DiskFault,
    /// The area's bytes are wrong from this offset on.
    Damaged(u64),
    /// There was no memory for a payload.
    Memory,
}

/// What stands at a gate.
#[derive(Clone, Copy, Debug, PartialEq, Eq)]
pub enum Step {
    /// A record of this kind, and the offset of the gate behind it.
    Record { kind: u8, next: u64 },
    /// The log's end.
    End,
}

impl Log {
    /// Reads the record at a gate: `into` then holds its payload and nothing else. At the end the log knows its end. `Damaged` comes
    /// exactly where the gate is open and no whole record and further gate follow; after `DiskFault` the count of faults has risen.
    /// Nothing on the disk changes.
    pub fn read_record<D: Disk>(
        &mut self,
        disk: &mut D,
        at: u64,
        into: &mut Vec<u8>,
    ) -> Result<Step, LogFault>
        requires area { self.old.area < 2 }
        requires low { at + 1 < 2 ^ 63 }
        requires at { IfSome (D.seen disk.old).told (λ read. at < length (area_of self.old.area read)) }
        ensures step { IfSome (D.seen disk.old).told (λ read. IfOk result (StepAt (area_of self.old.area read) at into.new.items)) }
        ensures fault { IfSome (D.seen disk.old).told (λ read. IfErr result (FaultAt (area_of self.old.area read) at)) }
        ensures on { IfOk result (GoesOn at) }
        ensures log { IfOk result (Learns at self.old self.new) }
        ensures same { (D.seen disk.new).told ≡ (D.seen disk.old).told }
        ensures ran { Ran self.old.area Same (D.seen disk.old) (D.seen disk.new) }
        ensures cause { HasDiskCause (D.seen disk.old).faults (D.seen disk.new).faults result }
    {
        let Ok(length) = disk.length(self.area) else {
            return Err(LogFault::DiskFault);
        };
        let mut head = [0u8; 6];
        let Ok(n) = disk.read(self.area, at, &mut head) else {
            return Err(LogFault::DiskFault);
        };
        if n == 0 || head[0] != 1 {
            self.end = at;
            return Ok(Step::End);
        }
        let size = match whole(&head, n, at, length) {
            Some(size) => size,
            None => return Err(LogFault::Damaged(at)),
        };
        read_payload(disk, self.area, at, size, into)?;
        Ok(Step::Record {
            kind: head[1],
            next: at + 6 + size,
        })
    }
}

// The length that a record's head says.
fn size_of(head: &[u8; 6]) -> u64
    ensures value { result ≡ size_in (drop 2 head.now) }
    ensures small { result < 2 ^ 32 }
{
    let [_, _, a, b, c, d] = *head;
    u64::from(u32::from_be_bytes([a, b, c, d]))
}

// The payload's length, where a whole record and a further gate stand at the offset.
fn whole(head: &[u8; 6], n: usize, at: u64, long: u64) -> Option<u64>
    requires { n ≤ 6 }
    ensures judged { Judges at n long head.now result }
    ensures small { IfSome result (λ size. (size < 2 ^ 32) × (at + 7 + size ≤ long)) }
{
    if n < 6 {
        return None;
    }
    let size = size_of(head);
    if long < at {
        return None;
    }
    if long - at < 7 + size {
        return None;
    }
    Some(size)
}

// Reads a payload, which stands six bytes behind its gate.
fn read_payload<D: Disk>(
    disk: &mut D,
    area: u8,
    gate: u64,
    size: u64,
    into: &mut Vec<u8>,
) -> Result<(), LogFault>
    requires area { area < 2 }
    requires gate { gate < 2 ^ 63 }
    requires size { size < 2 ^ 32 }
    requires within { IfSome (D.seen disk.old).told (λ read. gate + 7 + size ≤ length (area_of area read)) }
    ensures bytes { IfSome (D.seen disk.old).told (λ read. OnOk result (into.new.items ≡ take size (drop (gate + 6) (area_of area read)))) }
    ensures long { OnOk result (length into.new.items ≡ size) }
    ensures fault { IfErr result IsOther }
    ensures same { (D.seen disk.new).told ≡ (D.seen disk.old).told }
    ensures ran { Ran area Same (D.seen disk.old) (D.seen disk.new) }
    ensures cause { HasDiskCause (D.seen disk.old).faults (D.seen disk.new).faults result }
{
    into.clear();
    if into.resize(size as usize, 0).is_err() {
        return Err(LogFault::Memory);
    }
    if size == 0 {
        return Ok(());
    }
    match disk.read_exact(area, gate + 6, into) {
        Ok(()) => Ok(()),
        Err(_) => Err(LogFault::DiskFault),
    }
}
