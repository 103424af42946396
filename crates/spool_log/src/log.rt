//! A log: opening an area, making a new one, and adding records.
ghost use Rattle.std.specs.Prelude.{◌≡◌, ◌≤◌, ◌<◌, ◌+◌, ◌++◌, ◌^◌, List, [], ◌∷◌, length, IfOk, IfErr, IfSome, OnOk};
ghost use Rattle.kumo_base.specs.Causes.{HasCause};
ghost use Rattle.kumo_disk.specs.Disk.{area_of, ReadMoves, IsDurable, Same};
ghost use Rattle.kumo_disk.specs.Calls.{Ran};
ghost use Rattle.spool_log.specs.Area.{LogRecord, Form, Adds, Added};
ghost use Rattle.spool_log.specs.Log.{IsReady, IsFound, IsRefused, IsOf, HasDiskCause, Creates};

use crate::calls::{set_gate, stage};
use crate::draft::Draft;
use crate::head::{Header, Start, start_in};
use crate::read::LogFault;
use kumo_base::Failed;
use kumo_disk::Disk;

/// A log: its area, its header, and the offset of the gate behind its last record. It is appended to only where it was made by
/// `create` or `Draft::open`, or was read to its end.
#[derive(Clone, Copy, Debug, PartialEq, Eq)]
pub struct Log {
    /// The area that it is in, 0 or 1.
    pub area: u8,
    /// What its header says.
    pub header: Header,
    /// The offset of the gate behind its last record.
    pub end: u64,
}

/// What an area is.
#[derive(Clone, Copy, Debug, PartialEq, Eq)]
pub enum Found {
    /// No log.
    Blank,
    /// A log, which is to be read from offset 16 on before it is appended to.
    Open(Log),
}

impl Log {
    /// Opens an area. `Damaged` names the least offset at which its header is wrong, and comes exactly where it is; after `DiskFault`
    /// the count of faults has risen. Nothing on the disk changes.
    pub fn open<D: Disk>(disk: &mut D, area: u8) -> Result<Found, LogFault>
        requires { area < 2 }
        ensures found { IfSome (D.seen disk.old).told (λ read. IfOk result (IsFound area (area_of area read))) }
        ensures refused { IfSome (D.seen disk.old).told (λ read. IfErr result (IsRefused (area_of area read))) }
        ensures area { IfOk result (IsOf area) }
        ensures same { (D.seen disk.new).told ≡ (D.seen disk.old).told }
        ensures ran { Ran area Same (D.seen disk.old) (D.seen disk.new) }
        ensures cause { HasDiskCause (D.seen disk.old).faults (D.seen disk.new).faults result }
    {
        let mut head = [0u8; 17];
        let Ok(n) = disk.read(area, 0, &mut head) else {
            return Err(LogFault::DiskFault);
        };
        let (read, _) = head.split_at(n);
        match start_in(read) {
            Start::Blank => Ok(Found::Blank),
            Start::Wrong(at) => Err(LogFault::Damaged(at)),
            Start::Headed(header) => Ok(Found::Open(Log {
                area,
                header,
                end: 16,
            })),
        }
    }

    /// Makes an area of at most one byte a log of version 2 without records. In each image since the call began the area is blank,
    /// or is that log. After `Failed` the count of faults has risen.
    pub fn create<D: Disk>(disk: &mut D, area: u8, generation: u64) -> Result<Log, Failed>
        requires area { area < 2 }
        requires short { IfSome (D.seen disk.old).told (λ read. length (area_of area read) ≤ 1) }
        requires durable { IsDurable area (D.seen disk.old) }
        ensures ran { Ran area (Creates (record { version = 2; generation = generation })) (D.seen disk.old) (D.seen disk.new) }
        ensures form { OnOk result (ReadMoves area (λ old new. Form (record { version = 2; generation = generation }) [] 16 new)
            (D.seen disk.old) (D.seen disk.new)) }
        ensures ready { IfOk result (λ log. IsReady log (D.seen disk.new)) }
        ensures log { IfOk result (λ log. log ≡ record {
          area = area;
          header = record { version = 2; generation = generation };
          end = 16;
        }) }
        ensures cause { HasCause (D.seen disk.old).faults (D.seen disk.new).faults result }
    {
        let draft = Draft::begin(disk, area, generation)?;
        draft.open(disk)
    }

    /// Adds a record. At `Ok` it is on the disk. After `Failed` the count of faults has risen, and the log is not used again.
    pub fn append<D: Disk>(&mut self, disk: &mut D, kind: u8, payload: &[u8]) -> Result<(), Failed>
        requires ready { IsReady self.old (D.seen disk.old) }
        requires size { length payload.now < 2 ^ 32 }
        ensures ran { Ran self.old.area (Adds self.old.header self.old.end (record { kind = kind; payload = payload.now }))
            (D.seen disk.old) (D.seen disk.new) }
        ensures added { OnOk result (ReadMoves self.old.area
            (Added self.old.header self.old.end self.new.end (record { kind = kind; payload = payload.now }))
            (D.seen disk.old) (D.seen disk.new)) }
        ensures ready { OnOk result (IsReady self.new (D.seen disk.new)) }
        ensures next { OnOk result (self.new ≡ record {
          area = self.old.area;
          header = self.old.header;
          end = self.old.end + (6 + length payload.now);
        }) }
        ensures cause { HasCause (D.seen disk.old).faults (D.seen disk.new).faults result }
    {
        stage(disk, self.area, self.end + 1, kind, payload)?;
        set_gate(disk, self.area, self.end, 1)?;
        self.end += 6 + payload.len() as u64;
        Ok(())
    }
}
