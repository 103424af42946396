//! A log in the making: its header's gate stays closed until all its records are on the disk, so that no crash shows a part of it.
ghost use Rattle.std.specs.Prelude.{◌≡◌, ◌≤◌, ◌<◌, ◌+◌, ◌++◌, ◌^◌, List, [], ◌∷◌, length, IfOk, IfSome, OnOk};
ghost use Rattle.kumo_base.specs.Causes.{HasCause};
ghost use Rattle.kumo_disk.specs.Disk.{area_of, ReadMoves, IsDurable};
ghost use Rattle.kumo_disk.specs.Calls.{Ran};
ghost use Rattle.spool_log.specs.Area.{LogRecord, Form};
ghost use Rattle.spool_log.specs.Log.{IsReady, IsDraft, HasDraft, BeginsBlank, StaysShut, Opens};

use crate::calls::{empty, put, put_body, put_gate, set_gate};
use crate::head::{Header, rest_of_header};
use crate::log::Log;
use kumo_base::Failed;
use kumo_disk::Disk;

/// A log in the making.
#[derive(Clone, Copy, Debug, PartialEq, Eq)]
pub struct Draft {
    /// The area that it is in, 0 or 1.
    pub area: u8,
    /// What its header says.
    pub header: Header,
    /// The offset behind its last record.
    pub end: u64,
}

impl Draft {
    /// Begins a draft of version 2 in an area of at most one byte. Until it is opened every image has the area blank. After `Failed`
    /// the count of faults has risen.
    pub fn begin<D: Disk>(disk: &mut D, area: u8, generation: u64) -> Result<Draft, Failed>
        requires area { area < 2 }
        requires short { IfSome (D.seen disk.old).told (λ read. length (area_of area read) ≤ 1) }
        requires durable { IsDurable area (D.seen disk.old) }
        ensures ran { Ran area BeginsBlank (D.seen disk.old) (D.seen disk.new) }
        ensures draft { IfOk result (λ draft. IsDraft draft [] (D.seen disk.new)) }
        ensures made { IfOk result (λ draft. draft ≡ record {
          area = area;
          header = record { version = 2; generation = generation };
          end = 16;
        }) }
        ensures cause { HasCause (D.seen disk.old).faults (D.seen disk.new).faults result }
    {
        empty(disk, area)?;
        let rest = rest_of_header(generation);
        put(disk, area, 1, &rest)?;
        Ok(Draft {
            area,
            header: Header {
                version: 2,
                generation,
            },
            end: 16,
        })
    }

    /// Adds a record. After `Failed` the count of faults has risen, and the draft is not used again.
    pub fn push<D: Disk>(&mut self, disk: &mut D, kind: u8, payload: &[u8]) -> Result<(), Failed>
        requires draft { HasDraft self.old (D.seen disk.old) }
        requires size { length payload.now < 2 ^ 32 }
        ensures ran { Ran self.old.area StaysShut (D.seen disk.old) (D.seen disk.new) }
        ensures draft { (rs : List LogRecord) → IsDraft self.old rs (D.seen disk.old)
            → OnOk result (IsDraft self.new (rs ++ record { kind = kind; payload = payload.now } ∷ []) (D.seen disk.new)) }
        ensures next { OnOk result (self.new ≡ record {
          area = self.old.area;
          header = self.old.header;
          end = self.old.end + (6 + length payload.now);
        }) }
        ensures cause { HasCause (D.seen disk.old).faults (D.seen disk.new).faults result }
    {
        put(disk, self.area, self.end, &[1])?;
        put_body(disk, self.area, self.end + 1, kind, payload)?;
        self.end += 6 + payload.len() as u64;
        Ok(())
    }

    /// Makes the draft a log: syncs its records, opens its header's gate, and syncs. In each image since the call began the area is
    /// blank, or is that log. After `Failed` the count of faults has risen.
    pub fn open<D: Disk>(self, disk: &mut D) -> Result<Log, Failed>
        requires draft { HasDraft self (D.seen disk.old) }
        ensures ran { (rs : List LogRecord) → IsDraft self rs (D.seen disk.old)
            → Ran self.area (Opens self.header rs self.end) (D.seen disk.old) (D.seen disk.new) }
        ensures form { (rs : List LogRecord) → IsDraft self rs (D.seen disk.old)
            → OnOk result (ReadMoves self.area (λ old new. Form self.header rs self.end new) (D.seen disk.old) (D.seen disk.new)) }
        ensures ready { IfOk result (λ log. IsReady log (D.seen disk.new)) }
        ensures log { IfOk result (λ log. log ≡ record { area = self.area; header = self.header; end = self.end }) }
        ensures cause { HasCause (D.seen disk.old).faults (D.seen disk.new).faults result }
    {
        put_gate(disk, self.area, self.end)?;
        set_gate(disk, self.area, 0, 1)?;
        Ok(Log {
            area: self.area,
            header: self.header,
            end: self.end,
        })
    }
}
