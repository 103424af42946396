//! One, two or three calls of the disk with one purpose. Nothing above these functions speaks of what is torn.
ghost use Rattle.std.specs.Prelude.{◌≡◌, ◌≤◌, ◌<◌, ◌+◌, ◌++◌, ◌^◌, [], ◌∷◌, length, IfSome, OnOk};
ghost use Rattle.kumo_base.specs.Causes.{HasCause};
ghost use Rattle.kumo_disk.specs.Disk.{area_of, ReadMoves, IsDurable, Written, Cut};
ghost use Rattle.kumo_disk.specs.Calls.{Ran};
ghost use Rattle.spool_log.specs.Area.{head_of, body_of};
ghost use Rattle.spool_log.specs.inside.Steps.{KeepsFront, Flips, StaysShort, Becomes};

use kumo_base::Failed;
use kumo_disk::Disk;

/// Writes a piece, which may be empty.
pub fn put<D: Disk>(disk: &mut D, area: u8, at: u64, bytes: &[u8]) -> Result<(), Failed>
    requires area { area < 2 }
    requires at { IfSome (D.seen disk.old).told (λ read. at ≤ length (area_of area read)) }
    ensures ran { Ran area (KeepsFront at) (D.seen disk.old) (D.seen disk.new) }
    ensures written { OnOk result (ReadMoves area (Written at bytes.now) (D.seen disk.old) (D.seen disk.new)) }
    ensures bound { OnOk result (0 < length bytes.now → at + length bytes.now < 2 ^ 63) }
    ensures cause { HasCause (D.seen disk.old).faults (D.seen disk.new).faults result }
{
    if bytes.is_empty() {
        return Ok(());
    }
    disk.write_at(area, at, bytes)
}

/// A record's kind and length.
pub fn head(kind: u8, length: u32) -> [u8; 5]
    ensures { result ≡ head_of kind length }
{
    let [a, b, c, d] = length.to_be_bytes();
    [kind, a, b, c, d]
}

/// Writes a record's kind, length and payload.
pub fn put_body<D: Disk>(
    disk: &mut D,
    area: u8,
    at: u64,
    kind: u8,
    payload: &[u8],
) -> Result<(), Failed>
    requires area { area < 2 }
    requires at { IfSome (D.seen disk.old).told (λ read. at ≤ length (area_of area read)) }
    requires low { at < 2 ^ 63 }
    requires size { length payload.now < 2 ^ 32 }
    ensures ran { Ran area (KeepsFront at) (D.seen disk.old) (D.seen disk.new) }
    ensures written { OnOk result (ReadMoves area (Written at (body_of kind payload.now)) (D.seen disk.old) (D.seen disk.new)) }
    ensures bound { OnOk result (at + 5 + length payload.now < 2 ^ 63) }
    ensures cause { HasCause (D.seen disk.old).faults (D.seen disk.new).faults result }
{
    let head = head(kind, payload.len() as u32);
    put(disk, area, at, &head)?;
    put(disk, area, at + 5, payload)
}

/// Writes a closed gate, and syncs.
pub fn put_gate<D: Disk>(disk: &mut D, area: u8, at: u64) -> Result<(), Failed>
    requires area { area < 2 }
    requires at { IfSome (D.seen disk.old).told (λ read. at ≤ length (area_of area read)) }
    ensures ran { Ran area (KeepsFront at) (D.seen disk.old) (D.seen disk.new) }
    ensures written { OnOk result (ReadMoves area (Written at (0 ∷ [])) (D.seen disk.old) (D.seen disk.new)) }
    ensures durable { OnOk result (IsDurable area (D.seen disk.new)) }
    ensures bound { OnOk result (at + 1 < 2 ^ 63) }
    ensures cause { HasCause (D.seen disk.old).faults (D.seen disk.new).faults result }
{
    disk.write_at(area, at, &[0])?;
    disk.sync(area)
}

/// Writes a record and a closed gate behind it, and syncs.
pub fn stage<D: Disk>(
    disk: &mut D,
    area: u8,
    at: u64,
    kind: u8,
    payload: &[u8],
) -> Result<(), Failed>
    requires area { area < 2 }
    requires at { IfSome (D.seen disk.old).told (λ read. at ≤ length (area_of area read)) }
    requires low { at < 2 ^ 63 }
    requires size { length payload.now < 2 ^ 32 }
    ensures ran { Ran area (KeepsFront at) (D.seen disk.old) (D.seen disk.new) }
    ensures written { OnOk result (ReadMoves area (Written at (body_of kind payload.now ++ 0 ∷ [])) (D.seen disk.old) (D.seen disk.new)) }
    ensures durable { OnOk result (IsDurable area (D.seen disk.new)) }
    ensures bound { OnOk result (at + 6 + length payload.now < 2 ^ 63) }
    ensures cause { HasCause (D.seen disk.old).faults (D.seen disk.new).faults result }
{
    put_body(disk, area, at, kind, payload)?;
    put_gate(disk, area, at + 5 + payload.len() as u64)
}

/// Makes one byte another, and syncs.
pub fn set_gate<D: Disk>(disk: &mut D, area: u8, at: u64, gate: u8) -> Result<(), Failed>
    requires area { area < 2 }
    requires at { IfSome (D.seen disk.old).told (λ read. at < length (area_of area read)) }
    ensures ran { Ran area (Flips at) (D.seen disk.old) (D.seen disk.new) }
    ensures written { OnOk result (ReadMoves area (Written at (gate ∷ [])) (D.seen disk.old) (D.seen disk.new)) }
    ensures durable { OnOk result (IsDurable area (D.seen disk.new)) }
    ensures cause { HasCause (D.seen disk.old).faults (D.seen disk.new).faults result }
{
    disk.write_at(area, at, &[gate])?;
    disk.sync(area)
}

/// Makes an area of at most one byte one closed gate, and syncs.
pub fn empty<D: Disk>(disk: &mut D, area: u8) -> Result<(), Failed>
    requires area { area < 2 }
    requires short { IfSome (D.seen disk.old).told (λ read. length (area_of area read) ≤ 1) }
    ensures ran { Ran area StaysShort (D.seen disk.old) (D.seen disk.new) }
    ensures written { OnOk result (ReadMoves area (Becomes (0 ∷ [])) (D.seen disk.old) (D.seen disk.new)) }
    ensures durable { OnOk result (IsDurable area (D.seen disk.new)) }
    ensures cause { HasCause (D.seen disk.old).faults (D.seen disk.new).faults result }
{
    disk.cut(area, 0)?;
    disk.write_at(area, 0, &[0])?;
    disk.sync(area)
}

/// Cuts an area to nothing, and syncs.
pub fn cut_all<D: Disk>(disk: &mut D, area: u8) -> Result<(), Failed>
    requires area { area < 2 }
    ensures ran { Ran area (Cut 0) (D.seen disk.old) (D.seen disk.new) }
    ensures written { OnOk result (ReadMoves area (Becomes []) (D.seen disk.old) (D.seen disk.new)) }
    ensures durable { OnOk result (IsDurable area (D.seen disk.new)) }
    ensures cause { HasCause (D.seen disk.old).faults (D.seen disk.new).faults result }
{
    disk.cut(area, 0)?;
    disk.sync(area)
}
