//! Emptying an area, so that another log can be made in it.
ghost use Rattle.std.specs.Prelude.{◌≡◌, ◌≤◌, ◌<◌, ◌==◌, length, IfOk, IfSome, OnOk};
ghost use Rattle.std.proofs.Common.{get_or};
ghost use Rattle.kumo_base.specs.Causes.{HasCause};
ghost use Rattle.kumo_disk.specs.Disk.{area_of, IsDurable, Same};
ghost use Rattle.kumo_disk.specs.Calls.{Ran};
ghost use Rattle.spool_log.specs.Head.{Clears};

use crate::calls::{cut_all, set_gate};
use kumo_base::Failed;
use kumo_disk::Disk;

/// Empties an area of a spool: its first gate is closed before it is cut. In each image since the call began the area is as it was,
/// or blank; after `Ok` it has at most one byte. After `Failed` the count of faults has risen.
pub fn clear<D: Disk>(disk: &mut D, area: u8) -> Result<(), Failed>
    requires area { area < 2 }
    requires durable { IsDurable area (D.seen disk.old) }
    ensures ran { Ran area Clears (D.seen disk.old) (D.seen disk.new) }
    ensures short { OnOk result (IfSome (D.seen disk.new).told (λ read. length (area_of area read) ≤ 1)) }
    ensures durable { OnOk result (IsDurable area (D.seen disk.new)) }
    ensures cause { HasCause (D.seen disk.old).faults (D.seen disk.new).faults result }
{
    let long = disk.length(area)?;
    if long <= 1 {
        return Ok(());
    }
    if gate_is_open(disk, area)? {
        set_gate(disk, area, 0, 0)?;
        return cut_all(disk, area);
    }
    cut_all(disk, area)
}

// Whether the area's first byte is 1.
fn gate_is_open<D: Disk>(disk: &mut D, area: u8) -> Result<bool, Failed>
    requires { area < 2 }
    ensures gate { IfSome (D.seen disk.old).told (λ read. IfOk result (λ yes. yes ≡ (get_or (area_of area read) 0 0 == 1))) }
    ensures same { (D.seen disk.new).told ≡ (D.seen disk.old).told }
    ensures ran { Ran area Same (D.seen disk.old) (D.seen disk.new) }
    ensures cause { HasCause (D.seen disk.old).faults (D.seen disk.new).faults result }
{
    let mut gate = [0u8; 1];
    let n = disk.read(area, 0, &mut gate)?;
    Ok(n > 0 && gate[0] == 1)
}
