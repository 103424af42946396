//! The disk of a spool: two areas of bytes, each of which is read, written from an offset on, cut, and synced.
//!
//! What a crash may leave is said call by call. Between two syncs of an area each written range, and all past an end that a write
//! made longer, may hold any bytes, the length is between the old and the new one, and all other bytes stand. After a sync a crash
//! leaves what a read gives. No call changes the other area.
ghost use Rattle.std.specs.Prelude.{◌≡◌, ◌≤◌, ◌<◌, ◌+◌, ◌^◌, length, take, drop, IfOk, OnOk, IfSome};
ghost use Rattle.kumo_base.specs.Causes.{HasCause};
ghost use Rattle.kumo_disk.specs.Disk.{DiskSeen, area_of, Lasts, Each, ReadMoves, IsDurable, Same, Written, Torn, Shortened, Cut, Places};

use kumo_base::Failed;

/// A disk of two areas, which have the numbers 0 and 1. An area always has fewer than 2^63 bytes.
///
/// After `Failed` the count of faults has risen. A `length`, `read`, `read_exact` or `sync` that failed changed nothing; a
/// `write_at` or `cut` that failed may have been made in part.
pub trait Disk {
    /// What a read gives of both areas, where the disk tells it; what a crash may leave since each moment; and the faults counted
    /// so far. The count never falls.
    ghost seen: { Self → DiskSeen };

    /// The length of an area, in bytes.
    fn length(&mut self, area: u8) -> Result<u64, Failed>
        requires { area < 2 }
        ensures bound { IfOk result (λ n. n < 2 ^ 63) }
        ensures value { IfSome (seen self.old).told (λ read. IfOk result (λ n. n ≡ length (area_of area read))) }
        ensures same { (seen self.new).told ≡ (seen self.old).told }
        ensures time { Lasts (seen self.old) (seen self.new) }
        ensures images { IfSome (seen self.old).told (λ _. Each area Same (seen self.old) (seen self.new)) }
        ensures cause { HasCause (seen self.old).faults (seen self.new).faults result };

    /// Reads from an offset on into the front of the buffer, and answers how many bytes; fewer than the buffer has only at the
    /// area's end.
    fn read(&mut self, area: u8, at: u64, buffer: &mut [u8]) -> Result<usize, Failed>
        requires area { area < 2 }
        requires buffer { 0 < length buffer.old }
        ensures bound { IfOk result (λ n. n ≤ length buffer.new) }
        ensures bytes { IfSome (seen self.old).told (λ read. IfOk result (λ n. Places (area_of area read) at n buffer.new)) }
        ensures same { (seen self.new).told ≡ (seen self.old).told }
        ensures time { Lasts (seen self.old) (seen self.new) }
        ensures images { IfSome (seen self.old).told (λ _. Each area Same (seen self.old) (seen self.new)) }
        ensures cause { HasCause (seen self.old).faults (seen self.new).faults result };

    /// Fills the buffer from an offset on. An area that ends before that is a fault.
    fn read_exact(&mut self, area: u8, at: u64, buffer: &mut [u8]) -> Result<(), Failed>
        requires area { area < 2 }
        requires buffer { 0 < length buffer.old }
        requires within { IfSome (seen self.old).told (λ read. at + length buffer.old ≤ length (area_of area read)) }
        ensures bytes { OnOk result (IfSome (seen self.old).told (λ read. buffer.new ≡ take (length buffer.new) (drop at (area_of area read)))) }
        ensures same { (seen self.new).told ≡ (seen self.old).told }
        ensures time { Lasts (seen self.old) (seen self.new) }
        ensures images { IfSome (seen self.old).told (λ _. Each area Same (seen self.old) (seen self.new)) }
        ensures cause { HasCause (seen self.old).faults (seen self.new).faults result };

    /// Writes bytes from an offset on, which is at or before the area's end.
    fn write_at(&mut self, area: u8, at: u64, bytes: &[u8]) -> Result<(), Failed>
        requires area { area < 2 }
        requires some { 0 < length bytes.now }
        requires at { IfSome (seen self.old).told (λ read. at ≤ length (area_of area read)) }
        ensures bound { OnOk result (at + length bytes.now < 2 ^ 63) }
        ensures written { OnOk result (ReadMoves area (Written at bytes.now) (seen self.old) (seen self.new)) }
        ensures part { ReadMoves area (λ old. Torn at (length bytes.now) (length old) old) (seen self.old) (seen self.new) }
        ensures time { Lasts (seen self.old) (seen self.new) }
        ensures images { IfSome (seen self.old).told (λ read.
            Each area (Torn at (length bytes.now) (length (area_of area read))) (seen self.old) (seen self.new)) }
        ensures cause { HasCause (seen self.old).faults (seen self.new).faults result };

    /// Cuts an area to an end at or before its own.
    fn cut(&mut self, area: u8, end: u64) -> Result<(), Failed>
        requires area { area < 2 }
        requires end { IfSome (seen self.old).told (λ read. end ≤ length (area_of area read)) }
        ensures done { OnOk result (ReadMoves area (Shortened end) (seen self.old) (seen self.new)) }
        ensures part { ReadMoves area (Cut end) (seen self.old) (seen self.new) }
        ensures time { Lasts (seen self.old) (seen self.new) }
        ensures images { IfSome (seen self.old).told (λ _. Each area (Cut end) (seen self.old) (seen self.new)) }
        ensures cause { HasCause (seen self.old).faults (seen self.new).faults result };

    /// Makes an area durable: after it a crash leaves of the area what a read gives.
    fn sync(&mut self, area: u8) -> Result<(), Failed>
        requires { area < 2 }
        ensures durable { OnOk result (IsDurable area (seen self.new)) }
        ensures same { (seen self.new).told ≡ (seen self.old).told }
        ensures time { Lasts (seen self.old) (seen self.new) }
        ensures images { IfSome (seen self.old).told (λ _. Each area Same (seen self.old) (seen self.new)) }
        ensures cause { HasCause (seen self.old).faults (seen self.new).faults result };
}
