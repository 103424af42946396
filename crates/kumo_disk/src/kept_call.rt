//! What a disk in memory keeps of a call, so that it can go back to what it read as before.
ghost use Rattle.std.specs.Prelude.{◌≡◌, ◌≤◌, ◌<◌, ◌+◌, length, take, drop, vec_len, IfOk, OnOk, OnErr};
ghost use Rattle.kumo_disk.specs.Disk.{with_bytes, Places};

use kumo_base::Memory;
use std::alloc::Global;

/// What a call may have done. A write has the count of bytes in its range, which begins at the call's offset; a cut ends the
/// area there.
#[derive(Clone, Copy, Drop)]
pub(crate) enum Effect {
    Write(usize),
    Shorten,
    Sync,
}

/// A call that was kept. As many bytes as `placed` says stand now from the offset on, where before it stood `replaced`: a
/// write at the end replaced nothing, and a call that failed placed nothing. A write that failed keeps its bytes.
#[derive(Drop)]
pub(crate) struct KeptCall {
    pub(crate) area: u8,
    pub(crate) effect: Effect,
    pub(crate) at: usize,
    pub(crate) placed: usize,
    pub(crate) replaced: Vec<u8>,
    pub(crate) unwritten: Vec<u8>,
}

/// The bytes of an area from an offset on, so many, or as many as there are.
pub(crate) fn piece_of(
    alloc: Global,
    area: &[u8],
    at: usize,
    count: usize,
) -> Result<Vec<u8>, Memory>
    requires { at ≤ length area.now }
    ensures { IfOk result (λ piece. piece.items ≡ take count (drop at area.now)) }
{
    let (_, behind) = area.split_at(at);
    let (piece, _) = behind.split_at(behind.len().min(count));
    Ok(Vec::from_slice(alloc, piece)?)
}

/// Puts bytes into an area from an offset on. At `Memory` the area is as it was.
pub(crate) fn overwrite(area: &mut Vec<u8>, at: usize, bytes: &[u8]) -> Result<(), Memory>
    requires { at ≤ vec_len area.old }
    ensures ok { OnOk result (area.new.items ≡ with_bytes at bytes.now area.old.items) }
    ensures err { OnErr result (area.new.items ≡ area.old.items) }
{
    let inside = (area.len() - at).min(bytes.len());
    let (over, beyond) = bytes.split_at(inside);
    area.extend_from_slice(beyond)?;
    area[at..at + inside].copy_from_slice(over);
    Ok(())
}

/// Places the bytes of an area from an offset on, as many as there is room for.
pub(crate) fn place(area: &[u8], at: u64, buffer: &mut [u8]) -> usize
    requires { 0 < length buffer.old }
    ensures bound { result ≤ length buffer.new }
    ensures bytes { Places area.now at result buffer.new }
{
    if at >= area.len() as u64 {
        return 0;
    }
    let (_, rest) = area.split_at(at as usize);
    let count = rest.len().min(buffer.len());
    let (piece, _) = rest.split_at(count);
    buffer[..count].copy_from_slice(piece);
    count
}
