//! The log text of a whole history, put into a sink.
ghost use Rattle.std.specs.Prelude.{◌≡◌, ◌≤◌, ◌++◌, OnOk, OnErr, Err};
ghost use Rattle.kumo_base.specs.Causes.{Rose};
ghost use Rattle.kumo_outside.specs.Content.{told_with, TakesPrefix};
ghost use Rattle.delivery_log.specs.LogText.{log_text};
ghost use Rattle.delivery_log.specs.declared.log.LogWriteFault.TheVariants as fault;
ghost use Rattle.delivery_log.specs.inside.LogGathered.{Gathers};

use crate::line::entry_line;
use crate::line_buffer::LineBuffer;
use history_core::History;
use kumo_base::{Failed, Memory};
use kumo_outside::{Sink, put_all};
use std::alloc::Global;

/// Why a log was not written whole. A front of it was.
#[derive(Clone, Copy, Debug, PartialEq, Eq)]
pub enum LogWriteFault {
    /// The sink failed.
    WriteFault,
    /// There was no memory for the buffer or for a line.
    Memory,
}

impl From<Failed> for LogWriteFault {
    ghost from_gives = { λ _ e. e ≡ fault.WriteFault };

    fn from(_failed: Failed) -> LogWriteFault {
        LogWriteFault::WriteFault
    }
}

impl From<Memory> for LogWriteFault {
    ghost from_gives = { λ _ e. e ≡ fault.Memory };

    fn from(_memory: Memory) -> LogWriteFault {
        LogWriteFault::Memory
    }
}

/// Puts the lines of all entries into the sink, in order. After a fault a front of the log text was put.
pub fn write_log<O: Sink>(
    alloc: Global,
    history: &History,
    out: &mut O,
) -> Result<(), LogWriteFault>
    ensures ok { OnOk result ((O.seen out.new).told ≡ told_with (O.seen out.old).told (log_text history.now)) }
    ensures err { OnErr result (TakesPrefix (O.seen out.old).told (O.seen out.new).told (log_text history.now)) }
    ensures later { (O.seen out.old).faults ≤ (O.seen out.new).faults }
    ensures cause { result ≡ Err fault.WriteFault → Rose (O.seen out.old).faults (O.seen out.new).faults }
{
    let mut buffer = LineBuffer::new(alloc)?;
    for entry in history.entries() {
        let line = entry_line(alloc, entry)?;
        write_line(&mut buffer, line.as_str().as_bytes(), out)?;
    }
    put_all(out, buffer.bytes())?;
    Ok(())
}

/// Gathers the line. Where it does not fit, what was gathered is put first; a line longer than the buffer is put too.
fn write_line<O: Sink>(
    buffer: &mut LineBuffer,
    line: &[u8],
    out: &mut O,
) -> Result<(), LogWriteFault>
    ensures ok { OnOk result (Gathers (O.seen out.old).told (O.seen out.new).told buffer.new (buffer.old ++ line.now)) }
    ensures err { OnErr result (TakesPrefix (O.seen out.old).told (O.seen out.new).told (buffer.old ++ line.now)) }
    ensures later { (O.seen out.old).faults ≤ (O.seen out.new).faults }
    ensures cause { result ≡ Err fault.WriteFault → Rose (O.seen out.old).faults (O.seen out.new).faults }
{
    if buffer.has_room(line.len()) {
        buffer.append(line);
        return Ok(());
    }
    put_all(out, buffer.bytes())?;
    buffer.clear();
    if buffer.has_room(line.len()) {
        buffer.append(line);
        return Ok(());
    }
    put_all(out, line)?;
    Ok(())
}
