//! The buffer in which lines are gathered before they are put into a sink.
ghost use Rattle.std.specs.Prelude.{◌≡◌, ◌≤◌, ◌+◌, ◌++◌, List, [], ℕ, IfOk, IsTrue, ◌↔◌, length, vec_capacity};

use kumo_base::Memory;
use std::alloc::Global;
use std::marker::Model;

/// The most bytes that are gathered.
pub(crate) const GATHER_LIMIT: usize = 65_536;

/// At most 64 KiB, for which there is room from the start.
#[derive(Drop)]
pub(crate) struct LineBuffer {
    bytes: Vec<u8>,
}

impl Model for LineBuffer {
    ghost Value = { List ℕ };

    ghost view = { λ b. b.bytes.items };

    ghost invariant = { λ b. (length b.bytes.items ≤ 65_536) × (65_536 ≤ vec_capacity b.bytes) };
}

impl LineBuffer {
    /// An empty buffer.
    pub(crate) fn new(alloc: Global) -> Result<LineBuffer, Memory>
        ensures { IfOk result (λ buffer. buffer ≡ []) }
    {
        Ok(LineBuffer {
            bytes: Vec::with_capacity(alloc, GATHER_LIMIT)?,
        })
    }

    /// What is gathered.
    pub(crate) fn bytes(&self) -> &[u8]
        ensures { result.now ≡ self.now }
    {
        self.bytes.as_slice()
    }

    /// Whether so many bytes fit behind what is gathered.
    pub(crate) fn has_room(&self, count: usize) -> bool
        ensures { IsTrue result ↔ (length self.now + count ≤ 65_536) }
    {
        count <= GATHER_LIMIT - self.bytes.len()
    }

    /// Gathers bytes behind the others.
    pub(crate) fn append(&mut self, more: &[u8])
        requires { length self.old + length more.now ≤ 65_536 }
        ensures { self.new ≡ self.old ++ more.now }
    {
        self.bytes.extend_from_slice(more).unwrap();
    }

    /// Leaves the buffer empty.
    pub(crate) fn clear(&mut self)
        ensures { self.new ≡ [] }
    {
        self.bytes.clear();
    }
}
