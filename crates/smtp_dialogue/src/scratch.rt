//! The buffers of one connection, taken before it is opened, so that no reply is lost for want of memory.
ghost use Rattle.std.specs.Prelude.{◌≡◌, ◌+◌, ◌≤◌, ◌++◌, ℕ, List, [], length, drop, IfOk, vec_capacity};

use kumo_base::{Memory, Room};
use smtp_reply::{REPLY_LIMIT, ReplyReader};
use std::alloc::Global;
use std::marker::Model;

/// The bytes that were got over a connection and not yet read, at most 4,096.
#[derive(Drop)]
pub(crate) struct Unread {
    bytes: Vec<u8>,
}

impl Model for Unread {
    ghost Value = { List ℕ };

    ghost view = { λ u. u.bytes.items };

    ghost invariant = { λ u. 4096 ≤ vec_capacity u.bytes };
}

impl Unread {
    /// Room for the bytes, and none yet.
    fn new(alloc: Global) -> Result<Unread, Memory>
        ensures { IfOk result (λ u. u ≡ []) }
    {
        Ok(Unread {
            bytes: Vec::with_capacity(alloc, REPLY_LIMIT)?,
        })
    }

    /// The bytes.
    pub(crate) fn as_slice(&self) -> &[u8]
        ensures { result.now ≡ self.now }
    {
        self.bytes.as_slice()
    }

    /// Appends bytes that were got.
    pub(crate) fn append(&mut self, piece: &[u8])
        requires { length self.old + length piece.now ≤ 4096 }
        ensures { self.new ≡ self.old ++ piece.now }
    {
        self.bytes.extend_from_slice(piece).unwrap();
    }

    /// Drops the first bytes, which were read.
    pub(crate) fn drop_front(&mut self, used: usize)
        requires { used ≤ length self.old }
        ensures { self.new ≡ drop used self.old }
    {
        let left = self.bytes.len() - used;
        self.bytes.rotate_left(used);
        self.bytes.truncate(left);
    }

    /// Drops all bytes.
    pub(crate) fn clear(&mut self)
        ensures { self.new ≡ [] }
    {
        self.bytes.clear();
    }
}

/// The buffers of one connection. A contract sees the bytes that were got over it and not yet read.
#[derive(Drop)]
pub struct Scratch {
    /// The bytes that were got and not yet read.
    pub(crate) unread: Unread,
    /// Reads the replies of which the code alone is wanted.
    pub(crate) reader: ReplyReader,
}

impl Model for Scratch {
    ghost Value = { List ℕ };

    ghost view = { λ s. s.unread };
}

impl Scratch {
    /// Room for one connection. After `Memory` nothing was taken.
    pub fn new(alloc: Global) -> Result<Scratch, Memory>
        ensures { IfOk result (λ s. s ≡ []) }
    {
        Ok(Scratch {
            unread: Unread::new(alloc)?,
            reader: ReplyReader::new(Room::new(alloc)?),
        })
    }

    /// Drops all bytes.
    pub(crate) fn clear(&mut self)
        ensures { self.new ≡ [] }
    {
        self.unread.clear();
    }
}
