//! Room for one reply's text, taken once so that a reply that arrived is never lost for want of memory.
ghost use Rattle.std.specs.Prelude.{◌≡◌, ◌≤◌, ◌<◌, ◌∷◌, ◌++◌, ℕ, List, [], length, IfOk, string_bytes, string_capacity};

use crate::faults::Memory;
use crate::text::Text;
use std::alloc::Global;
use std::marker::Model;

/// The most bytes that are kept of a reply's text.
pub const REPLY_TEXT_LIMIT: usize = 512;

/// A buffer into which 512 bytes in all can be written without memory.
#[derive(Drop)]
pub struct Room {
    inner: String,
}

impl Model for Room {
    ghost Value = { List ℕ };

    ghost view = { λ r. string_bytes r.inner };

    ghost invariant = { λ r. 512 ≤ string_capacity r.inner };
}

impl Room {
    /// An empty room.
    pub fn new(alloc: Global) -> Result<Room, Memory>
        ensures { IfOk result (λ room. room ≡ []) }
    {
        Ok(Room {
            inner: String::with_capacity(alloc, REPLY_TEXT_LIMIT)?,
        })
    }

    /// Appends an ASCII byte.
    pub fn push(&mut self, byte: u8)
        requires room { length self.old < 512 }
        requires ascii { byte < 128 }
        ensures { self.new ≡ self.old ++ byte ∷ [] }
    {
        self.inner.push(char::from(byte)).unwrap();
    }

    /// The text that was written.
    pub fn into_text(self) -> Text
        ensures { result ≡ self }
    {
        let Room { inner } = self;
        Text::of_string(inner)
    }

    /// Leaves the room empty.
    pub fn clear(&mut self)
        ensures { self.new ≡ [] }
    {
        self.inner.clear();
    }
}
