//! What a spool gives back of a message.
ghost use Rattle.std.specs.Prelude.{◌≡◌, IfOk};

use kumo_base::Memory;
use queue_name::Message;
use std::alloc::Global;

/// A pending message with its failures so far and the moment from which it is tried next.
#[derive(Drop)]
pub struct Kept {
    pub message: Message,
    /// Its failures so far.
    pub failures: u32,
    /// The moment from which it is tried next, in milliseconds since 1970.
    pub due: u64,
}

impl Kept {
    /// An equal one.
    pub fn copy(&self, alloc: Global) -> Result<Kept, Memory>
        ensures { IfOk result (λ copy. copy ≡ self.now) }
    {
        Ok(Kept {
            message: self.message.copy(alloc)?,
            failures: self.failures,
            due: self.due,
        })
    }
}
