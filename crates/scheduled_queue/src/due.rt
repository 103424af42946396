//! A message that waits, and the order in which messages come due.
ghost use Rattle.std.specs.Prelude.{◌≡◌};
ghost use Rattle.scheduled_queue.specs.Dues.{is_before};

/// A message and the moment that it is due at.
#[derive(Clone, Copy)]
pub struct Due {
    /// In milliseconds since 1970.
    pub due: u64,
    /// The number of the message.
    pub number: u32,
}

impl Due {
    /// It is due earlier, or at the same moment with a smaller number.
    pub fn is_before(self, other: Due) -> bool
        ensures { result ≡ is_before self other }
    {
        self.due < other.due || (self.due == other.due && self.number < other.number)
    }
}
