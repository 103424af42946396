//! Connections: how many there were, which are open, and what they are busy with.
ghost use Rattle.std.specs.Prelude.{◌≡◌, ◌≢◌, ◌↔◌, [], IsTrue, length, option_map};
ghost use Rattle.history_core.specs.Connection.{connections, connection_with, busy_with, is_live_for, open_anywhere};
ghost use Rattle.history_views.specs.Opened.{connection_of};

use crate::state::SendingState;
use history_views::connections::{self, Opened};

impl SendingState {
    /// The connection of a number, where it was opened.
    pub fn connection(&self, conn: u64) -> Option<Opened<'_>>
        ensures { option_map connection_of result ≡ connection_with self.now.history conn }
    {
        connections::connection_with(self.entries(), conn)
    }

    /// How many connections were opened; the next has one more as its number.
    pub fn connection_count(&self) -> usize
        ensures { result ≡ length (connections self.now.history) }
    {
        connections::opened_count(self.entries())
    }

    /// Whether some connection is open.
    pub fn has_open(&self) -> bool
        ensures { IsTrue result ↔ (open_anywhere self.now.history ≢ []) }
    {
        connections::has_open(self.entries())
    }

    /// Whether the connection of a number is open and was opened by this pass.
    pub fn is_live_for(&self, conn: u64, who: u32) -> bool
        ensures { result ≡ is_live_for self.now.history conn who }
    {
        connections::is_live_for(self.entries(), conn, who)
    }

    /// The id of the message that the connection of a number is busy with.
    pub fn busy_with(&self, conn: u64) -> Option<u128>
        ensures { result ≡ busy_with self.now.history conn }
    {
        connections::busy_with(self.entries(), conn)
    }
}
