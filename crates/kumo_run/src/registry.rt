//! The registry: the one history, kept legal under the plain policy. Each call is one turn, and appends an entry that may follow.
//!
//! This is where an attempt is allowed: `begin` may only be called where the definition of what may follow says so of
//! the history, and no other code appends an entry. All memory is taken by `with_room`, before the first turn, so that no turn
//! fails and no receiver is spoken to in a run that is then given up. In the final layout it is a crate of its own.
ghost use Rattle.std.specs.Prelude.{◌≡◌, ◌≤◌, [], ◌∷◌, ◌++◌, IfOk, vec_capacity};
ghost use Rattle.history_core.specs.declared.entry.Event.{Event};
ghost use Rattle.history_core.specs.Legal.{IsLegal, MayFollow};
ghost use Rattle.kumo_run.specs.PlainPolicy.{plain_policy};
ghost use Rattle.kumo_run.specs.inside.OneDelivery.{entry};
ghost use Rattle.kumo_run.specs.inside.RegistryState.{RegistryState, HasRoom};

use history_core::{Cause, Entry, Event, History, Next};
use kumo_base::{Memory, Text};
use queue_name::Message;
use smtp_reply::{Outcome, Reply};
use std::alloc::Global;
use std::marker::Model;

/// The owner's pass, and so far the only one.
const OWNER: u32 = 0;

/// So far every moment.
const MOMENT: u64 = 0;

/// The entries of the history, the oldest first; they are legal.
#[derive(Drop)]
pub struct Registry {
    entries: Vec<Entry>,
}

impl Model for Registry {
    ghost Value = { RegistryState };

    ghost view = { λ r. record { history = r.entries.items; capacity = vec_capacity r.entries } };

    ghost invariant = { λ r. IsLegal plain_policy r.entries.items };
}

impl Registry {
    /// A registry before its first entry, with room for so many.
    pub fn with_room(alloc: Global, entries: usize) -> Result<Registry, Memory>
        ensures empty { IfOk result (λ registry. registry.history ≡ []) }
        ensures room { IfOk result (λ registry. entries ≤ registry.capacity) }
    {
        let entries = Vec::with_capacity(alloc, entries)?;
        Ok(Registry { entries })
    }

    /// Takes a message over.
    pub fn accept(&mut self, message: Message)
        requires follows { MayFollow plain_policy self.old.history (entry (Event.Accepted message)) }
        requires room { HasRoom self.old }
        ensures history { self.new.history ≡ self.old.history ++ entry (Event.Accepted message) ∷ [] }
        ensures capacity { self.new.capacity ≡ self.old.capacity }
    {
        self.append(Event::Accepted(message));
    }

    /// Makes a message ready on the path from this source.
    pub fn promote(&mut self, id: u128, source: Text)
        requires follows { MayFollow plain_policy self.old.history (entry (Event.Promoted id source)) }
        requires room { HasRoom self.old }
        ensures history { self.new.history ≡ self.old.history ++ entry (Event.Promoted id source) ∷ [] }
        ensures capacity { self.new.capacity ≡ self.old.capacity }
    {
        self.append(Event::Promoted { id, source });
    }

    /// Opens a connection of a path.
    pub fn open(&mut self, conn: u64, path: Text)
        requires follows { MayFollow plain_policy self.old.history (entry (Event.Opened conn path 0)) }
        requires room { HasRoom self.old }
        ensures history { self.new.history ≡ self.old.history ++ entry (Event.Opened conn path 0) ∷ [] }
        ensures capacity { self.new.capacity ≡ self.old.capacity }
    {
        self.append(Event::Opened { conn, path, key: 0 });
    }

    /// Begins an attempt on a connection.
    pub fn begin(&mut self, conn: u64, id: u128)
        requires follows { MayFollow plain_policy self.old.history (entry (Event.Begun conn id 0)) }
        requires room { HasRoom self.old }
        ensures history { self.new.history ≡ self.old.history ++ entry (Event.Begun conn id 0) ∷ [] }
        ensures capacity { self.new.capacity ≡ self.old.capacity }
    {
        self.append(Event::Begun { conn, id, key: 0 });
    }

    /// Ends an attempt with its delivery.
    pub fn end_delivered(&mut self, conn: u64, id: u128, reply: Reply)
        requires follows { MayFollow plain_policy self.old.history
            (entry (Event.Ended conn id (Outcome.Delivered reply) Next.Settled)) }
        requires room { HasRoom self.old }
        ensures history { self.new.history ≡ self.old.history
            ++ entry (Event.Ended conn id (Outcome.Delivered reply) Next.Settled) ∷ [] }
        ensures capacity { self.new.capacity ≡ self.old.capacity }
    {
        self.append(Event::Ended {
            conn,
            id,
            outcome: Outcome::Delivered(reply),
            next: Next::Settled,
        });
    }

    /// Closes a connection for which no ready message is left.
    pub fn close_empty(&mut self, conn: u64)
        requires follows { MayFollow plain_policy self.old.history (entry (Event.Closed conn Cause.Empty)) }
        requires room { HasRoom self.old }
        ensures history { self.new.history ≡ self.old.history ++ entry (Event.Closed conn Cause.Empty) ∷ [] }
        ensures capacity { self.new.capacity ≡ self.old.capacity }
    {
        self.append(Event::Closed {
            conn,
            cause: Cause::Empty,
        });
    }

    /// Ends the work.
    pub fn stop(&mut self)
        requires follows { MayFollow plain_policy self.old.history (entry Event.Stopped) }
        requires room { HasRoom self.old }
        ensures history { self.new.history ≡ self.old.history ++ entry Event.Stopped ∷ [] }
        ensures capacity { self.new.capacity ≡ self.old.capacity }
    {
        self.append(Event::Stopped);
    }

    /// Hands the history out. It is legal.
    pub fn into_history(self) -> History
        ensures same { result ≡ self.history }
        ensures legal { IsLegal plain_policy result }
    {
        let Registry { entries } = self;
        History::of(entries)
    }

    /// Appends an entry that may follow.
    fn append(&mut self, what: Event)
        requires follows { MayFollow plain_policy self.old.history (entry what) }
        requires room { HasRoom self.old }
        ensures history { self.new.history ≡ self.old.history ++ entry what ∷ [] }
        ensures capacity { self.new.capacity ≡ self.old.capacity }
    {
        self.entries.push_reserved(Entry {
            at: MOMENT,
            who: OWNER,
            what,
        });
    }
}
