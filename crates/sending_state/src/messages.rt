//! Messages: what is known of an id, what is pending and in flight, and what comes of a failure.
ghost use Rattle.std.specs.Prelude.{◌≡◌, ◌↔◌, ◌≤◌, ◌+◌, ◌∷◌, List, false, find, length, option_map};
ghost use Rattle.std.specs.List.{list_any};
ghost use Rattle.history_core.specs.declared.entry.Entry.{Entry as an_entry};
ghost use Rattle.history_core.specs.Connection.{is_in_flight};
ghost use Rattle.history_core.specs.Fate.{pending};
ghost use Rattle.history_core.specs.History.{has_id, messages, message_with};
ghost use Rattle.history_core.specs.Legal.{KnownRow};
ghost use Rattle.history_core.specs.Retry.{failures, due};
ghost use Rattle.history_candidates.specs.inside.Soonest.{pending_among};
ghost use Rattle.sending_state.specs.Questions.{next_of};
ghost use Rattle.sending_state.specs.declared.messages.Acceptance.TheVariants as acceptance;

use crate::state::SendingState;
use history_candidates::sweep::next_after;
use history_core::{Entry, Next};
use history_views::messages::{has_message, message_by, message_with, pending_by, pending_with};
use history_views::{connections, messages};
use history_walk::may_know;
use queue_name::Message;

/// What is known of an id that comes with a message.
#[derive(Clone, Copy, Debug, PartialEq, Eq)]
pub enum Acceptance {
    /// No message has it: it may be accepted.
    Fresh,
    /// A recovered message has it that is pending and was not handed in again.
    Known,
    /// A message has it, and this one is not taken.
    Duplicate,
}

impl SendingState {
    /// What is known of an id.
    pub fn acceptance(&self, id: u128) -> Acceptance
        ensures fresh { result ≡ acceptance.Fresh ↔ (list_any (has_id id) (messages self.now.history) ≡ false) }
        ensures known { result ≡ acceptance.Known ↔ KnownRow self.now.history id }
    {
        if may_know(self.entries(), id) {
            Acceptance::Known
        } else if has_message(self.entries(), id) {
            Acceptance::Duplicate
        } else {
            Acceptance::Fresh
        }
    }

    /// The message of an id, where it came.
    pub fn message(&self, id: u128) -> Option<&Message>
        ensures { option_map (λ m. m.now) result ≡ message_with self.now.history id }
    {
        message_with(self.entries(), id)
    }

    /// The message of an id, where it is pending.
    pub fn pending(&self, id: u128) -> Option<&Message>
        ensures { option_map (λ m. m.now) result ≡ find (has_id id) (pending self.now.history) }
    {
        pending_with(self.entries(), id)
    }

    /// Whether the message of an id is being attempted.
    pub fn is_in_flight(&self, id: u128) -> bool
        ensures { result ≡ is_in_flight self.now.history id }
    {
        connections::is_in_flight(self.entries(), id)
    }

    /// How often the message of an id failed. The count stands still at its end.
    pub fn failures(&self, id: u128) -> u32
        ensures { result ≡ failures self.now.history id }
    {
        messages::failures(self.entries(), id)
    }

    /// The moment at which a message is due.
    pub fn due(&self, message: &Message) -> u64
        ensures { result ≡ due self.now.history message.now }
    {
        messages::due(self.entries(), message)
    }

    /// What comes of a failure of the message of an id at a moment, where it came.
    pub fn next_after(&self, t: u64, id: u128) -> Option<Next>
        ensures { result ≡ next_of self.now.policy self.now.history t id }
    {
        let message = message_with(self.entries(), id)?;
        Some(next_after(self.policy(), self.entries(), t, message))
    }

    /// How many messages came.
    pub fn message_count(&self) -> usize
        ensures { result ≡ length (messages self.now.history) }
    {
        message_count(self.entries())
    }

    /// How many messages are pending.
    pub fn pending_count(&self) -> usize
        ensures { result ≡ length (pending self.now.history) }
    {
        pending_count(self.entries())
    }
}

/// How many messages the entry brings: one or none.
fn messages_in(entry: &Entry) -> usize
    ensures value { (later : List an_entry) → length (messages (entry.now ∷ later)) ≡ result + length (messages later) }
    ensures low { result ≤ 1 }
{
    match message_by(entry) {
        Some(_) => 1,
        None => 0,
    }
}

/// How many messages these entries bring.
fn message_count(entries: &[Entry]) -> usize
    ensures { result ≡ length (messages entries.now) }
{
    let mut count = 0;
    for entry in entries {
        count += messages_in(entry);
    }
    count
}

/// How many pending messages the entry brings: one or none.
fn pending_in(entries: &[Entry], entry: &Entry) -> usize
    ensures value { (later : List an_entry) → length (pending_among entries.now (entry.now ∷ later))
        ≡ result + length (pending_among entries.now later) }
    ensures low { result ≤ 1 }
{
    match pending_by(entries, entry) {
        Some(_) => 1,
        None => 0,
    }
}

/// How many messages are pending.
fn pending_count(entries: &[Entry]) -> usize
    ensures { result ≡ length (pending entries.now) }
{
    let mut count = 0;
    for entry in entries {
        count += pending_in(entries, entry);
    }
    count
}
