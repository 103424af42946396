//! Orders of an administrator: how many were given, which may be resumed, and what a bounce resolves at once.
ghost use Rattle.std.specs.Prelude.{◌≡◌, ◌≤◌, ◌+◌, ◌++◌, ◌∷◌, ◌==◌, ◌↔◌, List, IfOk, OnOk, IsTrue, length};
ghost use Rattle.std.specs.List.{list_any};
ghost use Rattle.history_core.specs.declared.entry.Entry.{Entry as an_entry};
ghost use Rattle.history_core.specs.LiveOrders.{orders, live_orders};
ghost use Rattle.sending_state.specs.Questions.{is_met, met_by};
ghost use Rattle.sending_state.specs.inside.Among.{met_among};

use crate::state::SendingState;
use history_core::Entry;
use history_views::connections::is_in_flight;
use history_views::messages::pending_by;
use history_walk::{may_resume, order_count};
use kumo_base::Memory;
use queue_name::{Criteria, Message};
use std::alloc::Global;

impl SendingState {
    /// How many orders were given; the next has one more as its number.
    pub fn order_count(&self) -> usize
        ensures { result ≡ length (orders self.now.history) }
    {
        order_count(self.entries())
    }

    /// Whether the order of a number is live at a moment, so that it may be resumed.
    pub fn may_resume(&self, t: u64, number: u32) -> bool
        ensures { IsTrue result ↔ IsTrue (list_any (λ o. o.number == number) (live_orders self.now.history t)) }
    {
        may_resume(self.entries(), t, number)
    }

    /// The ids of the pending messages that a bounce of these criteria resolves at once, in order.
    pub fn met_by(&self, criteria: &Criteria) -> Result<Vec<u128>, Memory>
        ensures { IfOk result (λ ids. ids.items ≡ met_by self.now.history criteria.now) }
    {
        met_by(self.alloc, self.entries(), criteria)
    }
}

/// The ids of the pending messages that a bounce of these criteria resolves at once, in order.
fn met_by(alloc: Global, entries: &[Entry], criteria: &Criteria) -> Result<Vec<u128>, Memory>
    ensures { IfOk result (λ ids. ids.items ≡ met_by entries.now criteria.now) }
{
    let mut ids = Vec::new(alloc);
    for entry in entries {
        push_met(&mut ids, entries, criteria, entry)?;
    }
    Ok(ids)
}

/// Whether a bounce of these criteria resolves the message at once.
fn is_met(entries: &[Entry], criteria: &Criteria, message: &Message) -> bool
    ensures { result ≡ is_met entries.now criteria.now message.now }
{
    criteria.matches(&message.name) && !is_in_flight(entries, message.id)
}

/// Adds the id of the pending message that the entry brings, where a bounce of these criteria resolves it at once.
fn push_met(
    ids: &mut Vec<u128>,
    entries: &[Entry],
    criteria: &Criteria,
    entry: &Entry,
) -> Result<(), Memory>
    ensures { OnOk result ((later : List an_entry) → ids.old.items ++ met_among entries.now criteria.now (entry.now ∷ later)
        ≡ ids.new.items ++ met_among entries.now criteria.now later) }
{
    match pending_by(entries, entry) {
        Some(message) if is_met(entries, criteria, message) => Ok(ids.push(message.id)?),
        _ => Ok(()),
    }
}
