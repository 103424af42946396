//! Whether the row of an event holds, event by event, of what needs no search and no memory.
ghost use Rattle.std.specs.Prelude.{◌≡◌, ◌↔◌, ◌⊎◌, ◌≤◌, ◌==◌, ◌+◌, List, [], ◌∷◌, false, fold, length, IsTrue};
ghost use Rattle.std.specs.List.{list_any};
ghost use Rattle.history_core.specs.declared.entry.Entry.{Entry as an_entry};
ghost use Rattle.history_core.specs.declared.entry.Next.{Next as a_next};
ghost use Rattle.history_core.specs.History.{has_id, messages};
ghost use Rattle.history_core.specs.Fate.{pending};
ghost use Rattle.history_core.specs.LiveOrders.{orders, live_orders};
ghost use Rattle.history_core.specs.Connection.{open_anywhere};
ghost use Rattle.history_core.specs.Legal.{RecoveredRow, KnownRow, EndedNext, EndedRow, PendingMessage, horizon};
ghost use Rattle.history_core.specs.Candidates.{is_resolvable};
ghost use Rattle.history_core.specs.LiveOrders.{bounced_by};
ghost use Rattle.history_core.specs.Sweep.{how_by};

use history_candidates::sweep::{how_by, is_resolvable, next_after};
use history_core::{Entry, How, Next};
use history_views::connections::{busy_with, has_open, is_live_for};
use history_views::messages::{
    has_message, has_only_recoveries, has_pending, is_known, is_recovered, message_with,
    pending_by, pending_with,
};
use history_views::orders::{bounced_by, given_by, live_by};
use policy_core::Policy;
use queue_name::Message;
use smtp_reply::Outcome;

/// Whether a message may be recovered.
pub(crate) fn may_recover(
    entries: &[Entry],
    who: u32,
    message: &Message,
    failures: u32,
    due: u64,
) -> bool
    ensures { IsTrue result ↔ RecoveredRow entries.now who message.now failures due }
{
    has_only_recoveries(entries)
        && !has_message(entries, message.id)
        && who == 0
        && (failures != 0 || due == message.created)
}

/// Whether a message may be accepted.
pub(crate) fn may_accept(entries: &[Entry], message: &Message) -> bool
    ensures { IsTrue result ↔ (list_any (has_id message.now.id) (messages entries.now) ≡ false) }
{
    !has_message(entries, message.id)
}

/// Whether a message of the id is pending.
fn is_pending_id(entries: &[Entry], id: u128) -> bool
    ensures { result ≡ list_any (has_id id) (pending entries.now) }
{
    for entry in entries {
        if let Some(message) = pending_by(entries, entry) {
            if message.id == id {
                return true;
            }
        }
    }
    false
}

/// Whether a recovered message may be handed in again.
pub fn may_know(entries: &[Entry], id: u128) -> bool
    ensures { IsTrue result ↔ KnownRow entries.now id }
{
    is_recovered(entries, id) && is_pending_id(entries, id) && !is_known(entries, id)
}

/// Whether an attempt that came to this may end so.
pub(crate) fn may_end(
    policy: &Policy,
    entries: &[Entry],
    t: u64,
    who: u32,
    conn: u64,
    id: u128,
    outcome: &Outcome,
    next: Next,
) -> bool
    ensures { IsTrue result ↔ EndedRow policy.now entries.now t who conn id outcome.now next }
{
    let Some(message) = message_with(entries, id) else {
        return false;
    };
    is_live_for(entries, conn, who)
        && busy_with(entries, conn) == Some(id)
        && next == ended_next(policy, entries, t, message, outcome)
}

/// What comes of an attempt.
fn ended_next(
    policy: &Policy,
    entries: &[Entry],
    t: u64,
    message: &Message,
    outcome: &Outcome,
) -> Next
    ensures { (next : a_next) → EndedNext policy.now entries.now t message.now outcome.now next ↔ (next ≡ result) }
{
    match outcome {
        Outcome::Delivered(_) => Next::Settled,
        Outcome::Permanent(_) => Next::Settled,
        Outcome::Transient(_) => next_after(policy, entries, t, message),
        Outcome::Lost(_) => next_after(policy, entries, t, message),
    }
}

/// How many orders the entry gives: one or none.
fn orders_in(entry: &Entry) -> usize
    ensures value { (later : List an_entry) → length (orders (entry.now ∷ later)) ≡ result + length (orders later) }
    ensures low { result ≤ 1 }
{
    match given_by(entry) {
        Some(_) => 1,
        None => 0,
    }
}

/// How many orders were given.
pub fn order_count(entries: &[Entry]) -> usize
    ensures { result ≡ length (orders entries.now) }
{
    let mut count = 0;
    for entry in entries {
        count += orders_in(entry);
    }
    count
}

/// Whether an order of the number may be given.
pub(crate) fn may_order(entries: &[Entry], number: u32) -> bool
    ensures { IsTrue result ↔ (number ≡ length (orders entries.now) + 1) }
{
    number != 0 && (number - 1) as usize == order_count(entries)
}

/// Whether the order of a number may be resumed.
pub fn may_resume(entries: &[Entry], t: u64, number: u32) -> bool
    ensures { IsTrue result ↔ IsTrue (list_any (λ o. o.number == number) (live_orders entries.now t)) }
{
    for entry in entries {
        if let Some(given) = live_by(entries, t, entry) {
            if given.number == number {
                return true;
            }
        }
    }
    false
}

/// Whether a message may be resolved so.
pub(crate) fn may_resolve(policy: &Policy, entries: &[Entry], t: u64, id: u128, how: How) -> bool
    ensures { IsTrue result ↔ PendingMessage entries.now id (λ m. IsTrue (is_resolvable policy.now entries.now t m)
        × (how ≡ how_by (bounced_by entries.now t m.name))) }
{
    match pending_with(entries, id) {
        Some(message) => {
            is_resolvable(policy, entries, t, message)
                && how == how_by(bounced_by(entries, t, &message.name))
        }
        None => false,
    }
}

/// The last of these moments, 0 where there is none.
fn last_of(stops: &[u64]) -> u64
    ensures { result ≡ fold (λ was stop. stop) 0 stops.now }
{
    let mut last = 0;
    for stop in stops {
        last = *stop;
    }
    last
}

/// The last of the policy's stops.
fn horizon(policy: &Policy) -> u64
    ensures { result ≡ horizon policy.now }
{
    last_of(policy.stops.as_slice())
}

/// Whether nothing is pending, or the horizon is reached.
fn is_over(policy: &Policy, entries: &[Entry], t: u64) -> bool
    ensures { IsTrue result ↔ ((pending entries.now ≡ []) ⊎ (horizon policy.now ≤ t)) }
{
    if !has_pending(entries) {
        return true;
    }
    horizon(policy) <= t
}

/// Whether the work may end.
pub(crate) fn may_stop(policy: &Policy, entries: &[Entry], t: u64) -> bool
    ensures { IsTrue result ↔ ((open_anywhere entries.now ≡ []) × ((pending entries.now ≡ []) ⊎ (horizon policy.now ≤ t))) }
{
    if has_open(entries) {
        return false;
    }
    is_over(policy, entries, t)
}
