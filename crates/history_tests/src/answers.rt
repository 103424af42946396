//! What a sending state answers where an entry comes: what the entry shows.
ghost use Rattle.std.specs.Prelude.{◌↔◌, IsTrue};
ghost use Rattle.sending_state.specs.State.{AllExamined, IsOwed};

use history_core::{Cause, Entry, Event, Next};
use history_walk::Verdict;
use policy_core::Order;
use sending_state::{Acceptance, SendingState};
use smtp_reply::Outcome;
use std::test::Fail;

/// Whether the answers of a state are those that an entry behind its history shows.
pub(crate) fn shows(state: &SendingState, entry: &Entry) -> Result<bool, Fail>
    requires { AllExamined state.now }
{
    let at = entry.at;
    match &entry.what {
        Event::Opened { conn, path, key } => {
            shows_opening(state, at, entry.who, *conn, path.as_str(), *key)
        }
        Event::Begun { conn, id, key } => {
            Ok(shows_beginning(state, at, entry.who, *conn, *id, *key))
        }
        Event::Ended {
            conn,
            id,
            outcome,
            next,
        } => { Ok(shows_end(state, at, *conn, *id, outcome, *next)) }
        Event::Closed { conn, cause } => Ok(shows_closing(state, at, *conn, *cause)),
        Event::Rested { until } => shows_rest(state, at, *until),
        Event::Promoted { .. } => shows_swept(state, at, &entry.what),
        Event::Delayed { .. } => shows_swept(state, at, &entry.what),
        Event::Resolved { .. } => shows_swept(state, at, &entry.what),
        what => shows_arrival(state, at, what),
    }
}

/// Whether a message, an order or the end may come.
fn shows_arrival(state: &SendingState, at: u64, what: &Event) -> Result<bool, Fail> {
    match what {
        Event::Recovered { message, .. } => Ok(state.acceptance(message.id) == Acceptance::Fresh),
        Event::Accepted(message) => Ok(state.acceptance(message.id) == Acceptance::Fresh),
        Event::Known { id } => Ok(state.acceptance(*id) == Acceptance::Known),
        Event::Ordered { number, order } => shows_order(state, *number, order),
        Event::Resumed { number } => Ok(state.may_resume(at, *number)),
        Event::Stopped => Ok(!state.has_open()),
        _ => Ok(false),
    }
}

/// Whether an order has the next number, and a bounce meets some message that it resolves at once.
fn shows_order(state: &SendingState, number: u32, order: &Order) -> Result<bool, Fail> {
    let is_next = state.order_count().checked_add(1) == Some(number as usize);
    match order {
        Order::Bounce { criteria, .. } => {
            Ok(is_next && are_at_rest(state, state.met_by(criteria)?.as_slice()))
        }
        _ => Ok(is_next),
    }
}

/// Whether there are messages of these ids, which are pending and not being attempted.
fn are_at_rest(state: &SendingState, ids: &[u128]) -> bool {
    for id in ids {
        if state.pending(*id).is_none() || state.is_in_flight(*id) {
            return false;
        }
    }
    !ids.is_empty()
}

/// Whether the sweep takes this next.
fn shows_swept(state: &SendingState, at: u64, what: &Event) -> Result<bool, Fail>
    requires { AllExamined state.now }
{
    Ok(is_swept(&state.next_swept(at)?, what))
}

/// Whether two events are one promotion, one delay or one resolution.
fn is_swept(swept: &Option<Event>, what: &Event) -> bool {
    match (swept, what) {
        (
            Some(Event::Promoted { id, source }),
            Event::Promoted {
                id: of,
                source: from,
            },
        ) => id == of && source.is_same(from.as_str()),
        (Some(Event::Delayed { id, next }), Event::Delayed { id: of, next: so }) => {
            id == of && next == so
        }
        (Some(Event::Resolved { id, how }), Event::Resolved { id: of, how: so }) => {
            id == of && how == so
        }
        _ => false,
    }
}

/// Whether nothing is left for the sweep, no connection of the pass may begin, and the path of the text opens next, under
/// the key.
fn shows_opening(
    state: &SendingState,
    at: u64,
    who: u32,
    conn: u64,
    path: &str,
    key: u32,
) -> Result<bool, Fail>
    requires { AllExamined state.now }
{
    let swept = state.next_swept(at)?;
    let is_next = match state.next_to_open(at) {
        Some(next) => next.text == path && next.key == key,
        None => false,
    };
    Ok(
        swept.is_none()
            && state.first_reusable(at, who).is_none()
            && is_next
            && state.connection_count().checked_add(1) == Some(conn as usize),
    )
}

/// Whether the connection is to attempt the message, under the key.
fn shows_beginning(state: &SendingState, at: u64, who: u32, conn: u64, id: u128, key: u32) -> bool
    requires { AllExamined state.now }
{
    state.is_live_for(conn, who)
        && state.busy_with(conn).is_none()
        && state.first_reusable(at, who).is_some()
        && state.verdict(at, conn) == Some(Verdict::Work(id))
        && state.message_key(at, conn) == Some(key)
        && state.pending(id).is_some()
}

/// Whether the connection is busy with the message, and what comes of its failure.
fn shows_end(
    state: &SendingState,
    at: u64,
    conn: u64,
    id: u128,
    outcome: &Outcome,
    next: Next,
) -> bool {
    let fits = match outcome {
        Outcome::Transient(_) => state.next_after(at, id) == Some(next),
        Outcome::Lost(_) => state.next_after(at, id) == Some(next),
        Outcome::Delivered(_) => next == Next::Settled,
        Outcome::Permanent(_) => next == Next::Settled,
    };
    fits && state.busy_with(conn) == Some(id) && state.is_in_flight(id)
}

/// Whether the connection may do nothing more, for the cause.
fn shows_closing(state: &SendingState, at: u64, conn: u64, cause: Cause) -> bool
    requires { AllExamined state.now }
{
    match cause {
        Cause::Idle => state.verdict(at, conn) == Some(Verdict::Stale),
        Cause::Spent => state.verdict(at, conn) == Some(Verdict::Spent),
        Cause::Shed => state.verdict(at, conn) == Some(Verdict::Shed),
        Cause::Empty => state.verdict(at, conn) == Some(Verdict::Empty),
        Cause::Throttled => matches!(state.verdict(at, conn), Some(Verdict::Throttled(_))),
        _ => state.connection(conn).is_some(),
    }
}

/// Whether nothing may happen until the moment, and every open connection is kept.
fn shows_rest(state: &SendingState, at: u64, until: u64) -> Result<bool, Fail>
    requires { AllExamined state.now }
{
    let swept = state.next_swept(at)?;
    Ok(
        swept.is_none()
            && state.next_to_open(at).is_none()
            && state.at_work(at) == 0
            && state.pending_count() > 0
            && state.wake(at) == until,
    )
}

/// Whether an entry ends what was begun.
pub(crate) fn is_owed(what: &Event) -> bool
    ensures { IsTrue result ↔ IsOwed what.now }
{
    match what {
        Event::Ended { .. } => true,
        Event::Closed { .. } => true,
        Event::Rested { .. } => true,
        Event::Stopped => true,
        _ => false,
    }
}
