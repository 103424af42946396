//! The messages of a history: their fates, their failures, and when they are due.
ghost use Rattle.std.specs.Prelude.{◌≡◌, ◌≢◌, ◌↔◌, [], find, is_some, IsTrue, false, ◌==◌, ◌-◌, ◌*◌, ◌^◌, ◌<◌, ◌≤◌, min, option_map, unwrap_or, length, count_by};
ghost use Rattle.std.specs.List.{list_any, list_all};
ghost use Rattle.kumo_base.specs.Moment.{clamped};
ghost use Rattle.policy_core.specs.Delays.{at_most};
ghost use Rattle.history_core.specs.Events.{message_in, recovered_in, known_in, settled_in, failed_in, due_by, is_final, is_this};
ghost use Rattle.history_core.specs.History.{messages, message_with, has_id};
ghost use Rattle.history_core.specs.Fate.{fate_of, pending};
ghost use Rattle.history_core.specs.Retry.{failures_after, failures, due_after, due, one_more_failure, due_or_expired};
ghost use Rattle.history_views.specs.Pending.{pending_in, is_failure};

use history_core::{Entry, Event, Next};
use kumo_base::LAST_MOMENT;
use queue_name::Message;
use smtp_reply::Outcome;

/// The message that an entry brings into the history.
pub fn message_by(entry: &Entry) -> Option<&Message>
    ensures { option_map (λ m. m.now) result ≡ message_in entry.now.what }
{
    match &entry.what {
        Event::Recovered { message, .. } => Some(message),
        Event::Accepted(message) => Some(message),
        _ => None,
    }
}

/// The first message of an id.
pub fn message_with(entries: &[Entry], id: u128) -> Option<&Message>
    ensures { option_map (λ m. m.now) result ≡ message_with entries.now id }
{
    for entry in entries {
        if let Some(message) = message_by(entry) {
            if message.id == id {
                return Some(message);
            }
        }
    }
    None
}

/// Whether nothing comes after it.
fn is_final(next: Next) -> bool
    ensures { result ≡ is_final next }
{
    match next {
        Next::Settled => true,
        Next::Due(_) => false,
        Next::Expired => true,
    }
}

/// Whether the entry settles the message.
pub fn settles(entry: &Entry, id: u128) -> bool
    ensures { result ≡ is_this (settled_in entry.now.what) id }
{
    match &entry.what {
        Event::Ended { id: of, next, .. } => *of == id && is_final(*next),
        Event::Delayed { id: of, next } => *of == id && is_final(*next),
        Event::Resolved { id: of, .. } => *of == id,
        _ => false,
    }
}

/// How many entries settle the message.
fn settled_count(entries: &[Entry], id: u128) -> usize
    ensures { result ≡ count_by (λ e. is_this (settled_in e.what) id) entries.now }
{
    entries.iter().filter(|entry| settles(entry, id)).count()
}

/// Whether no entry settles the message.
pub fn is_pending(entries: &[Entry], id: u128) -> bool
    ensures { result ≡ (length (fate_of entries.now id) == 0) }
{
    settled_count(entries, id) == 0
}

/// The message that an entry brings, where nothing settles it.
pub fn pending_by<'h>(entries: &[Entry], entry: &'h Entry) -> Option<&'h Message>
    ensures { option_map (λ m. m.now) result ≡ pending_in entries.now entry.now }
{
    match message_by(entry) {
        Some(message) if is_pending(entries, message.id) => Some(message),
        _ => None,
    }
}

/// Whether the entry is a failure of the message.
fn fails(entry: &Entry, id: u128) -> bool
    ensures { result ≡ is_this (failed_in entry.now.what) id }
{
    match &entry.what {
        Event::Ended {
            id: of,
            outcome,
            ..
        } => *of == id && is_failure(outcome),
        Event::Delayed { id: of, .. } => *of == id,
        _ => false,
    }
}

/// Whether an attempt came to no decision for good.
fn is_failure(outcome: &Outcome) -> bool
    ensures { result ≡ is_failure outcome.now }
{
    match outcome {
        Outcome::Transient(_) => true,
        Outcome::Lost(_) => true,
        Outcome::Delivered(_) => false,
        Outcome::Permanent(_) => false,
    }
}

/// The failures of a message after an entry.
fn failures_after(id: u128, was: u32, entry: &Entry) -> u32
    ensures { result ≡ failures_after id was entry.now.what }
{
    match &entry.what {
        Event::Recovered {
            message,
            failures,
            ..
        } if message.id == id => *failures,
        Event::Recovered { .. } => was,
        _ if fails(entry, id) => was.saturating_add(1),
        _ => was,
    }
}

/// How often a message failed. The count stands still at its end.
pub fn failures(entries: &[Entry], id: u128) -> u32
    ensures { result ≡ failures entries.now id }
{
    let mut failures = 0;
    for entry in entries {
        failures = failures_after(id, failures, entry);
    }
    failures
}

/// The moment of what comes of a failure, where it is one.
fn due_or(next: Next, was: u64) -> u64
    ensures { result ≡ unwrap_or (due_by next) was }
{
    match next {
        Next::Due(moment) => moment,
        _ => was,
    }
}

/// The moment at which a message is due after an entry.
fn due_after(id: u128, was: u64, entry: &Entry) -> u64
    ensures { result ≡ due_after id was entry.now.what }
{
    match &entry.what {
        Event::Recovered { message, due, .. } if message.id == id => *due,
        Event::Ended { id: of, next, .. } if *of == id => due_or(*next, was),
        Event::Delayed { id: of, next } if *of == id => due_or(*next, was),
        _ => was,
    }
}

/// The moment at which a message is due, in milliseconds since 1970.
pub fn due(entries: &[Entry], message: &Message) -> u64
    ensures { result ≡ due entries.now message.now }
{
    let mut due = message.created;
    for entry in entries {
        due = due_after(message.id, due, entry);
    }
    due
}

/// An interval doubled so often; the greatest number where that is greater.
fn doubled(interval: u64, times: u32) -> u64
    ensures { result ≡ min (interval * 2 ^ times) (2 ^ 64 - 1) }
{
    if interval == 0 {
        return 0;
    }
    if times >= 64 {
        return u64::MAX;
    }
    interval.saturating_mul(1 << times)
}

/// The wait after the n-th failure, by the first wait and the bound on all of them, in milliseconds (KumoMTA's manual,
/// `retry_interval` and `max_retry_interval`).
pub fn delay_of(interval: u64, bound: Option<u64>, n: u32) -> u64
    ensures { result ≡ clamped (at_most bound (interval * 2 ^ (n - 1))) }
{
    let wait = doubled(interval, n.saturating_sub(1));
    bound.map_or(wait, |bound| wait.min(bound)).min(LAST_MOMENT)
}

/// What comes of a failure after which the message would be due at this moment.
pub fn due_or_expired(max_age: u64, created: u64, moment: u64) -> Next
    ensures { result ≡ due_or_expired max_age created moment }
{
    if moment.saturating_sub(created) > max_age {
        Next::Expired
    } else {
        Next::Due(moment)
    }
}

/// Whether a message of the id came.
pub fn has_message(entries: &[Entry], id: u128) -> bool
    ensures { result ≡ list_any (has_id id) (messages entries.now) }
{
    for entry in entries {
        if let Some(message) = message_by(entry) {
            if message.id == id {
                return true;
            }
        }
    }
    false
}

/// Whether something is pending.
pub fn has_pending(entries: &[Entry]) -> bool
    ensures some { IsTrue result ↔ (pending entries.now ≢ []) }
    ensures none { result ≡ false ↔ (pending entries.now ≡ []) }
{
    for entry in entries {
        if pending_by(entries, entry).is_some() {
            return true;
        }
    }
    false
}

/// The first pending message of an id.
pub fn pending_with(entries: &[Entry], id: u128) -> Option<&Message>
    ensures { option_map (λ m. m.now) result ≡ find (has_id id) (pending entries.now) }
{
    for entry in entries {
        if let Some(message) = pending_by(entries, entry) {
            if message.id == id {
                return Some(message);
            }
        }
    }
    None
}

/// Whether the entry recovers the message.
fn recovers(entry: &Entry, id: u128) -> bool
    ensures { result ≡ is_this (recovered_in entry.now.what) id }
{
    match &entry.what {
        Event::Recovered { message, .. } => message.id == id,
        _ => false,
    }
}

/// Whether the message was recovered.
pub fn is_recovered(entries: &[Entry], id: u128) -> bool
    ensures { result ≡ list_any (λ e. is_this (recovered_in e.what) id) entries.now }
{
    entries.iter().any(|entry| recovers(entry, id))
}

/// Whether the entry says that the message was handed in again.
fn knows(entry: &Entry, id: u128) -> bool
    ensures { result ≡ is_this (known_in entry.now.what) id }
{
    match &entry.what {
        Event::Known { id: of } => *of == id,
        _ => false,
    }
}

/// Whether the message was handed in again.
pub fn is_known(entries: &[Entry], id: u128) -> bool
    ensures { result ≡ list_any (λ e. is_this (known_in e.what) id) entries.now }
{
    entries.iter().any(|entry| knows(entry, id))
}

/// Whether the entry recovers a message.
fn is_recovery(entry: &Entry) -> bool
    ensures { result ≡ is_some (recovered_in entry.now.what) }
{
    match &entry.what {
        Event::Recovered { .. } => true,
        _ => false,
    }
}

/// Whether nothing but recoveries came.
pub fn has_only_recoveries(entries: &[Entry]) -> bool
    ensures { result ≡ list_all (λ e. is_some (recovered_in e.what)) entries.now }
{
    entries.iter().all(is_recovery)
}
