//! The entry that the sweep appends next.
ghost use Rattle.std.specs.Prelude.{◌≡◌, option_map, find};
ghost use Rattle.history_core.specs.Fate.{pending};
ghost use Rattle.history_core.specs.Firing.{firings as all_firings};
ghost use Rattle.history_core.specs.Retry.{is_aged, next_after};
ghost use Rattle.history_core.specs.Candidates.{is_resolvable, is_delayable};
ghost use Rattle.history_core.specs.Sweep.{how_by, next_resolved, next_delayed};
ghost use Rattle.history_automation.specs.Known.{IsKnown};

use crate::candidates::is_delayable;
use history_automation::paths::Known;
use history_core::{Entry, Event, How, Next, RuleMatch};
use history_views::connections::is_in_flight;
use history_views::messages::{delay_of, due_or_expired, failures, pending_by};
use history_views::orders::bounced_by;
use kumo_base::LAST_MOMENT;
use policy_core::Policy;
use queue_name::Message;
use queues_policy::ages_of;

/// Whether a moment is past the age that a message may reach.
pub fn is_aged(policy: &Policy, t: u64, message: &Message) -> bool
    ensures { result ≡ is_aged policy.now t message.now }
{
    let ages = ages_of(&policy.queues, &message.name);
    message
        .created
        .saturating_add(ages.max_age)
        .min(LAST_MOMENT)
        < t
}

/// What comes of a failure of a message at a moment.
#[tactic(auto, unfolding(policy_core::specs::Delays::delay_after))]
pub fn next_after(policy: &Policy, entries: &[Entry], t: u64, message: &Message) -> Next
    ensures { result ≡ next_after policy.now entries.now t message.now }
{
    let ages = ages_of(&policy.queues, &message.name);
    let failures = failures(entries, message.id).saturating_add(1);
    let wait = delay_of(ages.retry_interval, ages.max_retry_interval, failures);
    let moment = t.saturating_add(wait).min(LAST_MOMENT);
    due_or_expired(ages.max_age, message.created, moment)
}

/// Whether a message may be resolved.
pub fn is_resolvable(policy: &Policy, entries: &[Entry], t: u64, message: &Message) -> bool
    ensures { result ≡ is_resolvable policy.now entries.now t message.now }
{
    !is_in_flight(entries, message.id)
        && (bounced_by(entries, t, &message.name).is_some() || is_aged(policy, t, message))
}

/// The first pending message that may be resolved.
fn first_resolvable<'h>(policy: &Policy, entries: &'h [Entry], t: u64) -> Option<&'h Message>
    ensures { option_map (λ m. m.now) result ≡ find (is_resolvable policy.now entries.now t) (pending entries.now) }
{
    for entry in entries {
        if let Some(message) = pending_by(entries, entry) {
            if is_resolvable(policy, entries, t, message) {
                return Some(message);
            }
        }
    }
    None
}

/// How a message is resolved: the bounce comes before the age.
pub fn how_by(bounce: Option<u32>) -> How
    ensures { result ≡ how_by bounce }
{
    match bounce {
        Some(number) => How::AdminBounced(number),
        None => How::Expired,
    }
}

/// The resolution that comes next, where there is one.
pub fn next_resolved(policy: &Policy, entries: &[Entry], t: u64) -> Option<Event>
    ensures { result ≡ next_resolved policy.now entries.now t }
{
    let message = first_resolvable(policy, entries, t)?;
    Some(Event::Resolved {
        id: message.id,
        how: how_by(bounced_by(entries, t, &message.name)),
    })
}

/// The first pending message that is delayed.
fn first_delayable<'h>(
    policy: &Policy,
    entries: &'h [Entry],
    known: &Known,
    firings: &[RuleMatch],
    t: u64,
) -> Option<&'h Message>
    requires known { IsKnown policy.now entries.now known.now }
    requires firings { firings.now ≡ all_firings policy.now entries.now }
    ensures { option_map (λ m. m.now) result ≡ find (is_delayable policy.now entries.now t) (pending entries.now) }
{
    for entry in entries {
        if let Some(message) = pending_by(entries, entry) {
            if is_delayable(policy, entries, known, firings, t, message) {
                return Some(message);
            }
        }
    }
    None
}

/// The delay that comes next, where there is one.
pub fn next_delayed(
    policy: &Policy,
    entries: &[Entry],
    known: &Known,
    firings: &[RuleMatch],
    t: u64,
) -> Option<Event>
    requires known { IsKnown policy.now entries.now known.now }
    requires firings { firings.now ≡ all_firings policy.now entries.now }
    ensures { result ≡ next_delayed policy.now entries.now t }
{
    let message = first_delayable(policy, entries, known, firings, t)?;
    Some(Event::Delayed {
        id: message.id,
        next: next_after(policy, entries, t, message),
    })
}
