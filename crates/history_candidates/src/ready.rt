//! The messages that are ready on a path. Promotions and firings are handed in, since they cost memory to find.
ghost use Rattle.std.specs.Prelude.{◌≡◌, ◌&&◌, ◌+◌, not, drop, length, count_by};
ghost use Rattle.std.specs.List.{list_any};
ghost use Rattle.history_core.specs.Events.{taken_in, is_this};
ghost use Rattle.history_core.specs.History.{promotions as all_promotions, is_same_path};
ghost use Rattle.history_core.specs.Firing.{firings as all_firings, is_free};
ghost use Rattle.history_core.specs.Ready.{is_taken, ready_among, is_ready_after, is_ready, is_free_id, first_free};

use history_automation::automation::is_covered;
use history_core::{Entry, Event, Path, Promoted, RuleMatch};
use history_views::messages::{message_with, settles};
use history_views::orders::is_held;
use policy_core::Policy;
use queue_name::Message;

/// Whether the entry takes the message from its ready queue.
fn takes(entry: &Entry, id: u128) -> bool
    ensures { result ≡ is_this (taken_in entry.now.what) id }
{
    match &entry.what {
        Event::Begun { id: of, .. } => *of == id,
        Event::Delayed { id: of, .. } => *of == id,
        _ => settles(entry, id),
    }
}

/// The entries behind a place.
fn behind(entries: &[Entry], place: u64) -> &[Entry]
    ensures { result.now ≡ drop (place + 1) entries.now }
{
    let from = (place as usize).saturating_add(1).min(entries.len());
    &entries[from..]
}

/// Whether an entry after the promotion takes the message from its queue.
pub fn is_taken(entries: &[Entry], promoted: &Promoted) -> bool
    ensures { result ≡ is_taken entries.now promoted.now }
{
    behind(entries, promoted.place)
        .iter()
        .any(|entry| takes(entry, promoted.id))
}

/// Whether the message is ready after an entry.
fn is_ready_after(id: u128, was: bool, entry: &Entry) -> bool
    ensures { result ≡ is_ready_after id was entry.now.what }
{
    match &entry.what {
        Event::Promoted { id: of, .. } => *of == id || was,
        _ => !takes(entry, id) && was,
    }
}

/// Whether the message is ready, on whatever path.
pub fn is_ready(entries: &[Entry], id: u128) -> bool
    ensures { result ≡ is_ready entries.now id }
{
    let mut ready = false;
    for entry in entries {
        ready = is_ready_after(id, ready, entry);
    }
    ready
}

/// Whether the promotion stands, and is to the path.
fn is_ready_on(entries: &[Entry], promoted: &Promoted, path: &Path) -> bool
    ensures { result ≡ (not (is_taken entries.now promoted.now) && is_same_path promoted.now.path path.now) }
{
    !is_taken(entries, promoted) && promoted.path.is_same(path)
}

/// How many promotions stand, and are to the path.
fn count_on(entries: &[Entry], promotions: &[Promoted], path: &Path) -> usize
    ensures { result ≡ count_by (λ p. not (is_taken entries.now p) && is_same_path p.path path.now) promotions.now }
{
    promotions
        .iter()
        .filter(|promoted| is_ready_on(entries, promoted, path))
        .count()
}

/// How many messages are ready on a path, by the promotions of the history.
#[tactic(auto, using(crate::proofs::ReadyCount::count_both))]
pub fn ready_count(entries: &[Entry], promotions: &[Promoted], path: &Path) -> usize
    ensures { result ≡ length (ready_among promotions.now entries.now path.now) }
{
    count_on(entries, promotions, path)
}

/// Whether nothing holds the message back, by the firings of the history.
pub fn is_free(
    policy: &Policy,
    entries: &[Entry],
    firings: &[RuleMatch],
    t: u64,
    message: &Message,
) -> bool
    requires { firings.now ≡ all_firings policy.now entries.now }
    ensures { result ≡ is_free policy.now entries.now t message.now }
{
    !is_held(entries, t, &message.name) && !is_covered(policy, firings, t, message)
}

/// Whether there is a message of the id that nothing holds back.
fn is_free_id(policy: &Policy, entries: &[Entry], firings: &[RuleMatch], t: u64, id: u128) -> bool
    requires { firings.now ≡ all_firings policy.now entries.now }
    ensures { result ≡ is_free_id policy.now entries.now t id }
{
    match message_with(entries, id) {
        Some(message) => is_free(policy, entries, firings, t, message),
        None => false,
    }
}

/// The first ready message of a path that nothing holds back, by the firings and the promotions of the history.
pub fn first_free(
    policy: &Policy,
    entries: &[Entry],
    firings: &[RuleMatch],
    promotions: &[Promoted],
    t: u64,
    path: &Path,
) -> Option<u128>
    requires firings { firings.now ≡ all_firings policy.now entries.now }
    requires promotions { promotions.now ≡ all_promotions policy.now entries.now }
    ensures { result ≡ first_free policy.now entries.now t path.now }
{
    for promoted in promotions {
        if is_ready_on(entries, promoted, path)
            && is_free_id(policy, entries, firings, t, promoted.id)
        {
            return Some(promoted.id);
        }
    }
    None
}
