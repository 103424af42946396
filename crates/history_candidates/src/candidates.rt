//! Which messages may be delayed or promoted.
ghost use Rattle.std.specs.Prelude.{◌≡◌, ◌&&◌, ◌==◌, not, nat_le, true};
ghost use Rattle.std.specs.List.{list_any};
ghost use Rattle.history_core.specs.History.{is_same_path, paths};
ghost use Rattle.history_core.specs.Firing.{firings as all_firings, is_free};
ghost use Rattle.history_core.specs.Connection.{is_in_flight};
ghost use Rattle.history_core.specs.Ready.{is_taken, is_ready};
ghost use Rattle.history_core.specs.Retry.{due};
ghost use Rattle.history_core.specs.Candidates.{is_positive_multiple, is_before, is_put_off, is_delayable};
ghost use Rattle.history_automation.specs.Known.{known_path, IsKnown};

use crate::ready::{is_free, is_ready, is_taken};
use crate::refusals::{last_refusal, refusals};
use history_automation::limits::limits_in_force;
use history_automation::paths::{Known, KnownPath, known_path_of};
use history_core::{Entry, Promoted, RuleMatch};
use history_views::connections::is_in_flight;
use history_views::messages::due;
use policy_core::Policy;
use queue_name::Message;

/// Whether a number is a multiple of another above 0, and itself above 0.
fn is_positive_multiple(n: u64, k: u32) -> bool
    ensures { result ≡ is_positive_multiple n k }
{
    n > 0 && k > 0 && n % u64::from(k) == 0
}

/// Whether a place is before another, where there is one.
fn is_before(place: u64, other: Option<usize>) -> bool
    ensures { result ≡ is_before place other }
{
    match other {
        Some(other) => place < other as u64,
        None => false,
    }
}

/// Whether the path of a promotion was refused since, and often enough to delay its ready messages. `on` is what is known of
/// the promotion's path.
fn is_put_off(
    policy: &Policy,
    entries: &[Entry],
    firings: &[RuleMatch],
    t: u64,
    promoted: &Promoted,
    on: &KnownPath,
) -> bool
    requires path { on.now ≡ known_path policy.now promoted.now.path }
    requires firings { firings.now ≡ all_firings policy.now entries.now }
    ensures { result ≡ is_put_off policy.now entries.now t promoted.now }
{
    let text = on.text.as_str();
    let limits = limits_in_force(firings, t, &promoted.path, &on.base);
    is_before(promoted.place, last_refusal(entries, text))
        && is_positive_multiple(refusals(entries, text), limits.failures_before_delay)
}

/// Whether the promotion is of the message and stands, and the refusals of its path delay it.
fn is_delayed(
    policy: &Policy,
    entries: &[Entry],
    known: &Known,
    firings: &[RuleMatch],
    t: u64,
    id: u128,
    promoted: &Promoted,
) -> bool
    requires known { IsKnown policy.now entries.now known.now }
    requires firings { firings.now ≡ all_firings policy.now entries.now }
    requires path { list_any (is_same_path promoted.now.path) (paths policy.now entries.now) ≡ true }
    ensures { result ≡ (not (is_taken entries.now promoted.now)
        && (promoted.now.id == id && is_put_off policy.now entries.now t promoted.now)) }
{
    if promoted.id != id || is_taken(entries, promoted) {
        return false;
    }
    match known_path_of(known, &promoted.path) {
        Some(on) => is_put_off(policy, entries, firings, t, promoted, on),
        None => false,
    }
}

/// Whether the message is ready, and the refusals of its path delay it.
#[tactic(auto, using(history_automation::proofs::KnownPaths::path_of_promoted))]
pub fn is_delayable(
    policy: &Policy,
    entries: &[Entry],
    known: &Known,
    firings: &[RuleMatch],
    t: u64,
    message: &Message,
) -> bool
    requires known { IsKnown policy.now entries.now known.now }
    requires firings { firings.now ≡ all_firings policy.now entries.now }
    ensures { result ≡ is_delayable policy.now entries.now t message.now }
{
    let promotions = known.promotions.as_slice();
    for promoted in promotions {
        if is_delayed(policy, entries, known, firings, t, message.id, promoted) {
            return true;
        }
    }
    false
}

/// Whether the message is due and nothing holds it back, and it is neither ready nor being attempted: it is promotable where a
/// source is picked for it.
pub fn is_waiting(
    policy: &Policy,
    entries: &[Entry],
    firings: &[RuleMatch],
    t: u64,
    message: &Message,
) -> bool
    requires { firings.now ≡ all_firings policy.now entries.now }
    ensures { result ≡ (not (is_ready entries.now message.now.id) && not (is_in_flight entries.now message.now.id)
        && nat_le (due entries.now message.now) t && is_free policy.now entries.now t message.now) }
{
    !is_ready(entries, message.id)
        && !is_in_flight(entries, message.id)
        && due(entries, message) <= t
        && is_free(policy, entries, firings, t, message)
}
