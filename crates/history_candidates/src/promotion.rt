//! The message that is promoted next: of those that wait and have a pick the one that is due first.
ghost use Rattle.std.specs.Prelude.{◌≡◌, ◌∷◌, List, Some, IfOk, IfSome, option_map};
ghost use Rattle.queue_name.specs.declared.message.Message.{Message as a_message};
ghost use Rattle.history_core.specs.declared.entry.Entry.{Entry as an_entry};
ghost use Rattle.history_core.specs.Fate.{pending};
ghost use Rattle.history_core.specs.Sweep.{next_promoted, next_swept};
ghost use Rattle.history_core.specs.Firing.{firings as all_firings};
ghost use Rattle.history_core.specs.Candidates.{pick_for};
ghost use Rattle.history_automation.specs.Known.{IsKnown};
ghost use Rattle.history_candidates.specs.inside.Soonest.{soonest_among, soonest_with, pending_among, is_no_later};

use crate::candidates::is_waiting;
use crate::rotation::pick_for;
use crate::sweep::{next_delayed, next_resolved};
use history_automation::paths::Known;
use history_core::{Entry, Event, RuleMatch};
use history_views::messages::{due, pending_by};
use kumo_base::{Memory, Text};
use policy_core::Policy;
use queue_name::Message;
use std::alloc::Global;

/// A message that may be promoted, with the source that is picked for it.
#[derive(Drop)]
struct Candidate<'h> {
    message: &'h Message,
    source: Text,
}

/// Whether a message that was found is due no later than another.
fn is_no_later(entries: &[Entry], best: &Option<Candidate<'_>>, message: &Message) -> bool
    ensures { result ≡ is_no_later entries.now (option_map (λ c. c.message.now) best.now) message.now }
{
    match best {
        Some(found) => due(entries, found.message) <= due(entries, message),
        None => false,
    }
}

/// What was found so far, or a message behind it that is due before and may be promoted.
#[tactic(auto, using(crate::proofs::SoonestLemmas::no_sooner, crate::proofs::SoonestLemmas::sooner, crate::proofs::SoonestLemmas::passed_over))]
fn sooner<'h>(
    alloc: Global,
    policy: &Policy,
    entries: &[Entry],
    known: &Known,
    firings: &[RuleMatch],
    t: u64,
    best: Option<Candidate<'h>>,
    message: &'h Message,
) -> Result<Option<Candidate<'h>>, Memory>
    requires known { IsKnown policy.now entries.now known.now }
    requires firings { firings.now ≡ all_firings policy.now entries.now }
    requires best { IfSome best (λ c. pick_for policy.now entries.now t c.message.now ≡ Some c.source) }
    ensures soonest { IfOk result (λ found. (later : List a_message) → soonest_with policy.now entries.now t
        (option_map (λ c. c.message.now) best.entry) (message.now ∷ later)
        ≡ soonest_with policy.now entries.now t (option_map (λ c. c.message.now) found) later) }
    ensures pick { IfOk result (λ found. IfSome found (λ c. pick_for policy.now entries.now t c.message.now ≡ Some c.source)) }
{
    if is_no_later(entries, &best, message) || !is_waiting(policy, entries, firings, t, message) {
        return Ok(best);
    }
    match pick_for(alloc, policy, entries, known, firings, t, message)? {
        Some(source) => Ok(Some(Candidate { message, source })),
        None => Ok(best),
    }
}

/// The promotable message that is due first, with the source that is picked for it.
fn soonest<'h>(
    alloc: Global,
    policy: &Policy,
    entries: &'h [Entry],
    known: &Known,
    firings: &[RuleMatch],
    t: u64,
) -> Result<Option<Candidate<'h>>, Memory>
    requires known { IsKnown policy.now entries.now known.now }
    requires firings { firings.now ≡ all_firings policy.now entries.now }
    ensures soonest { IfOk result (λ found. option_map (λ c. c.message.now) found
        ≡ soonest_among policy.now entries.now t (pending entries.now)) }
    ensures pick { IfOk result (λ found. IfSome found (λ c. pick_for policy.now entries.now t c.message.now ≡ Some c.source)) }
{
    let mut best = None;
    for entry in entries {
        best = sooner_by(alloc, policy, entries, known, firings, t, best, entry)?;
    }
    Ok(best)
}

/// What was found so far, or the pending message that an entry brings, where it is due before and may be promoted.
fn sooner_by<'h>(
    alloc: Global,
    policy: &Policy,
    entries: &[Entry],
    known: &Known,
    firings: &[RuleMatch],
    t: u64,
    best: Option<Candidate<'h>>,
    entry: &'h Entry,
) -> Result<Option<Candidate<'h>>, Memory>
    requires known { IsKnown policy.now entries.now known.now }
    requires firings { firings.now ≡ all_firings policy.now entries.now }
    requires best { IfSome best (λ c. pick_for policy.now entries.now t c.message.now ≡ Some c.source) }
    ensures soonest { IfOk result (λ found. (later : List an_entry) → soonest_with policy.now entries.now t
        (option_map (λ c. c.message.now) best.entry) (pending_among entries.now (entry.now ∷ later))
        ≡ soonest_with policy.now entries.now t (option_map (λ c. c.message.now) found) (pending_among entries.now later)) }
    ensures pick { IfOk result (λ found. IfSome found (λ c. pick_for policy.now entries.now t c.message.now ≡ Some c.source)) }
{
    match pending_by(entries, entry) {
        Some(message) => sooner(alloc, policy, entries, known, firings, t, best, message),
        None => Ok(best),
    }
}

/// The promotion that comes next, where there is one.
pub fn next_promoted(
    alloc: Global,
    policy: &Policy,
    entries: &[Entry],
    known: &Known,
    firings: &[RuleMatch],
    t: u64,
) -> Result<Option<Event>, Memory>
    requires known { IsKnown policy.now entries.now known.now }
    requires firings { firings.now ≡ all_firings policy.now entries.now }
    ensures { IfOk result (λ event. event ≡ next_promoted policy.now entries.now t) }
{
    match soonest(alloc, policy, entries, known, firings, t)? {
        Some(found) => Ok(Some(Event::Promoted {
            id: found.message.id,
            source: found.source,
        })),
        None => Ok(None),
    }
}

/// The entry that the sweep appends next, where anything is left for it: what may be resolved, then what is delayed, each in the
/// order of the messages' numbers, then the message that is due first.
#[tactic(auto, unfolding(history_core::specs::Sweep::next_swept))]
pub fn next_swept(
    alloc: Global,
    policy: &Policy,
    entries: &[Entry],
    known: &Known,
    firings: &[RuleMatch],
    t: u64,
) -> Result<Option<Event>, Memory>
    requires known { IsKnown policy.now entries.now known.now }
    requires firings { firings.now ≡ all_firings policy.now entries.now }
    ensures { IfOk result (λ event. event ≡ next_swept policy.now entries.now t) }
{
    if let Some(event) = next_resolved(policy, entries, t) {
        return Ok(Some(event));
    }
    if let Some(event) = next_delayed(policy, entries, known, firings, t) {
        return Ok(Some(event));
    }
    next_promoted(alloc, policy, entries, known, firings, t)
}
