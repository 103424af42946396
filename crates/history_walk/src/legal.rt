//! Whether an entry may follow a history.
ghost use Rattle.std.specs.Prelude.{◌≡◌, ◌↔◌, ◌<◌, ◌≤◌, Err, IsTrue, IfOk, OnOk};
ghost use Rattle.kumo_base.specs.Causes.{Rose};
ghost use Rattle.kumo_outside.specs.Search.{HasSearchCause};
ghost use Rattle.history_core.specs.History.{has_stopped, last_moment};
ghost use Rattle.history_core.specs.Events.{is_stopped};
ghost use Rattle.history_core.specs.Legal.{Row, MayFollow};
ghost use Rattle.history_automation.specs.Examined.{IsExamined};
ghost use Rattle.history_walk.specs.declared.legal.Breach.TheVariants as breach;

use crate::proper::is_proper;
use crate::rows::{
    may_accept, may_end, may_know, may_order, may_recover, may_resolve, may_resume, may_stop,
};
use crate::scene::Scene;
use history_automation::paths::Known;
use history_automation::replies::{Examined, examine};
use history_core::{Entry, Event};
use kumo_base::Memory;
use kumo_outside::{Search, SearchFault};
use policy_core::Policy;
use std::alloc::Global;

/// Why an entry was not found to follow.
#[derive(Clone, Copy, Debug, PartialEq, Eq)]
pub enum Breach {
    /// It falls behind the last entry.
    Moment,
    /// It may not follow.
    NotAllowed,
    /// The search engine failed on a pattern of a rule, and counted a fault.
    Search,
    /// There was no memory.
    Memory,
}

impl From<Memory> for Breach {
    ghost use Rattle.history_walk.specs.declared.legal.Breach.TheVariants as breach;

    ghost from_gives = { λ _ found. found ≡ breach.Memory };

    fn from(_memory: Memory) -> Breach {
        Breach::Memory
    }
}

impl From<SearchFault> for Breach {
    ghost use Rattle.kumo_outside.specs.declared.search.SearchFault.{SearchFault};
    ghost use Rattle.history_walk.specs.Breaches.{breach_by};

    ghost from_gives = { λ fault found. found ≡ breach_by fault };

    fn from(fault: SearchFault) -> Breach {
        match fault {
            SearchFault::Search => Breach::Search,
            SearchFault::Memory => Breach::Memory,
        }
    }
}

/// Whether the work has ended.
fn has_stopped(entries: &[Entry]) -> bool
    ensures { result ≡ has_stopped entries.now }
{
    entries.iter().any(is_stop)
}

/// Whether the entry ends the work.
fn is_stop(entry: &Entry) -> bool
    ensures { result ≡ is_stopped entry.now.what }
{
    match &entry.what {
        Event::Stopped => true,
        _ => false,
    }
}

/// The moment of the last entry, 0 before the first.
fn last_moment(entries: &[Entry]) -> u64
    ensures { result ≡ last_moment entries.now }
{
    let mut last = 0;
    for entry in entries {
        last = entry.at;
    }
    last
}

/// All that automation knows of a history.
fn examined<S: Search>(
    alloc: Global,
    search: &mut S,
    policy: &Policy,
    entries: &[Entry],
) -> Result<Examined, SearchFault>
    ensures ok { IfOk result (λ found. IsExamined policy.now entries.now found) }
    ensures cause { HasSearchCause (S.seen search.old).faults (S.seen search.new).faults result }
{
    let mut found = Examined::new(alloc);
    for place in 0..entries.len() {
        examine(alloc, search, policy, entries, place, &mut found)?;
    }
    Ok(found)
}

/// Whether the row of an event holds at a scene, for a pass.
fn row_holds(alloc: Global, scene: &Scene<'_>, who: u32, what: &Event) -> Result<bool, Memory>
    ensures { IfOk result (λ holds. IsTrue holds ↔ Row scene.now.policy scene.now.history scene.now.moment who what.now) }
{
    let entries = scene.entries();
    let t = scene.moment();
    match what {
        Event::Recovered {
            message,
            failures,
            due,
        } => { Ok(may_recover(entries, who, message, *failures, *due)) }
        Event::Accepted(message) => Ok(may_accept(entries, message)),
        Event::Known { id } => Ok(may_know(entries, *id)),
        Event::Promoted { id, source } => scene.may_promote(alloc, *id, source.as_str()),
        Event::Opened { conn, path, key } => scene.may_open(alloc, who, *conn, path, *key),
        Event::Begun { conn, id, key } => Ok(scene.may_begin_attempt(who, *conn, *id, *key)),
        Event::Ended {
            conn,
            id,
            outcome,
            next,
        } => { Ok(may_end(scene.policy(), entries, t, who, *conn, *id, outcome, *next)) }
        Event::Closed { conn, cause } => Ok(scene.may_close(who, *conn, *cause)),
        Event::Delayed { id, next } => Ok(scene.may_delay(*id, *next)),
        Event::Ordered { number, .. } => Ok(may_order(entries, *number)),
        Event::Resumed { number } => Ok(may_resume(entries, t, *number)),
        Event::Resolved { id, how } => Ok(may_resolve(scene.policy(), entries, t, *id, *how)),
        Event::Rested { until } => scene.may_rest(alloc, *until),
        Event::Stopped => Ok(may_stop(scene.policy(), entries, t)),
    }
}

/// Whether an entry may follow a history. `Ok` only where it may; `NotAllowed` only where it may not; `Moment` exactly where it
/// falls behind the last entry. The replies of the history are searched for the patterns of the rules; `Search` comes only where
/// the count of the search engine's faults rose.
pub fn legal_next<S: Search>(
    alloc: Global,
    policy: &Policy,
    entries: &[Entry],
    entry: &Entry,
    search: &mut S,
) -> Result<(), Breach>
    ensures ok { OnOk result (MayFollow policy.now entries.now entry.now) }
    ensures not_allowed { result ≡ Err breach.NotAllowed → MayFollow policy.now entries.now entry.now → ⊥ }
    ensures moment { result ≡ Err breach.Moment ↔ (entry.now.at < last_moment entries.now) }
    ensures later { (S.seen search.old).faults ≤ (S.seen search.new).faults }
    ensures cause { result ≡ Err breach.Search → Rose (S.seen search.old).faults (S.seen search.new).faults }
{
    if entry.at < last_moment(entries) {
        return Err(Breach::Moment);
    }
    if has_stopped(entries) || !is_proper(entry) {
        return Err(Breach::NotAllowed);
    }
    let known = Known::of(alloc, policy, entries)?;
    let found = examined(alloc, search, policy, entries)?;
    let scene = Scene::new(policy, entries, &known, found.firings(), entry.at);
    if row_holds(alloc, &scene, entry.who, &entry.what)? {
        Ok(())
    } else {
        Err(Breach::NotAllowed)
    }
}
