//! The source that the rotation of a message's pool picks for it.
ghost use Rattle.std.specs.Prelude.{◌≡◌, ◌&&◌, not, nat_lt, IfOk, OnOk, IfSome, length, map, fold, bytes_eq, option_map, option_to_list, None};
ghost use Rattle.std.specs.Option.{option_or};
ghost use Rattle.policy_core.specs.Rotation.{weights_of, pick, rotation};
ghost use Rattle.policy_core.specs.PathTables.{base_of};
ghost use Rattle.history_core.specs.Events.{promotion_in};
ghost use Rattle.history_core.specs.History.{path_for, text_of};
ghost use Rattle.history_core.specs.Firing.{firings as all_firings};
ghost use Rattle.history_core.specs.Candidates.{pool_of, is_source, turned, source_taken, place_of, has_room, eligible, pick_from, pick_for};
ghost use Rattle.history_automation.specs.Known.{known_path, IsKnown};

use crate::ready::ready_count;
use egress_pool::Turner;
use history_automation::automation::is_halted;
use history_automation::limits::limits_in_force;
use history_automation::paths::{Known, KnownPath, known_path, known_path_of, path_for};
use history_core::{Entry, Event, RuleMatch};
use history_views::messages::message_with;
use kumo_base::{Memory, Text};
use policy_core::{Policy, Pool};
use queue_name::Message;
use queues_policy::pool_name_of;
use std::alloc::Global;

/// The pool of a message's queue.
pub fn pool_of<'p>(policy: &'p Policy, message: &Message) -> Option<&'p Pool>
    ensures { option_map (λ pool. pool.now) result ≡ pool_of policy.now message.now }
{
    let name = pool_name_of(&policy.queues, &message.name);
    policy
        .sources
        .pools
        .as_slice()
        .iter()
        .find(|pool| pool.name.is_same(name))
}

/// The source of a promotion by an entry of a message of the pool. `before` are the entries before it.
fn source_taken<'h>(
    policy: &Policy,
    pool: &Pool,
    before: &[Entry],
    entry: &'h Entry,
) -> Option<&'h str>
    ensures { option_to_list (option_map (λ source. source.now) result)
        ≡ source_taken policy.now pool.now before.now (promotion_in entry.now.what) }
{
    let Event::Promoted { id, source } = &entry.what else {
        return None;
    };
    let message = message_with(before, *id)?;
    let own = pool_of(policy, message)?;
    if own.name.is_same(pool.name.as_str()) {
        Some(source.as_str())
    } else {
        None
    }
}

/// Which entrants of a pool are this source.
fn is_source(alloc: Global, source: &str, pool: &Pool) -> Result<Vec<bool>, Memory>
    ensures { IfOk result (λ flags. flags.items ≡ is_source source.now pool.now) }
{
    let mut flags = Vec::new(alloc);
    for entrant in pool.entrants.as_slice() {
        flags.push(entrant.source.is_same(source))?;
    }
    Ok(flags)
}

/// Moves the rotation of a pool on to the next turn of a source.
fn turn(alloc: Global, pool: &Pool, source: &str, turner: &mut Turner) -> Result<(), Memory>
    requires { turner.old.weights ≡ weights_of pool.now }
    ensures { OnOk result (turner.new
        ≡ record { weights = weights_of pool.now; last = turned pool.now turner.old.last source.now }) }
{
    let flags = is_source(alloc, source, pool)?;
    turner.pick(flags.as_slice());
    Ok(())
}

/// Moves the rotation of a pool on by an entry, which stands behind those before it.
fn turn_by(
    alloc: Global,
    policy: &Policy,
    pool: &Pool,
    before: &[Entry],
    entry: &Entry,
    turner: &mut Turner,
) -> Result<(), Memory>
    requires { turner.old.weights ≡ weights_of pool.now }
    ensures { OnOk result (turner.new ≡ record {
      weights = weights_of pool.now;
      last = fold (turned pool.now)
          turner.old.last (source_taken policy.now pool.now before.now (promotion_in entry.now.what));
    }) }
{
    match source_taken(policy, pool, before, entry) {
        Some(source) => turn(alloc, pool, source, turner),
        None => Ok(()),
    }
}

/// The rotation of a pool at its place.
#[tactic(auto, using(history_automation::proofs::Along::place_of_next))]
fn turner_of(
    alloc: Global,
    policy: &Policy,
    pool: &Pool,
    entries: &[Entry],
) -> Result<Turner, Memory>
    ensures { IfOk result (λ turner. turner
        ≡ record { weights = weights_of pool.now; last = place_of policy.now pool.now entries.now }) }
{
    let mut turner = Turner::new(alloc, pool)?;
    for place in 0..entries.len() {
        turn_by(
            alloc,
            policy,
            pool,
            &entries[..place],
            &entries[place],
            &mut turner,
        )?;
    }
    Ok(turner)
}

/// Whether a known path may take one more ready message.
fn has_room(
    policy: &Policy,
    entries: &[Entry],
    known: &Known,
    firings: &[RuleMatch],
    t: u64,
    on: &KnownPath,
) -> bool
    requires known { IsKnown policy.now entries.now known.now }
    requires firings { firings.now ≡ all_firings policy.now entries.now }
    requires text { on.now.text ≡ text_of on.now.path }
    requires base { on.now.base ≡ base_of policy.now on.now.path.site on.now.path.source }
    ensures { result ≡ has_room policy.now entries.now t on.now.path }
{
    let limits = limits_in_force(firings, t, &on.path, &on.base);
    !is_halted(entries, firings, t, &on.path, on.text.as_str())
        && ready_count(entries, &known.promotions, &on.path) < limits.ready_limit as usize
}

/// Whether the path of a message from a source may take one more ready message.
fn has_room_from(
    alloc: Global,
    policy: &Policy,
    entries: &[Entry],
    known: &Known,
    firings: &[RuleMatch],
    t: u64,
    message: &Message,
    source: &str,
) -> Result<bool, Memory>
    requires known { IsKnown policy.now entries.now known.now }
    requires firings { firings.now ≡ all_firings policy.now entries.now }
    ensures { IfOk result (λ room. room ≡ has_room policy.now entries.now t (path_for policy.now message.now source.now)) }
{
    let path = path_for(alloc, policy, message, source)?;
    match known_path_of(known, &path) {
        Some(on) => Ok(has_room(policy, entries, known, firings, t, on)),
        None => {
            let on = known_path(alloc, policy, &path)?;
            Ok(has_room(policy, entries, known, firings, t, &on))
        }
    }
}

/// Of each entrant of a pool whether its path may take the message.
fn eligible(
    alloc: Global,
    policy: &Policy,
    entries: &[Entry],
    known: &Known,
    firings: &[RuleMatch],
    t: u64,
    message: &Message,
    pool: &Pool,
) -> Result<Vec<bool>, Memory>
    requires known { IsKnown policy.now entries.now known.now }
    requires firings { firings.now ≡ all_firings policy.now entries.now }
    ensures { IfOk result (λ flags. flags.items ≡ eligible policy.now entries.now t message.now pool.now) }
{
    let mut flags = Vec::new(alloc);
    for entrant in pool.entrants.as_slice() {
        let source = entrant.source.as_str();
        let room = has_room_from(alloc, policy, entries, known, firings, t, message, source)?;
        flags.push(room)?;
    }
    Ok(flags)
}

/// The source that the rotation of a pool picks for a message, of those whose path has room.
fn pick_from(
    alloc: Global,
    policy: &Policy,
    entries: &[Entry],
    known: &Known,
    firings: &[RuleMatch],
    t: u64,
    message: &Message,
    pool: &Pool,
) -> Result<Option<Text>, Memory>
    requires known { IsKnown policy.now entries.now known.now }
    requires firings { firings.now ≡ all_firings policy.now entries.now }
    ensures { IfOk result (λ source. source ≡ pick_from policy.now entries.now t message.now pool.now) }
{
    let flags = eligible(alloc, policy, entries, known, firings, t, message, pool)?;
    let mut turner = turner_of(alloc, policy, pool, entries)?;
    match turner.pick(flags.as_slice()) {
        Some(entrant) => Ok(Some(pool.entrants.as_slice()[entrant].source.copy(alloc)?)),
        None => Ok(None),
    }
}

/// The source that the rotation of the message's pool picks for it, of those whose path has room; by what is known of the
/// history's paths and by its firings.
pub fn pick_for(
    alloc: Global,
    policy: &Policy,
    entries: &[Entry],
    known: &Known,
    firings: &[RuleMatch],
    t: u64,
    message: &Message,
) -> Result<Option<Text>, Memory>
    requires known { IsKnown policy.now entries.now known.now }
    requires firings { firings.now ≡ all_firings policy.now entries.now }
    ensures { IfOk result (λ source. source ≡ pick_for policy.now entries.now t message.now) }
{
    match pool_of(policy, message) {
        Some(pool) => pick_from(alloc, policy, entries, known, firings, t, message, pool),
        None => Ok(None),
    }
}
