//! Which rules of its path match a refusal.
//!
//! The path is that of the connection on which the attempt was made, the queue that of its message. The search may fail; its
//! count of faults then says so.
ghost use Rattle.std.specs.Prelude.{◌≡◌, ◌++◌, ◌∷◌, [], IfOk, OnOk, OnErr, option_map, option_and_then};
ghost use Rattle.kumo_outside.specs.Search.{HasSearchCause};
ghost use Rattle.history_core.specs.History.{path_named};
ghost use Rattle.history_core.specs.Connection.{path_of_connection};
ghost use Rattle.history_core.specs.Firing.{refusal_text, is_matched, refusal_at, matches_of, matches_at};
ghost use Rattle.history_automation.specs.inside.Refused.{refusal_of, matches_from};

use crate::paths::path_named;
use history_core::{Entry, Event, Path, RuleMatch};
use history_views::connections::connection_with;
use history_views::messages::message_with;
use kumo_base::{Memory, Text};
use kumo_outside::{Search, SearchFault};
use policy_core::{Policy, Rule};
use queue_name::QueueName;
use shaping_merge::path_base;
use smtp_reply::Outcome;
use std::alloc::Global;

/// A refusal of an attempt: its text, the path and the queue of the message.
#[derive(Drop)]
pub(crate) struct Refusal {
    pub(crate) at: u64,
    pub(crate) text: Text,
    pub(crate) path: Path,
    pub(crate) name: QueueName,
}

/// The matches that an entry adds to those of the entries before it. `Memory` is also the answer where the rules of a path are
/// more than a number can count.
pub fn matches_at<S: Search>(
    alloc: Global,
    search: &mut S,
    policy: &Policy,
    before: &[Entry],
    entry: &Entry,
) -> Result<Vec<RuleMatch>, SearchFault>
    ensures items { IfOk result (λ found. found.items ≡ matches_at policy.now before.now entry.now) }
    ensures cause { HasSearchCause (S.seen search.old).faults (S.seen search.new).faults result }
{
    match refusal_at(alloc, policy, before, entry) {
        Ok(Some(refusal)) => matches_of(alloc, search, policy, &refusal),
        Ok(None) => Ok(Vec::new(alloc)),
        Err(Memory) => Err(SearchFault::Memory),
    }
}

/// The refusal that an entry has.
fn refusal_at(
    alloc: Global,
    policy: &Policy,
    before: &[Entry],
    entry: &Entry,
) -> Result<Option<Refusal>, Memory>
    ensures { IfOk result (λ refusal. option_map refusal_of refusal ≡ refusal_at policy.now before.now entry.now) }
{
    let Event::Ended {
        conn,
        id,
        outcome,
        ..
    } = &entry.what
    else {
        return Ok(None);
    };
    let Some(text) = refusal_text(outcome) else {
        return Ok(None);
    };
    let Some(message) = message_with(before, *id) else {
        return Ok(None);
    };
    match path_of(alloc, policy, before, *conn)? {
        Some(path) => Ok(Some(Refusal {
            at: entry.at,
            text: Text::of(alloc, text)?,
            path,
            name: message.name.copy(alloc)?,
        })),
        None => Ok(None),
    }
}

/// The text of a refusal, for now or for good.
fn refusal_text(outcome: &Outcome) -> Option<&str>
    ensures { option_map (λ text. text.now) result ≡ refusal_text outcome.now }
{
    match outcome {
        Outcome::Transient(reply) => Some(reply.text.as_str()),
        Outcome::Permanent(reply) => Some(reply.text.as_str()),
        _ => None,
    }
}

/// The path of a connection.
fn path_of(
    alloc: Global,
    policy: &Policy,
    before: &[Entry],
    conn: u64,
) -> Result<Option<Path>, Memory>
    ensures { IfOk result (λ path. path
        ≡ option_and_then (path_named policy.now before.now) (path_of_connection before.now conn)) }
{
    match connection_with(before, conn) {
        Some(opened) => path_named(alloc, policy, before, opened.path),
        None => Ok(None),
    }
}

/// The rules of its path that match a refusal.
#[tactic(auto, unfolding(crate::specs::inside::Refused::matches_from))]
fn matches_of<S: Search>(
    alloc: Global,
    search: &mut S,
    policy: &Policy,
    refusal: &Refusal,
) -> Result<Vec<RuleMatch>, SearchFault>
    ensures items { IfOk result (λ found. found.items ≡ matches_of policy.now (refusal_of refusal.now)) }
    ensures cause { HasSearchCause (S.seen search.old).faults (S.seen search.new).faults result }
{
    match path_base(
        alloc,
        policy,
        &refusal.path.site,
        refusal.path.source.as_str(),
    ) {
        Ok(base) => matches_among(alloc, search, base.rules.as_slice(), refusal),
        Err(Memory) => Err(SearchFault::Memory),
    }
}

/// Those of a list of rules, which are numbered from 1, that match a refusal.
fn matches_among<S: Search>(
    alloc: Global,
    search: &mut S,
    rules: &[Rule],
    refusal: &Refusal,
) -> Result<Vec<RuleMatch>, SearchFault>
    ensures items { IfOk result (λ found. found.items ≡ matches_from (refusal_of refusal.now) 1 rules.now) }
    ensures cause { HasSearchCause (S.seen search.old).faults (S.seen search.new).faults result }
{
    let mut found = Vec::new(alloc);
    for (index, rule) in rules.iter().enumerate() {
        add_match(alloc, search, &mut found, refusal, index as u64 + 1, rule)?;
    }
    Ok(found)
}

/// Adds the match of a rule of this number, where it matches a refusal.
#[tactic(auto, unfolding(crate::specs::inside::Refused::matches_from))]
fn add_match<S: Search>(
    alloc: Global,
    search: &mut S,
    found: &mut Vec<RuleMatch>,
    refusal: &Refusal,
    number: u64,
    rule: &Rule,
) -> Result<(), SearchFault>
    ensures items { OnOk result (found.new.items ≡ found.old.items
        ++ matches_from (refusal_of refusal.now) number (rule.now ∷ [])) }
    ensures cause { HasSearchCause (S.seen search.old).faults (S.seen search.new).faults result }
{
    if !is_matched(search, refusal.text.as_str(), rule)? {
        return Ok(());
    }
    match push_match(alloc, found, refusal, number, rule) {
        Ok(()) => Ok(()),
        Err(Memory) => Err(SearchFault::Memory),
    }
}

/// Adds a match.
fn push_match(
    alloc: Global,
    found: &mut Vec<RuleMatch>,
    refusal: &Refusal,
    number: u64,
    rule: &Rule,
) -> Result<(), Memory>
    ensures { OnOk result (found.new.items ≡ found.old.items ++ record {
      at = refusal.now.at;
      path = refusal.now.path;
      number = number;
      rule = rule.now;
      name = refusal.now.name;
    } ∷ []) }
{
    let Ok(number) = u32::try_from(number) else {
        return Err(Memory);
    };
    found.push(RuleMatch {
        at: refusal.at,
        path: refusal.path.copy(alloc)?,
        number,
        rule: rule.copy(alloc)?,
        name: refusal.name.copy(alloc)?,
    })?;
    Ok(())
}

/// Whether some pattern of a rule is found in a text.
fn is_matched<S: Search>(search: &mut S, text: &str, rule: &Rule) -> Result<bool, SearchFault>
    ensures right { IfOk result (λ matched. matched ≡ is_matched text.now rule.now) }
    ensures cause { HasSearchCause (S.seen search.old).faults (S.seen search.new).faults result }
{
    for pattern in rule.patterns.as_slice() {
        if search.found(pattern.as_str(), text)? {
            return Ok(true);
        }
    }
    Ok(false)
}
