//! What automation knows of a history: the matches of its refusals, and the firings that these come to. It is kept beside the
//! history and grows with it, entry by entry.
ghost use Rattle.std.specs.Prelude.{◌≡◌, ◌++◌, ◌<◌, ◌≤◌, ◌+◌, [], IfOk, OnOk, OnErr, length, take, map, filter, count_by, nat_lt};
ghost use Rattle.kumo_base.specs.Moment.{clamped};
ghost use Rattle.kumo_outside.specs.Search.{HasSearchCause};
ghost use Rattle.policy_core.specs.Policy.{Policy as policy};
ghost use Rattle.policy_core.specs.Automation.{is_fired};
ghost use Rattle.history_core.specs.History.{along_from};
ghost use Rattle.history_core.specs.Firing.{is_same_rule, moments_with, fired_at};
ghost use Rattle.history_automation.specs.Examined.{IsExamined};

use crate::matching::matches_at;
use history_core::{Entry, RuleMatch};
use kumo_base::{LAST_MOMENT, Memory};
use kumo_outside::{Search, SearchFault};
use policy_core::{Policy, Trigger};
use std::alloc::Global;
use std::marker::Model;

/// The matches and the firings of a history, each in the order in which they came.
#[derive(Drop)]
pub struct Examined {
    matches: Vec<RuleMatch>,
    firings: Vec<RuleMatch>,
}

impl Model for Examined {
    ghost use Rattle.history_automation.specs.Examined.{Found};

    ghost Value = { Found };

    ghost view = { λ x. record { matches = x.matches.items; firings = x.firings.items } };
}

impl Examined {
    /// What is known of no history yet.
    pub fn new(alloc: Global) -> Examined
        ensures { (p : policy) → IsExamined p [] result }
    {
        Examined {
            matches: Vec::new(alloc),
            firings: Vec::new(alloc),
        }
    }

    /// The matches.
    pub fn matches(&self) -> &[RuleMatch]
        ensures { result.now ≡ self.now.matches }
    {
        self.matches.as_slice()
    }

    /// The firings.
    pub fn firings(&self) -> &[RuleMatch]
        ensures { result.now ≡ self.now.firings }
    {
        self.firings.as_slice()
    }

    /// Adds matches and firings. After `Memory` all is as it was.
    fn add(
        &mut self,
        mut matches: Vec<RuleMatch>,
        mut firings: Vec<RuleMatch>,
    ) -> Result<(), Memory>
        ensures matches { OnOk result (self.new.matches ≡ self.old.matches ++ matches.items) }
        ensures firings { OnOk result (self.new.firings ≡ self.old.firings ++ firings.items) }
        ensures err { OnErr result (self.new ≡ self.old) }
    {
        self.matches.reserve(matches.len())?;
        self.firings.append(&mut firings)?;
        self.matches.append(&mut matches)?;
        Ok(())
    }
}

/// Adds what the entry at a place gives. Where it fails all is as it was.
pub fn examine<S: Search>(
    alloc: Global,
    search: &mut S,
    policy: &Policy,
    entries: &[Entry],
    place: usize,
    examined: &mut Examined,
) -> Result<(), SearchFault>
    requires so_far { IsExamined policy.now (take place entries.now) examined.old }
    requires within { place < length entries.now }
    ensures ok { OnOk result (IsExamined policy.now (take (place + 1) entries.now) examined.new) }
    ensures err { OnErr result (examined.new ≡ examined.old) }
    ensures cause { HasSearchCause (S.seen search.old).faults (S.seen search.new).faults result }
{
    let found = matches_at(alloc, search, policy, &entries[..place], &entries[place])?;
    match add_found(alloc, examined, found) {
        Ok(()) => Ok(()),
        Err(Memory) => Err(SearchFault::Memory),
    }
}

/// Adds matches, with the firings that these come to.
fn add_found(alloc: Global, examined: &mut Examined, found: Vec<RuleMatch>) -> Result<(), Memory>
    ensures matches { OnOk result (examined.new.matches ≡ examined.old.matches ++ found.items) }
    ensures firings { OnOk result (examined.new.firings
        ≡ examined.old.firings ++ along_from fired_at examined.old.matches found.items) }
    ensures err { OnErr result (examined.new ≡ examined.old) }
{
    let firings = firings_among(alloc, examined.matches(), found.as_slice())?;
    examined.add(found, firings)
}

/// The firings that matches come to, behind others.
fn firings_among(
    alloc: Global,
    before: &[RuleMatch],
    found: &[RuleMatch],
) -> Result<Vec<RuleMatch>, Memory>
    ensures { IfOk result (λ firings. firings.items ≡ along_from fired_at before.now found.now) }
{
    let mut firings = Vec::new(alloc);
    for place in 0..found.len() {
        add_firing(alloc, &mut firings, before, &found[..place], &found[place])?;
    }
    Ok(firings)
}

/// Adds a match to the firings, where it fires its rule. `before` and then `earlier` are the matches before it.
fn add_firing(
    alloc: Global,
    firings: &mut Vec<RuleMatch>,
    before: &[RuleMatch],
    earlier: &[RuleMatch],
    found: &RuleMatch,
) -> Result<(), Memory>
    ensures { OnOk result (firings.new.items ≡ firings.old.items ++ fired_at (before.now ++ earlier.now) found.now) }
{
    if is_fired(before, earlier, found) {
        firings.push(copy_match(alloc, found)?)?;
    }
    Ok(())
}

/// An equal match.
fn copy_match(alloc: Global, found: &RuleMatch) -> Result<RuleMatch, Memory>
    ensures { IfOk result (λ copy. copy ≡ found.now) }
{
    Ok(RuleMatch {
        at: found.at,
        path: found.path.copy(alloc)?,
        number: found.number,
        rule: found.rule.copy(alloc)?,
        name: found.name.copy(alloc)?,
    })
}

/// Whether a match fires its rule. `before` and then `earlier` are the matches before it.
#[tactic(auto, using(crate::proofs::FiringWalks::counted_parts))]
fn is_fired(before: &[RuleMatch], earlier: &[RuleMatch], found: &RuleMatch) -> bool
    ensures { result ≡ is_fired found.now.rule.trigger (moments_with (before.now ++ earlier.now) found.now) found.now.at }
{
    match found.rule.trigger {
        Trigger::Immediate => true,
        Trigger::Threshold { count, period } => {
            let others = count_within(before, found, period) + count_within(earlier, found, period);
            let itself = u128::from(is_within(found.at, period, found.at));
            u128::from(count) <= others + itself
        }
    }
}

/// How many of these matches are of the rule of another, and within a period up to it.
fn count_within(matches: &[RuleMatch], found: &RuleMatch, period: u64) -> u128
    ensures value { result ≡ count_by (λ s. nat_lt found.now.at (clamped (s + period)))
        (map (λ was. was.at) (filter (is_same_rule found.now) matches.now)) }
    ensures limit { result ≤ length matches.now }
{
    let mut count = 0;
    for was in matches {
        if is_same_rule(found, was) && is_within(was.at, period, found.at) {
            count += 1;
        }
    }
    count
}

/// Whether two matches are of one rule.
fn is_same_rule(found: &RuleMatch, was: &RuleMatch) -> bool
    ensures { result ≡ is_same_rule found.now was.now }
{
    found.number == was.number && found.path.is_same(&was.path)
}

/// Whether a moment is within a period from another.
fn is_within(start: u64, period: u64, t: u64) -> bool
    ensures { result ≡ nat_lt t (clamped (start + period)) }
{
    t < start.saturating_add(period).min(LAST_MOMENT)
}
