//! What is kept of one rule of a path: its last match moments, and its firings that are not over.
//!
//! Firings stand in the order in which they came. All of one rule last equally long, so they end in that order too: those that are
//! over stand in front, and whether any is in force the last one tells. A new firing makes those go that are over.
ghost use Rattle.std.specs.VecDeque.{deque_len, deque_capacity};
ghost use Rattle.std.specs.Prelude.{◌<◌, ◌≡◌, ◌≤◌, ◌++◌, ◌∷◌, [], ℕ, List, map, filter, length, drop, nat_le, IfOk, OnErr};
ghost use Rattle.std.specs.List.{list_any};
ghost use Rattle.circular_buffer.specs.Buffer.{keep_last};
ghost use Rattle.policy_core.specs.Automation.{is_fired, covers};
ghost use Rattle.automation_rules.specs.Memory.{IsAscending, looks_back, is_live, ends_of, last_end, name_kept};
ghost use Rattle.automation_rules.specs.inside.Noting.{without_over, noted_in, is_by};

use crate::firing::{Firing, end_of};
use crate::ring::Ring;
use kumo_base::Memory;
use policy_core::{Action, Rule, Trigger};
use queue_name::QueueName;
use std::alloc::Global;
use std::collections::VecDeque;
use std::marker::Model;

/// The state of one rule of a path.
#[derive(Drop)]
pub(crate) struct RuleState {
    ring: Ring,
    firings: VecDeque<Firing>,
}

impl Model for RuleState {
    ghost use Rattle.automation_rules.specs.Memory.{RuleMemory};

    ghost Value = { RuleMemory };

    ghost view = { λ s. record { most = s.ring.most; moments = s.ring.moments; firings = s.firings.items } };

    ghost use Rattle.automation_rules.specs.Memory.{IsAscending, ends_of};

    ghost invariant = { λ s. IsAscending (ends_of s.firings.items) };
}

impl RuleState {
    /// The state of a rule of this trigger that nothing matched yet.
    pub(crate) fn new(alloc: Global, trigger: &Trigger) -> Result<RuleState, Memory>
        ensures { IfOk result (λ state. state ≡ record { most = looks_back trigger.now; moments = []; firings = [] }) }
    {
        Ok(RuleState {
            ring: Ring::new(alloc, looks_back(trigger))?,
            firings: VecDeque::new(alloc),
        })
    }

    /// Notes a match of the rule at a moment, by the reply to a message of a queue, and answers whether it fires the rule. After
    /// `Memory` all is as it was.
    pub(crate) fn note(
        &mut self,
        alloc: Global,
        rule: &Rule,
        t: u64,
        name: &QueueName,
    ) -> Result<bool, Memory>
        ensures fires { (moments : List ℕ) → self.old.moments ≡ keep_last (looks_back rule.now.trigger) moments
            → IsAscending (moments ++ t ∷ []) → IfOk result (λ fires. fires ≡ is_fired rule.now.trigger (moments ++ t ∷ []) t) }
        ensures ok { IfOk result (λ fires. self.new ≡ noted_in self.old rule.now t name.now fires) }
        ensures err { OnErr result (self.new ≡ self.old) }
    {
        if !self.ring.fires(&rule.trigger, t) {
            self.ring.add(t)?;
            return Ok(false);
        }
        // Where moments never fall, no firing before ends later.
        let end = end_of(t, rule.duration).max(last_end(&self.firings));
        let firing = Firing::of(alloc, &rule.action, end, name)?;
        self.firings.reserve(1)?;
        self.ring.add(t)?;
        keep(&mut self.firings, firing, t);
        Ok(true)
    }

    /// Whether some firing is not over at a moment.
    pub(crate) fn is_in_force(&self, t: u64) -> bool
        ensures { result ≡ list_any (is_live t) self.now.firings }
    {
        match self.firings.back() {
            Some(last) => t < last.end,
            None => false,
        }
    }

    /// Whether some firing that is not over at a moment holds back the messages of a queue, where the rule has this action.
    pub(crate) fn covers(&self, action: &Action, name: &QueueName, t: u64) -> bool
        ensures { result ≡ list_any (λ f. covers action.now (name_kept f) name.now) (filter (is_live t) self.now.firings) }
    {
        covers_from(&self.firings, first_live(&self.firings, t), action, name)
    }

    /// The first end of the firings that are not over at a moment.
    pub(crate) fn next_end(&self, t: u64) -> Option<u64>
        ensures { (u : ℕ) → is_by u result ≡ list_any (λ f. nat_le f.end u) (filter (is_live t) self.now.firings) }
    {
        let first = self.firings.get(first_live(&self.firings, t))?;
        Some(first.end)
    }
}

/// How many moments a trigger looks back on.
fn looks_back(trigger: &Trigger) -> usize
    ensures { result ≡ looks_back trigger.now }
{
    match trigger {
        Trigger::Immediate => 0,
        Trigger::Threshold { count, .. } => *count as usize,
    }
}

/// The place of the first firing that is not over at a moment, or how many there are.
fn first_live(firings: &VecDeque<Firing>, t: u64) -> usize
    requires { IsAscending (ends_of firings.now.items) }
    ensures within { result ≤ length firings.now.items }
    ensures live { drop result firings.now.items ≡ filter (is_live t) firings.now.items }
{
    firings.partition_point(|firing| firing.end <= t)
}

/// Whether some firing from a place on holds back the messages of a queue.
fn covers_from(firings: &VecDeque<Firing>, from: usize, action: &Action, name: &QueueName) -> bool
    requires { from ≤ length firings.now.items }
    ensures { result ≡ list_any (λ f. covers action.now (name_kept f) name.now) (drop from firings.now.items) }
{
    for place in from..firings.len() {
        if firings[place].covers(action, name) {
            return true;
        }
    }
    false
}

/// When the last firing ends, or 0.
fn last_end(firings: &VecDeque<Firing>) -> u64
    ensures { result ≡ last_end firings.now.items }
{
    match firings.back() {
        Some(last) => last.end,
        None => 0,
    }
}

/// Adds a firing, for which there is room and which ends no earlier than the others, and lets the firings go that are over.
#[tactic(auto, using(crate::proofs::FiringLemmas::ascending_noted))]
fn keep(firings: &mut VecDeque<Firing>, firing: Firing, t: u64)
    requires room { deque_len firings.old < deque_capacity firings.old }
    requires order { IsAscending (ends_of firings.old.items) }
    requires last { last_end firings.old.items ≤ firing.end }
    ensures items { firings.new.items ≡ without_over t (firings.old.items ++ firing ∷ []) }
    ensures order { IsAscending (ends_of firings.new.items) }
{
    firings.push_back_reserved(firing);
    drop_over(firings, t);
}

/// Lets the firings go that are over at a moment, up to the first that is not.
fn drop_over(firings: &mut VecDeque<Firing>, t: u64)
    ensures { firings.new.items ≡ without_over t firings.old.items }
{
    while let Some(first) = firings.front() {
        if t < first.end {
            return;
        }
        let _ = firings.pop_front();
    }
}
