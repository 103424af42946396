//! A path, and the states of its rules.
ghost use Rattle.std.specs.Prelude.{◌≡◌, ◌≤◌, ◌<◌, ◌+◌, ◌-◌, ◌++◌, ◌∷◌, ◌||◌, [], ℕ, List, is_some, map, length, filter, nat_le, slice_index_or, slice_set, IfOk, OnErr};
ghost use Rattle.std.specs.List.{list_any, enumerate_from};
ghost use Rattle.circular_buffer.specs.Buffer.{keep_last};
ghost use Rattle.policy_core.specs.Automation.{is_fired, covers, is_suspend, numbered_rules, limits_of};
ghost use Rattle.policy_core.specs.Site.{is_same_site};
ghost use Rattle.policy_core.specs.declared.rules.Rule.{Rule as rule_seen};
ghost use Rattle.automation_rules.specs.Matches.{rule_in};
ghost use Rattle.automation_rules.specs.Memory.{IsAscending, RuleMemory, looks_back, is_live, name_kept, blank_rule};
ghost use Rattle.automation_rules.specs.inside.Noting.{noted_in, is_by};
ghost use Rattle.automation_rules.specs.inside.Setting.{with_rules};
ghost use Rattle.automation_rules.specs.inside.Showing.{firings_at, halts_by, covers_by, ends_by};

use crate::rule_state::RuleState;
use crate::setting::set_by_rule;
use kumo_base::Memory;
use policy_core::{Action, InForce, PathBase, Rule, Site};
use queue_name::QueueName;
use std::alloc::Global;
use std::marker::Model;

/// A path with the states of its rules, which stand in the order of the rules.
#[derive(Drop)]
pub(crate) struct KnownPath {
    base: PathBase,
    site: Site,
    rules: Vec<RuleState>,
}

impl Model for KnownPath {
    ghost use Rattle.std.specs.Prelude.{◌≡◌, ◌<◌, ◌^◌, length};
    ghost use Rattle.automation_rules.specs.Memory.{PathMemory};

    ghost Value = { PathMemory };

    ghost view = { λ p. record { base = p.base; site = p.site; rules = p.rules.items } };

    ghost invariant = { λ p. (length p.rules.items ≡ length p.base.rules) × (length p.base.rules < 2 ^ 32) };
}

impl KnownPath {
    /// A path of whose rules none was matched yet. `Memory` is also the answer where they are more than 32 bits count.
    pub(crate) fn new(alloc: Global, base: PathBase, site: &Site) -> Result<KnownPath, Memory>
        ensures { IfOk result (λ p. p ≡ record { base = base; site = site.now; rules = map blank_rule base.rules }) }
    {
        if u32::try_from(base.rules.as_slice().len()).is_err() {
            return Err(Memory);
        }
        let rules = blank_rules(alloc, base.rules.as_slice())?;
        let site = site.copy(alloc)?;
        Ok(KnownPath { base, site, rules })
    }

    /// Whether the path has a rule of a number, which is counted from 1.
    pub(crate) fn has_rule(&self, number: u32) -> bool
        ensures { result ≡ is_some (rule_in self.now.base number) }
    {
        if number == 0 {
            return false;
        }
        self.base
            .rules
            .as_slice()
            .get(number as usize - 1)
            .is_some()
    }

    /// Notes a match of the rule at a place. After `Memory` all is as it was.
    pub(crate) fn note(
        &mut self,
        alloc: Global,
        place: usize,
        t: u64,
        name: &QueueName,
    ) -> Result<bool, Memory>
        requires { place < length self.old.base.rules }
        ensures fires { (x : rule_seen) (s : RuleMemory) (moments : List ℕ) → x ≡ slice_index_or self.old.base.rules place x
            → s ≡ slice_index_or self.old.rules place s → s.moments ≡ keep_last (looks_back x.trigger) moments
            → IsAscending (moments ++ t ∷ []) → IfOk result (λ fires. fires ≡ is_fired x.trigger (moments ++ t ∷ []) t) }
        ensures base { self.new.base ≡ self.old.base }
        ensures site { self.new.site ≡ self.old.site }
        ensures rules { (x : rule_seen) (s : RuleMemory) → x ≡ slice_index_or self.old.base.rules place x
            → s ≡ slice_index_or self.old.rules place s
            → IfOk result (λ fires. self.new.rules ≡ slice_set self.old.rules place (noted_in s x t name.now fires)) }
        ensures err { OnErr result (self.new ≡ self.old) }
    {
        let rule = &self.base.rules.as_slice()[place];
        let state = &mut self.rules[place];
        state.note(alloc, rule, t, name)
    }

    /// Whether the rule at a place is in force at a moment.
    pub(crate) fn is_in_force(&self, place: usize, t: u64) -> bool
        requires { place < length self.now.base.rules }
        ensures { result ≡ list_any (is_live t) (firings_at self.now.rules (place + 1)) }
    {
        let state = &self.rules[place];
        state.is_in_force(t)
    }

    /// What is in force on the path at a moment.
    #[tactic(auto, unfolding(policy_core::specs::Automation::limits_of))]
    pub(crate) fn limits(&self, t: u64) -> InForce
        ensures { result ≡ limits_of self.now.base (λ number. list_any (is_live t) (firings_at self.now.rules number)) }
    {
        let mut now = InForce::of(&self.base.options);
        self.set_by_rules(&mut now, t);
        now
    }

    /// Sets the options that the rules in force set, each over those before it.
    fn set_by_rules(&self, now: &mut InForce, t: u64)
        ensures { now.new ≡ with_rules (filter (λ r. list_any (is_live t) (firings_at self.now.rules r.0))
            (numbered_rules self.now.base)) now.old }
    {
        for (place, rule) in self.base.rules.as_slice().iter().enumerate() {
            if self.is_in_force(place, t) {
                set_by_rule(now, place as u32 + 1, rule);
            }
        }
    }

    /// Whether a rule in force suspends the path at a moment.
    pub(crate) fn is_halted(&self, t: u64) -> bool
        ensures { result ≡ list_any (halts_by t (firings_at self.now.rules)) (numbered_rules self.now.base) }
    {
        for (place, rule) in self.base.rules.as_slice().iter().enumerate() {
            if is_suspend(&rule.action) && self.is_in_force(place, t) {
                return true;
            }
        }
        false
    }

    /// Whether some firing that is not over at a moment holds back the messages of a queue at the site of the path.
    pub(crate) fn covers(&self, name: &QueueName, t: u64) -> bool
        ensures { result ≡ list_any (covers_by t name.now (firings_at self.now.rules)) (numbered_rules self.now.base) }
    {
        for (place, rule) in self.base.rules.as_slice().iter().enumerate() {
            if self.covers_by(place, &rule.action, name, t) {
                return true;
            }
        }
        false
    }

    /// Whether some firing of the rule at a place does, where the rule has this action.
    fn covers_by(&self, place: usize, action: &Action, name: &QueueName, t: u64) -> bool
        requires { place < length self.now.base.rules }
        ensures { result ≡ list_any (λ f. covers action.now (name_kept f) name.now)
            (filter (is_live t) (firings_at self.now.rules (place + 1))) }
    {
        let state = &self.rules[place];
        state.covers(action, name, t)
    }

    /// The first end of the firings that are not over at a moment.
    pub(crate) fn next_end(&self, t: u64) -> Option<u64>
        ensures { (u : ℕ) → is_by u result ≡ list_any (ends_by t u (firings_at self.now.rules)) (numbered_rules self.now.base) }
    {
        let mut least = None;
        for place in 0..self.rules.len() {
            least = earlier(least, self.next_end_by(place, t));
        }
        least
    }

    /// The first end of those of the rule at a place.
    fn next_end_by(&self, place: usize, t: u64) -> Option<u64>
        requires { place < length self.now.base.rules }
        ensures { (u : ℕ) → is_by u result ≡ list_any (λ f. nat_le f.end u)
            (filter (is_live t) (firings_at self.now.rules (place + 1))) }
    {
        let state = &self.rules[place];
        state.next_end(t)
    }

    /// Whether the path and another are of the same site.
    pub(crate) fn is_at_site_of(&self, other: &KnownPath) -> bool
        ensures { result ≡ is_same_site self.now.site other.now.site }
    {
        self.site.is_same(&other.site)
    }
}

/// Whether an action suspends its path.
fn is_suspend(action: &Action) -> bool
    ensures { result ≡ is_suspend action.now }
{
    matches!(action, Action::Suspend)
}

/// The earlier of two moments that may be there.
pub(crate) fn earlier(one: Option<u64>, other: Option<u64>) -> Option<u64>
    ensures { (u : ℕ) → is_by u result ≡ (is_by u one || is_by u other) }
{
    match (one, other) {
        (Some(one), Some(other)) => Some(one.min(other)),
        (None, other) => other,
        (one, None) => one,
    }
}

/// The states of rules that nothing matched yet.
fn blank_rules(alloc: Global, rules: &[Rule]) -> Result<Vec<RuleState>, Memory>
    ensures { IfOk result (λ states. states.items ≡ map blank_rule rules.now) }
{
    let mut states = Vec::new(alloc);
    for rule in rules {
        states.push(RuleState::new(alloc, &rule.trigger)?)?;
    }
    Ok(states)
}
