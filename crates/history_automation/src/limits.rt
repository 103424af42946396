//! The options of a path that are in force at a moment.
ghost use Rattle.std.specs.Prelude.{◌≡◌, false, true, filter, MatchOption};
ghost use Rattle.std.specs.List.{enumerate_from};
ghost use Rattle.policy_core.specs.Automation.{limits_of};
ghost use Rattle.history_core.specs.Firing.{is_in_force};
ghost use Rattle.history_core.specs.Limits.{is_rule_among};
ghost use Rattle.history_automation.specs.inside.Setting.{with_setting, with_rule, with_rules};

use crate::automation::is_in_force;
use history_core::{Path, RuleMatch};
use policy_core::{Action, InForce, PathBase, Rule, Setting};

/// What is in force on a path at a moment. `firings` are those of the history, `base` is what the path's tables come to.
#[tactic(auto, unfolding(policy_core::specs::Automation::limits_of))]
pub fn limits_in_force(firings: &[RuleMatch], t: u64, path: &Path, base: &PathBase) -> InForce
    ensures { result ≡ limits_of base.now (is_rule_among (filter (is_in_force t) firings.now) path.now) }
{
    let mut now = InForce::of(&base.options);
    set_by_rules(&mut now, firings, t, path, base.rules.as_slice());
    now
}

/// Sets the options that rules in force set, each over those before it. Rules are numbered from 1.
fn set_by_rules(now: &mut InForce, firings: &[RuleMatch], t: u64, path: &Path, rules: &[Rule])
    ensures { now.new ≡ with_rules (filter (λ r. is_rule_among (filter (is_in_force t) firings.now) path.now r.0)
        (enumerate_from 1 rules.now)) now.old }
{
    for (index, rule) in rules.iter().enumerate() {
        if let Some(number) = number_in_force(firings, t, path, index as u64 + 1) {
            set_by_rule(now, number, rule);
        }
    }
}

/// The number of a rule of a path, where it has a firing that is in force.
fn number_in_force(firings: &[RuleMatch], t: u64, path: &Path, number: u64) -> Option<u32>
    ensures { MatchOption result (is_rule_among (filter (is_in_force t) firings.now) path.now number ≡ false)
        (λ n. (n ≡ number) × (is_rule_among (filter (is_in_force t) firings.now) path.now number ≡ true)) }
{
    for firing in firings {
        let found = firing.number;
        if is_in_force(firing, t) && u64::from(found) == number && firing.path.is_same(path) {
            return Some(found);
        }
    }
    None
}

/// Sets the option that a rule of this number sets.
fn set_by_rule(now: &mut InForce, number: u32, rule: &Rule)
    ensures { now.new ≡ with_rule (number, rule.now) now.old }
{
    if let Action::Set(setting) = &rule.action {
        set_option(now, number, setting);
    }
}

/// Sets one option, as the rule of this number does.
fn set_option(now: &mut InForce, number: u32, setting: &Setting)
    ensures { now.new ≡ with_setting number setting.now now.old }
{
    match setting {
        Setting::ConnectionLimit(limit) => now.connection_limit = *limit,
        Setting::MessageRate(throttle) => {
            now.message_rate = Some(*throttle);
            now.message_key = number;
        }
        Setting::ConnectionRate(throttle) => {
            now.connection_rate = Some(*throttle);
            now.connection_key = number;
        }
        Setting::Deliveries(count) => now.deliveries = *count,
        Setting::ReadyLimit(limit) => now.ready_limit = *limit,
        Setting::FailuresBeforeDelay(count) => now.failures_before_delay = *count,
        Setting::IdleTimeout(timeout) => now.idle_timeout = Some(*timeout),
    }
}
