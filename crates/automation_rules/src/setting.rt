//! The option that a rule sets, over those set before.
ghost use Rattle.std.specs.Prelude.{◌≡◌};
ghost use Rattle.automation_rules.specs.inside.Setting.{with_setting, with_rule};

use policy_core::{Action, InForce, Rule, Setting};

/// Sets the option that the rule of this number sets.
pub(crate) fn set_by_rule(now: &mut InForce, number: u32, rule: &Rule)
    ensures { now.new ≡ with_rule (number, rule.now) now.old }
{
    if let Action::Set(setting) = &rule.action {
        set_option(now, number, setting);
    }
}

/// Sets one option, as the rule of this number does.
fn set_option(now: &mut InForce, number: u32, setting: &Setting)
    ensures { now.new ≡ with_setting number setting.now now.old }
{
    match setting {
        Setting::ConnectionLimit(limit) => now.connection_limit = *limit,
        Setting::MessageRate(throttle) => {
            now.message_rate = Some(*throttle);
            now.message_key = number;
        }
        Setting::ConnectionRate(throttle) => {
            now.connection_rate = Some(*throttle);
            now.connection_key = number;
        }
        Setting::Deliveries(count) => now.deliveries = *count,
        Setting::ReadyLimit(limit) => now.ready_limit = *limit,
        Setting::FailuresBeforeDelay(count) => now.failures_before_delay = *count,
        Setting::IdleTimeout(timeout) => now.idle_timeout = Some(*timeout),
    }
}
