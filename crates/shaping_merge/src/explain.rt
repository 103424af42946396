//! The text that says what applies on a path.
//!
//! `explain_text` writes the lines that `explain` prints of a path: the site, the source, the options in force and the rules.
//! The lines are made in a text of their own and appended whole, so that after `Memory`, the one refusal, the caller's text
//! is as it was.
ghost use Rattle.std.specs.Prelude.{◌≡◌, ◌++◌, IfOk, OnOk, OnErr, decimal};
ghost use Rattle.std.specs.List.{flat_map};
ghost use Rattle.serde_json.specs.Data.{array};
ghost use Rattle.serde_json.specs.View.{view};
ghost use Rattle.shaping_merge.specs.ExplainText.{line, throttle_text, rate_text, timeout_text, value_text, option_line, set_value_text, setting_text, action_text, trigger_text, pattern_items, patterns_text, rule_line, rule_lines, explained};

use itoa::Buffer;
use kumo_base::{Memory, Text};
use policy_core::{
    Action, InForce, OPTION_NAMES, OptionName, PathBase, Rule, Setting, Site, Trigger,
};
use serde_json::Value;
use std::alloc::Global;
use throttle_spec::ThrottleSpec;

/// Appends what applies on the path of a site and a source, in lines of a name, a blank and a value: `site`, `source`, each
/// option by its name in files with what is in force while no rule has fired, and the rules, numbered from 1. Durations
/// are in milliseconds, a throttle is `quantity/period burst b`, and `none` stands for no throttle or duration. After `Memory`
/// the text is as it was.
pub fn explain_text(
    alloc: Global,
    base: &PathBase,
    site: &Site,
    source: &str,
    out: &mut Text,
) -> Result<(), Memory>
    ensures ok { OnOk result (out.new ≡ out.old ++ explained base.now site.now source.now) }
    ensures err { OnErr result (out.new ≡ out.old) }
{
    let text = explained(alloc, base, site, source)?;
    out.push_str(text.as_str())
}

/// All lines, in a text of their own.
fn explained(alloc: Global, base: &PathBase, site: &Site, source: &str) -> Result<Text, Memory>
    ensures { IfOk result (λ text. text ≡ explained base.now site.now source.now) }
{
    let mut text = Text::new(alloc);
    push_line(&mut text, "site", site.name.as_str())?;
    push_line(&mut text, "source", source)?;
    push_options(&mut text, &OPTION_NAMES, &InForce::of(&base.options))?;
    push_rules(alloc, &mut text, base.rules.as_slice())?;
    Ok(text)
}

/// Appends a line of a name, a blank and a value.
pub fn push_line(text: &mut Text, name: &str, value: &str) -> Result<(), Memory>
    ensures { OnOk result (text.new ≡ text.old ++ line name.now value.now) }
{
    text.push_str(name)?;
    text.push_str(" ")?;
    text.push_str(value)?;
    text.push_str("\n")?;
    Ok(())
}

/// Appends a number in decimal.
fn push_number(text: &mut Text, number: u64) -> Result<(), Memory>
    ensures { OnOk result (text.new ≡ text.old ++ decimal number) }
{
    let mut buffer = Buffer::new();
    text.push_str(buffer.format(number))?;
    Ok(())
}

/// Appends a throttle.
fn push_throttle(text: &mut Text, throttle: ThrottleSpec) -> Result<(), Memory>
    ensures { OnOk result (text.new ≡ text.old ++ throttle_text throttle) }
{
    push_number(text, throttle.quantity())?;
    text.push_str("/")?;
    push_number(text, throttle.period())?;
    text.push_str(" burst ")?;
    push_number(text, throttle.burst())?;
    Ok(())
}

/// Appends a throttle, or that there is none.
fn push_rate(text: &mut Text, rate: Option<ThrottleSpec>) -> Result<(), Memory>
    ensures { OnOk result (text.new ≡ text.old ++ rate_text rate) }
{
    match rate {
        Some(throttle) => push_throttle(text, throttle),
        None => text.push_str("none"),
    }
}

/// Appends a duration in milliseconds, or that there is none.
fn push_timeout(text: &mut Text, timeout: Option<u64>) -> Result<(), Memory>
    ensures { OnOk result (text.new ≡ text.old ++ timeout_text timeout) }
{
    match timeout {
        Some(milliseconds) => push_number(text, milliseconds),
        None => text.push_str("none"),
    }
}

/// Appends the lines of these options in force.
fn push_options(text: &mut Text, names: &[OptionName], options: &InForce) -> Result<(), Memory>
    ensures { OnOk result (text.new ≡ text.old ++ flat_map (option_line options.now) names.now) }
{
    for name in names {
        push_option(text, *name, options)?;
    }
    Ok(())
}

/// Appends the line of an option in force.
fn push_option(text: &mut Text, name: OptionName, options: &InForce) -> Result<(), Memory>
    ensures { OnOk result (text.new ≡ text.old ++ option_line options.now name) }
{
    text.push_str(name.name())?;
    text.push_str(" ")?;
    push_value(text, name, options)?;
    text.push_str("\n")?;
    Ok(())
}

/// Appends what is in force of an option.
fn push_value(text: &mut Text, name: OptionName, options: &InForce) -> Result<(), Memory>
    ensures { OnOk result (text.new ≡ text.old ++ value_text options.now name) }
{
    match name {
        OptionName::ConnectionLimit => push_number(text, u64::from(options.connection_limit)),
        OptionName::MessageRate => push_rate(text, options.message_rate),
        OptionName::ConnectionRate => push_rate(text, options.connection_rate),
        OptionName::Deliveries => push_number(text, u64::from(options.deliveries)),
        OptionName::ReadyLimit => push_number(text, u64::from(options.ready_limit)),
        OptionName::FailuresBeforeDelay => {
            push_number(text, u64::from(options.failures_before_delay))
        }
        OptionName::IdleTimeout => push_timeout(text, options.idle_timeout),
    }
}

/// Appends the lines of rules, numbered from 1.
fn push_rules(alloc: Global, text: &mut Text, rules: &[Rule]) -> Result<(), Memory>
    ensures { OnOk result (text.new ≡ text.old ++ rule_lines 1 rules.now) }
{
    for (index, rule) in rules.iter().enumerate() {
        push_rule(alloc, text, index as u64 + 1, rule)?;
    }
    Ok(())
}

/// Appends the line of a rule.
fn push_rule(alloc: Global, text: &mut Text, number: u64, rule: &Rule) -> Result<(), Memory>
    ensures { OnOk result (text.new ≡ text.old ++ rule_line number rule.now) }
{
    let patterns = patterns_text(alloc, rule.patterns.as_slice())?;
    text.push_str("rule ")?;
    push_number(text, number)?;
    text.push_str(" ")?;
    push_action(text, rule.action)?;
    text.push_str(" ")?;
    push_trigger(text, rule.trigger)?;
    text.push_str(" for ")?;
    push_number(text, rule.duration)?;
    text.push_str(" on ")?;
    text.push_str(patterns.as_str())?;
    text.push_str("\n")?;
    Ok(())
}

/// Appends what a rule does.
fn push_action(text: &mut Text, action: Action) -> Result<(), Memory>
    ensures { OnOk result (text.new ≡ text.old ++ action_text action) }
{
    match action {
        Action::Suspend => text.push_str("Suspend"),
        Action::SuspendTenant => text.push_str("SuspendTenant"),
        Action::SuspendCampaign => text.push_str("SuspendCampaign"),
        Action::Set(setting) => {
            text.push_str("SetConfig ")?;
            push_setting(text, setting)
        }
        Action::Nothing => text.push_str("SetConfig none"),
    }
}

/// Appends the option that a rule sets, and its value.
fn push_setting(text: &mut Text, setting: Setting) -> Result<(), Memory>
    ensures { OnOk result (text.new ≡ text.old ++ setting_text setting) }
{
    text.push_str(setting.option().name())?;
    text.push_str("=")?;
    push_set_value(text, setting)
}

/// Appends the value that a rule sets.
fn push_set_value(text: &mut Text, setting: Setting) -> Result<(), Memory>
    ensures { OnOk result (text.new ≡ text.old ++ set_value_text setting) }
{
    match setting {
        Setting::ConnectionLimit(limit) => push_number(text, u64::from(limit)),
        Setting::MessageRate(rate) => push_throttle(text, rate),
        Setting::ConnectionRate(rate) => push_throttle(text, rate),
        Setting::Deliveries(count) => push_number(text, u64::from(count)),
        Setting::ReadyLimit(limit) => push_number(text, u64::from(limit)),
        Setting::FailuresBeforeDelay(count) => push_number(text, u64::from(count)),
        Setting::IdleTimeout(milliseconds) => push_number(text, milliseconds),
    }
}

/// Appends when a rule fires.
fn push_trigger(text: &mut Text, trigger: Trigger) -> Result<(), Memory>
    ensures { OnOk result (text.new ≡ text.old ++ trigger_text trigger) }
{
    match trigger {
        Trigger::Immediate => text.push_str("Immediate"),
        Trigger::Threshold { count, period } => {
            text.push_str("Threshold ")?;
            push_number(text, u64::from(count))?;
            text.push_str("/")?;
            push_number(text, period)
        }
    }
}

/// The patterns of a rule, as a compact JSON list.
#[tactic(auto, using(crate::proofs::ExplainLemmas::no_float), unfolding(crate::specs::ExplainText::patterns_text))]
fn patterns_text(alloc: Global, patterns: &[Text]) -> Result<Text, Memory>
    ensures { IfOk result (λ text. text ≡ patterns_text patterns.now) }
{
    let list = pattern_list(alloc, patterns)?;
    Ok(Text::of_string(list.to_string(alloc)?))
}

/// The patterns as a JSON list.
#[tactic(auto, using(crate::proofs::ExplainLemmas::items_of_patterns))]
fn pattern_list(alloc: Global, patterns: &[Text]) -> Result<Value, Memory>
    ensures { IfOk result (λ list. view list ≡ array (pattern_items patterns.now)) }
{
    let mut values = Vec::new(alloc);
    for pattern in patterns {
        values.push(Value::try_from_str(alloc, pattern.as_str())?)?;
    }
    Ok(Value::Array(values))
}
