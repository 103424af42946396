//! What the values of a rule and of a provider's match give, as a shaping file spells them.
//!
//! The faults, the data and the keys without effect all ask here what an action, a trigger, a duration or a match is, so that
//! they agree. Nothing is kept, and only `match_at` takes memory, for a suffix in lower case. A value that is refused gives
//! the word of its key.
ghost use Rattle.std.specs.Prelude.{◌≡◌, Option, true, false, Ok, Err, IfOk, MatchOption, MatchResult, option_map, option_and_then, codes};
ghost use Rattle.std.specs.List.{list_any, before_first, after_first};
ghost use Rattle.throttle_spec.specs.ThrottleText.{is_slash};
ghost use Rattle.toml.specs.Data.{get_member, as_str};
ghost use Rattle.toml.specs.View.{table_view, view};
ghost use Rattle.policy_toml.specs.Walks.{ok_of};
ghost use Rattle.shaping_policy.specs.RuleValues.{holds_only, action_named, action_of, config_of, config_in, action_in, action_at, threshold_of, threshold_in, trigger_in, trigger_at, lasting_at};
ghost use Rattle.shaping_policy.specs.Faults.{match_in, match_at};
ghost use Rattle.shaping_policy.specs.inside.Suffixes.{match_of};

use crate::option_values::setting_at;
use kumo_base::{Memory, Text, around_first};
use policy_core::{Action, GREATEST_COUNT, Match, Setting, Trigger};
use policy_fault::Why;
use policy_toml::{duration_at, entry, table_at};
use std::alloc::Global;
use throttle_spec::{number_in, period_of};
use toml::{Table, Value};

/// What of a site a match looks at.
#[derive(Clone, Copy, PartialEq, Eq)]
pub(crate) enum SuffixKind {
    /// The names of its hosts (`MXSuffix`).
    Hosts,
    /// The names of its domains (`DomainSuffix`).
    Domains,
}

/// A match as the file spells it.
#[derive(Clone, Copy)]
pub(crate) struct Suffix<'v> {
    pub(crate) kind: SuffixKind,
    pub(crate) text: &'v str,
}

/// One action of a rule. `BadAction` where it is none; where it sets an option, the value may be refused as that of the
/// option is.
#[tactic(auto, unfolding(crate::specs::RuleValues::action_at))]
pub(crate) fn action_at(value: &Value) -> Result<Action, Why>
    ensures { result ≡ action_at (view value.now) }
{
    if let Some(text) = value.as_str() {
        return action_named(text);
    }
    match value.as_table() {
        Some(table) => action_in(table),
        None => Err(Why::BadAction),
    }
}

/// An action that is a word.
fn action_named(text: &str) -> Result<Action, Why>
    ensures { result ≡ action_named text.now }
{
    if text == "Suspend" {
        Ok(Action::Suspend)
    } else if text == "SuspendTenant" {
        Ok(Action::SuspendTenant)
    } else if text == "SuspendCampaign" {
        Ok(Action::SuspendCampaign)
    } else {
        Err(Why::BadAction)
    }
}

/// An action that is a table: `SetConfig`, and nothing else.
fn action_in(table: &Table) -> Result<Action, Why>
    ensures { result ≡ action_in (table_view table.now) }
{
    if !holds_only(table, "SetConfig", "SetConfig") {
        return Err(Why::BadAction);
    }
    match table_at(table, "SetConfig") {
        Some(config) => config_in(config),
        None => Err(Why::BadAction),
    }
}

/// The table of `SetConfig`: the name of an option and a value, and nothing else.
fn config_in(config: &Table) -> Result<Action, Why>
    ensures { result ≡ config_in (table_view config.now) }
{
    if holds_only(config, "name", "value") {
        config_of(text_member(config, "name"), entry(config, "value"))
    } else {
        Err(Why::BadAction)
    }
}

/// An action that sets an option.
fn config_of(name: Option<&str>, value: Option<&Value>) -> Result<Action, Why>
    ensures { result ≡ config_of (option_map (λ s. s.now) name.entry) (option_map (λ v. view v.now) value.entry) }
{
    let Some(name) = name else {
        return Err(Why::BadAction);
    };
    match value {
        Some(value) => action_of(setting_at(name, value)),
        None => Err(Why::BadAction),
    }
}

/// The action of a setting. An option without effect here is no fault.
fn action_of(setting: Option<Result<Setting, Why>>) -> Result<Action, Why>
    ensures { result ≡ action_of setting }
{
    match setting {
        Some(Ok(setting)) => Ok(Action::Set(setting)),
        Some(Err(why)) => Err(why),
        None => Ok(Action::Nothing),
    }
}

/// When a rule fires; without a value each reply that matches fires it. `BadType` where the value is no text and no table,
/// `BadTrigger` where it is one of these and no trigger.
#[tactic(auto, unfolding(crate::specs::RuleValues::trigger_at))]
pub(crate) fn trigger_at(value: Option<&Value>) -> Result<Trigger, Why>
    ensures { result ≡ trigger_at (option_map (λ v. view v.now) value.entry) }
{
    let Some(value) = value else {
        return Ok(Trigger::Immediate);
    };
    if let Some(text) = value.as_str() {
        return if text == "Immediate" {
            Ok(Trigger::Immediate)
        } else {
            Err(Why::BadTrigger)
        };
    }
    match value.as_table() {
        Some(table) => trigger_in(table),
        None => Err(Why::BadType),
    }
}

/// A trigger that is a table: `Threshold`, and nothing else.
fn trigger_in(table: &Table) -> Result<Trigger, Why>
    ensures { result ≡ trigger_in (table_view table.now) }
{
    if !holds_only(table, "Threshold", "Threshold") {
        return Err(Why::BadTrigger);
    }
    match text_member(table, "Threshold") {
        Some(text) => threshold_in(text),
        None => Err(Why::BadTrigger),
    }
}

/// A threshold, as `3/hr`.
fn threshold_in(text: &str) -> Result<Trigger, Why>
    ensures { result ≡ threshold_in text.now }
{
    match around_first(text, '/') {
        Some((count, unit)) => {
            threshold_of(number_in(count.as_bytes()), period_of(unit.as_bytes()))
        }
        None => Err(Why::BadTrigger),
    }
}

/// The threshold of a count and a period, where both could be read.
fn threshold_of(count: Option<u64>, period: Option<u64>) -> Result<Trigger, Why>
    ensures { result ≡ threshold_of count period }
{
    let Some(count) = count else {
        return Err(Why::BadTrigger);
    };
    match period {
        Some(period) => {
            if 1 <= count && count <= u64::from(GREATEST_COUNT) {
                Ok(Trigger::Threshold {
                    count: count as u32,
                    period,
                })
            } else {
                Err(Why::BadTrigger)
            }
        }
        None => Err(Why::BadTrigger),
    }
}

/// How long a rule is in force, in milliseconds. `BadDuration` where there is no value or it is no duration, `BadType` where
/// it is of another kind.
#[tactic(auto, unfolding(crate::specs::RuleValues::lasting_at))]
pub(crate) fn lasting_at(value: Option<&Value>) -> Result<u64, Why>
    ensures { result ≡ lasting_at (option_map (λ v. view v.now) value.entry) }
{
    match value {
        Some(value) => duration_at(value),
        None => Err(Why::BadDuration),
    }
}

/// A match of a provider: a table of one suffix, and nothing else. `BadMatch` where it is none.
#[tactic(auto, unfolding(crate::specs::Faults::match_at))]
pub(crate) fn suffix_at(value: &Value) -> Result<Suffix<'_>, Why>
    ensures { MatchResult result (λ suffix. match_at (view value.now) ≡ Ok (match_of suffix.kind suffix.text.now))
        (λ why. match_at (view value.now) ≡ Err why) }
{
    match value.as_table() {
        Some(table) => suffix_in(table),
        None => Err(Why::BadMatch),
    }
}

/// The suffix of a table.
fn suffix_in(table: &Table) -> Result<Suffix<'_>, Why>
    ensures { MatchResult result (λ suffix. match_in (table_view table.now) ≡ Ok (match_of suffix.kind suffix.text.now))
        (λ why. match_in (table_view table.now) ≡ Err why) }
{
    let (kind, key) = if holds_only(table, "MXSuffix", "MXSuffix") {
        (SuffixKind::Hosts, "MXSuffix")
    } else if holds_only(table, "DomainSuffix", "DomainSuffix") {
        (SuffixKind::Domains, "DomainSuffix")
    } else {
        return Err(Why::BadMatch);
    };
    match text_member(table, key) {
        Some(text) => Ok(Suffix { kind, text }),
        None => Err(Why::BadMatch),
    }
}

/// A match of a provider, `None` where the value is none. Its text is in lower case.
pub(crate) fn match_at(alloc: Global, value: &Value) -> Result<Option<Match>, Memory>
    ensures { IfOk result (λ found. found ≡ ok_of (match_at (view value.now))) }
{
    let Ok(suffix) = suffix_at(value) else {
        return Ok(None);
    };
    let text = Text::of_string(suffix.text.to_ascii_lowercase(alloc)?);
    match suffix.kind {
        SuffixKind::Hosts => Ok(Some(Match::MxSuffix(text))),
        SuffixKind::Domains => Ok(Some(Match::DomainSuffix(text))),
    }
}

/// The text at a key.
fn text_member<'t>(table: &'t Table, key: &str) -> Option<&'t str>
    ensures { option_map (λ s. s.now) result ≡ option_and_then as_str (get_member key.now (table_view table.now)) }
{
    match entry(table, key) {
        Some(value) => value.as_str(),
        None => None,
    }
}

/// Whether the keys of a table are some of these two.
pub(crate) fn holds_only(table: &Table, one: &str, other: &str) -> bool
    ensures { result ≡ holds_only one.now other.now (table_view table.now) }
{
    for (key, _) in table.iter() {
        if key.as_str() != one && key.as_str() != other {
            return false;
        }
    }
    true
}
