//! The rules that a document without faults gives.
//!
//! `shaping.rt` asks for the rules of each table. An entry of a list gives a rule for each of its actions, with copies of its
//! patterns, so that a rule can be kept by itself. Nothing is tested a second time; the one refusal is `Memory`.
ghost use Rattle.std.specs.Prelude.{◌≡◌, ◌++◌, IfOk, OnOk, codes, unwrap_or};
ghost use Rattle.toml.specs.Data.{get_member};
ghost use Rattle.toml.specs.View.{items_view, table_view, view};
ghost use Rattle.policy_toml.specs.Walks.{ok_of};
ghost use Rattle.shaping_policy.specs.RuleValues.{over_items, trigger_at, lasting_at};
ghost use Rattle.shaping_policy.specs.ShapingFile.{rules_of_table, rules_of_entry, rules_given, rule_of, patterns_of};

use crate::rule_values::{action_at, lasting_at, trigger_at};
use crate::tables::{items_at, list_at};
use kumo_base::{Items, Memory, Text};
use policy_core::{Action, Rule, Trigger};
use policy_toml::entry;
use std::alloc::Global;
use toml::{Table, Value};

/// The rules in the list of a table: for each entry one for each of its actions, in order.
#[tactic(auto, unfolding(crate::specs::ShapingFile::rules_of_table))]
pub(crate) fn rules_of(alloc: Global, table: &Table) -> Result<Vec<Rule>, Memory>
    ensures { IfOk result (λ rules. rules.items ≡ rules_of_table (table_view table.now)) }
{
    let mut rules = Vec::new(alloc);
    add_entries(alloc, &mut rules, list_at(table, "automation"))?;
    Ok(rules)
}

/// The rules of a list.
fn add_entries(alloc: Global, rules: &mut Vec<Rule>, list: &[Value]) -> Result<(), Memory>
    ensures { OnOk result (rules.new.items ≡ rules.old.items ++ over_items rules_of_entry (items_view list.now)) }
{
    for value in list {
        add_entry(alloc, rules, value)?;
    }
    Ok(())
}

/// The rules of an entry.
#[tactic(auto, unfolding(crate::specs::ShapingFile::rules_of_entry))]
fn add_entry(alloc: Global, rules: &mut Vec<Rule>, value: &Value) -> Result<(), Memory>
    ensures { OnOk result (rules.new.items ≡ rules.old.items ++ rules_of_entry (view value.now)) }
{
    if let Some(table) = value.as_table() {
        add_rules(alloc, rules, table)?;
    }
    Ok(())
}

/// The rules of a table in the list: its action may be one, or a list of them. Each rule has its own copies of the
/// patterns.
fn add_rules(alloc: Global, rules: &mut Vec<Rule>, table: &Table) -> Result<(), Memory>
    ensures { OnOk result (rules.new.items ≡ rules.old.items ++ rules_given (table_view table.now)) }
{
    for value in items_at(table, "action") {
        if let Ok(action) = action_at(value) {
            rules.push(rule_of(alloc, table, action)?)?;
        }
    }
    Ok(())
}

/// The rule of one action.
fn rule_of(alloc: Global, table: &Table, action: Action) -> Result<Rule, Memory>
    ensures { IfOk result (λ rule. rule ≡ rule_of (table_view table.now) action) }
{
    Ok(Rule {
        patterns: Items::of(patterns_of(alloc, table)?),
        action,
        trigger: trigger_of(table),
        duration: duration_of(table),
    })
}

/// The patterns of a rule: a text, or the texts of a list.
fn patterns_of(alloc: Global, table: &Table) -> Result<Vec<Text>, Memory>
    ensures { IfOk result (λ patterns. patterns.items ≡ patterns_of (table_view table.now)) }
{
    let mut patterns = Vec::new(alloc);
    for value in items_at(table, "regex") {
        if let Some(text) = value.as_str() {
            patterns.push(Text::of(alloc, text)?)?;
        }
    }
    Ok(patterns)
}

/// When a rule fires.
fn trigger_of(table: &Table) -> Trigger
    ensures { result ≡ unwrap_or (ok_of (trigger_at (get_member (codes "trigger") (table_view table.now)))) Trigger.Immediate }
{
    match trigger_at(entry(table, "trigger")) {
        Ok(trigger) => trigger,
        Err(_) => Trigger::Immediate,
    }
}

/// How long a rule is in force, in milliseconds.
fn duration_of(table: &Table) -> u64
    ensures { result ≡ unwrap_or (ok_of (lasting_at (get_member (codes "duration") (table_view table.now)))) 0 }
{
    match lasting_at(entry(table, "duration")) {
        Ok(milliseconds) => milliseconds,
        Err(_) => 0,
    }
}
