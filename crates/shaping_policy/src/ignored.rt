//! The keys of a shaping file that have no effect.
//!
//! `read_shaping` calls `ignored_in` where the document has no fault, with the tables and rules that were listed. Each
//! function adds the keys of one kind of table to the list; `check` sorts them later. The one refusal is `Memory`.
ghost use Rattle.std.specs.Prelude.{◌≡◌, ◌++◌, IfOk, OnOk, map};
ghost use Rattle.std.specs.List.{flat_map, list_any};
ghost use Rattle.toml.specs.View.{items_view, table_view};
ghost use Rattle.policy_toml.specs.Walks.{over_members};
ghost use Rattle.shaping_policy.specs.RuleValues.{over_items};
ghost use Rattle.shaping_policy.specs.inside.Seen.{seen_rule, seen_table};
ghost use Rattle.shaping_policy.specs.ShapingFile.{ignored_of_table, ignored_at_key, is_known_key, ignored_of_rule, ignored_at_rule_key, is_rule_key, actions_given, has_no_effect};

use crate::rule_values::action_at;
use crate::tables::{FileTable, RuleTable, TableKind, items_at};
use kumo_base::Memory;
use policy_core::{Action, OptionName};
use policy_fault::{Ignored, PolicyFile};
use policy_toml::{note_ignored, numbered};
use std::alloc::Global;
use toml::{Table, Value};

/// The keys without effect of the tables, and then those of the tables of rules.
pub(crate) fn ignored_in(
    alloc: Global,
    tables: &[FileTable],
    rules: &[RuleTable],
) -> Result<Vec<Ignored>, Memory>
    ensures { IfOk result (λ keys. keys.items ≡ flat_map ignored_of_table (map seen_table tables.now)
        ++ flat_map ignored_of_rule (map seen_rule rules.now)) }
{
    let mut ignored = Vec::new(alloc);
    add_tables(alloc, &mut ignored, tables)?;
    add_rules(alloc, &mut ignored, rules)?;
    Ok(ignored)
}

/// Those of the tables.
fn add_tables(alloc: Global, ignored: &mut Vec<Ignored>, tables: &[FileTable]) -> Result<(), Memory>
    ensures { OnOk result (ignored.new.items ≡ ignored.old.items ++ flat_map ignored_of_table (map seen_table tables.now)) }
{
    for table in tables {
        add_table(alloc, ignored, table)?;
    }
    Ok(())
}

/// Those of a table.
#[tactic(auto, unfolding(crate::specs::ShapingFile::ignored_of_table))]
fn add_table(alloc: Global, ignored: &mut Vec<Ignored>, table: &FileTable) -> Result<(), Memory>
    ensures { OnOk result (ignored.new.items ≡ ignored.old.items ++ ignored_of_table (seen_table table.now)) }
{
    add_keys(
        alloc,
        ignored,
        table.kind,
        table.place.as_str(),
        table.members,
    )?;
    Ok(())
}

/// Those among the keys of a table of this kind and place.
#[tactic(auto, unfolding(crate::specs::ShapingFile::ignored_at_key))]
fn add_keys(
    alloc: Global,
    ignored: &mut Vec<Ignored>,
    kind: TableKind,
    place: &str,
    members: &Table,
) -> Result<(), Memory>
    ensures { OnOk result (ignored.new.items ≡ ignored.old.items
        ++ over_members (ignored_at_key kind place.now) (table_view members.now)) }
{
    for (key, _) in members.iter() {
        if !is_known_key(kind, key.as_str()) {
            note_ignored(alloc, ignored, PolicyFile::Shaping, place, key.as_str())?;
        }
    }
    Ok(())
}

/// Whether a key has an effect in tables of this kind.
fn is_known_key(kind: TableKind, key: &str) -> bool
    ensures { result ≡ is_known_key kind key.now }
{
    if OptionName::named(key).is_some() {
        return true;
    }
    match key {
        "automation" => true,
        "sources" => kind != TableKind::Source,
        "mx_rollup" => kind == TableKind::Domain,
        "match" => kind == TableKind::Provider,
        _ => false,
    }
}

/// Those of the tables of rules.
fn add_rules(alloc: Global, ignored: &mut Vec<Ignored>, rules: &[RuleTable]) -> Result<(), Memory>
    ensures { OnOk result (ignored.new.items ≡ ignored.old.items ++ flat_map ignored_of_rule (map seen_rule rules.now)) }
{
    for rule in rules {
        add_rule(alloc, ignored, rule)?;
    }
    Ok(())
}

/// Those of the table of a rule. Its key `action` is among them, once, where an action sets an option without effect.
#[tactic(auto, unfolding(crate::specs::ShapingFile::ignored_of_rule))]
fn add_rule(alloc: Global, ignored: &mut Vec<Ignored>, rule: &RuleTable) -> Result<(), Memory>
    ensures { OnOk result (ignored.new.items ≡ ignored.old.items ++ ignored_of_rule (seen_rule rule.now)) }
{
    let place = numbered(alloc, rule.place.as_str(), rule.number)?;
    add_rule_keys(alloc, ignored, place.as_str(), rule.members)?;
    if does_nothing(items_at(rule.members, "action")) {
        note_ignored(
            alloc,
            ignored,
            PolicyFile::Shaping,
            place.as_str(),
            "action",
        )?;
    }
    Ok(())
}

/// Those among the keys of a rule.
#[tactic(auto, unfolding(crate::specs::ShapingFile::ignored_at_rule_key))]
fn add_rule_keys(
    alloc: Global,
    ignored: &mut Vec<Ignored>,
    place: &str,
    members: &Table,
) -> Result<(), Memory>
    ensures { OnOk result (ignored.new.items ≡ ignored.old.items
        ++ over_members (ignored_at_rule_key place.now) (table_view members.now)) }
{
    for (key, _) in members.iter() {
        if !is_rule_key(key.as_str()) {
            note_ignored(alloc, ignored, PolicyFile::Shaping, place, key.as_str())?;
        }
    }
    Ok(())
}

/// Whether a key of a rule has an effect.
fn is_rule_key(key: &str) -> bool
    ensures { result ≡ is_rule_key key.now }
{
    key == "regex" || key == "action" || key == "trigger" || key == "duration"
}

/// Whether one of a rule's actions sets an option that has no effect here.
fn does_nothing(actions: &[Value]) -> bool
    ensures { result ≡ list_any has_no_effect (over_items actions_given (items_view actions.now)) }
{
    for value in actions {
        if let Ok(Action::Nothing) = action_at(value) {
            return true;
        }
    }
    false
}
