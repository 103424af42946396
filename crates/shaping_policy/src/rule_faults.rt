//! The faults of the rules of a shaping file, those of their patterns aside.
//!
//! `faults.rt` calls `note_rules` with the rules that `tables.rt` listed. Each fault goes to the one `FirstFault`, by the
//! number of the rule's table in its list, and of its item where the value is a list. After `Memory` it may have seen some of
//! them.
ghost use Rattle.std.specs.Prelude.{◌≡◌, ◌||◌, OnOk, codes, map, option_map};
ghost use Rattle.std.specs.List.{flat_map};
ghost use Rattle.toml.specs.View.{table_view, view, items_view};
ghost use Rattle.policy_fault.specs.declared.fault.Why.TheVariants.{BadType};
ghost use Rattle.policy_toml.specs.Places.{first_of};
ghost use Rattle.policy_toml.specs.Walks.{is_table};
ghost use Rattle.shaping_policy.specs.RuleValues.{action_at};
ghost use Rattle.shaping_policy.specs.inside.Seen.{seen_rule};
ghost use Rattle.shaping_policy.specs.Faults.{faults_of_rule, faults_of_action, faults_of_list, faults_from, faults_of_one, faults_of_read, is_text};

use crate::rule_values::{action_at, lasting_at, trigger_at};
use crate::tables::RuleTable;
use kumo_base::Memory;
use policy_fault::Why;
use policy_toml::{FirstFault, entry, is_table};
use std::alloc::Global;
use toml::Value;

/// The rules.
#[tactic(auto, using(crate::proofs::ListLemmas::list_step))]
pub(crate) fn note_rules(
    alloc: Global,
    faults: &mut FirstFault,
    rules: &[RuleTable<'_>],
) -> Result<(), Memory>
    ensures { OnOk result (faults.new ≡ first_of faults.old (flat_map faults_of_rule (map seen_rule rules.now))) }
{
    for rule in rules {
        note_rule(alloc, faults, rule)?;
    }
    Ok(())
}

/// A rule: its actions, its trigger and its duration.
#[tactic(auto, using(policy_toml::proofs::Faults::first_of_append), unfolding(crate::specs::Faults::faults_of_rule))]
fn note_rule(alloc: Global, faults: &mut FirstFault, rule: &RuleTable<'_>) -> Result<(), Memory>
    ensures { OnOk result (faults.new ≡ first_of faults.old (faults_of_rule (seen_rule rule.now))) }
{
    let place = rule.place.as_str();
    let action = entry(rule.members, "action");
    note_action(alloc, faults, place, rule.number, action)?;
    let trigger = trigger_at(entry(rule.members, "trigger"));
    note_read(alloc, faults, place, rule.number, "trigger", trigger)?;
    let lasting = lasting_at(entry(rule.members, "duration"));
    note_read(alloc, faults, place, rule.number, "duration", lasting)?;
    Ok(())
}

/// What a rule has at a key, where it is refused.
fn note_read<A: Drop>(
    alloc: Global,
    faults: &mut FirstFault,
    place: &str,
    number: u64,
    key: &str,
    read: Result<A, Why>,
) -> Result<(), Memory>
    ensures { OnOk result (faults.new ≡ first_of faults.old (faults_of_read place.now number key.now 0 read)) }
{
    if let Err(why) = read {
        faults.note_in(alloc, place, number, key, 0, why)?;
    }
    Ok(())
}

/// The actions of a rule.
#[tactic(auto, unfolding(crate::specs::Faults::faults_of_action))]
fn note_action(
    alloc: Global,
    faults: &mut FirstFault,
    place: &str,
    number: u64,
    value: Option<&Value>,
) -> Result<(), Memory>
    ensures { OnOk result (faults.new ≡ first_of faults.old
        (faults_of_action place.now number (option_map (λ v. view v.now) value.entry))) }
{
    let Some(value) = value else {
        faults.note_in(alloc, place, number, "action", 0, Why::BadAction)?;
        return Ok(());
    };
    match value.as_array() {
        Some(actions) => note_list(alloc, faults, place, number, actions.as_slice()),
        None => note_one(alloc, faults, place, number, value),
    }
}

/// A list of actions, which has one at least.
#[tactic(auto, using(crate::proofs::ListLemmas::list_with_items))]
fn note_list(
    alloc: Global,
    faults: &mut FirstFault,
    place: &str,
    number: u64,
    actions: &[Value],
) -> Result<(), Memory>
    ensures { OnOk result (faults.new ≡ first_of faults.old
        (faults_of_list action_at BadType place.now number (codes "action") (items_view actions.now))) }
{
    if actions.is_empty() {
        return faults.note_in(alloc, place, number, "action", 0, Why::BadType);
    }
    note_each(alloc, faults, place, number, actions)
}

/// Each action of a list.
#[tactic(auto, using(policy_toml::proofs::Faults::first_of_append))]
fn note_each(
    alloc: Global,
    faults: &mut FirstFault,
    place: &str,
    number: u64,
    actions: &[Value],
) -> Result<(), Memory>
    ensures { OnOk result (faults.new ≡ first_of faults.old
        (faults_from action_at place.now number (codes "action") 1 (items_view actions.now))) }
{
    for (index, value) in actions.iter().enumerate() {
        note_item(alloc, faults, place, number, index as u64 + 1, value)?;
    }
    Ok(())
}

/// The action of this number in a list, or the one that is in none where the number is 0.
fn note_item(
    alloc: Global,
    faults: &mut FirstFault,
    place: &str,
    number: u64,
    item: u64,
    value: &Value,
) -> Result<(), Memory>
    ensures { OnOk result (faults.new ≡ first_of faults.old
        (faults_of_read place.now number (codes "action") item (action_at (view value.now)))) }
{
    if let Err(why) = action_at(value) {
        faults.note_in(alloc, place, number, "action", item, why)?;
    }
    Ok(())
}

/// An action that is in no list: a text or a table.
fn note_one(
    alloc: Global,
    faults: &mut FirstFault,
    place: &str,
    number: u64,
    value: &Value,
) -> Result<(), Memory>
    ensures { OnOk result (faults.new ≡ first_of faults.old
        (faults_of_one action_at (is_text (view value.now) || is_table (view value.now)) place.now number (codes "action")
        (view value.now))) }
{
    if value.is_str() || is_table(value) {
        note_item(alloc, faults, place, number, 0, value)
    } else {
        faults.note_in(alloc, place, number, "action", 0, Why::BadType)
    }
}
