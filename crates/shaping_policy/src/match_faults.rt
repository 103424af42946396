//! The faults of the matches of providers.
ghost use Rattle.std.specs.Prelude.{◌≡◌, OnOk, codes, option_map};
ghost use Rattle.toml.specs.View.{view, items_view};
ghost use Rattle.policy_fault.specs.declared.fault.Why.TheVariants.{BadMatch};
ghost use Rattle.policy_toml.specs.Places.{first_of};
ghost use Rattle.policy_toml.specs.Walks.{is_table};
ghost use Rattle.shaping_policy.specs.Faults.{match_at, faults_of_match, faults_of_list, faults_from, faults_of_one, faults_of_read};

use crate::rule_values::suffix_at;
use kumo_base::Memory;
use policy_fault::Why;
use policy_toml::{FirstFault, is_table};
use std::alloc::Global;
use toml::Value;

/// The matches of the provider at that place: one, or a list of them that is not empty.
#[tactic(auto, unfolding(crate::specs::Faults::faults_of_match))]
pub(crate) fn note_match(
    alloc: Global,
    faults: &mut FirstFault,
    place: &str,
    value: Option<&Value>,
) -> Result<(), Memory>
    ensures { OnOk result (faults.new ≡ first_of faults.old
        (faults_of_match place.now (option_map (λ v. view v.now) value.entry))) }
{
    let Some(value) = value else {
        faults.note(alloc, place, "match", Why::BadMatch)?;
        return Ok(());
    };
    match value.as_array() {
        Some(matches) => note_list(alloc, faults, place, matches.as_slice()),
        None => note_one(alloc, faults, place, value),
    }
}

/// A list of matches, which has one at least.
#[tactic(auto, using(crate::proofs::ListLemmas::list_with_items))]
fn note_list(
    alloc: Global,
    faults: &mut FirstFault,
    place: &str,
    matches: &[Value],
) -> Result<(), Memory>
    ensures { OnOk result (faults.new ≡ first_of faults.old
        (faults_of_list match_at BadMatch place.now 0 (codes "match") (items_view matches.now))) }
{
    if matches.is_empty() {
        return faults.note(alloc, place, "match", Why::BadMatch);
    }
    note_each(alloc, faults, place, matches)
}

/// Each match of a list.
#[tactic(auto, using(policy_toml::proofs::Faults::first_of_append))]
fn note_each(
    alloc: Global,
    faults: &mut FirstFault,
    place: &str,
    matches: &[Value],
) -> Result<(), Memory>
    ensures { OnOk result (faults.new ≡ first_of faults.old
        (faults_from match_at place.now 0 (codes "match") 1 (items_view matches.now))) }
{
    for (index, value) in matches.iter().enumerate() {
        note_item(alloc, faults, place, index as u64 + 1, value)?;
    }
    Ok(())
}

/// The match of this number in a list, or the one that is in none where the number is 0.
fn note_item(
    alloc: Global,
    faults: &mut FirstFault,
    place: &str,
    item: u64,
    value: &Value,
) -> Result<(), Memory>
    ensures { OnOk result (faults.new ≡ first_of faults.old
        (faults_of_read place.now 0 (codes "match") item (match_at (view value.now)))) }
{
    if let Err(why) = suffix_at(value) {
        faults.note_in(alloc, place, 0, "match", item, why)?;
    }
    Ok(())
}

/// A match that is in no list: a table.
fn note_one(
    alloc: Global,
    faults: &mut FirstFault,
    place: &str,
    value: &Value,
) -> Result<(), Memory>
    ensures { OnOk result (faults.new ≡ first_of faults.old
        (faults_of_one match_at (is_table (view value.now)) place.now 0 (codes "match") (view value.now))) }
{
    if is_table(value) {
        note_item(alloc, faults, place, 0, value)
    } else {
        faults.note(alloc, place, "match", Why::BadType)
    }
}
