//! Where the texts of rules stand, and the first of them that is one too many.
//!
//! `patterns.rt` asks for it, since a file has at most 256 texts and the first past them, in the order of faults and not of
//! the document, is at fault. The places are listed and sorted once. The one refusal is `Memory`.
ghost use Rattle.std.specs.Prelude.{◌≡◌, ◌+◌, ◌++◌, map, IfOk, OnOk};
ghost use Rattle.std.specs.List.{flat_map};
ghost use Rattle.toml.specs.View.{view, items_view};
ghost use Rattle.policy_toml.specs.Places.{first_of};
ghost use Rattle.shaping_policy.specs.inside.Seen.{seen_rule};
ghost use Rattle.shaping_policy.specs.inside.TextPlaces.{seen_place};
ghost use Rattle.shaping_policy.specs.Faults.{faults_of_many, text_places, text_places_from, text_places_of};

use crate::patterns::PATTERN_COUNT_LIMIT;
use crate::tables::RuleTable;
use kumo_base::Memory;
use policy_fault::Why;
use policy_toml::{FirstFault, entry};
use std::alloc::Global;
use toml::Value;

/// The place of a text of a rule, in the order of faults at the key `regex`.
#[derive(Clone, Copy, PartialEq, Eq, PartialOrd, Ord)]
struct TextPlace<'r> {
    /// The keys of the rule's list joined by `.`.
    table: &'r str,
    /// The rule's number in its list, from 1.
    number: u64,
    /// The text's number in a list of texts, from 1; 0 for a text in no list.
    item: u64,
}

/// Notes the first text past `PATTERN_COUNT_LIMIT` in the order of faults.
pub(crate) fn note_too_many(
    alloc: Global,
    faults: &mut FirstFault,
    rules: &[RuleTable],
) -> Result<(), Memory>
    ensures { OnOk result (faults.new ≡ first_of faults.old (faults_of_many (flat_map text_places (map seen_rule rules.now)))) }
{
    let mut places = places_of_texts(alloc, rules)?;
    places.sort_unstable();
    let Some(place) = places.as_slice().get(PATTERN_COUNT_LIMIT) else {
        return Ok(());
    };
    faults.note_in(
        alloc,
        place.table,
        place.number,
        "regex",
        place.item,
        Why::BadPattern,
    )?;
    Ok(())
}

/// The places of all texts of these rules.
fn places_of_texts<'r>(alloc: Global, rules: &'r [RuleTable]) -> Result<Vec<TextPlace<'r>>, Memory>
    ensures { IfOk result (λ places. map seen_place places.items ≡ flat_map text_places (map seen_rule rules.now)) }
{
    let mut places = Vec::new(alloc);
    for rule in rules {
        add_texts(&mut places, rule)?;
    }
    Ok(places)
}

/// Adds the places of a rule's texts.
#[tactic(auto, unfolding(crate::specs::Faults::text_places))]
fn add_texts<'r>(places: &mut Vec<TextPlace<'r>>, rule: &'r RuleTable) -> Result<(), Memory>
    ensures { OnOk result (map seen_place places.new.items
        ≡ map seen_place places.old.items ++ text_places (seen_rule rule.now)) }
{
    let Some(value) = entry(rule.members, "regex") else {
        return Ok(());
    };
    match value.as_array() {
        Some(items) => add_items(places, rule, items.as_slice()),
        None => add_text(places, rule, 0, value),
    }
}

/// Adds the places of the texts in a list.
fn add_items<'r>(
    places: &mut Vec<TextPlace<'r>>,
    rule: &'r RuleTable,
    items: &[Value],
) -> Result<(), Memory>
    ensures { OnOk result (map seen_place places.new.items
        ≡ map seen_place places.old.items ++ text_places_from rule.now.place rule.now.number 1 (items_view items.now)) }
{
    for (index, value) in items.iter().enumerate() {
        add_text(places, rule, index as u64 + 1, value)?;
    }
    Ok(())
}

/// Adds the place of a value of this number in its list, where it is a text.
fn add_text<'r>(
    places: &mut Vec<TextPlace<'r>>,
    rule: &'r RuleTable,
    item: u64,
    value: &Value,
) -> Result<(), Memory>
    ensures { OnOk result (map seen_place places.new.items
        ≡ map seen_place places.old.items ++ text_places_of rule.now.place rule.now.number item (view value.now)) }
{
    if value.as_str().is_some() {
        places.push(TextPlace {
            table: rule.place.as_str(),
            number: rule.number,
            item,
        })?;
    }
    Ok(())
}
