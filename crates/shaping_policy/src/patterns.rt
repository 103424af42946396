//! The search patterns of rules.
//!
//! `read_shaping` calls `note_patterns` after the other faults: each text of `regex` that is not too long is built by the
//! caller's search engine, and one that is none is a fault. Nothing is kept. Where the engine fails, `Search` ends the read
//! and no fault is reported.
ghost use Rattle.std.specs.Prelude.{◌≡◌, ◌∷◌, [], map, codes, is_ok, IfOk, IfErr, OnOk};
ghost use Rattle.std.specs.List.{flat_map};
ghost use Rattle.toml.specs.View.{view, items_view};
ghost use Rattle.kumo_outside.specs.Search.{HasSearchCause};
ghost use Rattle.policy_fault.specs.declared.fault.Why.TheVariants.{BadPattern, BadType};
ghost use Rattle.policy_toml.specs.Places.{first_of, fault_in};
ghost use Rattle.shaping_policy.specs.inside.Seen.{seen_rule};
ghost use Rattle.shaping_policy.specs.RuleValues.{pattern_at};
ghost use Rattle.shaping_policy.specs.Faults.{pattern_faults, faults_of_patterns, faults_of_list, faults_from, faults_of_read};

use crate::tables::RuleTable;
use crate::text_places::note_too_many;
use kumo_base::Memory;
use kumo_outside::{Search, SearchFault};
use policy_fault::Why;
use policy_toml::{FirstFault, entry};
use std::alloc::Global;
use toml::Value;

/// The most bytes of a pattern.
pub const PATTERN_LIMIT: usize = 1024;

/// The most patterns of a file.
pub const PATTERN_COUNT_LIMIT: usize = 256;

/// Builds each text of each rule once as a pattern, and notes those that are none, and the first text past
/// `PATTERN_COUNT_LIMIT` in the order of faults.
#[tactic(auto, using(policy_toml::proofs::Faults::first_of_append), unfolding(crate::specs::Faults::pattern_faults))]
pub(crate) fn note_patterns<S: Search>(
    alloc: Global,
    faults: &mut FirstFault,
    rules: &[RuleTable],
    search: &mut S,
) -> Result<(), SearchFault>
    ensures ok { OnOk result (faults.new ≡ first_of faults.old (pattern_faults (map seen_rule rules.now))) }
    ensures cause { HasSearchCause (S.seen search.old).faults (S.seen search.new).faults result }
{
    note_bad_patterns(alloc, faults, rules, search)?;
    match note_too_many(alloc, faults, rules) {
        Ok(()) => Ok(()),
        Err(Memory) => Err(SearchFault::Memory),
    }
}

/// Notes the texts of these rules that are no patterns.
fn note_bad_patterns<S: Search>(
    alloc: Global,
    faults: &mut FirstFault,
    rules: &[RuleTable],
    search: &mut S,
) -> Result<(), SearchFault>
    ensures ok { OnOk result (faults.new ≡ first_of faults.old (flat_map faults_of_patterns (map seen_rule rules.now))) }
    ensures cause { HasSearchCause (S.seen search.old).faults (S.seen search.new).faults result }
{
    for rule in rules {
        note_rule(alloc, faults, rule, search)?;
    }
    Ok(())
}

/// Notes the texts of a rule that are no patterns, and another value where texts are to stand.
#[tactic(auto, unfolding(crate::specs::Faults::faults_of_patterns, crate::specs::Faults::faults_of_regex))]
fn note_rule<S: Search>(
    alloc: Global,
    faults: &mut FirstFault,
    rule: &RuleTable,
    search: &mut S,
) -> Result<(), SearchFault>
    ensures ok { OnOk result (faults.new ≡ first_of faults.old (faults_of_patterns (seen_rule rule.now))) }
    ensures cause { HasSearchCause (S.seen search.old).faults (S.seen search.new).faults result }
{
    let Some(value) = entry(rule.members, "regex") else {
        return note_text(alloc, faults, rule, 0, Why::BadPattern);
    };
    if let Some(items) = value.as_array() {
        return note_list(alloc, faults, rule, items.as_slice(), search);
    }
    if value.as_str().is_none() {
        return note_text(alloc, faults, rule, 0, Why::BadType);
    }
    note_pattern(alloc, faults, rule, 0, value, search)
}

/// Notes the texts of a list that are no patterns, and a list that is empty.
fn note_list<S: Search>(
    alloc: Global,
    faults: &mut FirstFault,
    rule: &RuleTable,
    items: &[Value],
    search: &mut S,
) -> Result<(), SearchFault>
    ensures ok { OnOk result (faults.new ≡ first_of faults.old
        (faults_of_list pattern_at BadType rule.now.place rule.now.number (codes "regex") (items_view items.now))) }
    ensures cause { HasSearchCause (S.seen search.old).faults (S.seen search.new).faults result }
{
    if items.is_empty() {
        return note_text(alloc, faults, rule, 0, Why::BadType);
    }
    note_items(alloc, faults, rule, items, search)
}

/// Notes the items of a list that are no patterns.
fn note_items<S: Search>(
    alloc: Global,
    faults: &mut FirstFault,
    rule: &RuleTable,
    items: &[Value],
    search: &mut S,
) -> Result<(), SearchFault>
    ensures ok { OnOk result (faults.new ≡ first_of faults.old
        (faults_from pattern_at rule.now.place rule.now.number (codes "regex") 1 (items_view items.now))) }
    ensures cause { HasSearchCause (S.seen search.old).faults (S.seen search.new).faults result }
{
    for (index, value) in items.iter().enumerate() {
        note_pattern(alloc, faults, rule, index as u64 + 1, value, search)?;
    }
    Ok(())
}

/// Notes a value of this number in its list that is no pattern.
fn note_pattern<S: Search>(
    alloc: Global,
    faults: &mut FirstFault,
    rule: &RuleTable,
    item: u64,
    value: &Value,
    search: &mut S,
) -> Result<(), SearchFault>
    ensures ok { OnOk result (faults.new ≡ first_of faults.old
        (faults_of_read rule.now.place rule.now.number (codes "regex") item (pattern_at (view value.now)))) }
    ensures cause { HasSearchCause (S.seen search.old).faults (S.seen search.new).faults result }
{
    if is_pattern(value, search)? {
        return Ok(());
    }
    note_text(alloc, faults, rule, item, Why::BadPattern)
}

/// Whether a value is a search pattern of at most `PATTERN_LIMIT` bytes. A longer text is not built.
#[tactic(auto, unfolding(crate::specs::RuleValues::pattern_at))]
fn is_pattern<S: Search>(value: &Value, search: &mut S) -> Result<bool, SearchFault>
    ensures read { IfOk result (λ is_one. is_one ≡ is_ok (pattern_at (view value.now))) }
    ensures cause { HasSearchCause (S.seen search.old).faults (S.seen search.new).faults result }
{
    match value.as_str() {
        Some(text) if text.len() <= PATTERN_LIMIT => search.built(text),
        _ => Ok(false),
    }
}

/// Notes a fault of the texts of a rule, at an item of this number.
fn note_text(
    alloc: Global,
    faults: &mut FirstFault,
    rule: &RuleTable,
    item: u64,
    why: Why,
) -> Result<(), SearchFault>
    ensures ok { OnOk result (faults.new ≡ first_of faults.old
        (fault_in rule.now.place rule.now.number (codes "regex") item why ∷ [])) }
    ensures err { IfErr result (λ fault. fault ≡ SearchFault.Memory) }
{
    match faults.note_in(alloc, rule.place.as_str(), rule.number, "regex", item, why) {
        Ok(()) => Ok(()),
        Err(Memory) => Err(SearchFault::Memory),
    }
}
