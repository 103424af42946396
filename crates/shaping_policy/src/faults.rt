//! The faults of a shaping file, those of its patterns aside.
//!
//! Each function goes over one part of the file and hands every fault to the one `FirstFault`, which keeps the first by
//! place. After `Memory` it may have seen some of them.
ghost use Rattle.std.specs.Prelude.{◌≡◌, [], Option, Some, Result, IfOk, OnOk, None, codes, map, bytes_eq};
ghost use Rattle.std.specs.List.{flat_map};
ghost use Rattle.toml.specs.Data.{get_member};
ghost use Rattle.toml.specs.View.{table_view, view, items_view};
ghost use Rattle.policy_toml.specs.Places.{first_of};
ghost use Rattle.policy_toml.specs.Walks.{over_members, members_at};
ghost use Rattle.shaping_policy.specs.Tables.{tables_in, rules_in};
ghost use Rattle.shaping_policy.specs.inside.Seen.{seen_table, seen_rule};
ghost use Rattle.shaping_policy.specs.Faults.{plain_faults, faults_at_top, faults_of_provider, faults_of_table, faults_of_name, is_named_well, faults_of_kind, faults_at_key, faults_of_setting, faults_of_sources, faults_of_source, faults_of_rollup, faults_of_automation, faults_of_entries, faults_of_entry, has_sources, is_domain_kind};

use crate::domains::ShapeTables;
use crate::match_faults::note_match;
use crate::option_values::setting_at;
use crate::rule_faults::note_rules;
use crate::tables::{FileTable, RuleTable, TableKind};
use kumo_base::Memory;
use policy_core::{Setting, is_host_name, is_source_name};
use policy_fault::{Why, joined};
use policy_toml::{FirstFault, WHOLE_TABLE, entry, is_table, note_twice, table_at};
use std::alloc::Global;
use toml::{Table, Value};

/// The first fault of a document with these tables and rules.
#[tactic(auto, using(policy_toml::proofs::Faults::first_of_append), unfolding(crate::specs::Faults::plain_faults))]
pub(crate) fn plain_faults(
    alloc: Global,
    document: &Table,
    tables: &[FileTable<'_>],
    rules: &[RuleTable<'_>],
) -> Result<FirstFault, Memory>
    requires tables { map seen_table tables.now ≡ tables_in (table_view document.now) }
    requires rules { map seen_rule rules.now ≡ rules_in (tables_in (table_view document.now)) }
    ensures { IfOk result (λ faults. faults ≡ first_of None (plain_faults (table_view document.now))) }
{
    let mut faults = FirstFault::new();
    note_top(alloc, &mut faults, document)?;
    if let Some(providers) = table_at(document, "provider") {
        note_providers(alloc, &mut faults, providers)?;
    }
    note_twice::<ShapeTables>(alloc, &mut faults, "", document)?;
    note_tables(alloc, &mut faults, tables)?;
    note_rules(alloc, &mut faults, rules)?;
    Ok(faults)
}

/// What is to be a table at the top of the document.
#[tactic(auto, using(policy_toml::proofs::Faults::first_of_append))]
fn note_top(alloc: Global, faults: &mut FirstFault, document: &Table) -> Result<(), Memory>
    ensures { OnOk result (faults.new ≡ first_of faults.old (over_members faults_at_top (table_view document.now))) }
{
    for (key, value) in document.iter() {
        note_at_top(alloc, faults, key.as_str(), value)?;
    }
    Ok(())
}

/// A value at the top of the document.
#[tactic(auto, unfolding(crate::specs::Faults::faults_at_top))]
fn note_at_top(
    alloc: Global,
    faults: &mut FirstFault,
    key: &str,
    value: &Value,
) -> Result<(), Memory>
    ensures { OnOk result (faults.new ≡ first_of faults.old (faults_at_top key.now (view value.now))) }
{
    if !is_table(value) {
        faults.note(alloc, "", key, Why::BadType)?;
    }
    Ok(())
}

/// What is to be a table in `provider`.
#[tactic(auto, using(policy_toml::proofs::Faults::first_of_append))]
fn note_providers(alloc: Global, faults: &mut FirstFault, providers: &Table) -> Result<(), Memory>
    ensures { OnOk result (faults.new ≡ first_of faults.old (over_members faults_of_provider (table_view providers.now))) }
{
    for (name, value) in providers.iter() {
        note_provider(alloc, faults, name.as_str(), value)?;
    }
    Ok(())
}

/// A value in `provider`.
#[tactic(auto, unfolding(crate::specs::Faults::faults_of_provider))]
fn note_provider(
    alloc: Global,
    faults: &mut FirstFault,
    name: &str,
    value: &Value,
) -> Result<(), Memory>
    ensures { OnOk result (faults.new ≡ first_of faults.old (faults_of_provider name.now (view value.now))) }
{
    if !is_table(value) {
        faults.note(alloc, "provider", name, Why::BadType)?;
    }
    Ok(())
}

/// The tables, their rules aside.
#[tactic(auto, using(crate::proofs::ListLemmas::list_step))]
fn note_tables(
    alloc: Global,
    faults: &mut FirstFault,
    tables: &[FileTable<'_>],
) -> Result<(), Memory>
    ensures { OnOk result (faults.new ≡ first_of faults.old (flat_map faults_of_table (map seen_table tables.now))) }
{
    for table in tables {
        note_table(alloc, faults, table)?;
    }
    Ok(())
}

/// A table: its name, what its kind has to have, and its values.
#[tactic(auto, using(policy_toml::proofs::Faults::first_of_append), unfolding(crate::specs::Faults::faults_of_table))]
fn note_table(alloc: Global, faults: &mut FirstFault, table: &FileTable<'_>) -> Result<(), Memory>
    ensures { OnOk result (faults.new ≡ first_of faults.old (faults_of_table (seen_table table.now))) }
{
    note_name(alloc, faults, table)?;
    note_kind(alloc, faults, table)?;
    note_keys(
        alloc,
        faults,
        table.kind,
        table.place.as_str(),
        table.members,
    )?;
    Ok(())
}

/// The name of a table.
fn note_name(alloc: Global, faults: &mut FirstFault, table: &FileTable<'_>) -> Result<(), Memory>
    ensures { OnOk result (faults.new ≡ first_of faults.old (faults_of_name (seen_table table.now))) }
{
    if !is_named_well(alloc, table.kind, table.name)? {
        faults.note(alloc, table.place.as_str(), WHOLE_TABLE, Why::BadName)?;
    }
    Ok(())
}

/// Whether a table of this kind may have this name. The name of a domain counts in lower case.
fn is_named_well(alloc: Global, kind: TableKind, name: &str) -> Result<bool, Memory>
    ensures { IfOk result (λ answer. answer ≡ is_named_well kind name.now) }
{
    match kind {
        TableKind::Default => Ok(true),
        TableKind::Provider | TableKind::Source => Ok(is_source_name(name)),
        TableKind::Domain => Ok(is_host_name(name.to_ascii_lowercase(alloc)?.as_str())),
    }
}

/// What a table has to have: a provider a match.
fn note_kind(alloc: Global, faults: &mut FirstFault, table: &FileTable<'_>) -> Result<(), Memory>
    ensures { OnOk result (faults.new ≡ first_of faults.old
        (faults_of_kind table.now.kind table.now.place (table_view table.now.members.now))) }
{
    match table.kind {
        TableKind::Provider => {
            let value = entry(table.members, "match");
            note_match(alloc, faults, table.place.as_str(), value)
        }
        TableKind::Default | TableKind::Domain | TableKind::Source => Ok(()),
    }
}

/// The values in a table of this kind.
#[tactic(auto, using(policy_toml::proofs::Faults::first_of_append))]
fn note_keys(
    alloc: Global,
    faults: &mut FirstFault,
    kind: TableKind,
    place: &str,
    table: &Table,
) -> Result<(), Memory>
    ensures { OnOk result (faults.new ≡ first_of faults.old
        (over_members (faults_at_key kind place.now) (table_view table.now))) }
{
    for (key, value) in table.iter() {
        note_key(alloc, faults, kind, place, key.as_str(), value)?;
    }
    Ok(())
}

/// A value in a table of this kind.
#[tactic(auto, unfolding(crate::specs::Faults::faults_at_key))]
fn note_key(
    alloc: Global,
    faults: &mut FirstFault,
    kind: TableKind,
    place: &str,
    key: &str,
    value: &Value,
) -> Result<(), Memory>
    ensures { OnOk result (faults.new ≡ first_of faults.old (faults_at_key kind place.now key.now (view value.now))) }
{
    if key == "automation" {
        note_automation(alloc, faults, place, value)?;
    } else if key == "sources" {
        if has_sources(kind) {
            note_sources(alloc, faults, place, value)?;
        }
    } else if key == "mx_rollup" {
        if is_domain_kind(kind) {
            note_rollup(alloc, faults, place, value)?;
        }
    } else {
        note_setting(alloc, faults, place, key, setting_at(key, value))?;
    }
    Ok(())
}

/// Whether a table of this kind has tables of sources.
pub(crate) fn has_sources(kind: TableKind) -> bool
    ensures { result ≡ has_sources kind }
{
    kind != TableKind::Source
}

/// Whether a table of this kind is that of a domain.
pub(crate) fn is_domain_kind(kind: TableKind) -> bool
    ensures { result ≡ is_domain_kind kind }
{
    kind == TableKind::Domain
}

/// An option.
fn note_setting(
    alloc: Global,
    faults: &mut FirstFault,
    place: &str,
    key: &str,
    setting: Option<Result<Setting, Why>>,
) -> Result<(), Memory>
    ensures { OnOk result (faults.new ≡ first_of faults.old (faults_of_setting place.now key.now setting)) }
{
    if let Some(Err(why)) = setting {
        faults.note(alloc, place, key, why)?;
    }
    Ok(())
}

/// The tables of sources within a table.
#[tactic(auto, unfolding(crate::specs::Faults::faults_of_sources))]
fn note_sources(
    alloc: Global,
    faults: &mut FirstFault,
    place: &str,
    value: &Value,
) -> Result<(), Memory>
    ensures { OnOk result (faults.new ≡ first_of faults.old (faults_of_sources place.now (view value.now))) }
{
    let Some(sources) = value.as_table() else {
        faults.note(alloc, place, "sources", Why::BadType)?;
        return Ok(());
    };
    let inner = joined(alloc, place, "sources")?;
    note_each_source(alloc, faults, inner.as_str(), sources)?;
    Ok(())
}

/// What is to be a table in `sources`.
#[tactic(auto, using(policy_toml::proofs::Faults::first_of_append))]
fn note_each_source(
    alloc: Global,
    faults: &mut FirstFault,
    place: &str,
    sources: &Table,
) -> Result<(), Memory>
    ensures { OnOk result (faults.new ≡ first_of faults.old
        (over_members (faults_of_source place.now) (table_view sources.now))) }
{
    for (name, value) in sources.iter() {
        note_source(alloc, faults, place, name.as_str(), value)?;
    }
    Ok(())
}

/// A value in `sources`.
#[tactic(auto, unfolding(crate::specs::Faults::faults_of_source))]
fn note_source(
    alloc: Global,
    faults: &mut FirstFault,
    place: &str,
    name: &str,
    value: &Value,
) -> Result<(), Memory>
    ensures { OnOk result (faults.new ≡ first_of faults.old (faults_of_source place.now name.now (view value.now))) }
{
    if !is_table(value) {
        faults.note(alloc, place, name, Why::BadType)?;
    }
    Ok(())
}

/// Whether a domain's mail goes with that of others.
#[tactic(auto, unfolding(crate::specs::Faults::faults_of_rollup))]
fn note_rollup(
    alloc: Global,
    faults: &mut FirstFault,
    place: &str,
    value: &Value,
) -> Result<(), Memory>
    ensures { OnOk result (faults.new ≡ first_of faults.old (faults_of_rollup place.now (view value.now))) }
{
    match value.as_bool() {
        Some(_) => Ok(()),
        None => faults.note(alloc, place, "mx_rollup", Why::BadType),
    }
}

/// A list of rules, as a list.
#[tactic(auto, unfolding(crate::specs::Faults::faults_of_automation))]
fn note_automation(
    alloc: Global,
    faults: &mut FirstFault,
    place: &str,
    value: &Value,
) -> Result<(), Memory>
    ensures { OnOk result (faults.new ≡ first_of faults.old (faults_of_automation place.now (view value.now))) }
{
    match value.as_array() {
        Some(entries) => note_entries(alloc, faults, place, entries.as_slice()),
        None => faults.note(alloc, place, "automation", Why::BadType),
    }
}

/// The items of a list of rules.
#[tactic(auto, using(policy_toml::proofs::Faults::first_of_append))]
fn note_entries(
    alloc: Global,
    faults: &mut FirstFault,
    place: &str,
    entries: &[Value],
) -> Result<(), Memory>
    ensures { OnOk result (faults.new ≡ first_of faults.old (faults_of_entries place.now 1 (items_view entries.now))) }
{
    for (index, value) in entries.iter().enumerate() {
        note_entry(alloc, faults, place, index as u64 + 1, value)?;
    }
    Ok(())
}

/// The item of this number in a list of rules.
fn note_entry(
    alloc: Global,
    faults: &mut FirstFault,
    place: &str,
    number: u64,
    value: &Value,
) -> Result<(), Memory>
    ensures { OnOk result (faults.new ≡ first_of faults.old (faults_of_entry place.now number (view value.now))) }
{
    if !is_table(value) {
        faults.note_in(alloc, place, 0, "automation", number, Why::BadType)?;
    }
    Ok(())
}
