//! The tables of a shaping file, each with its place.
//!
//! `read_shaping` lists them once, and every pass over the file (faults, patterns, keys without effect) is a loop over the
//! list. So where a table stands, what it is for and how it is named is said here alone. The lists keep references into the
//! document. The one refusal is `Memory`.
ghost use Rattle.std.specs.Prelude.{◌≡◌, ◌++◌, IfOk, OnOk, map};
ghost use Rattle.toml.specs.View.{items_view, table_view, view};
ghost use Rattle.policy_toml.specs.Walks.{over_members};
ghost use Rattle.shaping_policy.specs.inside.Seen.{seen_rule, seen_table};
ghost use Rattle.shaping_policy.specs.RuleValues.{items_at};
ghost use Rattle.shaping_policy.specs.Tables.{tables_in, tables_at, provider_tables_at, with_sources, placed, source_at, rules_in, rules_of, rules_from, rule_at, list_at};

use kumo_base::{Memory, Text};
use policy_fault::joined;
use policy_toml::{entry, table_at};
use std::alloc::Global;
use toml::{Table, Value};

/// What a table is for.
#[derive(Clone, Copy, PartialEq, Eq)]
pub(crate) enum TableKind {
    /// All paths.
    Default,
    /// The sites of a provider.
    Provider,
    /// A domain.
    Domain,
    /// A source, within one of the others.
    Source,
}

/// A table of the file.
#[derive(Drop)]
pub(crate) struct FileTable<'d> {
    pub(crate) kind: TableKind,
    /// Its keys joined by `.`.
    pub(crate) place: Text,
    /// The last of its keys.
    pub(crate) name: &'d str,
    pub(crate) members: &'d Table,
}

/// The table of a rule, which stands in a list of them.
#[derive(Drop)]
pub(crate) struct RuleTable<'d> {
    /// The keys of the list joined by `.`.
    pub(crate) place: Text,
    /// Its number in the list, from 1.
    pub(crate) number: u64,
    pub(crate) members: &'d Table,
}

/// The tables of the document. Each is followed by those of its sources.
#[tactic(auto, unfolding(crate::specs::Tables::tables_in))]
pub(crate) fn tables_in<'d>(
    alloc: Global,
    document: &'d Table,
) -> Result<Vec<FileTable<'d>>, Memory>
    ensures { IfOk result (λ tables. map seen_table tables.items ≡ tables_in (table_view document.now)) }
{
    let mut tables = Vec::new(alloc);
    add_tables(alloc, &mut tables, document)?;
    Ok(tables)
}

fn add_tables<'d>(
    alloc: Global,
    tables: &mut Vec<FileTable<'d>>,
    document: &'d Table,
) -> Result<(), Memory>
    ensures { OnOk result (map seen_table tables.new.items
        ≡ map seen_table tables.old.items ++ over_members tables_at (table_view document.now)) }
{
    for (key, value) in document.iter() {
        add_tables_at(alloc, tables, key.as_str(), value)?;
    }
    Ok(())
}

/// The tables at a key of the document.
#[tactic(auto, unfolding(crate::specs::Tables::tables_at))]
fn add_tables_at<'d>(
    alloc: Global,
    tables: &mut Vec<FileTable<'d>>,
    key: &'d str,
    value: &'d Value,
) -> Result<(), Memory>
    ensures { OnOk result (map seen_table tables.new.items
        ≡ map seen_table tables.old.items ++ tables_at key.now (view value.now)) }
{
    let Some(members) = value.as_table() else {
        return Ok(());
    };
    if key == "default" {
        add_with_sources(alloc, tables, TableKind::Default, key, key, members)?;
    } else if key == "provider" {
        add_providers(alloc, tables, members)?;
    } else {
        add_with_sources(alloc, tables, TableKind::Domain, key, key, members)?;
    }
    Ok(())
}

/// The tables of providers.
fn add_providers<'d>(
    alloc: Global,
    tables: &mut Vec<FileTable<'d>>,
    providers: &'d Table,
) -> Result<(), Memory>
    ensures { OnOk result (map seen_table tables.new.items
        ≡ map seen_table tables.old.items ++ over_members provider_tables_at (table_view providers.now)) }
{
    for (name, value) in providers.iter() {
        add_provider(alloc, tables, name.as_str(), value)?;
    }
    Ok(())
}

/// The tables of a provider.
#[tactic(auto, unfolding(crate::specs::Tables::provider_tables_at))]
fn add_provider<'d>(
    alloc: Global,
    tables: &mut Vec<FileTable<'d>>,
    name: &'d str,
    value: &'d Value,
) -> Result<(), Memory>
    ensures { OnOk result (map seen_table tables.new.items
        ≡ map seen_table tables.old.items ++ provider_tables_at name.now (view value.now)) }
{
    if let Some(members) = value.as_table() {
        let place = joined(alloc, "provider", name)?;
        add_with_sources(
            alloc,
            tables,
            TableKind::Provider,
            place.as_str(),
            name,
            members,
        )?;
    }
    Ok(())
}

/// A table and those of its sources.
fn add_with_sources<'d>(
    alloc: Global,
    tables: &mut Vec<FileTable<'d>>,
    kind: TableKind,
    place: &str,
    name: &'d str,
    members: &'d Table,
) -> Result<(), Memory>
    ensures { OnOk result (map seen_table tables.new.items
        ≡ map seen_table tables.old.items ++ with_sources kind place.now name.now (table_view members.now)) }
{
    tables.push(file_table(alloc, kind, place, name, members)?)?;
    if let Some(sources) = table_at(members, "sources") {
        let inner = joined(alloc, place, "sources")?;
        add_sources(alloc, tables, inner.as_str(), sources)?;
    }
    Ok(())
}

/// The tables of sources, of which the place is that of the table around them.
fn add_sources<'d>(
    alloc: Global,
    tables: &mut Vec<FileTable<'d>>,
    place: &str,
    sources: &'d Table,
) -> Result<(), Memory>
    ensures { OnOk result (map seen_table tables.new.items
        ≡ map seen_table tables.old.items ++ over_members (source_at place.now) (table_view sources.now)) }
{
    for (name, value) in sources.iter() {
        add_source(alloc, tables, place, name.as_str(), value)?;
    }
    Ok(())
}

/// The table of a source.
#[tactic(auto, unfolding(crate::specs::Tables::source_at))]
fn add_source<'d>(
    alloc: Global,
    tables: &mut Vec<FileTable<'d>>,
    place: &str,
    name: &'d str,
    value: &'d Value,
) -> Result<(), Memory>
    ensures { OnOk result (map seen_table tables.new.items
        ≡ map seen_table tables.old.items ++ source_at place.now name.now (view value.now)) }
{
    if let Some(members) = value.as_table() {
        let inner = joined(alloc, place, name)?;
        tables.push(file_table(alloc, TableKind::Source, inner.as_str(), name, members)?)?;
    }
    Ok(())
}

/// A table of these parts.
fn file_table<'d>(
    alloc: Global,
    kind: TableKind,
    place: &str,
    name: &'d str,
    members: &'d Table,
) -> Result<FileTable<'d>, Memory>
    ensures { IfOk result (λ t. seen_table t ≡ placed kind place.now name.now (table_view members.now)) }
{
    Ok(FileTable {
        kind,
        place: Text::of(alloc, place)?,
        name,
        members,
    })
}

/// The tables of rules within these tables, in the order of the tables and then of their lists.
pub(crate) fn rules_in<'d>(
    alloc: Global,
    tables: &[FileTable<'d>],
) -> Result<Vec<RuleTable<'d>>, Memory>
    ensures { IfOk result (λ rules. map seen_rule rules.items ≡ rules_in (map seen_table tables.now)) }
{
    let mut rules = Vec::new(alloc);
    for table in tables {
        add_rules_of(alloc, &mut rules, table)?;
    }
    Ok(rules)
}

/// The tables of rules in a table.
#[tactic(auto, unfolding(crate::specs::Tables::rules_of))]
fn add_rules_of<'d>(
    alloc: Global,
    rules: &mut Vec<RuleTable<'d>>,
    table: &FileTable<'d>,
) -> Result<(), Memory>
    ensures { OnOk result (map seen_rule rules.new.items ≡ map seen_rule rules.old.items ++ rules_of (seen_table table.now)) }
{
    let place = joined(alloc, table.place.as_str(), "automation")?;
    add_rules(
        alloc,
        rules,
        place.as_str(),
        list_at(table.members, "automation"),
    )?;
    Ok(())
}

/// The tables in a list of rules at that place.
fn add_rules<'d>(
    alloc: Global,
    rules: &mut Vec<RuleTable<'d>>,
    place: &str,
    list: &'d [Value],
) -> Result<(), Memory>
    ensures { OnOk result (map seen_rule rules.new.items ≡ map seen_rule rules.old.items
        ++ rules_from place.now 1 (items_view list.now)) }
{
    for (index, value) in list.iter().enumerate() {
        add_rule(alloc, rules, place, index as u64 + 1, value)?;
    }
    Ok(())
}

/// The table of a rule.
#[tactic(auto, unfolding(crate::specs::Tables::rule_at))]
fn add_rule<'d>(
    alloc: Global,
    rules: &mut Vec<RuleTable<'d>>,
    place: &str,
    number: u64,
    value: &'d Value,
) -> Result<(), Memory>
    ensures { OnOk result (map seen_rule rules.new.items ≡ map seen_rule rules.old.items
        ++ rule_at place.now number (view value.now)) }
{
    if let Some(members) = value.as_table() {
        rules.push(rule_table(alloc, place, number, members)?)?;
    }
    Ok(())
}

/// A table of these parts.
fn rule_table<'d>(
    alloc: Global,
    place: &str,
    number: u64,
    members: &'d Table,
) -> Result<RuleTable<'d>, Memory>
    ensures { IfOk result (λ r. seen_rule r
        ≡ record { place = place.now; number = number; members = table_view members.now }) }
{
    Ok(RuleTable {
        place: Text::of(alloc, place)?,
        number,
        members,
    })
}

/// The list at a key, empty where the key is not there or has another value.
pub(crate) fn list_at<'d>(table: &'d Table, key: &str) -> &'d [Value]
    ensures { items_view result.now ≡ list_at key.now (table_view table.now) }
{
    let Some(value) = entry(table, key) else {
        return &[];
    };
    match value.as_array() {
        Some(list) => list.as_slice(),
        None => &[],
    }
}

/// The items of the list at a key, where a value that is no list counts as its one item. Empty where the key is not there.
pub(crate) fn items_at<'d>(table: &'d Table, key: &str) -> &'d [Value]
    ensures { items_view result.now ≡ items_at key.now (table_view table.now) }
{
    let Some(value) = entry(table, key) else {
        return &[];
    };
    match value.as_array() {
        Some(list) => list.as_slice(),
        None => std::slice::from_ref(value),
    }
}
