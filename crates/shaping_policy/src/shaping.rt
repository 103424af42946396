//! The data that a document without faults gives.
//!
//! `read_shaping` calls `shaping_in` last. Nothing is tested here a second time: what a fault would have refused is not
//! there. Providers, domains and sources are put in the order of their names. The one refusal is `Memory`.
ghost use Rattle.std.specs.Prelude.{◌≡◌, ◌++◌, IfOk, OnOk, [], codes};
ghost use Rattle.toml.specs.Data.{no_members};
ghost use Rattle.toml.specs.View.{table_view, view};
ghost use Rattle.policy_toml.specs.Walks.{over_members, members_at};
ghost use Rattle.shaping_policy.specs.RuleValues.{items_at, over_items};
ghost use Rattle.shaping_policy.specs.ShapingFile.{shaping_in, shape_of, source_given, source_table, provider_given, provider_of, matches_given, rollup_of, domain_of, with_domain_at, with_domains};

use crate::option_values::options_of;
use crate::rule_values::match_at;
use crate::rules::rules_of;
use crate::tables::items_at;
use kumo_base::{Items, Memory, Text};
use policy_core::{DomainShape, Match, Options, Provider, ShapeTable, Shaping, SourceTable};
use policy_toml::{entry, put_by_name, table_at};
use std::alloc::Global;
use toml::{Table, Value};

/// What the document says for all paths, for the sites of providers and for domains.
#[tactic(auto, unfolding(crate::specs::ShapingFile::shaping_in))]
pub(crate) fn shaping_in(alloc: Global, document: &Table) -> Result<Shaping, Memory>
    ensures { IfOk result (λ shaping. shaping ≡ shaping_in (table_view document.now)) }
{
    Ok(Shaping {
        base: base_of(alloc, document)?,
        providers: Items::of(all_providers(alloc, document)?),
        domains: Items::of(all_domains(alloc, document)?),
    })
}

/// What is said for all paths.
fn base_of(alloc: Global, document: &Table) -> Result<ShapeTable, Memory>
    ensures { IfOk result (λ shape. shape ≡ shape_of (members_at (codes "default") (table_view document.now))) }
{
    match table_at(document, "default") {
        Some(table) => shape_of(alloc, table),
        None => Ok(empty_shape(alloc)),
    }
}

/// What a table says that is not there.
#[tactic(auto, unfolding(crate::specs::ShapingFile::shape_of, crate::specs::ShapingFile::rules_of_table, crate::specs::OptionValues::options_of))]
fn empty_shape(alloc: Global) -> ShapeTable
    ensures { result ≡ shape_of no_members }
{
    ShapeTable {
        options: Options::new(),
        rules: Items::of(Vec::new(alloc)),
        sources: Items::of(Vec::new(alloc)),
    }
}

/// What a table says.
#[tactic(auto, unfolding(crate::specs::ShapingFile::shape_of))]
fn shape_of(alloc: Global, table: &Table) -> Result<ShapeTable, Memory>
    ensures { IfOk result (λ shape. shape ≡ shape_of (table_view table.now)) }
{
    Ok(ShapeTable {
        options: options_of(table),
        rules: Items::of(rules_of(alloc, table)?),
        sources: Items::of(sources_of(alloc, table)?),
    })
}

/// What a table says for some sources alone.
fn sources_of(alloc: Global, table: &Table) -> Result<Vec<SourceTable>, Memory>
    ensures { IfOk result (λ sources. sources.items ≡ over_members source_given
        (members_at (codes "sources") (table_view table.now))) }
{
    let mut sources = Vec::new(alloc);
    if let Some(tables) = table_at(table, "sources") {
        add_sources(alloc, &mut sources, tables)?;
    }
    Ok(sources)
}

fn add_sources(alloc: Global, sources: &mut Vec<SourceTable>, tables: &Table) -> Result<(), Memory>
    ensures { OnOk result (sources.new.items ≡ sources.old.items ++ over_members source_given (table_view tables.now)) }
{
    for (name, value) in tables.iter() {
        add_source(alloc, sources, name.as_str(), value)?;
    }
    Ok(())
}

/// What is said for a source.
#[tactic(auto, unfolding(crate::specs::ShapingFile::source_given))]
fn add_source(
    alloc: Global,
    sources: &mut Vec<SourceTable>,
    name: &str,
    value: &Value,
) -> Result<(), Memory>
    ensures { OnOk result (sources.new.items ≡ sources.old.items ++ source_given name.now (view value.now)) }
{
    if let Some(table) = value.as_table() {
        sources.push(source_table(alloc, name, table)?)?;
    }
    Ok(())
}

fn source_table(alloc: Global, name: &str, table: &Table) -> Result<SourceTable, Memory>
    ensures { IfOk result (λ source. source ≡ source_table name.now (table_view table.now)) }
{
    Ok(SourceTable {
        source: Text::of(alloc, name)?,
        options: options_of(table),
        rules: Items::of(rules_of(alloc, table)?),
    })
}

/// The providers.
fn all_providers(alloc: Global, document: &Table) -> Result<Vec<Provider>, Memory>
    ensures { IfOk result (λ providers. providers.items ≡ over_members provider_given
        (members_at (codes "provider") (table_view document.now))) }
{
    let mut providers = Vec::new(alloc);
    if let Some(tables) = table_at(document, "provider") {
        add_providers(alloc, &mut providers, tables)?;
    }
    Ok(providers)
}

fn add_providers(alloc: Global, providers: &mut Vec<Provider>, tables: &Table) -> Result<(), Memory>
    ensures { OnOk result (providers.new.items ≡ providers.old.items ++ over_members provider_given (table_view tables.now)) }
{
    for (name, value) in tables.iter() {
        add_provider(alloc, providers, name.as_str(), value)?;
    }
    Ok(())
}

/// What is said for a provider.
#[tactic(auto, unfolding(crate::specs::ShapingFile::provider_given))]
fn add_provider(
    alloc: Global,
    providers: &mut Vec<Provider>,
    name: &str,
    value: &Value,
) -> Result<(), Memory>
    ensures { OnOk result (providers.new.items ≡ providers.old.items ++ provider_given name.now (view value.now)) }
{
    if let Some(table) = value.as_table() {
        providers.push(provider_of(alloc, name, table)?)?;
    }
    Ok(())
}

fn provider_of(alloc: Global, name: &str, table: &Table) -> Result<Provider, Memory>
    ensures { IfOk result (λ provider. provider ≡ provider_of name.now (table_view table.now)) }
{
    Ok(Provider {
        name: Text::of(alloc, name)?,
        matches: Items::of(matches_of(alloc, table)?),
        table: shape_of(alloc, table)?,
    })
}

/// How a provider knows its sites: one match, or those of a list.
fn matches_of(alloc: Global, table: &Table) -> Result<Vec<Match>, Memory>
    ensures { IfOk result (λ matches. matches.items ≡ over_items matches_given
        (items_at (codes "match") (table_view table.now))) }
{
    let mut matches = Vec::new(alloc);
    for value in items_at(table, "match") {
        if let Some(found) = match_at(alloc, value)? {
            matches.push(found)?;
        }
    }
    Ok(matches)
}

/// The domains, in the order of their names.
fn all_domains(alloc: Global, document: &Table) -> Result<Vec<DomainShape>, Memory>
    ensures { IfOk result (λ domains. domains.items ≡ with_domains [] (table_view document.now)) }
{
    let mut domains = Vec::new(alloc);
    for (key, value) in document.iter() {
        put_domain_at(alloc, &mut domains, key.as_str(), value)?;
    }
    Ok(domains)
}

/// What is said for a domain, if the member of the document is the table of one.
#[tactic(auto, unfolding(crate::specs::ShapingFile::with_domain_at))]
fn put_domain_at(
    alloc: Global,
    domains: &mut Vec<DomainShape>,
    key: &str,
    value: &Value,
) -> Result<(), Memory>
    ensures { OnOk result (domains.new.items ≡ with_domain_at domains.old.items key.now (view value.now)) }
{
    if key == "default" || key == "provider" {
        return Ok(());
    }
    if let Some(table) = value.as_table() {
        put_by_name(domains, domain_of(alloc, key, table)?)?;
    }
    Ok(())
}

/// What is said for a domain.
fn domain_of(alloc: Global, key: &str, table: &Table) -> Result<DomainShape, Memory>
    ensures { IfOk result (λ domain. domain ≡ domain_of key.now (table_view table.now)) }
{
    Ok(DomainShape {
        domain: Text::of_string(key.to_ascii_lowercase(alloc)?),
        rollup: rollup_of(table),
        table: shape_of(alloc, table)?,
    })
}

/// Whether a domain's mail shares its paths with that of all domains of the same mail exchangers.
fn rollup_of(table: &Table) -> bool
    ensures { result ≡ rollup_of (table_view table.now) }
{
    match entry(table, "mx_rollup") {
        Some(value) => value.as_bool().unwrap_or(true),
        None => true,
    }
}
