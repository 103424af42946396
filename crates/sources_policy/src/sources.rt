//! The sources and pools that a document without faults gives.
//!
//! `read_sources` calls `sources_in` last. Nothing is tested here a second time: what a fault would have refused is not
//! there. The source and the pool `unspecified` are added where the file has none, and both lists are in byte order of their
//! names. The one refusal is `Memory`.
ghost use Rattle.std.specs.Prelude.{◌≡◌, ◌++◌, IfOk, OnOk, Ok, codes};
ghost use Rattle.toml.specs.View.{table_view};
ghost use Rattle.policy_toml.specs.Walks.{over_members, members_at};
ghost use Rattle.sources_policy.specs.SourcesFile.{sources_in, sources_of, pools_of, source_at, source_of, ehlo_of, weight_of, pool_at, pool_of, entrant_at, entrant_of, entrants_of, unspecified_source, unspecified_pool};

use crate::order::put_if_new;
use crate::values::{ehlo_at, weight_at};
use kumo_base::{Items, Memory, Text};
use policy_core::{DEFAULT_EHLO, Entrant, Pool, Source, Sources, UNSPECIFIED};
use policy_toml::{entry, table_at};
use std::alloc::Global;
use toml::Table;

/// The sources and pools of the document.
#[tactic(auto, unfolding(crate::specs::SourcesFile::sources_in))]
pub(crate) fn sources_in(alloc: Global, document: &Table) -> Result<Sources, Memory>
    ensures { IfOk result (λ sources. sources ≡ sources_in (table_view document.now)) }
{
    Ok(Sources {
        sources: Items::of(all_sources(alloc, document)?),
        pools: Items::of(all_pools(alloc, document)?),
    })
}

/// The sources, `unspecified` among them.
fn all_sources(alloc: Global, document: &Table) -> Result<Vec<Source>, Memory>
    ensures { IfOk result (λ sources. sources.items ≡ sources_of (members_at (codes "source") (table_view document.now))) }
{
    let mut sources = Vec::new(alloc);
    if let Some(table) = table_at(document, "source") {
        add_sources(alloc, &mut sources, table)?;
    }
    put_if_new(&mut sources, unspecified_source(alloc)?)?;
    Ok(sources)
}

fn add_sources(alloc: Global, sources: &mut Vec<Source>, table: &Table) -> Result<(), Memory>
    ensures { OnOk result (sources.new.items ≡ sources.old.items ++ over_members source_at (table_view table.now)) }
{
    for (name, value) in table.iter() {
        if let Some(source) = value.as_table() {
            sources.push(source_of(alloc, name.as_str(), source)?)?;
        }
    }
    Ok(())
}

/// A source with its table.
fn source_of(alloc: Global, name: &str, table: &Table) -> Result<Source, Memory>
    ensures { IfOk result (λ source. source ≡ source_of name.now (table_view table.now)) }
{
    Ok(Source {
        name: Text::of(alloc, name)?,
        ehlo: Text::of(alloc, ehlo_of(table))?,
    })
}

/// The argument of EHLO of a source.
fn ehlo_of(table: &Table) -> &str
    ensures { result.now ≡ ehlo_of (table_view table.now) }
{
    match entry(table, "ehlo_domain") {
        Some(value) => match ehlo_at(value) {
            Ok(text) => text,
            Err(_) => DEFAULT_EHLO,
        },
        None => DEFAULT_EHLO,
    }
}

/// The source that is always there.
fn unspecified_source(alloc: Global) -> Result<Source, Memory>
    ensures { IfOk result (λ source. source ≡ unspecified_source) }
{
    Ok(Source {
        name: Text::of(alloc, UNSPECIFIED)?,
        ehlo: Text::of(alloc, DEFAULT_EHLO)?,
    })
}

/// The pools, `unspecified` among them.
fn all_pools(alloc: Global, document: &Table) -> Result<Vec<Pool>, Memory>
    ensures { IfOk result (λ pools. pools.items ≡ pools_of (members_at (codes "pool") (table_view document.now))) }
{
    let mut pools = Vec::new(alloc);
    if let Some(table) = table_at(document, "pool") {
        add_pools(alloc, &mut pools, table)?;
    }
    put_if_new(&mut pools, unspecified_pool(alloc)?)?;
    Ok(pools)
}

fn add_pools(alloc: Global, pools: &mut Vec<Pool>, table: &Table) -> Result<(), Memory>
    ensures { OnOk result (pools.new.items ≡ pools.old.items ++ over_members pool_at (table_view table.now)) }
{
    for (name, value) in table.iter() {
        if let Some(pool) = value.as_table() {
            pools.push(pool_of(alloc, name.as_str(), pool)?)?;
        }
    }
    Ok(())
}

/// A pool with its table.
fn pool_of(alloc: Global, name: &str, table: &Table) -> Result<Pool, Memory>
    ensures { IfOk result (λ pool. pool ≡ pool_of name.now (table_view table.now)) }
{
    Ok(Pool {
        name: Text::of(alloc, name)?,
        entrants: Items::of(entrants_of(alloc, table)?),
    })
}

/// The entrants of a pool.
fn entrants_of(alloc: Global, pool: &Table) -> Result<Vec<Entrant>, Memory>
    ensures { IfOk result (λ entrants. entrants.items ≡ entrants_of (table_view pool.now)) }
{
    let mut entrants = Vec::new(alloc);
    for (name, value) in pool.iter() {
        if let Some(entrant) = value.as_table() {
            entrants.push(entrant_of(alloc, name.as_str(), entrant)?)?;
        }
    }
    Ok(entrants)
}

/// An entrant with its table.
fn entrant_of(alloc: Global, source: &str, table: &Table) -> Result<Entrant, Memory>
    ensures { IfOk result (λ entrant. entrant ≡ entrant_of source.now (table_view table.now)) }
{
    Ok(Entrant {
        source: Text::of(alloc, source)?,
        weight: weight_of(table),
    })
}

/// The weight of an entrant, 1 where its table gives none.
fn weight_of(table: &Table) -> u32
    ensures { result ≡ weight_of (table_view table.now) }
{
    match entry(table, "weight") {
        Some(value) => match weight_at(value) {
            Ok(weight) => weight,
            Err(_) => 1,
        },
        None => 1,
    }
}

/// The pool that is always there.
fn unspecified_pool(alloc: Global) -> Result<Pool, Memory>
    ensures { IfOk result (λ pool. pool ≡ unspecified_pool) }
{
    let mut entrants = Vec::new(alloc);
    entrants.push(Entrant {
        source: Text::of(alloc, UNSPECIFIED)?,
        weight: 1,
    })?;
    Ok(Pool {
        name: Text::of(alloc, UNSPECIFIED)?,
        entrants: Items::of(entrants),
    })
}
