//! The keys of a sources file that have no effect.
//!
//! `read_sources` calls `ignored_in` where the document has no fault. Each function adds the keys of one part to the list, in
//! the order of the document; `check` sorts them later. The one refusal is `Memory`.
ghost use Rattle.std.specs.Prelude.{◌≡◌, ◌++◌, IfOk, OnOk, codes};
ghost use Rattle.toml.specs.View.{table_view, view};
ghost use Rattle.policy_toml.specs.Walks.{over_members};
ghost use Rattle.sources_policy.specs.SourcesFile.{ignored_in, ignored_at_top, ignored_but, ignored_of_source, ignored_of_pool, ignored_of_entrant};

use kumo_base::Memory;
use policy_fault::{Ignored, PolicyFile, joined};
use policy_toml::{note_ignored, table_at};
use std::alloc::Global;
use toml::{Table, Value};

/// The keys of the document, of its sources and of its pools' entrants that have no effect, in this order.
#[tactic(auto, unfolding(crate::specs::SourcesFile::ignored_in))]
pub(crate) fn ignored_in(alloc: Global, document: &Table) -> Result<Vec<Ignored>, Memory>
    ensures { IfOk result (λ keys. keys.items ≡ ignored_in (table_view document.now)) }
{
    let mut ignored = Vec::new(alloc);
    add_top(alloc, &mut ignored, document)?;
    if let Some(sources) = table_at(document, "source") {
        add_sources(alloc, &mut ignored, sources)?;
    }
    if let Some(pools) = table_at(document, "pool") {
        add_pools(alloc, &mut ignored, pools)?;
    }
    Ok(ignored)
}

/// Those of the top level.
fn add_top(alloc: Global, ignored: &mut Vec<Ignored>, document: &Table) -> Result<(), Memory>
    ensures { OnOk result (ignored.new.items ≡ ignored.old.items ++ over_members ignored_at_top (table_view document.now)) }
{
    for (key, _) in document.iter() {
        if key.as_str() != "source" && key.as_str() != "pool" {
            note_ignored(alloc, ignored, PolicyFile::Sources, "", key.as_str())?;
        }
    }
    Ok(())
}

/// Those of the sources.
fn add_sources(alloc: Global, ignored: &mut Vec<Ignored>, sources: &Table) -> Result<(), Memory>
    ensures { OnOk result (ignored.new.items ≡ ignored.old.items ++ over_members ignored_of_source (table_view sources.now)) }
{
    for (name, value) in sources.iter() {
        add_source(alloc, ignored, name.as_str(), value)?;
    }
    Ok(())
}

/// Those of a source.
#[tactic(auto, unfolding(crate::specs::SourcesFile::ignored_of_source))]
fn add_source(
    alloc: Global,
    ignored: &mut Vec<Ignored>,
    name: &str,
    value: &Value,
) -> Result<(), Memory>
    ensures { OnOk result (ignored.new.items ≡ ignored.old.items ++ ignored_of_source name.now (view value.now)) }
{
    if let Some(table) = value.as_table() {
        let place = joined(alloc, "source", name)?;
        add_others(alloc, ignored, "ehlo_domain", place.as_str(), table)?;
    }
    Ok(())
}

/// Those of the pools.
fn add_pools(alloc: Global, ignored: &mut Vec<Ignored>, pools: &Table) -> Result<(), Memory>
    ensures { OnOk result (ignored.new.items ≡ ignored.old.items ++ over_members ignored_of_pool (table_view pools.now)) }
{
    for (name, value) in pools.iter() {
        add_pool(alloc, ignored, name.as_str(), value)?;
    }
    Ok(())
}

/// Those of a pool.
#[tactic(auto, unfolding(crate::specs::SourcesFile::ignored_of_pool))]
fn add_pool(
    alloc: Global,
    ignored: &mut Vec<Ignored>,
    name: &str,
    value: &Value,
) -> Result<(), Memory>
    ensures { OnOk result (ignored.new.items ≡ ignored.old.items ++ ignored_of_pool name.now (view value.now)) }
{
    if let Some(table) = value.as_table() {
        let place = joined(alloc, "pool", name)?;
        add_entrants(alloc, ignored, place.as_str(), table)?;
    }
    Ok(())
}

/// Those of the entrants of the pool at that place.
fn add_entrants(
    alloc: Global,
    ignored: &mut Vec<Ignored>,
    place: &str,
    pool: &Table,
) -> Result<(), Memory>
    ensures { OnOk result (ignored.new.items ≡ ignored.old.items
        ++ over_members (ignored_of_entrant place.now) (table_view pool.now)) }
{
    for (source, value) in pool.iter() {
        add_entrant(alloc, ignored, place, source.as_str(), value)?;
    }
    Ok(())
}

/// Those of an entrant of the pool at that place.
#[tactic(auto, unfolding(crate::specs::SourcesFile::ignored_of_entrant))]
fn add_entrant(
    alloc: Global,
    ignored: &mut Vec<Ignored>,
    pool: &str,
    source: &str,
    value: &Value,
) -> Result<(), Memory>
    ensures { OnOk result (ignored.new.items ≡ ignored.old.items ++ ignored_of_entrant pool.now source.now (view value.now)) }
{
    if let Some(table) = value.as_table() {
        let place = joined(alloc, pool, source)?;
        add_others(alloc, ignored, "weight", place.as_str(), table)?;
    }
    Ok(())
}

/// All keys of a table but the one that has an effect.
fn add_others(
    alloc: Global,
    ignored: &mut Vec<Ignored>,
    known: &str,
    place: &str,
    table: &Table,
) -> Result<(), Memory>
    ensures { OnOk result (ignored.new.items ≡ ignored.old.items
        ++ over_members (ignored_but known.now place.now) (table_view table.now)) }
{
    for (key, _) in table.iter() {
        if key.as_str() != known {
            note_ignored(alloc, ignored, PolicyFile::Sources, place, key.as_str())?;
        }
    }
    Ok(())
}
