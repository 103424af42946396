//! The faults of a sources file.
//!
//! `read_sources` calls `faults_in` before it makes any data. Each function goes over one part of the document (sources,
//! pools, the entrants of a pool) and hands every fault to the one `FirstFault`, which keeps the first by place. After
//! `Memory` it may have seen some of them.
ghost use Rattle.std.specs.Prelude.{◌≡◌, [], IfOk, OnOk, None, codes};
ghost use Rattle.toml.specs.View.{table_view, view};
ghost use Rattle.policy_toml.specs.Places.{first_of};
ghost use Rattle.policy_toml.specs.Walks.{over_members, members_at};
ghost use Rattle.sources_policy.specs.SourcesFile.{faults_in, faults_of_source, faults_in_source, faults_at_source_key, faults_of_pool, faults_in_pool, faults_of_entrant, faults_in_entrant, faults_at_entrant_key, faults_of_name, faults_of_other, faults_if_unknown, faults_if_many, is_known_source};

use crate::values::{ehlo_at, has_many_entrants, weight_at};
use kumo_base::Memory;
use policy_core::{UNSPECIFIED, is_source_name};
use policy_fault::{Why, joined};
use policy_toml::{FirstFault, WHOLE_TABLE, is_table, table_at};
use std::alloc::Global;
use toml::{Table, Value};

/// The first fault of the document.
#[tactic(auto, using(policy_toml::proofs::Faults::first_of_append), unfolding(crate::specs::SourcesFile::faults_in))]
pub(crate) fn faults_in(alloc: Global, document: &Table) -> Result<FirstFault, Memory>
    ensures { IfOk result (λ faults. faults ≡ first_of None (faults_in (table_view document.now))) }
{
    let mut faults = FirstFault::new();
    faults.note_unless_table(alloc, document, "source")?;
    faults.note_unless_table(alloc, document, "pool")?;
    if let Some(sources) = table_at(document, "source") {
        note_sources(alloc, &mut faults, sources)?;
    }
    if let Some(pools) = table_at(document, "pool") {
        note_pools(alloc, &mut faults, document, pools)?;
    }
    Ok(faults)
}

/// The sources.
#[tactic(auto, using(policy_toml::proofs::Faults::first_of_append))]
fn note_sources(alloc: Global, faults: &mut FirstFault, sources: &Table) -> Result<(), Memory>
    ensures { OnOk result (faults.new ≡ first_of faults.old (over_members faults_of_source (table_view sources.now))) }
{
    for (name, value) in sources.iter() {
        note_source(alloc, faults, name.as_str(), value)?;
    }
    Ok(())
}

/// A source.
#[tactic(auto, using(policy_toml::proofs::Faults::first_of_append), unfolding(crate::specs::SourcesFile::faults_of_source))]
fn note_source(
    alloc: Global,
    faults: &mut FirstFault,
    name: &str,
    value: &Value,
) -> Result<(), Memory>
    ensures { OnOk result (faults.new ≡ first_of faults.old (faults_of_source name.now (view value.now))) }
{
    let Some(table) = value.as_table() else {
        faults.note(alloc, "source", name, Why::BadType)?;
        return Ok(());
    };
    let place = joined(alloc, "source", name)?;
    note_name(alloc, faults, place.as_str(), name)?;
    note_source_keys(alloc, faults, place.as_str(), table)?;
    Ok(())
}

/// The values in the table of a source.
fn note_source_keys(
    alloc: Global,
    faults: &mut FirstFault,
    place: &str,
    source: &Table,
) -> Result<(), Memory>
    ensures { OnOk result (faults.new ≡ first_of faults.old
        (over_members (faults_at_source_key place.now) (table_view source.now))) }
{
    for (key, value) in source.iter() {
        note_source_key(alloc, faults, place, key.as_str(), value)?;
    }
    Ok(())
}

/// A value in the table of a source.
fn note_source_key(
    alloc: Global,
    faults: &mut FirstFault,
    place: &str,
    key: &str,
    value: &Value,
) -> Result<(), Memory>
    ensures { OnOk result (faults.new ≡ first_of faults.old (faults_at_source_key place.now key.now (view value.now))) }
{
    if key != "ehlo_domain" {
        return note_other(alloc, faults, place, key, value);
    }
    if let Err(why) = ehlo_at(value) {
        faults.note(alloc, place, key, why)?;
    }
    Ok(())
}

/// The name of a table.
fn note_name(alloc: Global, faults: &mut FirstFault, place: &str, name: &str) -> Result<(), Memory>
    ensures { OnOk result (faults.new ≡ first_of faults.old (faults_of_name place.now name.now)) }
{
    if !is_source_name(name) {
        faults.note(alloc, place, WHOLE_TABLE, Why::BadName)?;
    }
    Ok(())
}

/// A key without a meaning of its own.
fn note_other(
    alloc: Global,
    faults: &mut FirstFault,
    place: &str,
    key: &str,
    value: &Value,
) -> Result<(), Memory>
    ensures { OnOk result (faults.new ≡ first_of faults.old (faults_of_other place.now key.now (view value.now))) }
{
    if is_table(value) {
        faults.note(alloc, place, key, Why::BadType)?;
    }
    Ok(())
}

/// The pools.
#[tactic(auto, using(policy_toml::proofs::Faults::first_of_append))]
fn note_pools(
    alloc: Global,
    faults: &mut FirstFault,
    document: &Table,
    pools: &Table,
) -> Result<(), Memory>
    ensures { OnOk result (faults.new ≡ first_of faults.old
        (over_members (faults_of_pool (members_at (codes "source") (table_view document.now))) (table_view pools.now))) }
{
    for (name, value) in pools.iter() {
        note_pool(alloc, faults, document, name.as_str(), value)?;
    }
    Ok(())
}

/// A pool.
#[tactic(auto, using(policy_toml::proofs::Faults::first_of_append), unfolding(crate::specs::SourcesFile::faults_of_pool))]
fn note_pool(
    alloc: Global,
    faults: &mut FirstFault,
    document: &Table,
    name: &str,
    value: &Value,
) -> Result<(), Memory>
    ensures { OnOk result (faults.new ≡ first_of faults.old
        (faults_of_pool (members_at (codes "source") (table_view document.now)) name.now (view value.now))) }
{
    let Some(table) = value.as_table() else {
        faults.note(alloc, "pool", name, Why::BadType)?;
        return Ok(());
    };
    let place = joined(alloc, "pool", name)?;
    note_name(alloc, faults, place.as_str(), name)?;
    note_if_many(alloc, faults, place.as_str(), table)?;
    note_entrants(alloc, faults, document, place.as_str(), table)?;
    Ok(())
}

/// The number of entrants of a pool.
fn note_if_many(
    alloc: Global,
    faults: &mut FirstFault,
    place: &str,
    pool: &Table,
) -> Result<(), Memory>
    ensures { OnOk result (faults.new ≡ first_of faults.old (faults_if_many place.now (table_view pool.now))) }
{
    if has_many_entrants(pool) {
        faults.note(alloc, place, WHOLE_TABLE, Why::TooMany)?;
    }
    Ok(())
}

/// The entrants of the pool at that place.
#[tactic(auto, using(policy_toml::proofs::Faults::first_of_append))]
fn note_entrants(
    alloc: Global,
    faults: &mut FirstFault,
    document: &Table,
    place: &str,
    pool: &Table,
) -> Result<(), Memory>
    ensures { OnOk result (faults.new ≡ first_of faults.old
        (over_members (faults_of_entrant (members_at (codes "source") (table_view document.now)) place.now)
        (table_view pool.now))) }
{
    for (source, value) in pool.iter() {
        note_entrant(alloc, faults, document, place, source.as_str(), value)?;
    }
    Ok(())
}

/// An entrant of the pool at that place.
#[tactic(auto, using(policy_toml::proofs::Faults::first_of_append), unfolding(crate::specs::SourcesFile::faults_of_entrant))]
fn note_entrant(
    alloc: Global,
    faults: &mut FirstFault,
    document: &Table,
    pool: &str,
    source: &str,
    value: &Value,
) -> Result<(), Memory>
    ensures { OnOk result (faults.new ≡ first_of faults.old
        (faults_of_entrant (members_at (codes "source") (table_view document.now)) pool.now source.now (view value.now))) }
{
    let Some(table) = value.as_table() else {
        faults.note(alloc, pool, source, Why::BadType)?;
        return Ok(());
    };
    let place = joined(alloc, pool, source)?;
    note_name(alloc, faults, place.as_str(), source)?;
    note_if_unknown(alloc, faults, document, place.as_str(), source)?;
    note_entrant_keys(alloc, faults, place.as_str(), table)?;
    Ok(())
}

/// The source that an entrant names.
fn note_if_unknown(
    alloc: Global,
    faults: &mut FirstFault,
    document: &Table,
    place: &str,
    source: &str,
) -> Result<(), Memory>
    ensures { OnOk result (faults.new ≡ first_of faults.old
        (faults_if_unknown (members_at (codes "source") (table_view document.now)) place.now source.now)) }
{
    if !is_known_source(document, source) {
        faults.note(alloc, place, WHOLE_TABLE, Why::UnknownSource)?;
    }
    Ok(())
}

/// The values in the table of an entrant.
fn note_entrant_keys(
    alloc: Global,
    faults: &mut FirstFault,
    place: &str,
    entrant: &Table,
) -> Result<(), Memory>
    ensures { OnOk result (faults.new ≡ first_of faults.old
        (over_members (faults_at_entrant_key place.now) (table_view entrant.now))) }
{
    for (key, value) in entrant.iter() {
        note_entrant_key(alloc, faults, place, key.as_str(), value)?;
    }
    Ok(())
}

/// A value in the table of an entrant.
fn note_entrant_key(
    alloc: Global,
    faults: &mut FirstFault,
    place: &str,
    key: &str,
    value: &Value,
) -> Result<(), Memory>
    ensures { OnOk result (faults.new ≡ first_of faults.old (faults_at_entrant_key place.now key.now (view value.now))) }
{
    if key != "weight" {
        return note_other(alloc, faults, place, key, value);
    }
    if let Err(why) = weight_at(value) {
        faults.note(alloc, place, key, why)?;
    }
    Ok(())
}

/// Whether the document has a table for a source, or the source is always there.
fn is_known_source(document: &Table, name: &str) -> bool
    ensures { result ≡ is_known_source (members_at (codes "source") (table_view document.now)) name.now }
{
    if name == UNSPECIFIED {
        return true;
    }
    match table_at(document, "source") {
        Some(sources) => table_at(sources, name).is_some(),
        None => false,
    }
}
