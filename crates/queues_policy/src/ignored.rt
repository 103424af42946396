//! The keys of a queues file that have no effect.
//!
//! `read_queues` calls `ignored_in` where the document has no fault. Each function adds the keys of one part to the list, in
//! the order of the document; `check` sorts them later. The one refusal is `Memory`.
ghost use Rattle.std.specs.Prelude.{◌≡◌, ◌++◌, IfOk, OnOk};
ghost use Rattle.toml.specs.View.{table_view, view};
ghost use Rattle.policy_toml.specs.Walks.{over_members};
ghost use Rattle.queues_policy.specs.QueuesFile.{ignored_in, ignored_at_top, ignored_of_tenant, ignored_of_queue, ignored_at_domain_key, ignored_at_tenant_key, ignored_at_plain_key};

use crate::values::{is_default, is_setting};
use kumo_base::Memory;
use policy_fault::{Ignored, PolicyFile, joined};
use policy_toml::{note_ignored, table_at};
use std::alloc::Global;
use toml::{Table, Value};

/// The keys without effect of the document, of its tenants and of its queues, in this order.
#[tactic(auto, unfolding(crate::specs::QueuesFile::ignored_in))]
pub(crate) fn ignored_in(alloc: Global, document: &Table) -> Result<Vec<Ignored>, Memory>
    ensures { IfOk result (λ keys. keys.items ≡ ignored_in (table_view document.now)) }
{
    let mut ignored = Vec::new(alloc);
    add_top(alloc, &mut ignored, document)?;
    if let Some(tenants) = table_at(document, "tenant") {
        add_tenants(alloc, &mut ignored, tenants)?;
    }
    if let Some(queues) = table_at(document, "queue") {
        add_queues(alloc, &mut ignored, queues)?;
    }
    Ok(ignored)
}

/// Those of the top level.
fn add_top(alloc: Global, ignored: &mut Vec<Ignored>, document: &Table) -> Result<(), Memory>
    ensures { OnOk result (ignored.new.items ≡ ignored.old.items ++ over_members ignored_at_top (table_view document.now)) }
{
    for (key, _) in document.iter() {
        if key.as_str() != "tenant" && key.as_str() != "queue" {
            note_ignored(alloc, ignored, PolicyFile::Queues, "", key.as_str())?;
        }
    }
    Ok(())
}

/// Those of the tables of tenants.
fn add_tenants(alloc: Global, ignored: &mut Vec<Ignored>, tenants: &Table) -> Result<(), Memory>
    ensures { OnOk result (ignored.new.items ≡ ignored.old.items ++ over_members ignored_of_tenant (table_view tenants.now)) }
{
    for (name, value) in tenants.iter() {
        add_tenant(alloc, ignored, name.as_str(), value)?;
    }
    Ok(())
}

/// Those of the table of a tenant.
#[tactic(auto, unfolding(crate::specs::QueuesFile::ignored_of_tenant))]
fn add_tenant(
    alloc: Global,
    ignored: &mut Vec<Ignored>,
    name: &str,
    value: &Value,
) -> Result<(), Memory>
    ensures { OnOk result (ignored.new.items ≡ ignored.old.items ++ ignored_of_tenant name.now (view value.now)) }
{
    if let Some(table) = value.as_table() {
        let place = joined(alloc, "tenant", name)?;
        add_plain(alloc, ignored, place.as_str(), table)?;
    }
    Ok(())
}

/// Those of a table of which the settings alone have an effect.
fn add_plain(
    alloc: Global,
    ignored: &mut Vec<Ignored>,
    place: &str,
    table: &Table,
) -> Result<(), Memory>
    ensures { OnOk result (ignored.new.items ≡ ignored.old.items
        ++ over_members (ignored_at_plain_key place.now) (table_view table.now)) }
{
    for (key, _) in table.iter() {
        if !is_setting(key.as_str()) {
            note_ignored(alloc, ignored, PolicyFile::Queues, place, key.as_str())?;
        }
    }
    Ok(())
}

/// Those of the members of the table `queue`.
fn add_queues(alloc: Global, ignored: &mut Vec<Ignored>, queues: &Table) -> Result<(), Memory>
    ensures { OnOk result (ignored.new.items ≡ ignored.old.items ++ over_members ignored_of_queue (table_view queues.now)) }
{
    for (key, value) in queues.iter() {
        add_queue(alloc, ignored, key.as_str(), value)?;
    }
    Ok(())
}

/// Those of a member of the table `queue`.
#[tactic(auto, unfolding(crate::specs::QueuesFile::ignored_of_queue))]
fn add_queue(
    alloc: Global,
    ignored: &mut Vec<Ignored>,
    key: &str,
    value: &Value,
) -> Result<(), Memory>
    ensures { OnOk result (ignored.new.items ≡ ignored.old.items ++ ignored_of_queue key.now (view value.now)) }
{
    let Some(table) = value.as_table() else {
        return Ok(());
    };
    let place = joined(alloc, "queue", key)?;
    if is_default(key) {
        add_plain(alloc, ignored, place.as_str(), table)?;
    } else {
        add_domain(alloc, ignored, place.as_str(), table)?;
    }
    Ok(())
}

/// Those of the table of a domain.
fn add_domain(
    alloc: Global,
    ignored: &mut Vec<Ignored>,
    place: &str,
    domain: &Table,
) -> Result<(), Memory>
    ensures { OnOk result (ignored.new.items ≡ ignored.old.items
        ++ over_members (ignored_at_domain_key place.now) (table_view domain.now)) }
{
    for (key, value) in domain.iter() {
        add_domain_key(alloc, ignored, place, key.as_str(), value)?;
    }
    Ok(())
}

/// Those at a key of a domain's table, which may be that of a tenant.
#[tactic(auto, unfolding(crate::specs::QueuesFile::ignored_at_domain_key))]
fn add_domain_key(
    alloc: Global,
    ignored: &mut Vec<Ignored>,
    place: &str,
    key: &str,
    value: &Value,
) -> Result<(), Memory>
    ensures { OnOk result (ignored.new.items ≡ ignored.old.items ++ ignored_at_domain_key place.now key.now (view value.now)) }
{
    if is_setting(key) {
        return Ok(());
    }
    let Some(table) = value.as_table() else {
        note_ignored(alloc, ignored, PolicyFile::Queues, place, key)?;
        return Ok(());
    };
    let inner = joined(alloc, place, key)?;
    add_tenant_queues(alloc, ignored, inner.as_str(), table)?;
    Ok(())
}

/// Those of the table of a tenant within a domain.
fn add_tenant_queues(
    alloc: Global,
    ignored: &mut Vec<Ignored>,
    place: &str,
    tenant: &Table,
) -> Result<(), Memory>
    ensures { OnOk result (ignored.new.items ≡ ignored.old.items
        ++ over_members (ignored_at_tenant_key place.now) (table_view tenant.now)) }
{
    for (key, value) in tenant.iter() {
        add_tenant_key(alloc, ignored, place, key.as_str(), value)?;
    }
    Ok(())
}

/// Those at a key of such a table, which may be that of a campaign.
#[tactic(auto, unfolding(crate::specs::QueuesFile::ignored_at_tenant_key))]
fn add_tenant_key(
    alloc: Global,
    ignored: &mut Vec<Ignored>,
    place: &str,
    key: &str,
    value: &Value,
) -> Result<(), Memory>
    ensures { OnOk result (ignored.new.items ≡ ignored.old.items ++ ignored_at_tenant_key place.now key.now (view value.now)) }
{
    if is_setting(key) {
        return Ok(());
    }
    let Some(table) = value.as_table() else {
        note_ignored(alloc, ignored, PolicyFile::Queues, place, key)?;
        return Ok(());
    };
    let inner = joined(alloc, place, key)?;
    add_plain(alloc, ignored, inner.as_str(), table)?;
    Ok(())
}
