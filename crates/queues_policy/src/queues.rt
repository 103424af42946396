//! The layers that a document without faults gives.
//!
//! `read_queues` calls `queues_in` last. Nothing is tested here a second time: what a fault would have refused is not there.
//! Domains are put in the order of their names as they come. The one refusal is `Memory`.
ghost use Rattle.std.specs.Prelude.{◌≡◌, ◌++◌, IfOk, OnOk, [], codes, option_map};
ghost use Rattle.toml.specs.View.{table_view, view};
ghost use Rattle.policy_toml.specs.Walks.{over_members, members_at};
ghost use Rattle.queues_policy.specs.QueuesFile.{queues_in, layer_of, named_layer, tenant_layer_at, with_domains, with_domain_at, domain_queues, tenant_at, tenant_queues, campaign_at, inner_table};

use crate::values::{empty_layer, is_default, is_setting, layer_of};
use kumo_base::{Items, Memory, Text};
use policy_core::{DomainQueues, Layer, NamedLayer, Queues, TenantQueues};
use policy_toml::{put_by_name, table_at};
use std::alloc::Global;
use toml::{Table, Value};

/// The layers of the document.
#[tactic(auto, unfolding(crate::specs::QueuesFile::queues_in))]
pub(crate) fn queues_in(alloc: Global, document: &Table) -> Result<Queues, Memory>
    ensures { IfOk result (λ queues. queues ≡ queues_in (table_view document.now)) }
{
    Ok(Queues {
        base: base_of(alloc, document)?,
        tenants: Items::of(all_tenants(alloc, document)?),
        domains: Items::of(all_domains(alloc, document)?),
    })
}

/// The layer for all messages.
fn base_of(alloc: Global, document: &Table) -> Result<Layer, Memory>
    ensures { IfOk result (λ layer. layer ≡ layer_of (members_at (codes "default")
        (members_at (codes "queue") (table_view document.now)))) }
{
    let Some(queues) = table_at(document, "queue") else {
        return Ok(empty_layer());
    };
    let Some(default) = table_at(queues, "default") else {
        return Ok(empty_layer());
    };
    layer_of(alloc, default)
}

/// The layers of tenants.
fn all_tenants(alloc: Global, document: &Table) -> Result<Vec<NamedLayer>, Memory>
    ensures { IfOk result (λ layers. layers.items ≡ over_members tenant_layer_at
        (members_at (codes "tenant") (table_view document.now))) }
{
    let mut layers = Vec::new(alloc);
    if let Some(tenants) = table_at(document, "tenant") {
        add_tenants(alloc, &mut layers, tenants)?;
    }
    Ok(layers)
}

fn add_tenants(alloc: Global, layers: &mut Vec<NamedLayer>, tenants: &Table) -> Result<(), Memory>
    ensures { OnOk result (layers.new.items ≡ layers.old.items ++ over_members tenant_layer_at (table_view tenants.now)) }
{
    for (name, value) in tenants.iter() {
        if let Some(table) = value.as_table() {
            layers.push(named_layer(alloc, name.as_str(), table)?)?;
        }
    }
    Ok(())
}

/// A layer with its name.
fn named_layer(alloc: Global, name: &str, table: &Table) -> Result<NamedLayer, Memory>
    ensures { IfOk result (λ layer. layer ≡ named_layer name.now (table_view table.now)) }
{
    Ok(NamedLayer {
        name: Text::of(alloc, name)?,
        layer: layer_of(alloc, table)?,
    })
}

/// The layers of domains, in the order of their names.
fn all_domains(alloc: Global, document: &Table) -> Result<Vec<DomainQueues>, Memory>
    ensures { IfOk result (λ domains. domains.items ≡ with_domains [] (members_at (codes "queue") (table_view document.now))) }
{
    let mut domains = Vec::new(alloc);
    if let Some(queues) = table_at(document, "queue") {
        put_domains(alloc, &mut domains, queues)?;
    }
    Ok(domains)
}

fn put_domains(alloc: Global, domains: &mut Vec<DomainQueues>, queues: &Table) -> Result<(), Memory>
    ensures { OnOk result (domains.new.items ≡ with_domains domains.old.items (table_view queues.now)) }
{
    for (key, value) in queues.iter() {
        put_domain_at(alloc, domains, key.as_str(), value)?;
    }
    Ok(())
}

/// The layers of a domain, if the member of the table `queue` is the table of one.
#[tactic(auto, unfolding(crate::specs::QueuesFile::with_domain_at))]
fn put_domain_at(
    alloc: Global,
    domains: &mut Vec<DomainQueues>,
    key: &str,
    value: &Value,
) -> Result<(), Memory>
    ensures { OnOk result (domains.new.items ≡ with_domain_at domains.old.items key.now (view value.now)) }
{
    if is_default(key) {
        return Ok(());
    }
    if let Some(table) = value.as_table() {
        put_by_name(domains, domain_queues(alloc, key, table)?)?;
    }
    Ok(())
}

/// The layers of a domain.
fn domain_queues(alloc: Global, key: &str, table: &Table) -> Result<DomainQueues, Memory>
    ensures { IfOk result (λ domain. domain ≡ domain_queues key.now (table_view table.now)) }
{
    Ok(DomainQueues {
        domain: Text::of_string(key.to_ascii_lowercase(alloc)?),
        base: layer_of(alloc, table)?,
        tenants: Items::of(tenants_of(alloc, table)?),
    })
}

/// The layers of the tenants within a domain.
fn tenants_of(alloc: Global, domain: &Table) -> Result<Vec<TenantQueues>, Memory>
    ensures { IfOk result (λ tenants. tenants.items ≡ over_members tenant_at (table_view domain.now)) }
{
    let mut tenants = Vec::new(alloc);
    for (key, value) in domain.iter() {
        if let Some(table) = inner_table(key.as_str(), value) {
            tenants.push(tenant_queues(alloc, key.as_str(), table)?)?;
        }
    }
    Ok(tenants)
}

/// The table at a key that is no setting.
fn inner_table<'t>(key: &str, value: &'t Value) -> Option<&'t Table>
    ensures { option_map (λ t. table_view t.now) result ≡ inner_table key.now (view value.now) }
{
    if is_setting(key) {
        None
    } else {
        value.as_table()
    }
}

/// The layers of a tenant within a domain.
fn tenant_queues(alloc: Global, name: &str, table: &Table) -> Result<TenantQueues, Memory>
    ensures { IfOk result (λ tenant. tenant ≡ tenant_queues name.now (table_view table.now)) }
{
    Ok(TenantQueues {
        tenant: Text::of(alloc, name)?,
        base: layer_of(alloc, table)?,
        campaigns: Items::of(campaigns_of(alloc, table)?),
    })
}

/// The layers of a tenant's campaigns.
fn campaigns_of(alloc: Global, tenant: &Table) -> Result<Vec<NamedLayer>, Memory>
    ensures { IfOk result (λ campaigns. campaigns.items ≡ over_members campaign_at (table_view tenant.now)) }
{
    let mut campaigns = Vec::new(alloc);
    for (key, value) in tenant.iter() {
        if let Some(table) = inner_table(key.as_str(), value) {
            campaigns.push(named_layer(alloc, key.as_str(), table)?)?;
        }
    }
    Ok(campaigns)
}
