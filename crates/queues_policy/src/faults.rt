//! The faults of a queues file.
//!
//! `read_queues` calls `faults_in` before it makes any data. Each function goes over one part of the document (tenants,
//! domains, the tenants of a domain, their campaigns) and hands every fault to the one `FirstFault`, which keeps the first by
//! place. After `Memory` it may have seen some of them.
ghost use Rattle.std.specs.Prelude.{◌≡◌, [], Bool, IfOk, OnOk, None, codes};
ghost use Rattle.toml.specs.View.{table_view, view};
ghost use Rattle.policy_toml.specs.Places.{first_of};
ghost use Rattle.policy_toml.specs.Walks.{over_members};
ghost use Rattle.queues_policy.specs.QueuesFile.{faults_in, faults_of_tenant, faults_in_tenant, faults_of_queue, faults_in_queue, faults_in_domain_queues, faults_at_domain_key, faults_in_tenant_queues, faults_at_tenant_key, faults_in_campaign, faults_at_plain_key, faults_of_setting, faults_of_name};

use crate::values::{QueueTables, interval_at, is_default, is_setting};
use kumo_base::Memory;
use policy_fault::{Why, joined};
use policy_toml::{FirstFault, WHOLE_TABLE, duration_at, note_twice, table_at, text_at};
use queue_name::{is_campaign_of_some_name, is_domain_of_some_name, is_tenant_of_some_name};
use std::alloc::Global;
use toml::{Table, Value};

/// The first fault of the document.
#[tactic(auto, using(policy_toml::proofs::Faults::first_of_append), unfolding(crate::specs::QueuesFile::faults_in))]
pub(crate) fn faults_in(alloc: Global, document: &Table) -> Result<FirstFault, Memory>
    ensures { IfOk result (λ faults. faults ≡ first_of None (faults_in (table_view document.now))) }
{
    let mut faults = FirstFault::new();
    faults.note_unless_table(alloc, document, "tenant")?;
    faults.note_unless_table(alloc, document, "queue")?;
    if let Some(tenants) = table_at(document, "tenant") {
        note_tenants(alloc, &mut faults, tenants)?;
    }
    if let Some(queues) = table_at(document, "queue") {
        note_queues(alloc, &mut faults, queues)?;
        note_twice::<QueueTables>(alloc, &mut faults, "queue", queues)?;
    }
    Ok(faults)
}

/// The tables of tenants.
#[tactic(auto, using(policy_toml::proofs::Faults::first_of_append))]
fn note_tenants(alloc: Global, faults: &mut FirstFault, tenants: &Table) -> Result<(), Memory>
    ensures { OnOk result (faults.new ≡ first_of faults.old (over_members faults_of_tenant (table_view tenants.now))) }
{
    for (name, value) in tenants.iter() {
        note_tenant(alloc, faults, name.as_str(), value)?;
    }
    Ok(())
}

/// The table of a tenant.
#[tactic(auto, using(policy_toml::proofs::Faults::first_of_append), unfolding(crate::specs::QueuesFile::faults_of_tenant))]
fn note_tenant(
    alloc: Global,
    faults: &mut FirstFault,
    name: &str,
    value: &Value,
) -> Result<(), Memory>
    ensures { OnOk result (faults.new ≡ first_of faults.old (faults_of_tenant name.now (view value.now))) }
{
    let Some(table) = value.as_table() else {
        faults.note(alloc, "tenant", name, Why::BadType)?;
        return Ok(());
    };
    let place = joined(alloc, "tenant", name)?;
    note_name(alloc, faults, place.as_str(), is_tenant_of_some_name(name))?;
    note_plain_keys(alloc, faults, place.as_str(), table)?;
    Ok(())
}

/// The name of the table at that place, by whether it may stand.
fn note_name(
    alloc: Global,
    faults: &mut FirstFault,
    place: &str,
    is_good: bool,
) -> Result<(), Memory>
    ensures { OnOk result (faults.new ≡ first_of faults.old (faults_of_name is_good place.now)) }
{
    if !is_good {
        faults.note(alloc, place, WHOLE_TABLE, Why::BadName)?;
    }
    Ok(())
}

/// The values of a table of which the settings alone have an effect.
#[tactic(auto, using(policy_toml::proofs::Faults::first_of_append))]
fn note_plain_keys(
    alloc: Global,
    faults: &mut FirstFault,
    place: &str,
    table: &Table,
) -> Result<(), Memory>
    ensures { OnOk result (faults.new ≡ first_of faults.old
        (over_members (faults_at_plain_key place.now) (table_view table.now))) }
{
    for (key, value) in table.iter() {
        note_plain_key(alloc, faults, place, key.as_str(), value)?;
    }
    Ok(())
}

/// A value of such a table.
#[tactic(auto, unfolding(crate::specs::QueuesFile::faults_at_plain_key))]
fn note_plain_key(
    alloc: Global,
    faults: &mut FirstFault,
    place: &str,
    key: &str,
    value: &Value,
) -> Result<(), Memory>
    ensures { OnOk result (faults.new ≡ first_of faults.old (faults_at_plain_key place.now key.now (view value.now))) }
{
    if is_setting(key) {
        note_setting(alloc, faults, place, key, value)?;
    }
    Ok(())
}

/// A setting.
#[tactic(auto, unfolding(crate::specs::QueuesFile::faults_of_setting))]
fn note_setting(
    alloc: Global,
    faults: &mut FirstFault,
    place: &str,
    key: &str,
    value: &Value,
) -> Result<(), Memory>
    ensures { OnOk result (faults.new ≡ first_of faults.old (faults_of_setting place.now key.now (view value.now))) }
{
    if key == "egress_pool" {
        if let Err(why) = text_at(value) {
            faults.note(alloc, place, key, why)?;
        }
        return Ok(());
    }
    let duration = if key == "max_age" {
        duration_at(value)
    } else {
        interval_at(value)
    };
    if let Err(why) = duration {
        faults.note(alloc, place, key, why)?;
    }
    Ok(())
}

/// The members of the table `queue`.
#[tactic(auto, using(policy_toml::proofs::Faults::first_of_append))]
fn note_queues(alloc: Global, faults: &mut FirstFault, queues: &Table) -> Result<(), Memory>
    ensures { OnOk result (faults.new ≡ first_of faults.old (over_members faults_of_queue (table_view queues.now))) }
{
    for (key, value) in queues.iter() {
        note_queue(alloc, faults, key.as_str(), value)?;
    }
    Ok(())
}

/// A member of the table `queue`.
#[tactic(auto, unfolding(crate::specs::QueuesFile::faults_of_queue))]
fn note_queue(
    alloc: Global,
    faults: &mut FirstFault,
    key: &str,
    value: &Value,
) -> Result<(), Memory>
    ensures { OnOk result (faults.new ≡ first_of faults.old (faults_of_queue key.now (view value.now))) }
{
    let Some(table) = value.as_table() else {
        faults.note(alloc, "queue", key, Why::BadType)?;
        return Ok(());
    };
    let place = joined(alloc, "queue", key)?;
    if is_default(key) {
        note_plain_keys(alloc, faults, place.as_str(), table)?;
    } else {
        note_domain_queues(alloc, faults, place.as_str(), key, table)?;
    }
    Ok(())
}

/// The table of a domain.
#[tactic(auto, using(policy_toml::proofs::Faults::first_of_append), unfolding(crate::specs::QueuesFile::faults_in_domain_queues))]
fn note_domain_queues(
    alloc: Global,
    faults: &mut FirstFault,
    place: &str,
    key: &str,
    table: &Table,
) -> Result<(), Memory>
    ensures { OnOk result (faults.new ≡ first_of faults.old
        (faults_in_domain_queues place.now key.now (table_view table.now))) }
{
    let domain = key.to_ascii_lowercase(alloc)?;
    note_name(
        alloc,
        faults,
        place,
        is_domain_of_some_name(domain.as_str()),
    )?;
    note_domain_keys(alloc, faults, place, table)?;
    Ok(())
}

/// The values in the table of a domain.
#[tactic(auto, using(policy_toml::proofs::Faults::first_of_append))]
fn note_domain_keys(
    alloc: Global,
    faults: &mut FirstFault,
    place: &str,
    domain: &Table,
) -> Result<(), Memory>
    ensures { OnOk result (faults.new ≡ first_of faults.old
        (over_members (faults_at_domain_key place.now) (table_view domain.now))) }
{
    for (key, value) in domain.iter() {
        note_domain_key(alloc, faults, place, key.as_str(), value)?;
    }
    Ok(())
}

/// A value in the table of a domain: a setting, or the table of a tenant.
#[tactic(auto, unfolding(crate::specs::QueuesFile::faults_at_domain_key))]
fn note_domain_key(
    alloc: Global,
    faults: &mut FirstFault,
    place: &str,
    key: &str,
    value: &Value,
) -> Result<(), Memory>
    ensures { OnOk result (faults.new ≡ first_of faults.old (faults_at_domain_key place.now key.now (view value.now))) }
{
    if is_setting(key) {
        note_setting(alloc, faults, place, key, value)?;
    } else if let Some(table) = value.as_table() {
        let inner = joined(alloc, place, key)?;
        note_tenant_queues(alloc, faults, inner.as_str(), key, table)?;
    }
    Ok(())
}

/// The table of a tenant within a domain.
#[tactic(auto, using(policy_toml::proofs::Faults::first_of_append), unfolding(crate::specs::QueuesFile::faults_in_tenant_queues))]
fn note_tenant_queues(
    alloc: Global,
    faults: &mut FirstFault,
    place: &str,
    tenant: &str,
    table: &Table,
) -> Result<(), Memory>
    ensures { OnOk result (faults.new ≡ first_of faults.old
        (faults_in_tenant_queues place.now tenant.now (table_view table.now))) }
{
    note_name(alloc, faults, place, is_tenant_of_some_name(tenant))?;
    note_tenant_keys(alloc, faults, place, table)?;
    Ok(())
}

/// The values in the table of a tenant within a domain.
#[tactic(auto, using(policy_toml::proofs::Faults::first_of_append))]
fn note_tenant_keys(
    alloc: Global,
    faults: &mut FirstFault,
    place: &str,
    tenant: &Table,
) -> Result<(), Memory>
    ensures { OnOk result (faults.new ≡ first_of faults.old
        (over_members (faults_at_tenant_key place.now) (table_view tenant.now))) }
{
    for (key, value) in tenant.iter() {
        note_tenant_key(alloc, faults, place, key.as_str(), value)?;
    }
    Ok(())
}

/// A value in the table of a tenant within a domain: a setting, or the table of a campaign.
#[tactic(auto, unfolding(crate::specs::QueuesFile::faults_at_tenant_key))]
fn note_tenant_key(
    alloc: Global,
    faults: &mut FirstFault,
    place: &str,
    key: &str,
    value: &Value,
) -> Result<(), Memory>
    ensures { OnOk result (faults.new ≡ first_of faults.old (faults_at_tenant_key place.now key.now (view value.now))) }
{
    if is_setting(key) {
        note_setting(alloc, faults, place, key, value)?;
    } else if let Some(table) = value.as_table() {
        let inner = joined(alloc, place, key)?;
        note_campaign(alloc, faults, inner.as_str(), key, table)?;
    }
    Ok(())
}

/// The table of a campaign.
#[tactic(auto, using(policy_toml::proofs::Faults::first_of_append), unfolding(crate::specs::QueuesFile::faults_in_campaign))]
fn note_campaign(
    alloc: Global,
    faults: &mut FirstFault,
    place: &str,
    campaign: &str,
    table: &Table,
) -> Result<(), Memory>
    ensures { OnOk result (faults.new ≡ first_of faults.old
        (faults_in_campaign place.now campaign.now (table_view table.now))) }
{
    note_name(alloc, faults, place, is_campaign_of_some_name(campaign))?;
    note_plain_keys(alloc, faults, place, table)?;
    Ok(())
}
