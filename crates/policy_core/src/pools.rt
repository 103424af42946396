//! Whether the pools are there that the layers of queues name.
//!
//! `Policy::assemble` asks once, when the parts are put together. The walk over all layers keeps one name: of the tables that
//! name a pool which is not there, the first in byte order. The one refusal is `Memory`.
ghost use Rattle.std.specs.Prelude.{◌≡◌, ◌∷◌, ℕ, List, [], Option, Some, map, codes, OnOk, IfOk};
ghost use Rattle.std.specs.List.{flat_map};
ghost use Rattle.policy_fault.specs.TableNames.{joined};
ghost use Rattle.policy_core.specs.Policy.{has_pool, lacks_pool, earlier_text, layer_in_place, layers_of_tenant, layers_of_domain, unknown_pool};
ghost use Rattle.policy_core.specs.inside.PoolCheck.{name_above, layer_at, with_layers};

use crate::queues::{DomainQueues, NamedLayer, Queues, TenantQueues};
use crate::settings::Layer;
use crate::sources::Sources;
use kumo_base::{Memory, Text};
use policy_fault::joined;
use std::alloc::Global;

/// The table within which the table of a layer stands.
#[derive(Clone, Copy)]
enum Above<'q> {
    /// `tenant`
    Tenants,
    /// `queue`
    Queues,
    /// `queue.DOMAIN`
    Domain(&'q str),
    /// `queue.DOMAIN.TENANT`
    Tenant { domain: &'q str, tenant: &'q str },
}

/// A walk over layers, to which they are added one after another.
#[derive(Drop)]
struct PoolCheck<'s> {
    sources: &'s Sources,
    /// Of the tables met so far that name a pool that is not there, the first in byte order.
    unknown: Option<Text>,
}

/// The first in byte order of the tables that name a pool that is not there.
pub(crate) fn unknown_pool(
    alloc: Global,
    sources: &Sources,
    queues: &Queues,
) -> Result<Option<Text>, Memory>
    ensures { IfOk result (λ table. table ≡ unknown_pool sources.now queues.now) }
{
    let mut check = PoolCheck {
        sources,
        unknown: None,
    };
    check.add_layer(alloc, Above::Queues, "default", &queues.base)?;
    check.add_named_layers(alloc, Above::Tenants, queues.tenants.as_slice())?;
    check.add_domains(alloc, queues.domains.as_slice())?;
    Ok(check.unknown)
}

impl<'q> Above<'q> {
    /// The name of a table that stands there.
    fn name_of(self, alloc: Global, table: &str) -> Result<Text, Memory>
        ensures { IfOk result (λ name. name ≡ joined (name_above self.entry) table.now) }
    {
        let above = self.name(alloc)?;
        joined(alloc, above.as_str(), table)
    }

    /// Its own name.
    fn name(self, alloc: Global) -> Result<Text, Memory>
        ensures { IfOk result (λ name. name ≡ name_above self.entry) }
    {
        match self {
            Above::Tenants => Text::of(alloc, "tenant"),
            Above::Queues => Text::of(alloc, "queue"),
            Above::Domain(domain) => joined(alloc, "queue", domain),
            Above::Tenant { domain, tenant } => {
                let above = joined(alloc, "queue", domain)?;
                joined(alloc, above.as_str(), tenant)
            }
        }
    }
}

impl<'s> PoolCheck<'s> {
    /// Adds the layer of a table.
    #[tactic(auto, unfolding(crate::specs::inside::PoolCheck::with_layers))]
    fn add_layer(
        &mut self,
        alloc: Global,
        above: Above,
        table: &str,
        layer: &Layer,
    ) -> Result<(), Memory>
        ensures { OnOk result (self.new ≡ with_layers self.old (layer_at above.entry table.now layer.now ∷ [])) }
    {
        if lacks_pool(self.sources, &layer.pool) {
            note(&mut self.unknown, above.name_of(alloc, table)?);
        }
        Ok(())
    }

    /// Adds the layers of tenants, or of a tenant's campaigns.
    fn add_named_layers(
        &mut self,
        alloc: Global,
        above: Above,
        layers: &[NamedLayer],
    ) -> Result<(), Memory>
        ensures { OnOk result (self.new ≡ with_layers self.old (map (layer_in_place (name_above above.entry)) layers.now)) }
    {
        for layer in layers {
            self.add_layer(alloc, above, layer.name.as_str(), &layer.layer)?;
        }
        Ok(())
    }

    /// Adds the layers of domains, with all within.
    fn add_domains(&mut self, alloc: Global, domains: &[DomainQueues]) -> Result<(), Memory>
        ensures { OnOk result (self.new ≡ with_layers self.old (flat_map layers_of_domain domains.now)) }
    {
        for domain in domains {
            self.add_domain(alloc, domain)?;
        }
        Ok(())
    }

    /// Adds the layers of a domain, with all within.
    fn add_domain(&mut self, alloc: Global, domain: &DomainQueues) -> Result<(), Memory>
        ensures { OnOk result (self.new ≡ with_layers self.old (layers_of_domain domain.now)) }
    {
        let name = domain.domain.as_str();
        self.add_layer(alloc, Above::Queues, name, &domain.base)?;
        self.add_tenants(alloc, name, domain.tenants.as_slice())?;
        Ok(())
    }

    /// Adds the layers of the tenants within a domain.
    fn add_tenants(
        &mut self,
        alloc: Global,
        domain: &str,
        tenants: &[TenantQueues],
    ) -> Result<(), Memory>
        ensures { OnOk result (self.new ≡ with_layers self.old
            (flat_map (layers_of_tenant (joined (codes "queue") domain.now)) tenants.now)) }
    {
        for tenant in tenants {
            self.add_tenant(alloc, domain, tenant)?;
        }
        Ok(())
    }

    /// Adds the layers of a tenant within a domain.
    fn add_tenant(
        &mut self,
        alloc: Global,
        domain: &str,
        queues: &TenantQueues,
    ) -> Result<(), Memory>
        ensures { OnOk result (self.new ≡ with_layers self.old
            (layers_of_tenant (joined (codes "queue") domain.now) queues.now)) }
    {
        let tenant = queues.tenant.as_str();
        self.add_layer(alloc, Above::Domain(domain), tenant, &queues.base)?;
        let above = Above::Tenant { domain, tenant };
        self.add_named_layers(alloc, above, queues.campaigns.as_slice())?;
        Ok(())
    }
}

/// Keeps of two tables the first in byte order.
fn note(first: &mut Option<Text>, table: Text)
    ensures { first.new ≡ Some (earlier_text first.old table) }
{
    if let Some(best) = first {
        if table.as_str() >= best.as_str() {
            return;
        }
    }
    *first = Some(table);
}

/// Whether a pool is named and is not there.
fn lacks_pool(sources: &Sources, pool: &Option<Text>) -> bool
    ensures { result ≡ lacks_pool sources.now pool.now }
{
    match pool {
        Some(pool) => !has_pool(sources, pool.as_str()),
        None => false,
    }
}

/// Whether there is a pool of that name.
pub(crate) fn has_pool(sources: &Sources, name: &str) -> bool
    ensures { result ≡ has_pool sources.now name.now }
{
    sources
        .pools
        .as_slice()
        .iter()
        .any(|pool| pool.name.is_same(name))
}
