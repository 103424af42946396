//! The settings of all queues, in layers by tenant, domain and campaign.
//!
//! The reader of a queues file makes these lists, and `settings_for` looks a name's layers up in them. They are plain data: a
//! hand-made list may have a name twice, and then the first counts. Copies are equal; the one refusal is `Memory`.
ghost use Rattle.std.specs.Prelude.{◌≡◌, IfOk};

use crate::copying::{TryCopy, copy_items};
use crate::settings::Layer;
use kumo_base::{Items, Memory, Text};
use std::alloc::Global;

/// A layer with the tenant or the campaign that it is for.
#[derive(Drop)]
pub struct NamedLayer {
    pub name: Text,
    pub layer: Layer,
}

/// The layers of a tenant within a domain.
#[derive(Drop)]
pub struct TenantQueues {
    pub tenant: Text,
    /// For the tenant's messages to the domain.
    pub base: Layer,
    /// For those of one campaign, over `base`.
    pub campaigns: Items<NamedLayer>,
}

/// The layers of a domain.
#[derive(Drop)]
pub struct DomainQueues {
    /// In lower case.
    pub domain: Text,
    /// For all messages to the domain.
    pub base: Layer,
    /// For those of one tenant, over `base`.
    pub tenants: Items<TenantQueues>,
}

/// The layers of all queues. Where a reader made the lists, they are in byte order of names, each name once; in others
/// the first of equal names counts.
#[derive(Drop)]
pub struct Queues {
    /// For all messages.
    pub base: Layer,
    /// For the messages of one tenant, over `base`.
    pub tenants: Items<NamedLayer>,
    /// For the messages to one domain, over both.
    pub domains: Items<DomainQueues>,
}

impl NamedLayer {
    /// An equal layer of the same name.
    pub fn copy(&self, alloc: Global) -> Result<NamedLayer, Memory>
        ensures { IfOk result (λ copy. copy ≡ self.now) }
    {
        Ok(NamedLayer {
            name: self.name.copy(alloc)?,
            layer: self.layer.copy(alloc)?,
        })
    }
}

impl TryCopy for NamedLayer {
    fn try_copy(&self, alloc: Global) -> Result<NamedLayer, Memory> {
        self.copy(alloc)
    }
}

impl TenantQueues {
    /// Equal layers of the same tenant.
    pub fn copy(&self, alloc: Global) -> Result<TenantQueues, Memory>
        ensures { IfOk result (λ copy. copy ≡ self.now) }
    {
        Ok(TenantQueues {
            tenant: self.tenant.copy(alloc)?,
            base: self.base.copy(alloc)?,
            campaigns: copy_items(alloc, &self.campaigns)?,
        })
    }
}

impl TryCopy for TenantQueues {
    fn try_copy(&self, alloc: Global) -> Result<TenantQueues, Memory> {
        self.copy(alloc)
    }
}

impl DomainQueues {
    /// Equal layers of the same domain.
    pub fn copy(&self, alloc: Global) -> Result<DomainQueues, Memory>
        ensures { IfOk result (λ copy. copy ≡ self.now) }
    {
        Ok(DomainQueues {
            domain: self.domain.copy(alloc)?,
            base: self.base.copy(alloc)?,
            tenants: copy_items(alloc, &self.tenants)?,
        })
    }
}

impl TryCopy for DomainQueues {
    fn try_copy(&self, alloc: Global) -> Result<DomainQueues, Memory> {
        self.copy(alloc)
    }
}

impl Queues {
    /// Equal layers of all queues.
    pub fn copy(&self, alloc: Global) -> Result<Queues, Memory>
        ensures { IfOk result (λ copy. copy ≡ self.now) }
    {
        Ok(Queues {
            base: self.base.copy(alloc)?,
            tenants: copy_items(alloc, &self.tenants)?,
            domains: copy_items(alloc, &self.domains)?,
        })
    }
}
