//! Which queues an order means, by the components of their names.
ghost use Rattle.std.specs.Prelude.{◌≡◌, IfOk, Some};
ghost use Rattle.queue_name.specs.Criteria.{matches, matches_component};

use crate::name::{QueueName, copy_component};
use kumo_base::{Memory, Text};
use std::alloc::Global;

/// Components that a name has to have. One that is not given may be any, or not there.
#[derive(Drop)]
pub struct Criteria {
    pub campaign: Option<Text>,
    pub tenant: Option<Text>,
    pub domain: Option<Text>,
}

impl Criteria {
    /// Whether each component that is given equals the name's.
    pub fn matches(&self, name: &QueueName) -> bool
        ensures { result ≡ matches self.now name.now }
    {
        is_met(&self.campaign, &name.campaign)
            && is_met(&self.tenant, &name.tenant)
            && is_met_by(&self.domain, &name.domain)
    }

    /// Equal criteria.
    pub fn copy(&self, alloc: Global) -> Result<Criteria, Memory>
        ensures { IfOk result (λ copy. copy ≡ self.now) }
    {
        Ok(Criteria {
            campaign: copy_component(alloc, &self.campaign)?,
            tenant: copy_component(alloc, &self.tenant)?,
            domain: copy_component(alloc, &self.domain)?,
        })
    }
}

/// Whether a component of a name is the one that is given, where one is.
fn is_met(given: &Option<Text>, found: &Option<Text>) -> bool
    ensures { result ≡ matches_component given.now found.now }
{
    match (given, found) {
        (None, _) => true,
        (Some(given), Some(found)) => given.is_same(found.as_str()),
        (Some(_), None) => false,
    }
}

/// Whether a domain is the one that is given, where one is.
fn is_met_by(given: &Option<Text>, found: &Text) -> bool
    ensures { result ≡ matches_component given.now (Some found.now) }
{
    match given {
        None => true,
        Some(given) => given.is_same(found.as_str()),
    }
}
