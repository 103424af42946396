//! The shaping tables of domains, in one pass: which domains share their sites, and which tables are of a site's domains.
ghost use Rattle.std.specs.Prelude.{◌≡◌, ◌++◌, ℕ, List, None, IfOk, OnOk, map};
ghost use Rattle.std.specs.BTreeMap.{get_by_text};
ghost use Rattle.std.specs.List.{filter};
ghost use Rattle.policy_core.specs.Site.{is_at_site, rollup_of, domain_shape};
ghost use Rattle.policy_core.specs.PathTables.{firsts};
ghost use Rattle.shaping_merge.specs.inside.Rollups.{AreRollups, with_shape, kept_shape};

use crate::domains::is_at;
use crate::rollups::add_rollup;
use kumo_base::Memory;
use policy_core::{DomainShape, Policy, Site};
use std::alloc::Global;
use std::collections::BTreeMap;

/// What one pass over the tables of domains finds. Of tables of the same domain the first counts.
#[derive(Drop)]
pub(crate) struct Shapes<'p> {
    /// Of each domain for which there is a table, whether it shares its site with others of the same hosts.
    pub(crate) rollups: BTreeMap<String, bool>,
    /// The tables of those domains that are at the site, in the policy's order.
    pub(crate) at_site: Vec<&'p DomainShape>,
}

/// The tables of a policy's domains, as they are for a site.
pub(crate) fn shapes_of<'p>(
    alloc: Global,
    policy: &'p Policy,
    site: &Site,
) -> Result<Shapes<'p>, Memory>
    ensures rollups { IfOk result (λ shapes. AreRollups shapes.rollups policy.now.shaping.domains) }
    ensures at_site { IfOk result (λ shapes. map (λ shape. shape.now) shapes.at_site.items
        ≡ filter (λ d. is_at_site policy.now site.now d.domain) (firsts (λ d. d.domain) policy.now.shaping.domains)) }
{
    let mut rollups = BTreeMap::new(alloc);
    let mut at_site = Vec::new(alloc);
    for shape in policy.shaping.domains.as_slice() {
        add_shape(alloc, policy, site, &mut rollups, &mut at_site, shape)?;
    }
    Ok(Shapes { rollups, at_site })
}

/// Adds a table, unless there was one of the same domain.
fn add_shape<'p>(
    alloc: Global,
    policy: &Policy,
    site: &Site,
    rollups: &mut BTreeMap<String, bool>,
    at_site: &mut Vec<&'p DomainShape>,
    shape: &'p DomainShape,
) -> Result<(), Memory>
    requires { get_by_text rollups.old shape.now.domain ≡ None → shape.now.rollup
        ≡ rollup_of (domain_shape policy.now.shaping shape.now.domain) }
    ensures rollups { OnOk result ((name : List ℕ) → get_by_text rollups.new name
        ≡ with_shape (get_by_text rollups.old name) shape.now name) }
    ensures at_site { OnOk result (map (λ shape. shape.now) at_site.new.items
        ≡ map (λ shape. shape.now) at_site.old.items ++ kept_shape policy.now site.now
        (get_by_text rollups.old shape.now.domain) shape.now) }
{
    let domain = shape.domain.as_str();
    if add_rollup(alloc, rollups, shape)? && is_at(policy, shape.rollup, site, domain) {
        at_site.push(shape)?;
    }
    Ok(())
}
