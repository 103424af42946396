//! The tables of a shaping file that are for a site.
ghost use Rattle.std.specs.Prelude.{◌≡◌, ◌||◌, ◌∷◌, ◌++◌, [], ℕ, List, not, bytes_eq, IfOk, OnOk, map};
ghost use Rattle.std.specs.BTreeSet.{contains_text};
ghost use Rattle.std.specs.List.{filter};
ghost use Rattle.policy_core.specs.PathTables.{is_provider_of, firsts, tables_for};
ghost use Rattle.shaping_merge.specs.inside.Domains.{AreDomainsOf};

use crate::domains::domains_of;
use crate::providers::is_provider_of;
use crate::shapes::shapes_of;
use kumo_base::Memory;
use policy_core::{DomainShape, Policy, Provider, ShapeTable, Site};
use std::alloc::Global;
use std::collections::BTreeSet;

/// The tables for a site, the later over the earlier: the one for all, those of its providers, those of its domains.
#[tactic(auto, unfolding(policy_core::specs::PathTables::tables_for))]
pub(crate) fn tables_for<'p>(
    alloc: Global,
    policy: &'p Policy,
    site: &'p Site,
) -> Result<Vec<&'p ShapeTable>, Memory>
    ensures { IfOk result (λ tables. map (λ table. table.now) tables.items ≡ tables_for policy.now site.now) }
{
    let shapes = shapes_of(alloc, policy, site)?;
    let domains = domains_of(alloc, policy, &shapes, site)?;
    let mut tables = Vec::new(alloc);
    tables.push(&policy.shaping.base)?;
    add_of_providers(alloc, policy, site, domains.as_slice(), &mut tables)?;
    add_of_domains(shapes.at_site.as_slice(), &mut tables)?;
    Ok(tables)
}

/// Adds the tables of the site's providers, of those of equal names the first. `domains` are those of the site.
fn add_of_providers<'p>(
    alloc: Global,
    policy: &'p Policy,
    site: &Site,
    domains: &[&str],
    tables: &mut Vec<&'p ShapeTable>,
) -> Result<(), Memory>
    requires { AreDomainsOf policy.now site.now (map (λ domain. domain.now) domains.now) }
    ensures { OnOk result (map (λ table. table.now) tables.new.items
        ≡ map (λ table. table.now) tables.old.items ++ map
        (λ p. p.table) (filter (is_provider_of policy.now site.now) (firsts (λ p. p.name) policy.now.shaping.providers))) }
{
    let mut met = BTreeSet::new(alloc);
    for provider in policy.shaping.providers.as_slice() {
        if is_new(alloc, &mut met, provider.name.as_str())? {
            add_of_provider(policy, site, domains, provider, tables)?;
        }
    }
    Ok(())
}

/// Whether a name is not among those that were met, to which it is added.
fn is_new(alloc: Global, met: &mut BTreeSet<String>, name: &str) -> Result<bool, Memory>
    ensures answer { IfOk result (λ new. new ≡ not (contains_text met.old name.now)) }
    ensures met { OnOk result ((other : List ℕ) → contains_text met.new other
        ≡ (bytes_eq name.now other || contains_text met.old other)) }
{
    let key = String::from_str(alloc, name)?;
    Ok(met.insert(key)?)
}

/// Adds a provider's table where the site is the provider's.
fn add_of_provider<'p>(
    policy: &Policy,
    site: &Site,
    domains: &[&str],
    provider: &'p Provider,
    tables: &mut Vec<&'p ShapeTable>,
) -> Result<(), Memory>
    requires { AreDomainsOf policy.now site.now (map (λ domain. domain.now) domains.now) }
    ensures { OnOk result (map (λ table. table.now) tables.new.items
        ≡ map (λ table. table.now) tables.old.items ++ map
        (λ p. p.table) (filter (is_provider_of policy.now site.now) (provider.now ∷ []))) }
{
    if is_provider_of(policy, site, domains, provider) {
        tables.push(&provider.table)?;
    }
    Ok(())
}

/// Adds the tables of domains.
fn add_of_domains<'p>(
    domains: &[&'p DomainShape],
    tables: &mut Vec<&'p ShapeTable>,
) -> Result<(), Memory>
    ensures { OnOk result (map (λ table. table.now) tables.new.items
        ≡ map (λ table. table.now) tables.old.items ++ map (λ d. d.table) (map (λ d. d.now) domains.now)) }
{
    for shape in domains {
        tables.push(&shape.table)?;
    }
    Ok(())
}
