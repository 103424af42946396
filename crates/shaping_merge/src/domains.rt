//! The domains of a site: those that share its hosts, and so its paths and limits.
//!
//! `tables.rt` asks for them, to try the suffixes of providers on. One pass goes over the MX rows, and the tables of the site
//! come as a list; nothing is kept. The one refusal is `Memory`.
ghost use Rattle.std.specs.Prelude.{◌≡◌, ◌++◌, ◌∷◌, [], IfOk, OnOk, map};
ghost use Rattle.std.specs.List.{filter};
ghost use Rattle.policy_core.specs.Site.{hosts_of, are_same_texts, is_at_site, own_domain, rollup_of, domain_shape};
ghost use Rattle.policy_core.specs.PathTables.{firsts};
ghost use Rattle.shaping_merge.specs.inside.Domains.{AreDomainsOf};
ghost use Rattle.shaping_merge.specs.inside.Rollups.{AreRollups};

use crate::rollups::rollup_in;
use crate::shapes::Shapes;
use crate::site_names::is_site_name;
use crate::sites::rollup_of;
use kumo_base::{Memory, Text};
use policy_core::{DomainShape, Policy, Site, are_same_texts};
use std::alloc::Global;
use std::collections::BTreeMap;

/// Whether a domain, which is given in lower case, is at a site. It looks through the policy's tables of domains.
pub fn is_at_site(policy: &Policy, domain: &str, site: &Site) -> bool
    ensures { result ≡ is_at_site policy.now site.now domain.now }
{
    let rollup = rollup_of(policy.shaping.domains.as_slice(), domain);
    is_at(policy, rollup, site, domain)
}

/// Whether a domain is at a site. `rollups` are those of the policy.
fn is_among(policy: &Policy, rollups: &BTreeMap<String, bool>, site: &Site, domain: &str) -> bool
    requires { AreRollups rollups.now policy.now.shaping.domains }
    ensures { result ≡ is_at_site policy.now site.now domain.now }
{
    is_at(policy, rollup_in(rollups, domain), site, domain)
}

/// Whether a domain is at a site. `rollup` says whether the domain shares its site with others of the same hosts.
#[tactic(auto, unfolding(policy_core::specs::Site::is_at_site, policy_core::specs::Site::site_of))]
pub(crate) fn is_at(policy: &Policy, rollup: bool, site: &Site, domain: &str) -> bool
    requires { rollup ≡ rollup_of (domain_shape policy.now.shaping domain.now) }
    ensures { result ≡ is_at_site policy.now site.now domain.now }
{
    let hosts = site.hosts.as_slice();
    if !are_hosts_of(policy, domain, hosts) {
        return false;
    }
    is_site_name(site.name.as_str(), rollup, domain, hosts)
}

/// Whether these are the hosts of a domain.
fn are_hosts_of(policy: &Policy, domain: &str, hosts: &[Text]) -> bool
    ensures { result ≡ are_same_texts (hosts_of policy.now domain.now) hosts.now }
{
    match policy.mx.hosts(domain) {
        Some(own) => are_same_texts(own, hosts),
        None => is_one_text(domain, hosts),
    }
}

/// Whether a list has one text alone, which is equal to this one.
fn is_one_text(text: &str, texts: &[Text]) -> bool
    ensures { result ≡ are_same_texts (text.now ∷ []) texts.now }
{
    match texts {
        [other] => other.is_same(text),
        _ => false,
    }
}

/// The domains of a site, some of them more than once: of the MX rows, of the shaping tables, and the host that is a site of
/// its own. `shapes` are those of the site, of tables of the same domain the first.
pub(crate) fn domains_of<'p>(
    alloc: Global,
    policy: &'p Policy,
    shapes: &Shapes<'p>,
    site: &'p Site,
) -> Result<Vec<&'p str>, Memory>
    requires rollups { AreRollups shapes.now.rollups policy.now.shaping.domains }
    requires at_site { map (λ shape. shape.now) shapes.now.at_site.items
        ≡ filter (λ d. is_at_site policy.now site.now d.domain) (firsts (λ d. d.domain) policy.now.shaping.domains) }
    ensures { IfOk result (λ domains. AreDomainsOf policy.now site.now (map (λ domain. domain.now) domains.items)) }
{
    let mut domains = Vec::new(alloc);
    add_of_rows(policy, &shapes.rollups, site, &mut domains)?;
    add_of_shapes(shapes.at_site.as_slice(), &mut domains)?;
    add_own(policy, &shapes.rollups, site, &mut domains)?;
    Ok(domains)
}

/// Adds those of the domains of the MX rows that are at the site.
fn add_of_rows<'p>(
    policy: &'p Policy,
    rollups: &BTreeMap<String, bool>,
    site: &Site,
    domains: &mut Vec<&'p str>,
) -> Result<(), Memory>
    requires { AreRollups rollups.now policy.now.shaping.domains }
    ensures { OnOk result (map (λ domain. domain.now) domains.new.items
        ≡ map (λ domain. domain.now) domains.old.items ++ filter (is_at_site policy.now site.now)
        (map (λ row. row.domain) policy.now.mx)) }
{
    for row in policy.mx.rows.as_slice() {
        let domain = row.domain.as_str();
        if is_among(policy, rollups, site, domain) {
            domains.push(domain)?;
        }
    }
    Ok(())
}

/// Adds the domains of shaping tables.
fn add_of_shapes<'p>(shapes: &[&'p DomainShape], domains: &mut Vec<&'p str>) -> Result<(), Memory>
    ensures { OnOk result (map (λ domain. domain.now) domains.new.items
        ≡ map (λ domain. domain.now) domains.old.items ++ map (λ d. d.domain) (map (λ shape. shape.now) shapes.now)) }
{
    for shape in shapes {
        domains.push(shape.domain.as_str())?;
    }
    Ok(())
}

/// Adds the host that has no row and is a site of its own, where the site has its name.
fn add_own<'p>(
    policy: &Policy,
    rollups: &BTreeMap<String, bool>,
    site: &'p Site,
    domains: &mut Vec<&'p str>,
) -> Result<(), Memory>
    requires { AreRollups rollups.now policy.now.shaping.domains }
    ensures { OnOk result (map (λ domain. domain.now) domains.new.items
        ≡ map (λ domain. domain.now) domains.old.items ++ own_domain policy.now site.now) }
{
    let host = site.name.as_str();
    if policy.mx.hosts(host).is_none() && is_among(policy, rollups, site, host) {
        domains.push(host)?;
    }
    Ok(())
}
