//! The site of a domain.
ghost use Rattle.std.specs.Prelude.{◌≡◌, ◌++◌, IfOk, OnOk, find, bytes_eq, option_map};
ghost use Rattle.policy_core.specs.Site.{site_of, hosts_of, rollup_of, site_name, joined_by_bars, with_bars};

use kumo_base::{Items, Memory, Text};
use policy_core::{DomainShape, Policy, Site};
use std::alloc::Global;

/// The site of a domain, which is given in lower case: the hosts of its MX row, or the domain itself where it has none. The
/// hosts joined by `|` are its name; where the domain's table says `mx_rollup = false` the domain and `=` stand before them,
/// so that no other domain shares the site.
#[tactic(auto, unfolding(policy_core::specs::Site::site_of))]
pub fn site(alloc: Global, policy: &Policy, domain: &str) -> Result<Site, Memory>
    ensures { IfOk result (λ site. site ≡ site_of policy.now domain.now) }
{
    let hosts = hosts_of(alloc, policy, domain)?;
    let rollup = rollup_of(policy.shaping.domains.as_slice(), domain);
    Ok(Site {
        name: site_name(alloc, rollup, domain, hosts.as_slice())?,
        hosts,
    })
}

/// The hosts of a domain: those of its MX row, or itself.
fn hosts_of(alloc: Global, policy: &Policy, domain: &str) -> Result<Items<Text>, Memory>
    ensures { IfOk result (λ hosts. hosts ≡ hosts_of policy.now domain.now) }
{
    match policy.mx.hosts(domain) {
        Some(hosts) => copy_texts(alloc, hosts),
        None => Ok(Items::of(vec![in alloc; Text::of(alloc, domain)?]?)),
    }
}

/// A list of equal texts.
fn copy_texts(alloc: Global, texts: &[Text]) -> Result<Items<Text>, Memory>
    ensures { IfOk result (λ copy. copy ≡ texts.now) }
{
    let mut copy = Vec::new(alloc);
    for text in texts {
        copy.push(text.copy(alloc)?)?;
    }
    Ok(Items::of(copy))
}

/// Whether a domain shares its site with others of the same hosts. Of tables of the same domain the first counts.
pub(crate) fn rollup_of(domains: &[DomainShape], domain: &str) -> bool
    ensures { result ≡ rollup_of (find (λ d. bytes_eq d.domain domain.now) domains.now) }
{
    match domain_shape(domains, domain) {
        Some(shape) => shape.rollup,
        None => true,
    }
}

fn domain_shape<'p>(domains: &'p [DomainShape], domain: &str) -> Option<&'p DomainShape>
    ensures { option_map (λ d. d.now) result ≡ find (λ d. bytes_eq d.domain domain.now) domains.now }
{
    domains.iter().find(|d| d.domain.is_same(domain))
}

/// The name of the site of a domain with these hosts.
fn site_name(alloc: Global, rollup: bool, domain: &str, hosts: &[Text]) -> Result<Text, Memory>
    ensures { IfOk result (λ name. name ≡ site_name rollup domain.now hosts.now) }
{
    let mut name = Text::new(alloc);
    if !rollup {
        name.push_str(domain)?;
        name.push_str("=")?;
    }
    push_joined(&mut name, hosts)?;
    Ok(name)
}

/// Appends texts with `|` between.
fn push_joined(name: &mut Text, texts: &[Text]) -> Result<(), Memory>
    ensures { OnOk result (name.new ≡ name.old ++ joined_by_bars texts.now) }
{
    if let Some((first, more)) = texts.split_first() {
        name.push_str(first.as_str())?;
        push_with_bars(name, more)?;
    }
    Ok(())
}

/// Appends texts with `|` before each.
fn push_with_bars(name: &mut Text, texts: &[Text]) -> Result<(), Memory>
    ensures { OnOk result (name.new ≡ name.old ++ with_bars texts.now) }
{
    for text in texts {
        name.push_str("|")?;
        name.push_str(text.as_str())?;
    }
    Ok(())
}
