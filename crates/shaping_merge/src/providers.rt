//! The providers of a site.
ghost use Rattle.std.specs.Prelude.{◌≡◌, map};
ghost use Rattle.std.specs.List.{list_all, list_any};
ghost use Rattle.policy_core.specs.PathTables.{ends_with, matches_site, is_provider_of};
ghost use Rattle.shaping_merge.specs.inside.Domains.{AreDomainsOf};

use kumo_base::Text;
use policy_core::{Match, Policy, Provider, Site};

/// Whether a site is a provider's: one of its matches says so. `domains` are those of the site.
#[tactic(auto, unfolding(policy_core::specs::PathTables::is_provider_of))]
pub(crate) fn is_provider_of(
    policy: &Policy,
    site: &Site,
    domains: &[&str],
    provider: &Provider,
) -> bool
    requires { AreDomainsOf policy.now site.now (map (λ domain. domain.now) domains.now) }
    ensures { result ≡ is_provider_of policy.now site.now provider.now }
{
    provider
        .matches
        .as_slice()
        .iter()
        .any(|found| matches_site(policy, site, domains, found))
}

/// Whether a match says that a site is the provider's.
fn matches_site(policy: &Policy, site: &Site, domains: &[&str], found: &Match) -> bool
    requires { AreDomainsOf policy.now site.now (map (λ domain. domain.now) domains.now) }
    ensures { result ≡ matches_site policy.now site.now found.now }
{
    match found {
        Match::MxSuffix(suffix) => all_end_with(site.hosts.as_slice(), suffix.as_str()),
        Match::DomainSuffix(suffix) => any_ends_with(domains, suffix.as_str()),
    }
}

/// Whether each host ends with a text.
fn all_end_with(hosts: &[Text], suffix: &str) -> bool
    ensures { result ≡ list_all (ends_with suffix.now) hosts.now }
{
    hosts.iter().all(|host| ends_with(host.as_str(), suffix))
}

/// Whether a domain ends with a text.
fn any_ends_with(domains: &[&str], suffix: &str) -> bool
    ensures { result ≡ list_any (ends_with suffix.now) (map (λ domain. domain.now) domains.now) }
{
    for domain in domains {
        if ends_with(domain, suffix) {
            return true;
        }
    }
    false
}

/// Whether a text ends with another.
fn ends_with(text: &str, suffix: &str) -> bool
    ensures { result ≡ ends_with suffix.now text.now }
{
    text.ends_with(suffix)
}
