//! Components alone: which texts may stand in some queue name. Readers of policy files test names here.
ghost use Rattle.std.specs.Prelude.{◌≡◌};
ghost use Rattle.std.specs.List.{list_all};
ghost use Rattle.queue_name.specs.QueueName.{is_component, is_component_byte, is_domain, is_domain_byte};
ghost use Rattle.queue_name.specs.Components.{is_domain_of_some_name, is_tenant_of_some_name, is_campaign_of_some_name};

use crate::name::NAME_LIMIT;

/// Whether some queue name has this domain: one byte or more, none of them a control byte, `@`, `:`, `!` or an ASCII
/// capital, and at most `NAME_LIMIT` in all.
pub fn is_domain_of_some_name(domain: &str) -> bool
    ensures { result ≡ is_domain_of_some_name domain.now }
{
    is_domain(domain) && domain.len() <= NAME_LIMIT
}

/// Whether some queue name has this tenant: bytes as in a domain, capitals among them, and at most two fewer, for `@`
/// and the shortest domain.
pub fn is_tenant_of_some_name(tenant: &str) -> bool
    ensures { result ≡ is_tenant_of_some_name tenant.now }
{
    is_component(tenant) && tenant.len() <= NAME_LIMIT - 2
}

/// Whether some queue name has this campaign: as a tenant, and one byte fewer, for `:`.
pub fn is_campaign_of_some_name(campaign: &str) -> bool
    ensures { result ≡ is_campaign_of_some_name campaign.now }
{
    is_component(campaign) && campaign.len() <= NAME_LIMIT - 3
}

/// Whether a text may stand in a name as a campaign or a tenant, if the name keeps its limit: it is not empty and has no
/// control byte and none of `@`, `:` and `!`.
pub(crate) fn is_component(text: &str) -> bool
    ensures { result ≡ is_component text.now }
{
    !text.is_empty() && all_of_component(text.as_bytes())
}

/// Whether a text may stand in a name as its domain, if the name keeps its limit: a component without an ASCII capital.
pub(crate) fn is_domain(text: &str) -> bool
    ensures { result ≡ is_domain text.now }
{
    !text.is_empty() && all_of_domain(text.as_bytes())
}

fn all_of_component(bytes: &[u8]) -> bool
    ensures { result ≡ list_all is_component_byte bytes.now }
{
    bytes.iter().all(|b| is_component_byte(*b))
}

fn all_of_domain(bytes: &[u8]) -> bool
    ensures { result ≡ list_all is_domain_byte bytes.now }
{
    bytes.iter().all(|b| is_domain_byte(*b))
}

/// Whether a byte may stand in a component of a name.
fn is_component_byte(byte: u8) -> bool
    ensures { result ≡ is_component_byte byte }
{
    byte >= 32 && byte != 127 && byte != b'@' && byte != b':' && byte != b'!'
}

/// Whether a byte may stand in the domain of a name.
fn is_domain_byte(byte: u8) -> bool
    ensures { result ≡ is_domain_byte byte }
{
    is_component_byte(byte) && !(b'A' <= byte && byte <= b'Z')
}
