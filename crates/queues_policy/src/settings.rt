//! The settings of a queue: the layers of its name, one over another.
//!
//! `settings_for` is asked for a queue's name, by `explain` today and by the registry later, which has to keep the answer:
//! each call goes through the domains of the file. Layers are laid by reference, and only the pool's name is copied at the
//! end, so that the one refusal is `Memory`. `pool_name_of` and `ages_of` have parts of the same answer, without memory.
ghost use Rattle.std.specs.Prelude.{◌≡◌, [], IfOk, find, bytes_eq, unwrap_or, option_map, option_and_then};
ghost use Rattle.policy_core.specs.Layers.{settings_of, settings_in, queues_of_domain, tenant_layer, layer_named};
ghost use Rattle.queues_policy.specs.inside.LaidSettings.{settings_now, over, tenant_within, campaign_within};

use kumo_base::{Memory, Text};
use policy_core::{
    DEFAULT_MAX_AGE, DEFAULT_RETRY_INTERVAL, DomainQueues, Layer, NamedLayer, Queues, Settings,
    TenantQueues, UNSPECIFIED,
};
use queue_name::QueueName;
use std::alloc::Global;

/// When the messages of a queue are tried again, and how old they may be. As in `Settings`, in milliseconds.
#[derive(Clone, Copy)]
pub struct RetrySettings {
    pub max_age: u64,
    pub retry_interval: u64,
    pub max_retry_interval: Option<u64>,
}

/// Settings while layers are laid over one another, with the pool's name where it stands.
#[derive(Clone, Copy)]
struct LaidSettings<'q> {
    max_age: u64,
    retry_interval: u64,
    max_retry_interval: Option<u64>,
    pool: &'q str,
}

impl<'q> LaidSettings<'q> {
    /// The settings where no layer sets one.
    fn unset() -> LaidSettings<'q>
        ensures { settings_now result ≡ settings_in [] }
    {
        LaidSettings {
            max_age: DEFAULT_MAX_AGE,
            retry_interval: DEFAULT_RETRY_INTERVAL,
            max_retry_interval: None,
            pool: UNSPECIFIED,
        }
    }

    /// With a layer over them, where there is one.
    fn with(self, layer: Option<&'q Layer>) -> LaidSettings<'q>
        ensures { settings_now result ≡ over (settings_now self.entry) (option_map (λ l. l.now) layer.entry) }
    {
        let Some(layer) = layer else {
            return self;
        };
        LaidSettings {
            max_age: layer.max_age.unwrap_or(self.max_age),
            retry_interval: layer.retry_interval.unwrap_or(self.retry_interval),
            max_retry_interval: layer.max_retry_interval.or(self.max_retry_interval),
            pool: pool_over(layer, self.pool),
        }
    }
}

/// The pool of a layer, or of those below it.
fn pool_over<'q>(layer: &'q Layer, below: &'q str) -> &'q str
    ensures { result.now ≡ unwrap_or layer.now.pool below.now }
{
    match &layer.pool {
        Some(pool) => pool.as_str(),
        None => below,
    }
}

/// The settings of a queue's name: the layers for all messages, for its tenant, for its domain, for its tenant there and for
/// its campaign there, each over those before it (KumoMTA's manual, the queues helper). Ages and delays are in milliseconds.
pub fn settings_for(alloc: Global, queues: &Queues, name: &QueueName) -> Result<Settings, Memory>
    ensures { IfOk result (λ settings. settings ≡ settings_of queues.now name.now) }
{
    let settings = in_force(queues, name);
    Ok(Settings {
        max_age: settings.max_age,
        retry_interval: settings.retry_interval,
        max_retry_interval: settings.max_retry_interval,
        pool: Text::of(alloc, settings.pool)?,
    })
}

/// The name of the pool of a queue, where it stands.
pub fn pool_name_of<'q>(queues: &'q Queues, name: &QueueName) -> &'q str
    ensures { result.now ≡ (settings_of queues.now name.now).pool }
{
    in_force(queues, name).pool
}

/// The ages and delays of a queue.
pub fn ages_of(queues: &Queues, name: &QueueName) -> RetrySettings
    ensures max_age { result.max_age ≡ (settings_of queues.now name.now).max_age }
    ensures retry_interval { result.retry_interval ≡ (settings_of queues.now name.now).retry_interval }
    ensures max_retry_interval { result.max_retry_interval ≡ (settings_of queues.now name.now).max_retry_interval }
{
    let settings = in_force(queues, name);
    RetrySettings {
        max_age: settings.max_age,
        retry_interval: settings.retry_interval,
        max_retry_interval: settings.max_retry_interval,
    }
}

/// The settings of a queue's name.
#[tactic(auto, unfolding(policy_core::specs::Layers::settings_of))]
fn in_force<'q>(queues: &'q Queues, name: &QueueName) -> LaidSettings<'q>
    ensures { settings_now result ≡ settings_of queues.now name.now }
{
    let domain = domain_of(queues, name);
    let tenant = tenant_of(domain, name);
    LaidSettings::unset()
        .with(Some(&queues.base))
        .with(tenant_layer(queues, name))
        .with(domain_layer(domain))
        .with(domain_tenant_layer(tenant))
        .with(campaign_layer(tenant, name))
}

/// The layers of a name's domain.
fn domain_of<'q>(queues: &'q Queues, name: &QueueName) -> Option<&'q DomainQueues>
    ensures { option_map (λ d. d.now) result ≡ queues_of_domain queues.now name.now }
{
    domain_named(queues.domains.as_slice(), name.domain.as_str())
}

/// The layers of a name's tenant within a domain, where there are both.
fn tenant_of<'q>(domain: Option<&'q DomainQueues>, name: &QueueName) -> Option<&'q TenantQueues>
    ensures { option_map (λ t. t.now) result ≡ tenant_within (option_map (λ d. d.now) domain.entry) name.now.tenant }
{
    let Some(domain) = domain else {
        return None;
    };
    match &name.tenant {
        Some(tenant) => tenant_named(domain.tenants.as_slice(), tenant.as_str()),
        None => None,
    }
}

/// The layer of a name's tenant for all domains.
fn tenant_layer<'q>(queues: &'q Queues, name: &QueueName) -> Option<&'q Layer>
    ensures { option_map (λ l. l.now) result ≡ tenant_layer queues.now name.now }
{
    match &name.tenant {
        Some(tenant) => layer_named(queues.tenants.as_slice(), tenant.as_str()),
        None => None,
    }
}

/// The layer for all messages to a domain.
fn domain_layer<'q>(domain: Option<&'q DomainQueues>) -> Option<&'q Layer>
    ensures { option_map (λ l. l.now) result ≡ option_map (λ d. d.base) (option_map (λ d. d.now) domain.entry) }
{
    match domain {
        Some(domain) => Some(&domain.base),
        None => None,
    }
}

/// The layer for all messages of a tenant to a domain.
fn domain_tenant_layer<'q>(tenant: Option<&'q TenantQueues>) -> Option<&'q Layer>
    ensures { option_map (λ l. l.now) result ≡ option_map (λ t. t.base) (option_map (λ t. t.now) tenant.entry) }
{
    match tenant {
        Some(tenant) => Some(&tenant.base),
        None => None,
    }
}

/// The layer of a name's campaign within a tenant, where there are both.
fn campaign_layer<'q>(tenant: Option<&'q TenantQueues>, name: &QueueName) -> Option<&'q Layer>
    ensures { option_map (λ l. l.now) result ≡ campaign_within (option_map (λ t. t.now) tenant.entry) name.now.campaign }
{
    let Some(tenant) = tenant else {
        return None;
    };
    match &name.campaign {
        Some(campaign) => layer_named(tenant.campaigns.as_slice(), campaign.as_str()),
        None => None,
    }
}

/// The first domain of that name.
fn domain_named<'q>(domains: &'q [DomainQueues], name: &str) -> Option<&'q DomainQueues>
    ensures { option_map (λ d. d.now) result ≡ find (λ d. bytes_eq d.domain name.now) domains.now }
{
    domains.iter().find(|d| d.domain.is_same(name))
}

/// The first tenant of that name.
fn tenant_named<'q>(tenants: &'q [TenantQueues], name: &str) -> Option<&'q TenantQueues>
    ensures { option_map (λ t. t.now) result ≡ find (λ t. bytes_eq t.tenant name.now) tenants.now }
{
    tenants.iter().find(|t| t.tenant.is_same(name))
}

/// The first layer of that name.
fn layer_named<'q>(layers: &'q [NamedLayer], name: &str) -> Option<&'q Layer>
    ensures { option_map (λ l. l.now) result ≡ layer_named layers.now name.now }
{
    match layers.iter().find(|l| l.name.is_same(name)) {
        Some(layer) => Some(&layer.layer),
        None => None,
    }
}
