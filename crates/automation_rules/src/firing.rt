//! A firing of a rule: when it is over, and whose messages it holds back until then.
ghost use Rattle.std.specs.Prelude.{◌≡◌, IfOk};
ghost use Rattle.policy_core.specs.Automation.{is_same_component, covers};
ghost use Rattle.policy_core.specs.LiveOrders.{end_of};
ghost use Rattle.automation_rules.specs.Memory.{is_covering, kept_firing, name_kept};

use kumo_base::{LAST_MOMENT, Memory, Text};
use policy_core::Action;
use queue_name::QueueName;
use std::alloc::Global;

/// A firing that is kept until it is over. It has a tenant and a campaign only where its rule's action holds back by them.
#[derive(Drop)]
pub(crate) struct Firing {
    pub(crate) end: u64,
    pub(crate) tenant: Option<Text>,
    pub(crate) campaign: Option<Text>,
}

impl Firing {
    /// A firing that ends at a moment, of a rule of this action, by the reply to a message of a queue.
    pub(crate) fn of(
        alloc: Global,
        action: &Action,
        end: u64,
        name: &QueueName,
    ) -> Result<Firing, Memory>
        ensures { IfOk result (λ firing. firing ≡ kept_firing action.now end name.now) }
    {
        if !is_covering(action) {
            return Ok(Firing {
                end,
                tenant: None,
                campaign: None,
            });
        }
        Ok(Firing {
            end,
            tenant: copy_component(alloc, &name.tenant)?,
            campaign: copy_component(alloc, &name.campaign)?,
        })
    }

    /// Whether the firing, of a rule of this action, holds back the messages of a queue.
    pub(crate) fn covers(&self, action: &Action, name: &QueueName) -> bool
        ensures { result ≡ covers action.now (name_kept self.now) name.now }
    {
        match action {
            Action::SuspendTenant => {
                self.tenant.is_some() && is_same_component(&self.tenant, &name.tenant)
            }
            Action::SuspendCampaign => {
                self.campaign.is_some()
                    && is_same_component(&self.campaign, &name.campaign)
                    && is_same_component(&self.tenant, &name.tenant)
            }
            _ => false,
        }
    }
}

/// The moment at which what began at one moment and lasts so long is over.
pub(crate) fn end_of(start: u64, duration: u64) -> u64
    ensures { result ≡ end_of start duration }
{
    start.saturating_add(duration).min(LAST_MOMENT)
}

/// Whether an action holds back messages by tenant or campaign.
fn is_covering(action: &Action) -> bool
    ensures { result ≡ is_covering action.now }
{
    matches!(action, Action::SuspendTenant | Action::SuspendCampaign)
}

/// A copy of a component, where it is there.
fn copy_component(alloc: Global, component: &Option<Text>) -> Result<Option<Text>, Memory>
    ensures { IfOk result (λ copy. copy ≡ component.now) }
{
    match component {
        Some(text) => Ok(Some(text.copy(alloc)?)),
        None => Ok(None),
    }
}

/// Whether components are equal, or both not there.
fn is_same_component(component: &Option<Text>, other: &Option<Text>) -> bool
    ensures { result ≡ is_same_component component.now other.now }
{
    match (component, other) {
        (None, None) => true,
        (Some(component), Some(other)) => component.is_same(other.as_str()),
        _ => false,
    }
}
