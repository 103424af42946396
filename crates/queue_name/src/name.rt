//! The name of a scheduled queue, `campaign:tenant@domain`.
ghost use Rattle.std.specs.Prelude.{◌≡◌, ◌++◌, IfOk, OnOk, OnErr, IsTrue};
ghost use Rattle.queue_name.specs.QueueName.{Name, is_name, spelled, spelling};

use kumo_base::{Memory, Text};
use std::alloc::Global;
use std::marker::Model;

/// The most bytes of a name's spelling.
pub const NAME_LIMIT: usize = 1024;

/// A name. Each component that is there is not empty and has no control byte and none of `@`, `:` and `!`, the
/// domain has no ASCII capital, and the spelling keeps the limit.
#[derive(Drop)]
pub struct QueueName {
    pub campaign: Option<Text>,
    pub tenant: Option<Text>,
    pub domain: Text,
}

impl Model for QueueName {
    ghost Value = { Name };

    ghost view = { λ n. record { campaign = n.campaign; tenant = n.tenant; domain = n.domain } };

    ghost invariant = { λ n. IsTrue (is_name (record { campaign = n.campaign; tenant = n.tenant; domain = n.domain })) };
}

impl QueueName {
    /// An equal name.
    pub fn copy(&self, alloc: Global) -> Result<QueueName, Memory>
        ensures { IfOk result (λ copy. copy ≡ self.now) }
    {
        Ok(QueueName {
            campaign: copy_component(alloc, &self.campaign)?,
            tenant: copy_component(alloc, &self.tenant)?,
            domain: self.domain.copy(alloc)?,
        })
    }

    /// Appends the name's one spelling. After `Memory` the text is as it was.
    pub fn text_into(&self, alloc: Global, out: &mut Text) -> Result<(), Memory>
        ensures ok { OnOk result (out.new ≡ out.old ++ spelling self.now) }
        ensures err { OnErr result (out.new ≡ out.old) }
    {
        let spelled = spelled(alloc, &self.campaign, &self.tenant, &self.domain)?;
        out.push_str(spelled.as_str())
    }
}

/// A copy of a component, where it is there.
pub(crate) fn copy_component(
    alloc: Global,
    component: &Option<Text>,
) -> Result<Option<Text>, Memory>
    ensures { IfOk result (λ copy. copy ≡ component.now) }
{
    match component {
        Some(text) => Ok(Some(text.copy(alloc)?)),
        None => Ok(None),
    }
}

/// The spelling of a name of these components.
fn spelled(
    alloc: Global,
    campaign: &Option<Text>,
    tenant: &Option<Text>,
    domain: &Text,
) -> Result<Text, Memory>
    ensures { IfOk result (λ text. text ≡ spelled campaign.now tenant.now domain.now) }
{
    match (campaign, tenant) {
        (None, None) => domain.copy(alloc),
        (None, Some(tenant)) => joined(alloc, tenant.as_str(), "@", domain.as_str()),
        (Some(campaign), None) => joined(alloc, campaign.as_str(), ":@", domain.as_str()),
        (Some(campaign), Some(tenant)) => {
            let mut text = joined(alloc, campaign.as_str(), ":", tenant.as_str())?;
            text.push_str("@")?;
            text.push_str(domain.as_str())?;
            Ok(text)
        }
    }
}

/// Two texts with one between them.
fn joined(alloc: Global, front: &str, between: &str, back: &str) -> Result<Text, Memory>
    ensures { IfOk result (λ text. text ≡ front.now ++ between.now ++ back.now) }
{
    let mut text = Text::of(alloc, front)?;
    text.push_str(between)?;
    text.push_str(back)?;
    Ok(text)
}
