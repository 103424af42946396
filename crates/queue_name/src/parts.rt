//! The parts of a name as they were read, each borrowed from its text: whether they make a name, and the name that they
//! make. Readers of mail lines and of words test the parts before anything is copied.
ghost use Rattle.std.specs.Prelude.{◌≡◌, ◌+◌, nat_le, length, option_map, IfOk, IsTrue};
ghost use Rattle.queue_name.specs.QueueName.{is_name, is_optional_component, spelling, in_lower_case};
ghost use Rattle.queue_name.specs.NameParts.{name_of};

use crate::component::{is_component, is_domain};
use crate::name::{NAME_LIMIT, QueueName};
use kumo_base::{Memory, Text};
use std::alloc::Global;

/// The parts of a name, which they need not make.
#[derive(Clone, Copy)]
pub struct NameParts<'a> {
    pub campaign: Option<&'a str>,
    pub tenant: Option<&'a str>,
    pub domain: &'a str,
}

impl NameParts<'_> {
    /// Whether the parts make a name: each that is there may stand in one, and the spelling has at most `NAME_LIMIT`
    /// bytes.
    pub fn is_name(&self) -> bool
        ensures { result ≡ is_name (name_of self.now) }
    {
        is_optional_component(self.campaign)
            && is_optional_component(self.tenant)
            && is_domain(self.domain)
            && self.keeps_limit()
    }

    /// Whether the parts make a name once the domain is in lower case. The text in lower case is not made.
    #[tactic(auto, using(crate::proofs::LowerCaseLemmas::is_name_lowered))]
    pub fn is_name_in_lower_case(&self) -> bool
        ensures { result ≡ is_name (in_lower_case (name_of self.now)) }
    {
        is_optional_component(self.campaign)
            && is_optional_component(self.tenant)
            && is_component(self.domain)
            && self.keeps_limit()
    }

    /// The name that the parts make.
    pub fn to_name(&self, alloc: Global) -> Result<QueueName, Memory>
        requires { IsTrue (is_name (name_of self.now)) }
        ensures { IfOk result (λ name. name ≡ name_of self.now) }
    {
        Ok(QueueName {
            campaign: owned(alloc, self.campaign)?,
            tenant: owned(alloc, self.tenant)?,
            domain: Text::of(alloc, self.domain)?,
        })
    }

    /// Whether the spelling keeps its limit.
    fn keeps_limit(&self) -> bool
        ensures { result ≡ nat_le (length (spelling (name_of self.now))) NAME_LIMIT }
    {
        let domain = self.domain.len();
        match (self.campaign, self.tenant) {
            (None, None) => domain <= NAME_LIMIT,
            (None, Some(tenant)) => is_within(tenant.len(), 1, domain),
            (Some(campaign), None) => is_within(campaign.len(), 2, domain),
            (Some(campaign), Some(tenant)) => {
                is_within(campaign.len(), 2, tenant.len().saturating_add(domain))
            }
        }
    }
}

/// Whether so many bytes, marks and further bytes keep the limit of a spelling.
fn is_within(front: usize, marks: usize, back: usize) -> bool
    ensures { result ≡ nat_le (front + marks + back) NAME_LIMIT }
{
    front.saturating_add(marks).saturating_add(back) <= NAME_LIMIT
}

/// Whether a component is not there, or may stand in a name.
fn is_optional_component(component: Option<&str>) -> bool
    ensures { result ≡ is_optional_component (option_map (λ s. s.now) component.entry) }
{
    match component {
        Some(text) => is_component(text),
        None => true,
    }
}

/// A component as a text of its own, where it is there.
fn owned(alloc: Global, component: Option<&str>) -> Result<Option<Text>, Memory>
    ensures { IfOk result (λ text. text ≡ option_map (λ s. s.now) component.entry) }
{
    match component {
        Some(text) => Ok(Some(Text::of(alloc, text)?)),
        None => Ok(None),
    }
}
