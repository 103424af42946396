//! The queue that a mail line's message waits in: that of its recipient's domain, and of the campaign and the tenant
//! that the line names.
ghost use Rattle.std.specs.Prelude.{◌≡◌, Ok, IfOk, IfErr, IsTrue};
ghost use Rattle.serde_json.specs.View.{view};
ghost use Rattle.queue_name.specs.Address.{is_address, domain_of};
ghost use Rattle.queue_name.specs.QueueName.{is_name};
ghost use Rattle.mail_input.specs.Fields.{IsCauseOf, name_in};

use crate::MailWhy;
use crate::fault::LineFault;
use crate::fields::component_at;
use queue_name::{NameParts, QueueName, domain_of};
use serde_json::Value;
use std::alloc::Global;

/// The queue of an object's message.
pub fn name_in(alloc: Global, value: &Value, recipient: &str) -> Result<QueueName, LineFault>
    requires { IsTrue (is_address recipient.now) }
    ensures ok { IfOk result (λ name. name_in (view value.now) recipient.now ≡ Ok name) }
    ensures err { IfErr result (λ e. IsCauseOf e (name_in (view value.now) recipient.now)) }
    ensures names { IfOk result (λ name. IsTrue (is_name name)) }
    ensures domain { IfOk result (λ name. name.domain ≡ domain_of recipient.now) }
{
    let campaign = component_at(value, "campaign")?;
    let tenant = component_at(value, "tenant")?;
    let domain = domain_of(alloc, recipient)?;
    let parts = NameParts {
        campaign,
        tenant,
        domain: domain.as_str(),
    };
    if !parts.is_name() {
        return Err(LineFault::Refused(MailWhy::BadName));
    }
    Ok(parts.to_name(alloc)?)
}
