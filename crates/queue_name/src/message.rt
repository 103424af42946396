//! A message as the core holds it from its acceptance to its fate.
ghost use Rattle.std.specs.Prelude.{◌≡◌, ◌⊎◌, ◌↔◌, ◌≤◌, [], ◌&&◌, ◌||◌, ◌==◌, IfOk, IsTrue, length, nat_le, bytes_eq};
ghost use Rattle.queue_name.specs.Address.{is_address, domain_of};
ghost use Rattle.queue_name.specs.Message.{IsProperMessage};

use crate::address::{is_address, is_domain_of};
use crate::name::QueueName;
use kumo_base::{LAST_MOMENT, Memory, Text};
use std::alloc::Global;

/// The most bytes of an address.
pub const ADDRESS_LIMIT: usize = 254;

/// The most bytes of a body.
pub const BODY_LIMIT: usize = 1_048_576;

/// One message to one recipient.
#[derive(Drop)]
pub struct Message {
    /// Which message it is; no two accepted messages share one.
    pub id: u128,
    /// When it was made, in milliseconds since 1970.
    pub created: u64,
    /// The envelope sender, empty for the null sender (RFC 5321 section 4.5.5).
    pub sender: Text,
    /// The envelope recipient.
    pub recipient: Text,
    /// The scheduled queue that it waits in.
    pub name: QueueName,
    /// The message itself, header and body, as text.
    pub body: Text,
}

impl Message {
    /// An equal message.
    pub fn copy(&self, alloc: Global) -> Result<Message, Memory>
        ensures { IfOk result (λ copy. copy ≡ self.now) }
    {
        Ok(Message {
            id: self.id,
            created: self.created,
            sender: self.sender.copy(alloc)?,
            recipient: self.recipient.copy(alloc)?,
            name: self.name.copy(alloc)?,
            body: self.body.copy(alloc)?,
        })
    }
    /// Whether the message keeps the rules of a mail line.
    pub fn is_proper(&self) -> bool
        ensures { IsTrue result ↔ IsProperMessage self.now }
    {
        let _id = self.id; // read, so that its range is known
        keeps_rules(
            self.created,
            self.sender.as_str(),
            self.recipient.as_str(),
            self.name.domain.as_str(),
            self.body.as_str(),
        )
    }
}

/// Whether these parts of a message keep the rules.
fn keeps_rules(created: u64, sender: &str, recipient: &str, domain: &str, body: &str) -> bool
    ensures { result ≡ (nat_le created LAST_MOMENT
        && (length sender.now == 0 || is_address sender.now)
        && is_address recipient.now
        && bytes_eq domain.now (domain_of recipient.now)
        && nat_le (length body.now) BODY_LIMIT) }
{
    created <= LAST_MOMENT
        && (sender.is_empty() || is_address(sender))
        && is_address(recipient)
        && is_domain_of(domain, recipient)
        && body.len() <= BODY_LIMIT
}
