//! The names of scheduled queues, the addresses that they come from, and the messages that wait in them.
#![tactic(auto)]

mod address;
mod component;
mod criteria;
pub mod laws;
mod message;
mod name;
mod parse;
mod parts;

pub use address::{domain_of, is_address};
pub use component::{is_campaign_of_some_name, is_domain_of_some_name, is_tenant_of_some_name};
pub use criteria::Criteria;
pub use message::{ADDRESS_LIMIT, BODY_LIMIT, Message};
pub use name::{NAME_LIMIT, QueueName};
pub use parse::NameFault;
pub use parts::NameParts;
