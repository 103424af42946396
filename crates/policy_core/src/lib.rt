//! The plain data of a policy: the sources and pools that mail leaves by, the layered settings of queues, the shaping of
//! paths, the mail exchangers of domains, the orders of an administrator, and all of these assembled.
//!
//! The readers of policy texts make these values, and the core decides by them. What they mean stands in `specs/`: the
//! layers of a queue's name and of a path with what they come to, the site of a domain, and the weighted rotation of a
//! pool.
#![tactic(auto)]

mod copying;
pub mod laws;
mod mx;
mod names;
mod option_name;
mod options;
mod orders;
mod policy;
mod pools;
mod queues;
mod rules;
mod settings;
mod shaping;
mod site;
mod sources;

pub use mx::{MxRow, MxTable};
pub use names::{POLICY_NAME_LIMIT, is_host_name, is_source_name};
pub use option_name::{OPTION_NAMES, OptionName};
pub use options::{
    DEFAULT_CONNECTION_LIMIT, DEFAULT_FAILURES_BEFORE_DELAY, DEFAULT_MAX_DELIVERIES,
    DEFAULT_MAX_READY, GREATEST_OPTION, InForce, Options, overlay,
};
pub use orders::Order;
pub use policy::Policy;
pub use queues::{DomainQueues, NamedLayer, Queues, TenantQueues};
pub use rules::{Action, GREATEST_COUNT, Rule, Setting, Trigger};
pub use settings::{
    DEFAULT_EHLO, DEFAULT_MAX_AGE, DEFAULT_RETRY_INTERVAL, Layer, Settings, UNSPECIFIED,
};
pub use shaping::{DomainShape, Match, Provider, ShapeTable, Shaping, SourceTable};
pub use site::{PathBase, Site, are_same_texts};
pub use sources::{Entrant, Pool, Source, Sources};
