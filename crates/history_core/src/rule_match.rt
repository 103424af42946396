//! What automation knows of the replies of a history.

use crate::path::Path;
use policy_core::Rule;
use queue_name::QueueName;

/// A reply that a rule of its path matched.
#[derive(Drop)]
pub struct RuleMatch {
    /// The moment of the reply's entry, in milliseconds since 1970.
    pub at: u64,
    /// The path of the attempt.
    pub path: Path,
    /// The number of the rule in the path's list, counted from 1.
    pub number: u32,
    pub rule: Rule,
    /// The queue of the message that was attempted.
    pub name: QueueName,
}
