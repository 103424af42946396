//! The history of the core: what an entry is, and which entry may follow which history.
//!
//! The definitions in specs/ filter and count over plain lists of entries. Whoever keeps a history is held to them. What is
//! written of an entry is told by the crate `delivery_log`.
#![tactic(auto)]

mod entry;
mod history;
pub mod laws;
mod path;
mod rule_match;

pub use entry::{Cause, Entry, Event, How, Next};
pub use history::History;
pub use path::{Path, Promoted};
pub use rule_match::RuleMatch;
