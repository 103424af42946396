//! Which messages of a history are ready, which may be resolved, delayed or promoted, from which source, and which entry the sweep
//! appends next. Each call answers a definition of `history_core`, of any list of entries, legal or not.
#![tactic(auto)]

pub mod candidates;
pub mod promotion;
pub mod ready;
pub mod refusals;
pub mod rotation;
pub mod sweep;
