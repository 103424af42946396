//! The value that stands for a policy and a legal history. A registry takes entries into it and asks it what may come next.
//!
//! Each answer is that of a definition of `history_core`, exactly, and each entry that is taken may follow those before it,
//! so that the history stays legal. How an answer is found is no part of a contract: today the entries are walked over
//! (`history_walk`), at the cost of a walk or several for each question, and only the promotions, the paths and what the
//! rules came to are kept.
//!
//! Moments are milliseconds since 1970.
#![tactic(auto)]

mod connections;
mod messages;
mod orders;
mod paths;
mod state;

pub use messages::Acceptance;
pub use paths::PathToOpen;
pub use state::SendingState;
