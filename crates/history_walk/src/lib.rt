//! Whether an entry may follow a history, and what may come next, computed by walking over the entries: each call answers one of the
//! definitions of `history_core`, of any list of entries, legal or not.
//!
//! A `Scene` is a policy, a history, what was found in it (`history_automation`) and a moment; the questions are its methods, and none
//! of them takes memory but `next_swept`, whose answer has a text. Nothing is kept between two calls, so that an answer costs a
//! walk or several: this is the plain form of the rules, for a check of a history, and no queue.
#![tactic(auto)]

mod kept;
mod legal;
mod may_follow;
mod openable;
mod proper;
mod rows;
mod scene;
mod verdict;
mod wake;

pub use legal::{Breach, legal_next};
pub use rows::{may_know, may_resume, order_count};
pub use scene::Scene;
pub use verdict::Verdict;
