//! What a history comes to on its paths: the promotions and the paths themselves, which replies match which rules, which rules are in
//! force by their firings, the limits in force and what the rates admit. Each call answers a definition of `history_core`, of any
//! list of entries, legal or not.
//!
//! `Known` (promotions and paths) and `Examined` (matches and firings) are found entry by entry, with memory and a search; the other
//! calls take what was found and no memory.
#![tactic(auto)]

pub mod automation;
pub mod limits;
pub mod matching;
pub mod paths;
pub mod rates;
pub mod replies;
