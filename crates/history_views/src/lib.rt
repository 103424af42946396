//! Messages, connections and orders of a history, found by going over its entries: each call answers the definition of
//! `history_core` of the same name, of any list of entries, legal or not. None takes memory.
#![tactic(auto)]

pub mod connections;
pub mod messages;
pub mod orders;
