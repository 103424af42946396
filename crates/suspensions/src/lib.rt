//! The orders of an administrator, and which of them are live (KumoMTA's administrative suspensions and bounces).
//!
//! The registry puts each order into a `Book` by `add`, takes one back by `resume`, and asks whether a live one holds a
//! queue's messages, bounces them or halts a path, and when the next one ends. An answer goes over the orders that end after
//! its moment and were not taken back, and over no other: their ends stand in order, and a binary search finds the first.
#![tactic(auto)]

mod book;
mod ends;
mod given;
mod question;

pub use book::{Book, Unknown};
pub use given::Given;
