//! Tests of the turnstile with threads. They stand apart from it, so that it is proved once and not again with them.
//!
//! `ledger` is a small value to pass through one, for those who write another `Chronicle`.
#![tactic(auto)]

mod ledger;
#[cfg(test)]
mod tests;
