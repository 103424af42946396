//! Tests of the rule book: histories entry by entry, of which each entry may follow those before it, and entries that may
//! not; and the logs of these histories.
//!
//! The histories stand as texts in `rows.rt`. `reader.rt` reads their lines, `policies.rt` their policies, and `walker.rt`
//! goes through them. The crate stands above the crates that compute the rules and has no function of its own, so that they
//! are proved once and without tests.
#![tactic(auto)]

#[cfg(test)]
mod answers;
#[cfg(test)]
mod policies;
#[cfg(test)]
mod reader;
#[cfg(test)]
mod rows;
#[cfg(test)]
mod walker;
