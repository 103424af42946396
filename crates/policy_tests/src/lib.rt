//! Tests of what no run of the program shows yet: throttles, the turns of a pool, names of queues, and copies.
//!
//! They show that each public call succeeds where there is memory, and worked values. There is no other function here, so that
//! the crates below are proved once and without tests.
#![tactic(auto)]

#[cfg(test)]
mod buckets;
#[cfg(test)]
mod copies;
#[cfg(test)]
mod names;
#[cfg(test)]
mod turns;
