//! Tests of the parts of the registry: worked values, and for each part a table of made calls against a plain list.
//!
//! What a part answers is proved; these tests show that each public call succeeds where there is memory, and that the plain lists
//! that a reader has in mind give the same answers. There is no other function here, so that the crates below are proved once and
//! without tests.
#![tactic(auto)]

#[cfg(test)]
mod firings;
#[cfg(test)]
mod leases;
#[cfg(test)]
mod numbers;
#[cfg(test)]
mod orders;
#[cfg(test)]
mod ready;
#[cfg(test)]
mod schedule;
