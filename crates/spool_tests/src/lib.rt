//! Tests of the spool over a disk in memory: the bytes that its calls leave, what is opened of bytes that others left, and what a
//! crash at any call may leave.
#![tactic(auto)]

#[cfg(test)]
mod crashes;
#[cfg(test)]
mod spool;
