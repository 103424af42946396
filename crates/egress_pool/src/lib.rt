//! Whose turn it is: the sources of a pool in a weighted rotation, as KumoMTA's egress pools share mail among egress
//! sources.
//!
//! The registry keeps a turner for each pool and asks it when a message gets its source. The rotation is a cyclic list of
//! as many places as the weights' sum; it is not stored.
#![tactic(auto)]

mod turner;

pub use turner::Turner;
