//! Which messages are due when, as a scheduled queue of KumoMTA keeps them, and how long a message waits after a failure.
//!
//! The registry keeps a `Schedule` of the messages that wait for their next attempt: it puts a message in with the moment
//! that it is due at, takes it out by its number, and asks which is due first and when the next one is. Each call takes
//! time in the logarithm of how many wait, and none but `reserve` takes memory.
#![tactic(auto)]

mod delay;
mod due;
mod schedule;
mod tree;

pub use delay::delay_after;
pub use due::Due;
pub use schedule::Schedule;
