//! The payloads of the records of a spool, to data and back: a message that is held, the id of one that is settled, and
//! how a message was deferred.
//!
//! The spool writes and reads with these functions; nothing here knows a disk, a file or a place in one. Each payload is
//! read exactly where it is one that a function here writes: `laws` says so both ways.
#![tactic(auto)]

mod deferred;
mod fault;
mod fields;
mod held;
mod kept;
pub mod laws;
mod settled;

pub use deferred::{Deferral, read_deferred, write_deferred};
pub use fault::FormatFault;
pub use held::{held_length, read_held, write_held};
pub use kept::Kept;
pub use settled::{read_settled, write_settled};
