//! The limits of one path, from one source to one site, over the calls made on it: how many connections are open, how often
//! they are opened, how often attempts begin, and how many connections were refused in a row.
//!
//! A `Path` stands for the list of the calls made on it, and answers as that list says, but does not keep it: for each open
//! connection it keeps what the next answer needs, and for each throttle's key a bucket. The options in force come with
//! each call. It knows no messages, no other path and no clock.
#![tactic(auto)]

mod connection;
pub mod laws;
mod leave;
mod path;
mod rates;

pub use leave::Leave;
pub use path::Path;
