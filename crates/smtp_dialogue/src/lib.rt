//! The client's side of SMTP over any link: greet, attempt, farewell.
//!
//! Whatever pieces the bytes come in and wherever the link fails or ends, what is sent and what is answered are the
//! transcript of the bytes got. No call takes memory but `Scratch::new`.
#![tactic(auto)]

mod ask;
mod body;
mod delivery;
mod greeting;
pub mod laws;
mod listen;
mod parting;
mod scratch;
mod send;

pub use delivery::{Tried, attempt};
pub use greeting::{Greeted, greet};
pub use parting::farewell;
pub use scratch::Scratch;
