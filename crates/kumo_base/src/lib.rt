//! The plain data that every crate speaks of: texts, bytes and lists that contracts see as lists, borrowed texts and what
//! stands around a mark in them, the two answers without a cause in the data, room for a reply, numbered lines, moments and
//! durations.
//!
//! It depends on no other crate. What is here is said once for the whole core.
#![tactic(auto)]

mod borrowed;
mod bytes;
mod duration;
mod faults;
mod items;
pub mod laws;
mod lines;
mod moment;
mod room;
mod text;

pub use borrowed::{all_digits, around_first, utf8_in};
pub use bytes::Bytes;
pub use duration::{DurationFault, DurationWhy, LONGEST_DURATION, duration_of, unit_milliseconds};
pub use faults::{Failed, Memory};
pub use items::Items;
pub use lines::Lines;
pub use moment::LAST_MOMENT;
pub use room::{REPLY_TEXT_LIMIT, Room};
pub use text::Text;
