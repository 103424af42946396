//! Replies to an SMTP client (RFC 5321 section 4.2): what one is, how it is read in whatever pieces it comes, and what
//! becomes of an attempt by it.
//!
//! The definition of a reply is a grammar on whole bytes (specs/Grammar.antt); `ReplyReader` keeps a few words of state
//! and one room, and answers the same for the same bytes, however they were cut. It takes no memory. The dialogue feeds
//! it what a link gives; histories and logs speak of its `Outcome`.
#![tactic(auto)]

pub mod laws;
mod one_line;
mod place;
mod reader;
mod reply;
mod said;

pub use reader::{Fed, Heard, REPLY_LIMIT, ReplyReader};
pub use reply::{Lost, Outcome, Reply};
