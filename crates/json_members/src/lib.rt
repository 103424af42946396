//! Lines of compact JSON: how ids are printed, how members are put into an object, and the line of a value.
//!
//! The writers of the log and of mail lines call it, so that both print alike. It keeps nothing, and its one refusal is
//! `Memory`. The map of an object keeps its keys in byte order, whatever the order in which they are put.
#![tactic(auto)]

mod ids;
pub mod laws;
mod line;
mod members;

pub use ids::id_text;
pub use line::value_line;
pub use members::{put_given, put_number, put_text};
