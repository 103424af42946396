//! Why a policy text is refused, which of its keys have no effect, and how the table is named in which that stands.
//!
//! All readers of policy texts answer these types, and the top call prints them.
#![tactic(auto)]

mod fault;
mod table_name;

pub use fault::{Ignored, PolicyFault, PolicyFile, PolicyPlace, Why};
pub use table_name::joined;
