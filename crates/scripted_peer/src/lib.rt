//! Receivers in memory that follow a script: a linker whose links answer each command with a chosen reply.
//!
//! The runs of the program over scripted peers depend on it, and so do its tests. No link of it reaches a network. Its
//! only fault is want of memory.
#![tactic(auto)]

mod link;
mod linker;
mod peer;
mod replies;

pub use link::ScriptedLink;
pub use linker::ScriptedLinker;
pub use replies::PeerReplies;
