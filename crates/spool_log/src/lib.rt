//! An area of the spool as a log of records: opening it, reading it record by record, appending to it, and making a new one.
//!
//! A record that is appended is there after `Ok`, and is there or is not there after a crash at any moment of the call. The header of
//! a new area and each record are guarded by one byte, a gate, which is opened when what it guards is on the disk. Nothing here
//! knows what a payload says.
#![tactic(auto)]

mod calls;
mod draft;
mod emptying;
mod head;
mod log;
mod read;

pub use draft::Draft;
pub use emptying::clear;
pub use head::{Header, Start};
pub use log::{Found, Log};
pub use read::{LogFault, Step};
