//! Tests of the crates that talk to the world: the devices, searches of patterns, replies in pieces, the dialogue over a link,
//! scripted peers, and the lines of the log and of mail.
//!
//! It stands above these crates and has no function of its own, so that each of them is proved once and without tests.
#![tactic(auto)]

#[cfg(test)]
mod devices;
#[cfg(test)]
mod log_lines;
#[cfg(test)]
mod mail_lines;
#[cfg(test)]
mod patterns;
#[cfg(test)]
mod replies;
#[cfg(test)]
mod script;
#[cfg(test)]
mod scripted_peers;
#[cfg(test)]
mod sessions;
