//! The top call of the program: from the words, the bytes of texts and the disk to the bytes of the delivery log, or of what
//! `check`, `explain` and `spool` print.
//!
//! `perform` is what `main` calls and what the headline is a contract of. `send.rt` sends a mail text, and `policy_answers.rt`
//! makes the texts on policies, `spool.rt` the text on a spool; `named.rt` says which devices the words name; `refusal.rt` has the lines of what is refused, `status.rt` how a run ends, and `laws.rt` what
//! follows of the headline's contract. The modules `registry` and `dispatcher` will become crates of these names.
#![tactic(auto)]

mod dispatcher;
pub mod laws;
mod named;
mod policy_answers;
mod refusal;
mod registry;
mod run;
mod send;
mod spool;
mod status;

pub use named::{Devices, place};
pub use refusal::Refusal;
pub use run::{Finished, perform};
pub use scripted_peer::{PeerReplies, ScriptedLink, ScriptedLinker};
pub use send::send_mail_text;
pub use status::Status;
