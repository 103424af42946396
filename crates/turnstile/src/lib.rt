//! A lock that threads pass in the order of tickets, and whose value carries one history that every pass knows.
//!
//! `Turnstile` guards a value that shows a list of entries (`Chronicle`). A thread enters with a `Pass`, which has a
//! number. Mutual exclusion is the least that the contracts say: what a pass has seen is a beginning of the list of each
//! value that it gets, the entries with its number are exactly those that its own turns made, and passes that meet learn
//! what the other has seen.
//!
//! `chronicle` says what is asked of the value, `view` what a pass knows and the rule that every step keeps, `moves` what
//! each step tells its pass, `steps` how one waits and wakes, `pass` and `stile` the public calls. The rule itself stands in
//! specs/Rule.antt.
#![tactic(auto)]

mod chronicle;
pub mod laws;
mod moves;
mod pass;
mod steps;
mod stile;
mod view;

pub use chronicle::{Chronicle, Code, Counts, Note, Shown};
pub use pass::{NoSeat, Pass};
pub use stile::Turnstile;
pub use view::{InTurn, Told, View};
