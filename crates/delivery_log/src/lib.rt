//! The delivery log: one line of compact JSON for each entry of a history.
//!
//! `entry_value.rt` makes the JSON value of an entry, `line.rt` prints it, and `log.rt` puts the lines of a whole history into a
//! sink, gathered by `line_buffer.rt`. The text itself is defined in `specs/LogText.antt`; `specs/inside` has what loops and
//! private functions cite.
#![tactic(auto)]

mod entry_value;
mod line;
mod line_buffer;
mod log;

pub use line::entry_line;
pub use log::{LogWriteFault, write_log};
