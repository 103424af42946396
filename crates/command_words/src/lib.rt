//! The words of the command line: which lists of words are a command, and which one. There is no text of help.
//!
//! The first word is the command. Each option stands behind it once at most, as `--name value` or as `--name=value`; a value
//! is not empty, and as a word of its own it does not begin with `-`. Everything else is no command.
//!
//! `options.rt` reads options out of words, `verb.rt` says which options each command takes, `numbers.rt` reads the numbers
//! among their values, and `command.rt` has the commands. Nothing here takes memory but the name of a queue that a question
//! is about.
#![tactic(auto)]

mod command;
pub mod laws;
mod names;
mod numbers;
mod options;
mod verb;

pub use command::{Command, Question, Sending, command_of};
pub use names::PolicyNames;
pub use numbers::{GREATEST_LOAD, GREATEST_WORKERS};
