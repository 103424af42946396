//! Traffic shaping automation for all paths of a run (KumoMTA's manual, the shaping helper's automation): which rules of a path
//! match a reply, when a match fires its rule, and what is in force by the firings.
//!
//! An `Automaton` is told each match as it comes. It keeps neither matches nor names, but of each rule the moments of its last
//! matches, as many as its trigger looks back on, and those of its firings that are not over yet.
#![tactic(auto)]

mod automaton;
mod firing;
mod known_path;
mod matching;
mod ring;
mod rule_state;
mod setting;

pub use automaton::Automaton;
