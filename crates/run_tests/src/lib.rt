//! Tests of the runs of the program.
//!
//! It stands above `kumo_run` and has no function of its own, so that this is proved once and without tests. `transcript.rt` runs
//! the program over devices in memory; a subject's rows are a transcript, the commands and what comes of each.
#![tactic(auto)]

#[cfg(test)]
mod receivers;
#[cfg(test)]
mod transcript;
#[cfg(test)]
mod worked_runs;
