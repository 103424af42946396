//! The policy texts of one run: they are read one after another and put together to a policy, and printed texts say what came
//! of them.
//!
//! `load.rt` reads and assembles, with the stages of `stages.rt`. `report.rt` lists the keys that have no effect, and
//! `explain.rt` says what applies to a queue's name and a source.
#![tactic(auto)]

mod explain;
mod load;
mod report;
mod stages;

pub use explain::explain_queue;
pub use load::{LoadFault, PolicyTexts, load_policy};
pub use report::report_keys;
