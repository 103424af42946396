//! How often something may happen: throttles, as `100/min`, and the buckets that keep them.
//!
//! `ThrottleSpec` is a throttle and reads its text. `Bucket` keeps one number and answers, as `conforms` does from the
//! whole list, whether one more moment keeps the throttle. Paths of the shaping policy have a bucket for each throttle.
//! The parts of a throttle's text are read by calls of their own, for texts that are made of the same parts.
#![tactic(auto)]

mod bucket;
mod conforming;
pub mod laws;
mod parse;
mod throttle;

pub use bucket::Bucket;
pub use conforming::conforms;
pub use parse::{ThrottleFault, number_in, period_of, without_local};
pub use throttle::{GREATEST_QUANTITY, LONGEST_PERIOD, ThrottleSpec};
