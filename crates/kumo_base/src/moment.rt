//! Moments.

/// The last moment, in milliseconds since 1970: the greatest whole number that JSON readers agree on, 2^53 - 1.
pub const LAST_MOMENT: u64 = 9_007_199_254_740_991;
