//! Limits of a spool.

/// The most bytes of an area that is written, with room for all that is still to be written of its pending messages.
pub const AREA_LIMIT: u64 = 1_073_741_824;
