//! What a connection is told when it asks to begin an attempt.

/// Whether an attempt may begin on a connection, else the first reason why not, in this order.
#[derive(Clone, Copy, Debug, PartialEq, Eq)]
pub enum Leave {
    Yes,
    /// It has had nothing to send for the path's idle timeout.
    Stale,
    /// It has had its number of attempts.
    Spent,
    /// Its path has more open connections than may be.
    Shed,
    /// The rate of messages admits none before this moment, in milliseconds since 1970. Where it admits none at all, this
    /// is the latest moment.
    Throttled(u64),
}
