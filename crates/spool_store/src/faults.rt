//! Why a call of a spool could not do what it was asked.

/// Why a spool could not be opened.
#[derive(Clone, Copy, Debug, PartialEq, Eq)]
pub enum OpenFault {
    /// The disk failed, and its count of faults has risen.
    DiskFault,
    /// This area's bytes are wrong from this offset on.
    Damaged(u8, u64),
    /// So many messages are pending, and what they may still need passes the limit of an area.
    TooLarge(u64),
    /// There was no memory.
    Memory,
}

/// Why the pending messages could not be written anew into the other area.
#[derive(Clone, Copy, Debug, PartialEq, Eq)]
pub enum RewriteFault {
    /// The disk failed, and its count of faults has risen.
    DiskFault,
    /// There was no memory. Nothing was done.
    Memory,
}

/// Why a message could not be held.
#[derive(Clone, Copy, Debug, PartialEq, Eq)]
pub enum HoldFault {
    /// The disk failed in an earlier call. Nothing was done.
    Down,
    /// With this message the pending ones might need more than an area may have. Nothing was done.
    SpoolFull,
    /// The disk failed, and its count of faults has risen. The store is down.
    DiskFault,
    /// There was no memory. The message is not pending, and the others are as before.
    Memory,
}

/// Why a message could not be settled or deferred.
#[derive(Clone, Copy, Debug, PartialEq, Eq)]
pub enum SettleFault {
    /// The disk failed in an earlier call. Nothing was done.
    Down,
    /// The disk failed, and its count of faults has risen. The store is down.
    DiskFault,
}

/// Why room could not be made, or the pending messages not be written anew.
#[derive(Clone, Copy, Debug, PartialEq, Eq)]
pub enum CompactFault {
    /// The disk failed in an earlier call. Nothing was done.
    Down,
    /// The disk failed, and its count of faults has risen. The store is down.
    DiskFault,
    /// There was no memory. The store goes on as before.
    Memory,
}
