//! The spool: which messages were accepted and have no fate yet, on a disk that may stop at any moment.
//!
//! Whoever accepts a message answers for it. So it is written here before the sender is told, and is taken out once it was
//! delivered, bounced or expired. After a crash the spool is opened again and gives each message that has no fate yet.
//!
//! A [`Store`] keeps the disk, the log of the area in force, and of each pending message its id, the place and length of its
//! record, its failures and the moment from which it is tried next. The messages themselves lie on the disk alone: opening answers
//! them once, and later they are read only to be written anew.
//!
//! The disk has two areas of bytes. One is in force: it is a log to which each call adds one record, for a message that is held,
//! settled or deferred. The other is empty, or is the log that was in force before. A header numbers the generation of its area; of
//! two areas that are not blank the one is in force whose generation follows the other's.
//!
//! A log only grows. When it has no room for what is to be added, when it was written in the first version of the format, and when
//! `compact` is called, the pending messages are written anew into the other area, with the next generation. That area stays blank
//! for a reader until all of it is on the disk, and then takes over in one step. `wants_compact` says when that is worth its cost.
//! A message is taken in only as long as all that may still be written of the pending ones fits an area (`AREA_LIMIT`).
//!
//! The registry of messages is the caller: it opens the store, holds what it accepts, makes room before an attempt begins, and
//! settles or defers when the attempt has ended. It alone decides; nothing here knows of queues, retries or clocks.
//!
//! A crash in the middle of a call leaves the messages from before the call, or those with its one change. Opening syncs both areas
//! first, so that what is read then is what a further crash leaves; `laws` says that opening again gives the same. After a fault of
//! the disk a store is down and touches the disk no more: what is pending is then known only by opening it again.
//!
//! `open` and `opening` open a spool, `replay` and `gather` read it, `records` adds one record, `rewrite` writes all anew,
//! `fitting` sees to room, and `store` has the calls.
#![tactic(auto)]

mod faults;
mod fitting;
mod gather;
pub mod laws;
mod limits;
mod open;
mod opening;
mod pending_ids;
mod records;
mod replay;
mod rewrite;
mod store;

pub use faults::{CompactFault, HoldFault, OpenFault, SettleFault};
pub use limits::AREA_LIMIT;
pub use pending_ids::PendingIds;
pub use store::Store;
