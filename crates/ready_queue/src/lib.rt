//! The messages of one path that were promoted and not yet begun, in the order of promotion.
//!
//! A path keeps a `Ready`: a message that is promoted goes in by `push`, and one that is begun, or is no longer pending,
//! comes out by `remove`. What a connection takes up next is the first that is not held back, which `first_free` finds.
//!
//! Each message stands as its number, and is linked to the number before it and the one behind it, which an index finds. So
//! `push`, `remove` and `contains` take a few look-ups, wherever the message stands, and `len` none. They take no memory:
//! `reserve` takes it beforehand. `reserve` takes constant time counted over all calls: now and then it takes time for each
//! message, where it makes the index larger or clears it of what removed messages left. `first_free` looks at the first
//! message, and goes on by a look-up for each that is held.
//!
//! A message that goes need not give its room back, so whoever pushes calls `reserve` before.
#![tactic(auto)]

mod links;
mod queue;

pub use queue::Ready;
