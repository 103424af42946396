//! Which messages are pending in the spool, in the order in which they came to be held, each with where its record stands.
//!
//! The store of a spool keeps a `Pending` beside its file: it holds a message by `push`, settles it by `settle`, moves it to
//! a later time by `delay`, finds it by its id, and walks over all of them when it writes its file anew. Each call takes
//! constant time, counted over all calls; a step of a walk too.
#![tactic(auto)]

mod pending;
mod place;
mod slots;
mod walk;

pub use pending::Pending;
pub use place::Place;
pub use walk::Walk;
