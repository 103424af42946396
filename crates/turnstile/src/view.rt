//! What a pass knows, and the rule that every step of every thread keeps.
//!
//! A `View` lies in no memory: it is what contracts and proofs keep for a pass. The rule (`Kept` in specs/Rule.antt) is a
//! fact about the two words, the slot and all views. It holds between any two steps, whatever the schedule is.
use crate::chronicle::{Chronicle, Note, Shown};
use atomic_table::TableRule;
use std::collections::LinkedList;
use std::snapshot::Snapshot;

/// What one of two passes that met had seen, and the numbers whose entries it knew whole.
pub struct Told {
    pub entries: LinkedList<Note>,
    pub numbers: LinkedList<u32>,
}

/// What one pass knows.
pub struct View {
    /// Its number, from 0 in the order in which passes were made.
    pub number: u32,
    /// Its ticket, counted without end, while it waits or has the turn.
    pub ticket: Option<u64>,
    /// What the value showed that it took, while it has the turn.
    pub took: Option<Shown>,
    /// Whether the slot is out with it. It is so in the midst of `enter` and `leave` alone.
    pub away: bool,
    /// What the last value showed that it left, or that it was made or met with.
    pub seen: Shown,
    /// The numbers of the passes that it met, and of those that they had met.
    pub met: LinkedList<u32>,
    /// What the two sides had seen that met last. Leaving forgets it.
    pub left: Told,
    pub right: Told,
    /// How many numbers pass 0 gave, its own with them.
    pub given: u64,
    /// Whether it was met: then it knows nothing, and no pass has this view.
    pub spent: bool,
}

/// The rule of a turnstile. Its key is the first value.
pub struct InTurn;

impl<T: Chronicle> TableRule<Option<T>, View, Snapshot<T>> for InTurn {
    ghost use Rattle.turnstile.specs.Rule.{Kept};
    ghost use Rattle.turnstile.specs.Views.{founder};

    ghost holds = { λ _. Kept T.shown };

    ghost first = { λ x. founder (T.shown x.value) };
}
