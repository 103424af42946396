//! What a turnstile has to know of the value that it guards.
//!
//! A value shows a stem, which never changes, a list of entries, which only grows, and four numbers, which never fall.
//! Contracts alone see these: nothing here runs, and no value of these types is made.
ghost use base.Stored.{Gv};
ghost use base.Fml.{ftrue};
ghost use Rattle.atomic_table.specs.Seated.{itself};

use std::collections::LinkedList;
use std::marker::Model;

/// Any value, as its code in the logic. Equal codes are equal values.
pub struct Code {
    pub ghost of: { Gv } by { itself },
}

impl Model for Code {
    ghost also_owns = { λ _. ftrue };
}

/// One entry: the number of the pass that made it, and what it says.
pub struct Note {
    pub by: u32,
    pub what: Code,
}

/// Four numbers that never fall, as counts of faults and the latest moment.
pub struct Counts {
    pub disk: u64,
    pub clock: u64,
    pub search: u64,
    pub high: u64,
}

/// What a value shows.
pub struct Shown {
    pub stem: Code,
    pub entries: LinkedList<Note>,
    pub counts: Counts,
}

/// A value with a history. An implementation says what it shows; the entries of two passes differ by their number.
pub trait Chronicle {
    ghost use Rattle.turnstile.specs.declared.chronicle.Shown.{Shown};

    ghost shown: { Self → Shown };
}
