//! A small value to pass through a turnstile: a ledger of marks, each with the number of the pass that made it.
//!
//! It shows how a type becomes a `Chronicle`, and what a caller has of the turnstile's contracts: `mark_turn` adds its
//! mark behind all that stands in the ledger, and its pass then knows of its own marks exactly those that it made.
ghost use Rattle.std.specs.Prelude.{◌≡◌, ◌++◌, MatchBool};
ghost use Rattle.turnstile.specs.Entries.{Follows, own_entries};
ghost use Rattle.turnstile.specs.Passes.{view, stile_of, id_of, IsIdle, KeepsPlace};
ghost use Rattle.turnstile_tests.specs.inside.Ledgers.{shown_marks, with_mark, notes_made};

use std::alloc::Global;
use std::sync::Wait;
use turnstile::{Chronicle, Pass, Turnstile};

/// One entry of a ledger: the number of the pass that made it, and a number of its own.
#[derive(Clone, Copy, Debug, PartialEq, Eq)]
pub struct Mark {
    pub by: u32,
    pub number: u32,
}

/// Marks in the order in which they were made.
#[derive(Drop)]
pub struct Ledger {
    pub marks: Vec<Mark, Global>,
}

impl Chronicle for Ledger {
    ghost use Rattle.turnstile_tests.specs.inside.Ledgers.{shown_marks};

    ghost shown = { λ b. shown_marks b.marks.items };
}

impl Ledger {
    /// Adds a mark, unless there is no memory: then it answers false, and nothing changes.
    pub fn add(&mut self, by: u32, number: u32) -> bool
        ensures follows { Follows by (shown_marks self.old.marks.items) (shown_marks self.new.marks.items) }
        ensures added { MatchBool result (self.new.marks.items ≡ with_mark self.old.marks.items by number)
            (self.new.marks.items ≡ self.old.marks.items) }
    {
        self.marks.push(Mark { by, number }).is_ok()
    }
}

/// One turn that adds a mark. It answers false where there is no memory for it.
pub fn mark_turn<R: Wait>(rt: &R, stile: &Turnstile<Ledger>, pass: &mut Pass, number: u32) -> bool
    requires table { stile_of pass.old ≡ id_of stile.now }
    requires idle { IsIdle pass.old }
    ensures place { KeepsPlace pass.old pass.new }
    ensures own { let v = view pass.old in
        own_entries v.number (view pass.new).seen.entries
        ≡ own_entries v.number v.seen.entries ++ notes_made result v.number number }
{
    let mut ledger = stile.enter(rt, pass);
    let done = ledger.add(pass.number(), number);
    stile.leave(pass, ledger);
    done
}
