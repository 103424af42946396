//! The turnstile: threads enter one after another, in the order of their tickets.
//!
//! It keeps the value in the one slot of a table with two words, the next ticket and the one that is served. Memory is
//! taken in `new` alone. Each clause below is about the view of a pass: what it has seen, which numbers it has met.
ghost use Rattle.std.specs.Prelude.{◌≡◌, ℕ, ◌<◌, ◌≤◌, ◌≢◌, [], ◌∷◌, ◌++◌, List, Some, Contains, IfOk, IfErr, OnOk, OnErr};
ghost use Rattle.turnstile.specs.Entries.{Begins, AtMost, own_entries, SameOwn, AllBy, Follows, Note, Shown};
ghost use Rattle.turnstile.specs.Views.{IsSamePass, newcomer, with_number_given, fresh, joined, left_with, whose, AllMet};

use crate::chronicle::Chronicle;
use crate::moves::{Draw, Fetch, Give, Hand, Lay, Meet, Recall};
use crate::pass::{NoSeat, Pass};
use crate::steps::{Board, TICKETS, TURNS, count_up, look, take_seat, wait_for, wake_next};
use atomic_table::Table;
use kumo_base::Memory;
use std::alloc::Global;
use std::snapshot::Snapshot;
use std::sync::Wait;

/// A lock around a value with a history. `seats` is how many passes it has room for, the first with them.
pub struct Turnstile<T: Chronicle> {
    table: Board<T>,
    seats: u32,
    ghost sized: { (table.shared.table_id.words ≡ 2) × (table.shared.table_id.slots ≡ 1) },
}

impl<T: Chronicle> Turnstile<T> {
    ghost use Rattle.turnstile.specs.Passes.{view, stile_of, id_of, seats_of, IsIdle};

    /// A turnstile around `value` with the first pass, whose number is 0. The entries of the value are the pass's own.
    /// Where there is no memory the value comes back.
    pub fn new(alloc: Global, value: T, seats: u32) -> Result<(Turnstile<T>, Pass), (Memory, T)>
        requires seats { 0 < seats }
        requires first { AllBy 0 (T.shown value).entries }
        ensures seats { IfOk result (λ p. seats_of p.0 ≡ seats) }
        ensures table { IfOk result (λ p. stile_of p.1 ≡ id_of p.0) }
        ensures view { IfOk result (λ p. view p.1 ≡ newcomer 0 (T.shown value)) }
        ensures err { IfErr result (λ e. e.1 ≡ value) }
    {
        // The table begins in the first pass's turn, with an empty slot: so the value goes in as after any turn.
        let about = Snapshot::of(&value);
        let Ok((table, seat)) = Table::vacant(alloc, &[1, 0], 1, &about) else {
            return Err((Memory, value));
        };
        let stile = Turnstile { table, seats };
        let mut pass = Pass {
            badge: seat.into_badge(),
            number: 0,
            given: 1,
        };
        stile.leave(&mut pass, value);
        Ok((stile, pass))
    }

    /// One more pass, with the next number, which has seen what `pass` has seen and has no entries of its own. Refused
    /// exactly where as many passes as there are seats were made, and then nothing changes. It may be called at any time,
    /// also while `pass` has the turn: the new pass has seen what `pass` had seen before it entered.
    pub fn split(&self, pass: &mut Pass) -> Result<Pass, NoSeat>
        requires table { stile_of pass.old ≡ id_of self.now }
        requires first { (view pass.old).number ≡ 0 }
        ensures table { stile_of pass.new ≡ stile_of pass.old }
        ensures seat { OnOk result ((view pass.old).given < seats_of self.now) }
        ensures no_seat { OnErr result (seats_of self.now ≤ (view pass.old).given) }
        ensures gave { OnOk result (view pass.new ≡ with_number_given (view pass.old)) }
        ensures fresh { IfOk result (λ p. (stile_of p ≡ stile_of pass.old) × (view p ≡ fresh (view pass.old))) }
        ensures no_own { IfOk result (λ p. own_entries (view p).number (view p).seen.entries ≡ []) }
        ensures same { OnErr result (view pass.new ≡ view pass.old) }
    {
        if pass.given >= self.seats {
            return Err(NoSeat);
        }
        let number = pass.given;
        let mut seat = take_seat(&mut pass.badge);
        look::<T, Recall>(&self.table, &mut seat);
        let other = self.table.shared.split_seat::<Give>(&mut seat);
        pass.badge = seat.into_badge();
        pass.given = number + 1;
        Ok(Pass {
            badge: other.into_badge(),
            number,
            given: 0,
        })
    }

    /// Waits for the turn and takes the value. It need not return: nothing is said of whether and when a pass is served.
    pub fn enter<R: Wait>(&self, rt: &R, pass: &mut Pass) -> T
        requires table { stile_of pass.old ≡ id_of self.now }
        requires idle { IsIdle pass.old }
        ensures table { stile_of pass.new ≡ stile_of pass.old }
        ensures same { IsSamePass (view pass.old) (view pass.new) }
        ensures took { (view pass.new).took ≡ Some (T.shown result) }
        ensures stem { (T.shown result).stem ≡ (view pass.old).seen.stem }
        ensures prefix { Begins (view pass.old).seen.entries (T.shown result).entries }
        ensures own { SameOwn (whose (view pass.old)) (view pass.old).seen.entries (T.shown result).entries }
        ensures numbers { AtMost (view pass.old).seen.counts (T.shown result).counts }
    {
        let mut seat = take_seat(&mut pass.badge);
        let ticket = count_up::<T, Draw>(&self.table, &mut seat, TICKETS);
        wait_for(&self.table, rt, &mut seat, ticket);
        let held = self.table.shared.exchange(&mut seat, 0, None);
        look::<T, Lay>(&self.table, &mut seat);
        pass.badge = seat.into_badge();
        held.unwrap()
    }

    /// Puts the value back and serves the next ticket. What the turn added carries the pass's number, and counts as seen.
    pub fn leave(&self, pass: &mut Pass, value: T)
        requires table { stile_of pass.old ≡ id_of self.now }
        requires follows { (x : Shown) × ((view pass.old).took ≡ Some x) × Follows (view pass.old).number x (T.shown value) }
        ensures table { stile_of pass.new ≡ stile_of pass.old }
        ensures left { view pass.new ≡ left_with (T.shown value) (view pass.old) }
    {
        let mut seat = take_seat(&mut pass.badge);
        look::<T, Fetch>(&self.table, &mut seat);
        let old = self.table.shared.exchange(&mut seat, 0, Some(value));
        let None = old else { unreachable!() };
        let served = count_up::<T, Hand>(&self.table, &mut seat, TURNS);
        pass.badge = seat.into_badge();
        wake_next(&self.table, served);
    }

    /// Takes over what `other` has seen and the numbers that it knows. The pass `other` ends.
    pub fn meet(&self, pass: &mut Pass, other: Pass)
        requires table { stile_of pass.old ≡ id_of self.now }
        requires other_table { stile_of other ≡ id_of self.now }
        requires idle { IsIdle pass.old × IsIdle other }
        requires second { (view other).number ≢ 0 }
        ensures table { stile_of pass.new ≡ stile_of pass.old }
        ensures joined { view pass.new ≡ joined (view pass.old) (view other) }
        ensures prefix { Begins (view pass.old).seen.entries (view pass.new).seen.entries }
        ensures others_prefix { Begins (view other).seen.entries (view pass.new).seen.entries }
        ensures own { SameOwn (whose (view pass.old)) (view pass.old).seen.entries (view pass.new).seen.entries }
        ensures others_own { SameOwn (whose (view other)) (view other).seen.entries (view pass.new).seen.entries }
    {
        let Pass { mut badge, .. } = other;
        let mut seat = take_seat(&mut pass.badge);
        self.table
            .shared
            .join_seat::<Meet>(&mut seat, take_seat(&mut badge));
        look::<T, Recall>(&self.table, &mut seat);
        pass.badge = seat.into_badge();
    }

    /// Takes the turnstile apart, once pass 0 has met every other pass, itself or by one that it met.
    pub fn close(self, pass: Pass) -> T
        requires table { stile_of pass ≡ id_of self }
        requires first { (view pass).number ≡ 0 }
        requires idle { IsIdle pass }
        requires met { AllMet (view pass) }
        ensures stem { (T.shown result).stem ≡ (view pass).seen.stem }
        ensures prefix { Begins (view pass).seen.entries (T.shown result).entries }
        ensures own { SameOwn (whose (view pass)) (view pass).seen.entries (T.shown result).entries }
        ensures others { (w : ℕ) → ¬ Contains (whose (view pass)) w → own_entries w (T.shown result).entries ≡ [] }
        ensures numbers { AtMost (view pass).seen.counts (T.shown result).counts }
    {
        let Turnstile { table, seats: _ } = self;
        let Pass { mut badge, .. } = pass;
        let mut closed = table.close_with(take_seat(&mut badge));
        let slot = closed.take(0);
        closed.free();
        slot.unwrap()
    }
}
