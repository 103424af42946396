//! How a pass takes its seat at the table, makes its moves, waits, and wakes the next.
//!
//! `look` and `count_up` are the table's own steps on one word, at the types of a turnstile: callers name the move alone.
//!
//! A turn takes a ticket, looks at the number served until it is the ticket, and takes the value with that look. While the
//! pass has the value, the emptied slot is at home with nothing in it, so that the pass can rest as a `Badge`; both ways
//! of the slot are looks too. Putting the value back and serving the next ticket are one step.
ghost use Rattle.std.specs.Prelude.{◌≡◌, ℕ, ◌+◌, ◌%◌, ◌^◌, ◌<◌, [], ◌∷◌, length, true, Some};
ghost use Rattle.turnstile.specs.Views.{known};
ghost use mathlib.Core.Option.{none};
ghost use Rattle.atomic_table.specs.Table.{Allows, step};
ghost use Rattle.turnstile.specs.Rule.{Kept, Knows};
ghost use Rattle.turnstile.specs.inside.Steps.{Waits};

use crate::chronicle::Chronicle;
use crate::moves::Look;
use crate::view::{InTurn, View};
use atomic_table::{Badge, Play, Seat, Table};
use std::alloc::Global;
use std::hint::spin_loop;
use std::mem;
use std::snapshot::Snapshot;
use std::sync::Wait;

/// The word with the next ticket. It wraps, as the other does.
pub const TICKETS: usize = 0;

/// The word with the ticket that is served.
pub const TURNS: usize = 1;

/// How often a pass looks before it parks.
const LOOKS: u32 = 100;

pub type Board<T> = Table<Option<T>, View, Snapshot<T>, InTurn, Global>;

pub type Place<T> = Seat<Option<T>, View>;

/// The seat that a badge stood for. What is left in its place is no seat.
pub fn take_seat<T: Chronicle>(badge: &mut Badge<View>) -> Place<T>
    requires one { length badge.old.views ≡ 1 }
    ensures table { result.table_id ≡ badge.old.table_id }
    ensures view { result.me ≡ (known badge.old.views, []) }
{
    mem::replace(badge, Badge::blank()).into_seat::<Option<T>>()
}

/// One look at the number served, at which the seat makes the move `M`.
pub fn look<T: Chronicle, M: Play<Option<T>, View>>(board: &Board<T>, seat: &mut Place<T>) -> u64
    requires board { (seat.old.table_id ≡ board.now.shared.table_id) × (board.now.shared.table_id.words ≡ 2) }
    requires allowed { let slots = board.now.shared.table_id.slots in
        Allows (Kept T.shown) slots seat.old.id seat.old.me 1 (λ n. n) (M.then (step slots 1 0 0 none) seat.old.me) }
    ensures seat { (seat.new.table_id ≡ seat.old.table_id) × (seat.new.id ≡ seat.old.id) }
    ensures told { M.then (step board.now.shared.table_id.slots 1 0 0 none) seat.old.me result seat.new.me }
{
    board.shared.load::<M>(seat, TURNS)
}

/// Adds one to a word, at which the seat makes the move `M`. The answer is what the word was.
pub fn count_up<T: Chronicle, M: Play<Option<T>, View>>(
    board: &Board<T>,
    seat: &mut Place<T>,
    word: usize,
) -> u64
    requires board { (seat.old.table_id ≡ board.now.shared.table_id) × (board.now.shared.table_id.words ≡ 2) }
    requires word { word < 2 }
    requires allowed { let slots = board.now.shared.table_id.slots in
        Allows (Kept T.shown) slots seat.old.id seat.old.me word (λ n. (n + 1) % 2 ^ 64)
        (M.then (step slots word 1 0 none) seat.old.me) }
    ensures seat { (seat.new.table_id ≡ seat.old.table_id) × (seat.new.id ≡ seat.old.id) }
    ensures told { M.then (step board.now.shared.table_id.slots word 1 0 none) seat.old.me result seat.new.me }
{
    board.shared.fetch_add::<M>(seat, word, 1)
}

/// Waits until the ticket is served, and takes the value. After some looks it parks until the number served changes.
pub fn wait_for<T: Chronicle, R: Wait>(board: &Board<T>, rt: &R, seat: &mut Place<T>, ticket: u64)
    requires board { (seat.old.table_id ≡ board.now.shared.table_id) × (board.now.shared.table_id.words ≡ 2) }
    requires waits { Waits ticket seat.old.me }
    ensures seat { (seat.new.table_id ≡ seat.old.table_id) × (seat.new.id ≡ seat.old.id) }
    ensures took { (y : T) × (seat.new.me ≡ (record seat.old.me.0 { took = Some (T.shown y); away = true }, (0, Some y) ∷ []))
        × Knows (T.shown y) seat.old.me.0 }
{
    let mut looks = 0;
    for _ in rt.forever() {
        let served = look::<T, Look>(board, seat);
        if served == ticket {
            return;
        }
        if looks < LOOKS {
            looks += 1;
            spin_loop();
        } else {
            board.shared.park(rt, TURNS, (served & 0xffff_ffff) as u32);
        }
    }
    unreachable!()
}

/// Wakes the passes that park, after the ticket `served` was: unless no pass has a ticket, since then none parks. One that
/// takes a ticket later sees the new number before it parks.
pub fn wake_next<T: Chronicle>(board: &Board<T>, served: u64)
    requires { board.now.shared.table_id.words ≡ 2 }
{
    if board.shared.peek(TICKETS) != served.wrapping_add(1) {
        board.shared.wake_all(TURNS);
    }
}
