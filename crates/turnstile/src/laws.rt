//! Laws of turns and of the rule. Each function does nothing: its contract is the law, and the check proves it.
ghost use Rattle.std.specs.Prelude.{◌≡◌, ◌≢◌, ℕ, List, ◌++◌, Option, Some};
ghost use mathlib.Core.Option.{some};
ghost use lib.ListN.{get_elem?};
ghost use Rattle.atomic_table.specs.Table.{State};
ghost use Rattle.turnstile.specs.Views.{View};
ghost use Rattle.turnstile.specs.Entries.{own_entries, Follows, Note, Shown};
ghost use Rattle.turnstile.specs.Rule.{Kept};

use crate::chronicle::Chronicle;

/// At most one pass has the value.
pub fn one_pass_has_the_value<T: Chronicle>()
    ensures { (s : State (Option T) View) → Kept T.shown s → (i j : ℕ) (v w : View) (x y : Shown)
        → get_elem? s.views i ≡ some v → get_elem? s.views j ≡ some w → v.took ≡ Some x → w.took ≡ Some y → i ≡ j }
{}

/// What a turn added is, of its pass's entries, what there is more.
pub fn turn_adds_its_own_entries()
    ensures { (w : ℕ) (y x : Shown) (more : List Note) → Follows w y x
        → x.entries ≡ y.entries ++ more → own_entries w x.entries ≡ own_entries w y.entries ++ more }
{}

/// A turn leaves the entries of every other pass as they were.
pub fn others_entries_stay()
    ensures { (w u : ℕ) (y x : Shown) → Follows w y x → u ≢ w → own_entries u x.entries ≡ own_entries u y.entries }
{}
