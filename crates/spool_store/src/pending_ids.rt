//! The ids of pending messages, one after another.
ghost use Rattle.std.specs.Iterator.{YieldsFirst, item_count};

use spool_index::Walk;
use std::marker::Model;

/// The ids to which a walk over the pending messages has still to come, in the order of holding. It takes no memory.
#[derive(Drop)]
pub struct PendingIds<'a> {
    pub(crate) walk: Walk<'a>,
}

impl<'a> Model for PendingIds<'a> {
    ghost use Rattle.std.specs.Prelude.{List, ℕ};
    ghost use Rattle.spool_index.specs.Places.{ids_of};

    ghost Value = { List ℕ };

    ghost view = { λ p. ids_of p.walk };
}

impl<'a> Iterator for PendingIds<'a> {
    type Item = u128;

    ghost next_gives = { YieldsFirst (λ ids. ids) };

    ghost remaining = { item_count (λ ids. ids) };

    fn next(&mut self) -> Option<u128> {
        let place = self.walk.next()?;
        Some(place.id)
    }
}
