//! A walk over the pending messages, in the order of holding.
ghost use Rattle.std.specs.Prelude.{◌≡◌, ◌++◌, drop, option_to_list, slice_get};

use crate::place::Place;
use std::marker::Model;

/// The messages that a walk has still to come to. It takes no memory.
#[derive(Drop)]
pub struct Walk<'a> {
    pub(crate) slots: &'a [Option<Place>],
}

impl<'a> Model for Walk<'a> {
    ghost use Rattle.std.specs.Prelude.{List};
    ghost use Rattle.spool_index.specs.declared.place.Place.{Place};
    ghost use Rattle.spool_index.specs.Slots.{kept};

    ghost Value = { List Place };

    ghost view = { λ w. kept w.slots.now };
}

impl<'a> Walk<'a> {
    /// The next message, or `None` at the end.
    pub fn next(&mut self) -> Option<Place>
        ensures next { result ≡ slice_get self.old 0 }
        ensures left { self.new ≡ drop 1 self.old }
        ensures all { self.old ≡ option_to_list result ++ self.new }
    {
        while let Some((slot, rest)) = self.slots.split_first() {
            self.slots = rest;
            if let Some(place) = slot {
                return Some(*place);
            }
        }
        None
    }
}
