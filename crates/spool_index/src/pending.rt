//! The pending messages of a spool.
ghost use Rattle.std.specs.Prelude.{◌≡◌, ◌∷◌, ◌++◌, [], true, false, length, is_some, IfSome, OnOk, OnErr};
ghost use Rattle.spool_index.specs.Places.{has, find, without, with_delay, are_distinct, live_size, compacted_size, laid_out};

use crate::place::{Place, compacted_cost, live_cost};
use crate::slots::{held, lay_out, vacate};
use crate::walk::Walk;
use indexmap::IndexMap;
use kumo_base::Memory;
use std::alloc::Global;
use std::marker::Model;

/// Messages in the order in which they came to be held, each id once.
#[derive(Drop)]
pub struct Pending {
    slots: Vec<Option<Place>>,
    index: IndexMap<u128, usize>,
    live_size: u64,
    compacted_size: u64,
}

impl Model for Pending {
    ghost use Rattle.std.specs.Prelude.{List};
    ghost use Rattle.spool_index.specs.declared.place.Place.{Place};
    ghost use Rattle.spool_index.specs.Slots.{kept, IsKept};

    ghost Value = { List Place };

    ghost view = { λ s. kept s.slots.items };

    ghost invariant = { λ s. IsKept s.index s.slots.items s.live_size s.compacted_size };
}

impl Pending {
    /// No message is pending.
    pub fn new(alloc: Global) -> Pending
        ensures { result ≡ [] }
    {
        Pending {
            slots: Vec::new(alloc),
            index: IndexMap::new(alloc),
            live_size: 17,
            compacted_size: 17,
        }
    }

    /// Holds one more message, behind all others. After `Memory` all is as it was. That is also the answer where the live
    /// size would not fit 64 bits.
    pub fn push(&mut self, place: Place) -> Result<(), Memory>
        requires { has place.id self.old ≡ false }
        ensures ok { OnOk result (self.new ≡ self.old ++ place ∷ []) }
        ensures err { OnErr result (self.new ≡ self.old) }
    {
        let live_size = self.live_size.checked_add(live_cost(place)).ok_or(Memory)?;
        self.slots.reserve(1)?;
        self.index.insert(place.id, self.slots.len())?;
        self.slots.push_reserved(Some(place));
        self.live_size = live_size;
        self.compacted_size += compacted_cost(place);
        Ok(())
    }

    /// The message of this id.
    #[tactic(auto, using(crate::proofs::PlaceLemmas::known_by_find))]
    pub fn find(&self, id: u128) -> Option<Place>
        ensures found { result ≡ find id self.now }
        ensures known { is_some result ≡ has id self.now }
        ensures id { IfSome result (λ place. place.id ≡ id) }
    {
        let (_, place) = held(&self.slots, &self.index, id)?;
        Some(place)
    }

    /// The message of this id is no longer pending.
    pub fn settle(&mut self, id: u128)
        requires { has id self.old ≡ true }
        ensures { self.new ≡ without id self.old }
    {
        if let Some((slot, place)) = held(&self.slots, &self.index, id) {
            vacate(&mut self.slots, &mut self.index, slot, place);
            self.live_size -= live_cost(place);
            self.compacted_size -= compacted_cost(place);
        }
    }

    /// The message of this id has so many failures, and is due at that time, in milliseconds since 1970.
    pub fn delay(&mut self, id: u128, failures: u32, due: u64)
        requires { has id self.old ≡ true }
        ensures { self.new ≡ with_delay id failures due self.old }
    {
        if let Some((slot, place)) = held(&self.slots, &self.index, id) {
            let later = Place {
                failures,
                due,
                ..place
            };
            self.slots[slot] = Some(later);
            self.compacted_size = self.compacted_size - compacted_cost(place)
                + compacted_cost(later);
        }
    }

    /// The file has been written anew: from offset 16 on, in the order of holding, the record of each message, and behind it
    /// the record of its failures where it has some. Each message stands where its payload then is, and all else is as it
    /// was. It takes no memory, and time for each message.
    pub fn relocate(&mut self)
        ensures { self.new ≡ laid_out 16 self.old }
    {
        lay_out(&mut self.slots);
    }

    /// How many messages are pending.
    pub fn len(&self) -> usize
        ensures len { result ≡ length self.now }
        ensures distinct { are_distinct self.now ≡ true }
    {
        self.index.len()
    }

    /// The bytes that a file has to have room for, so that each pending message can be put off and settled.
    pub fn live_size(&self) -> u64
        ensures { result ≡ live_size self.now }
    {
        self.live_size
    }

    /// The bytes of a file that is written anew.
    pub fn compacted_size(&self) -> u64
        ensures { result ≡ compacted_size self.now }
    {
        self.compacted_size
    }

    /// A walk over all messages, in the order of holding.
    pub fn walk(&self) -> Walk<'_>
        ensures { result ≡ self.now }
    {
        Walk {
            slots: self.slots.as_slice(),
        }
    }
}
