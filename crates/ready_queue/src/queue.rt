//! The queue of a path.
ghost use Rattle.std.specs.Prelude.{◌≡◌, ◌<◌, ◌≤◌, ◌+◌, ◌^◌, ℕ, Bool, true, false, [], ◌∷◌, ◌++◌, length, OnOk, IsOk};
ghost use Rattle.ready_queue.specs.Queue.{has, without, are_distinct, first_free, AnswersAs, AllFit, IsFirstFree};

use crate::links::{Link, link_next, link_previous};
use indexmap::IndexMap;
use kumo_base::Memory;
use std::alloc::Global;
use std::marker::Model;

/// The numbers of messages in the order of their promotion, each once.
#[derive(Drop)]
pub struct Ready {
    links: IndexMap<u32, Link>,
    first: Option<u32>,
    last: Option<u32>,
}

impl Model for Ready {
    ghost use Rattle.std.specs.Prelude.{nat_eq};
    ghost use Rattle.indexmap.specs.IndexMap.{get, index_map_len, spare};
    ghost use Rattle.ready_queue.specs.Queue.{Queue};
    ghost use Rattle.ready_queue.specs.Links.{walked, IsQueue};

    ghost Value = { Queue };

    ghost view = { λ s.
        record { numbers = walked (get nat_eq s.links) (index_map_len s.links) s.first; spare = spare s.links } };

    ghost invariant = { λ s. IsQueue (get nat_eq s.links) (index_map_len s.links) s.first s.last
        (walked (get nat_eq s.links) (index_map_len s.links) s.first) };
}

impl Ready {
    /// A queue without messages. It takes no memory.
    pub fn new(alloc: Global) -> Ready
        ensures { result.numbers ≡ [] }
    {
        Ready {
            links: IndexMap::new(alloc),
            first: None,
            last: None,
        }
    }

    /// Makes room for so many more messages. After `Memory` the queue is as it was.
    pub fn reserve(&mut self, more: usize) -> Result<(), Memory>
        ensures numbers { self.new.numbers ≡ self.old.numbers }
        ensures room { OnOk result (more ≤ self.new.spare) }
        ensures spare { self.old.spare ≤ self.new.spare }
        ensures succeeds { more ≤ self.old.spare → IsOk result }
    {
        self.links.reserve(more)?;
        Ok(())
    }

    /// Puts a message behind all others. There is to be room for it, which `reserve` makes.
    pub fn push(&mut self, number: u32)
        requires room { 0 < self.old.spare }
        requires absent { has number self.old.numbers ≡ false }
        ensures numbers { self.new.numbers ≡ self.old.numbers ++ number ∷ [] }
        ensures spare { self.old.spare ≤ self.new.spare + 1 }
    {
        let previous = self.last;
        link_next(&mut self.links, &mut self.first, previous, Some(number));
        let _absent = self.links.insert(
            number,
            Link {
                previous,
                next: None,
            },
        );
        self.last = Some(number);
    }

    /// The first message, in the order of promotion, that is not held. It asks of no message behind that one.
    pub fn first_free<F: Fn(u32) -> bool>(&self, held: &F) -> Option<u32>
        requires callable { (n : ℕ) → n < 2 ^ 32 → has n self.now.numbers ≡ true → F.pre held.now n }
        ensures answers { IsFirstFree (F.post held.now) self.now.numbers result }
        ensures first { (test : ℕ → Bool) → AnswersAs (F.post held.now) test self.now.numbers
            → result ≡ first_free test self.now.numbers }
    {
        let mut next = self.first;
        while let Some(number) = next {
            if !held(number) {
                return Some(number);
            }
            next = self.links.get(&number)?.next;
        }
        None
    }

    /// Takes a message out, wherever it stands, and answers whether it stood in the queue.
    pub fn remove(&mut self, number: u32) -> bool
        ensures answer { result ≡ has number self.old.numbers }
        ensures numbers { self.new.numbers ≡ without number self.old.numbers }
        ensures spare { self.old.spare ≤ self.new.spare }
    {
        let Some(link) = self.links.swap_remove(&number) else {
            return false;
        };
        link_next(&mut self.links, &mut self.first, link.previous, link.next);
        link_previous(&mut self.links, &mut self.last, link.next, link.previous);
        true
    }

    /// How many messages stand in the queue.
    pub fn len(&self) -> usize
        ensures len { result ≡ length self.now.numbers }
        ensures distinct { are_distinct self.now.numbers ≡ true }
        ensures fits { AllFit self.now.numbers }
    {
        self.links.len()
    }

    /// Whether a message stands in the queue.
    pub fn contains(&self, number: u32) -> bool
        ensures { result ≡ has number self.now.numbers }
    {
        self.links.contains_key(&number)
    }
}
