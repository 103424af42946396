//! Messages and the moments that they are due at.
//!
//! The members stand in a tree, in the order in which they come due. An index says for each number when it is due, so that a
//! message is found in the tree by its number. The boxes of members that left are kept for those that come.
ghost use Rattle.std.specs.Prelude.{◌≡◌, ◌≤◌, ◌<◌, ◌+◌, [], true, false, length, max, vec_len, vec_capacity, OnOk};
ghost use Rattle.kumo_base.specs.Moment.{clamped};
ghost use Rattle.scheduled_queue.specs.Dues.{contains, are_in_order, are_distinct, inserted, without, first_due, next_due};

use crate::due::Due;
use crate::tree::{self, Node, Tree};
use indexmap::IndexMap;
use kumo_base::{LAST_MOMENT, Memory};
use std::alloc::Global;
use std::marker::Model;

/// The messages that wait, each number once.
#[derive(Drop)]
pub struct Schedule {
    tree: Tree,
    dues: IndexMap<u32, u64>,
    spares: Vec<Box<Node>>,
    alloc: Global,
}

impl Model for Schedule {
    ghost use Rattle.std.specs.Prelude.{◌≤◌, ◌+◌, min, vec_len, vec_capacity};
    ghost use Rattle.indexmap.specs.IndexMap.{spare, index_map_len};
    ghost use Rattle.scheduled_queue.specs.Dues.{Waiting};
    ghost use Rattle.scheduled_queue.specs.Kept.{in_order, IsKept};

    ghost Value = { Waiting };

    ghost view = { λ s. record { members = in_order s.tree; spare = min (vec_len s.spares) (spare s.dues) } };

    ghost invariant = { λ s. IsKept s.dues (in_order s.tree) × (vec_len s.spares + index_map_len s.dues ≤ vec_capacity s.spares) };
}

impl Schedule {
    /// No message waits. It takes no memory.
    pub fn new(alloc: Global) -> Schedule
        ensures { result.members ≡ [] }
    {
        Schedule {
            tree: None,
            dues: IndexMap::new(alloc),
            spares: Vec::new(alloc),
            alloc,
        }
    }

    /// Makes room for so many more messages. After `Memory` all that waited still does.
    pub fn reserve(&mut self, more: usize) -> Result<(), Memory>
        ensures members { self.new.members ≡ self.old.members }
        ensures room { OnOk result (more ≤ self.new.spare) }
        ensures kept { self.old.spare ≤ self.new.spare }
    {
        let room = self.dues.len().checked_add(more).ok_or(Memory)?;
        self.dues.reserve(more)?;
        self.spares.reserve(room)?;
        fill(&mut self.spares, self.alloc, more)
    }

    /// A message waits until it is due, in milliseconds since 1970; what is later than `LAST_MOMENT` counts as that. It takes
    /// no memory.
    pub fn put(&mut self, due: u64, number: u32)
        requires room { 0 < self.old.spare }
        requires new { contains number self.old.members ≡ false }
        ensures members { self.new.members ≡ inserted (record { due = clamped due; number = number }) self.old.members }
        ensures room { self.old.spare ≤ self.new.spare + 1 }
    {
        let member = Due {
            due: due.min(LAST_MOMENT),
            number,
        };
        let spare = self.spares.pop().unwrap();
        let _noted = self.dues.insert(number, member.due);
        tree::insert(&mut self.tree, member, spare);
    }

    /// The message of this number no longer waits. Whether it did. It takes no memory.
    pub fn remove(&mut self, number: u32) -> bool
        ensures found { result ≡ contains number self.old.members }
        ensures members { self.new.members ≡ without number self.old.members }
        ensures room { self.old.spare ≤ self.new.spare }
    {
        let Some(due) = self.dues.swap_remove(&number) else {
            return false;
        };
        let removed = tree::remove(&mut self.tree, Due { due, number });
        keep(&mut self.spares, removed);
        true
    }

    /// The number of the first message, by moment and then by number, where it is due at `t` or before. A `t` above
    /// `LAST_MOMENT` counts as that.
    pub fn first_due(&self, t: u64) -> Option<u32>
        ensures first { result ≡ first_due t self.now.members }
        ensures in_order { are_in_order self.now.members ≡ true }
    {
        let first = tree::first(&self.tree)?;
        if first.due <= t.min(LAST_MOMENT) {
            Some(first.number)
        } else {
            None
        }
    }

    /// The first moment after `t` that a message is due at. A `t` above `LAST_MOMENT` counts as that.
    pub fn next_due(&self, t: u64) -> Option<u64>
        ensures { result ≡ next_due t self.now.members }
    {
        tree::next_after(&self.tree, t.min(LAST_MOMENT))
    }

    /// Whether the message of this number waits.
    pub fn contains(&self, number: u32) -> bool
        ensures { result ≡ contains number self.now.members }
    {
        self.dues.contains_key(&number)
    }

    /// How many messages wait.
    pub fn len(&self) -> usize
        ensures len { result ≡ length self.now.members }
        ensures in_order { are_in_order self.now.members ≡ true }
        ensures distinct { are_distinct self.now.members ≡ true }
    {
        self.dues.len()
    }
}

/// Makes spare boxes until there are so many.
fn fill(spares: &mut Vec<Box<Node>>, alloc: Global, count: usize) -> Result<(), Memory>
    requires { count ≤ vec_capacity spares.old }
    ensures room { vec_capacity spares.new ≡ vec_capacity spares.old }
    ensures count { OnOk result (count ≤ vec_len spares.new) }
    ensures more { vec_len spares.old ≤ vec_len spares.new }
    ensures within { vec_len spares.new ≤ max (vec_len spares.old) count }
{
    while spares.len() < count {
        spares.push_reserved(Box::new(alloc, Node::blank())?);
    }
    Ok(())
}

/// Keeps the box of a member that left.
fn keep(spares: &mut Vec<Box<Node>>, removed: Tree)
    requires { vec_len spares.old < vec_capacity spares.old }
    ensures room { vec_capacity spares.new ≡ vec_capacity spares.old }
    ensures more { vec_len spares.old ≤ vec_len spares.new }
    ensures within { vec_len spares.new ≤ vec_len spares.old + 1 }
{
    if let Some(spare) = removed {
        spares.push_reserved(spare);
    }
}
