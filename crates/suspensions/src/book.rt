//! The orders of an administrator: all that were given, and beside them the ends of those that were not taken back.
ghost use Rattle.std.specs.Prelude.{◌≡◌, ◌<◌, ◌+◌, ◌^◌, [], is_ok, length, IfOk, IfSome, OnOk, OnErr};
ghost use Rattle.suspensions.specs.Orders.{bounced, halted, has_live, held, next_end, with_order, with_resumed};

use crate::ends::{Ending, count_over, first_live, live_end, next_end, place_of};
use crate::given::{Given, end_of};
use crate::question::Question;
use kumo_base::Memory;
use policy_core::Order;
use queue_name::QueueName;
use std::alloc::Global;
use std::marker::Model;

/// No live order has the number.
#[derive(Clone, Copy, Debug, PartialEq, Eq)]
pub struct Unknown;

/// The orders that were given, in order. An order is live from the moment at which it was given, for its duration, unless it
/// was taken back. Moments are milliseconds since 1970; they need not rise from call to call.
#[derive(Drop)]
pub struct Book {
    given: Vec<Given>,
    ends: Vec<Ending>,
}

impl Model for Book {
    ghost use Rattle.std.specs.Prelude.{List};
    ghost use Rattle.suspensions.specs.declared.given.Given.{Given};
    ghost use Rattle.suspensions.specs.Index.{IsIndex};

    ghost Value = { List Given };

    ghost view = { λ b. b.given.items };

    ghost invariant = { λ b. IsIndex b.given.items b.ends.items };
}

impl Book {
    /// No order was given. It takes no memory.
    pub fn new(alloc: Global) -> Book
        ensures { result ≡ [] }
    {
        Book {
            given: Vec::new(alloc),
            ends: Vec::new(alloc),
        }
    }

    /// One more order is given, and gets the answer as its number: the first one 1, each other one more than the one before.
    /// A `Resume` is never live. After `Memory` all is as it was.
    pub fn add(&mut self, at: u64, order: Order) -> Result<u32, Memory>
        requires room { length self.old + 1 < 2 ^ 32 }
        ensures number { IfOk result (λ number. number ≡ length self.old + 1) }
        ensures ok { OnOk result (self.new ≡ with_order at order self.old) }
        ensures err { OnErr result (self.new ≡ self.old) }
    {
        self.given.reserve(1)?;
        let number = self.given.len() as u32 + 1;
        let end = end_of(at, &order);
        let place = count_over(&self.ends, end);
        self.ends.insert(place, Ending { end, number })?;
        self.given.push_reserved(Given {
            number,
            at,
            order,
            resumed: false,
        });
        Ok(number)
    }

    /// How many orders were given, those that are over and those that were taken back among them.
    pub fn len(&self) -> usize
        ensures { result ≡ length self.now }
    {
        self.given.len()
    }

    /// The order of this number is live no longer. It is `Unknown` exactly where no order that is live at `t` has the number;
    /// then all is as it was.
    pub fn resume(&mut self, t: u64, number: u32) -> Result<(), Unknown>
        ensures known { is_ok result ≡ has_live self.old t number }
        ensures ok { OnOk result (self.new ≡ with_resumed number self.old) }
        ensures err { OnErr result (self.new ≡ self.old) }
    {
        let ending = live_end(&self.given, t, number).ok_or(Unknown)?;
        let place = place_of(&self.ends, ending);
        let _ending = self.ends.remove(place);
        self.given[number as usize - 1].resumed = true;
        Ok(())
    }

    /// The number of the first live order, a suspension or a bounce, that holds back the messages of a queue.
    pub fn held(&self, name: &QueueName, t: u64) -> Option<u32>
        ensures { result ≡ held self.now t name.now }
    {
        first_live(&self.given, &self.ends, t, Question::Holds(name))
    }

    /// The number of the first live order that bounces the messages of a queue.
    pub fn bounced(&self, name: &QueueName, t: u64) -> Option<u32>
        ensures { result ≡ bounced self.now t name.now }
    {
        first_live(&self.given, &self.ends, t, Question::Bounces(name))
    }

    /// The number of the first live order that halts the path of this text.
    pub fn halted(&self, path: &str, t: u64) -> Option<u32>
        ensures { result ≡ halted self.now t path.now }
    {
        first_live(&self.given, &self.ends, t, Question::Halts(path))
    }

    /// The least moment from which on an order that is live at `t` is live no longer. It is after `t`.
    pub fn next_end(&self, t: u64) -> Option<u64>
        ensures next { result ≡ next_end self.now t }
        ensures later { IfSome result (λ end. t < end) }
    {
        next_end(&self.given, &self.ends, t)
    }
}
