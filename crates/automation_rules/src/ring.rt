//! The moments of the last matches of a rule.
//!
//! A trigger of so many matches within a period looks back on no more than these. The ring begins with no place and grows up to
//! the number that its trigger looks back on.
ghost use Rattle.std.specs.Prelude.{◌≡◌, ◌≤◌, ◌+◌, ◌∷◌, ◌++◌, [], ℕ, List, nat_lt, IfOk, OnOk, OnErr};
ghost use Rattle.circular_buffer.specs.Buffer.{keep_last};
ghost use Rattle.policy_core.specs.Automation.{is_fired};
ghost use Rattle.kumo_base.specs.Moment.{clamped};
ghost use Rattle.automation_rules.specs.Memory.{IsAscending, looks_back};
ghost use Rattle.automation_rules.specs.inside.Last.{HasPlace, nth_last, passes};

use circular_buffer::HeapCircularBuffer;
use kumo_base::{LAST_MOMENT, Memory};
use policy_core::Trigger;
use std::alloc::Global;
use std::marker::Model;

/// The last moments, in order, and how many there are at most.
#[derive(Drop)]
pub(crate) struct Ring {
    moments: HeapCircularBuffer<u64>,
    most: usize,
}

impl Model for Ring {
    ghost use Rattle.std.specs.Prelude.{◌≤◌};
    ghost use Rattle.automation_rules.specs.Memory.{LastMoments};

    ghost Value = { LastMoments };

    ghost view = { λ r. record { most = r.most; moments = r.moments.items } };

    ghost invariant = { λ r. r.moments.capacity ≤ r.most };
}

impl Ring {
    /// No moment yet, of at most so many.
    pub(crate) fn new(alloc: Global, most: usize) -> Result<Ring, Memory>
        ensures { IfOk result (λ ring. ring ≡ record { most = most; moments = [] }) }
    {
        let moments = HeapCircularBuffer::with_capacity(alloc, 0)?;
        Ok(Ring { moments, most })
    }

    /// Adds a moment; where there are the most already, the first one gives way. After `Memory` all is as it was.
    pub(crate) fn add(&mut self, t: u64) -> Result<(), Memory>
        ensures ok { OnOk result (self.new ≡ record {
          most = self.old.most;
          moments = keep_last self.old.most (self.old.moments ++ t ∷ []);
        }) }
        ensures err { OnErr result (self.new ≡ self.old) }
    {
        make_place(&mut self.moments, self.most)?;
        let _ = self.moments.push_back(t);
        Ok(())
    }

    /// Whether a match at a moment fires a rule of this trigger, where these are the last of the moments of its matches before.
    pub(crate) fn fires(&self, trigger: &Trigger, t: u64) -> bool
        ensures { (moments : List ℕ) → self.now.moments ≡ keep_last (looks_back trigger.now) moments
            → IsAscending (moments ++ t ∷ []) → result ≡ is_fired trigger.now (moments ++ t ∷ []) t }
    {
        match trigger {
            Trigger::Immediate => true,
            Trigger::Threshold { count, period } => {
                *count == 0 || is_reached(&self.moments, *count, *period, t)
            }
        }
    }
}

/// Whether the `count`-th last match, where one at `t` is the last, is within a period from it.
fn is_reached(moments: &HeapCircularBuffer<u64>, count: u32, period: u64, t: u64) -> bool
    requires { 1 ≤ count }
    ensures { result ≡ passes (λ s. nat_lt t (clamped (s + period))) (nth_last count (moments.now.items ++ t ∷ [])) }
{
    match first_counted(moments, count, t) {
        Some(first) => is_within(first, period, t),
        None => false,
    }
}

/// The moment of the `count`-th last match, where one at `t` is the last and these are those before it.
fn first_counted(moments: &HeapCircularBuffer<u64>, count: u32, t: u64) -> Option<u64>
    requires { 1 ≤ count }
    ensures { result ≡ nth_last count (moments.now.items ++ t ∷ []) }
{
    if count == 1 {
        return Some(t);
    }
    moments.nth_back(count as usize - 2).copied()
}

/// Whether a moment is within a period from another.
fn is_within(start: u64, period: u64, t: u64) -> bool
    ensures { result ≡ nat_lt t (clamped (start + period)) }
{
    t < start.saturating_add(period).min(LAST_MOMENT)
}

/// Makes a place for one more moment, unless the ring has its most.
fn make_place(moments: &mut HeapCircularBuffer<u64>, most: usize) -> Result<(), Memory>
    requires { moments.old.capacity ≤ most }
    ensures same { moments.new.items ≡ moments.old.items }
    ensures bound { moments.new.capacity ≤ most }
    ensures room { OnOk result (HasPlace most moments.new) }
    ensures err { OnErr result (moments.new ≡ moments.old) }
{
    if moments.len() < moments.capacity() || moments.capacity() == most {
        return Ok(());
    }
    let wanted = moments.capacity().saturating_mul(2).saturating_add(4);
    moments.resize(if wanted < most { wanted } else { most })?;
    Ok(())
}
