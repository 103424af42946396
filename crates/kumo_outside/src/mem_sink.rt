//! A sink in memory.
ghost use Rattle.std.specs.Prelude.{◌≡◌, ◌<◌, ◌≤◌, ℕ, List, [], Option, Some, length, take, IfOk, OnOk, OnErr, IsErr, IsTrue, MatchResult};
ghost use Rattle.kumo_base.specs.Causes.{HasCause};
ghost use Rattle.kumo_outside.specs.Content.{told_with};
ghost use Rattle.kumo_outside.specs.Devices.{ByteSink, is_failing, one_more};

use crate::sink::Sink;
use kumo_base::Failed;
use std::alloc::Global;
use std::marker::Model;

/// Bytes taken into memory, of which chosen puts fail.
#[derive(Drop)]
pub struct MemSink {
    bytes: Vec<u8>,
    failing: Vec<u64>,
    calls: u64,
    faults: u64,
}

impl Model for MemSink {
    ghost Value = { ByteSink };

    ghost view = { λ s. record { bytes = s.bytes.items; failing = s.failing.items; calls = s.calls; faults = s.faults } };
}

impl MemSink {
    /// An empty sink of which the k-th `put` fails for each number k in `failing`. A `put` for which there is no
    /// memory fails too.
    pub fn new(alloc: Global, failing: Vec<u64>) -> MemSink
        ensures { result ≡ record { bytes = []; failing = failing.items; calls = 0; faults = 0 } }
    {
        MemSink {
            bytes: Vec::new(alloc),
            failing,
            calls: 0,
            faults: 0,
        }
    }

    /// The bytes taken so far.
    pub fn bytes(&self) -> &[u8]
        ensures { result.now ≡ self.now.bytes }
    {
        self.bytes.as_slice()
    }
}

impl Sink for MemSink {
    ghost seen = { λ s. record { told = Some s.bytes; faults = s.faults } };

    #[tactic(auto, unfolding(crate::specs::Content::told_with))]
    fn put(&mut self, piece: &[u8]) -> Result<usize, Failed>
        requires { 0 < length piece.now }
        ensures taken { IfOk result (λ n. (0 < n) × (n ≤ length piece.now)) }
        ensures bytes { MatchResult result (λ n. Some self.new.bytes ≡ told_with (Some self.old.bytes) (take n piece.now))
            (λ _. Some self.new.bytes ≡ Some self.old.bytes) }
        ensures cause { HasCause self.old.faults self.new.faults result }
        ensures uncounted { OnOk result (self.new.faults ≡ self.old.faults) }
        ensures counted { OnErr result (self.new.faults ≡ one_more self.old.faults) }
        ensures fails { IsTrue (is_failing self.old.failing (one_more self.old.calls)) → IsErr result }
        ensures whole { IfOk result (λ n. n ≡ length piece.now) }
        ensures counts { (self.new.calls ≡ one_more self.old.calls) × (self.new.failing ≡ self.old.failing) }
    {
        self.calls = self.calls.saturating_add(1);
        if self.failing.contains(&self.calls) || self.bytes.extend_from_slice(piece).is_err() {
            self.faults = self.faults.saturating_add(1);
            return Err(Failed);
        }
        Ok(piece.len())
    }
}
