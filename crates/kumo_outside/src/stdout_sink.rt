//! The sink that is standard output: a trusted edge, since no contract can say what a terminal or a file takes.
ghost use Rattle.std.specs.Prelude.{None};

use crate::sink::Sink;
use kumo_base::Failed;
use std::io;
use std::io::{Print, Write};

/// Standard output, with no buffer: each `put` is one write. It tells no content.
#[derive(Drop)]
pub struct StdoutSink<'a, R: Print> {
    to: &'a R,
    faults: u64,
}

impl<'a, R: Print> StdoutSink<'a, R> {
    /// The standard output of the process.
    pub fn new(to: &'a R) -> StdoutSink<'a, R> {
        StdoutSink { to, faults: 0 }
    }
}

impl<'a, R: Print> Sink for StdoutSink<'a, R> {
    ghost seen = { λ s. record { told = None; faults = s.faults } };

    #[tactic(auto, unfolding(crate::specs::Content::told_with))]
    fn put(&mut self, piece: &[u8]) -> Result<usize, Failed> {
        match io::writer(self.to).write(piece) {
            Ok(0) => {
                self.faults = self.faults.saturating_add(1);
                Err(Failed)
            }
            Ok(count) => Ok(count),
            Err(_) => {
                self.faults = self.faults.saturating_add(1);
                Err(Failed)
            }
        }
    }
}
