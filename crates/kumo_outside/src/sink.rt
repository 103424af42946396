//! Where the log is written to.
ghost use Rattle.std.specs.Prelude.{◌≡◌, ◌<◌, ◌≤◌, length, take, IfOk, OnOk, OnErr, MatchResult};
ghost use Rattle.kumo_base.specs.Causes.{HasCause};
ghost use Rattle.kumo_outside.specs.Content.{SinkSeen, told_with, TakesProperPrefix};

use kumo_base::Failed;

/// Something that takes bytes in order, as a file or standard output.
pub trait Sink {
    /// The bytes taken so far, where they are told, and the faults counted so far. The count never falls.
    ghost seen: { Self → SinkSeen };

    /// Takes bytes from the front of the piece, and answers how many: at least one. After `Failed` nothing was taken
    /// and the count of faults has risen.
    fn put(&mut self, piece: &[u8]) -> Result<usize, Failed>
        requires { 0 < length piece.now }
        ensures taken { IfOk result (λ n. (0 < n) × (n ≤ length piece.now)) }
        ensures bytes { MatchResult result (λ n. (seen self.new).told ≡ told_with (seen self.old).told (take n piece.now))
            (λ _. (seen self.new).told ≡ (seen self.old).told) }
        ensures cause { HasCause (seen self.old).faults (seen self.new).faults result };
}

/// Puts all of the bytes. After `Failed` a prefix of them was taken, and not all.
pub fn put_all<O: Sink>(out: &mut O, bytes: &[u8]) -> Result<(), Failed>
    ensures whole { OnOk result ((O.seen out.new).told ≡ told_with (O.seen out.old).told bytes.now) }
    ensures part { OnErr result (TakesProperPrefix (O.seen out.old).told (O.seen out.new).told bytes.now) }
    ensures cause { HasCause (O.seen out.old).faults (O.seen out.new).faults result }
{
    let mut at = 0;
    while at < bytes.len() {
        let (_, rest) = bytes.split_at(at);
        at += out.put(rest)?;
    }
    Ok(())
}
