//! One connection to a receiver.
ghost use Rattle.std.specs.Prelude.{◌≡◌, ◌==◌, ◌<◌, ◌≤◌, false, length, take, IfOk, MatchResult};
ghost use Rattle.kumo_base.specs.Causes.{HasCause};
ghost use Rattle.kumo_outside.specs.Content.{told_with};
ghost use Rattle.kumo_outside.specs.Sessions.{LinkSeen};

use kumo_base::Failed;

/// A connection, over which bytes go both ways.
pub trait Link {
    /// What the link was opened as, which never changes; the bytes sent and got so far, where they are told; whether
    /// the last call was a `recv` that answered 0; and the faults counted so far. The count never falls.
    ghost seen: { Self → LinkSeen };

    /// Sends bytes from the front of the piece, and answers how many: at least one. After `Failed` nothing was sent
    /// and the count of faults has risen.
    fn send(&mut self, piece: &[u8]) -> Result<usize, Failed>
        requires { 0 < length piece.now }
        ensures taken { IfOk result (λ n. (0 < n) × (n ≤ length piece.now)) }
        ensures sent { MatchResult result (λ n. (seen self.new).sent ≡ told_with (seen self.old).sent (take n piece.now))
            (λ _. (seen self.new).sent ≡ (seen self.old).sent) }
        ensures got { (seen self.new).got ≡ (seen self.old).got }
        ensures ended { (seen self.new).ended ≡ false }
        ensures opening { (seen self.new).opening ≡ (seen self.old).opening }
        ensures cause { HasCause (seen self.old).faults (seen self.new).faults result };

    /// Receives bytes into the front of the buffer, and answers how many; 0 is the end of the link. After `Failed`
    /// nothing was got and the count of faults has risen.
    fn recv(&mut self, buffer: &mut [u8]) -> Result<usize, Failed>
        requires { 0 < length buffer.old }
        ensures bound { IfOk result (λ n. n ≤ length buffer.new) }
        ensures sent { (seen self.new).sent ≡ (seen self.old).sent }
        ensures got { MatchResult result (λ n. (seen self.new).got ≡ told_with (seen self.old).got (take n buffer.new))
            (λ _. (seen self.new).got ≡ (seen self.old).got) }
        ensures ended { MatchResult result (λ n. (seen self.new).ended ≡ (n == 0)) (λ _. (seen self.new).ended ≡ false) }
        ensures opening { (seen self.new).opening ≡ (seen self.old).opening }
        ensures cause { HasCause (seen self.old).faults (seen self.new).faults result };
}
