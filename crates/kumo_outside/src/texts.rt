//! Where texts are read from.
ghost use Rattle.std.specs.Prelude.{◌≡◌, ◌<◌, ◌≤◌, length, IfOk, IfSome};
ghost use Rattle.kumo_base.specs.Causes.{HasCause};
ghost use Rattle.kumo_outside.specs.Content.{TextsSeen, Places};

use kumo_base::Failed;

/// Named texts, read in pieces, as files are.
pub trait Texts {
    /// The bytes of the text of a name, where they are told, and the faults counted so far. The count never falls.
    ghost seen: { Self → TextsSeen };

    /// Places bytes of the text from `at` on in the buffer, and answers how many; 0 is the end. A text that is not
    /// there is a fault. After `Failed` the texts are as they were and the count of faults has risen.
    fn read(&mut self, name: &str, at: u64, buffer: &mut [u8]) -> Result<usize, Failed>
        requires { 0 < length buffer.old }
        ensures bound { IfOk result (λ n. n ≤ length buffer.new) }
        ensures bytes { IfSome ((seen self.old).told name.now) (λ text. IfOk result (λ n. Places text at n buffer.new)) }
        ensures same { (seen self.new).told ≡ (seen self.old).told }
        ensures cause { HasCause (seen self.old).faults (seen self.new).faults result };
}
