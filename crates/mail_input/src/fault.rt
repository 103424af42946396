//! Why one line gives no message. The readers of fields and lines answer it, and `read_mail` gives it the line's number.
ghost use Rattle.std.specs.Prelude.{◌≡◌};

use crate::MailWhy;
use kumo_base::Memory;

/// Why a line gives no message.
#[derive(Clone, Copy, Debug, PartialEq, Eq)]
pub enum LineFault {
    /// The line is refused.
    Refused(MailWhy),
    /// There was no memory.
    Memory,
}

impl From<MailWhy> for LineFault {
    ghost use Rattle.mail_input.specs.declared.fault.LineFault.{LineFault};

    ghost from_gives = { λ why fault. fault ≡ LineFault.Refused why };

    fn from(why: MailWhy) -> LineFault {
        LineFault::Refused(why)
    }
}

impl From<Memory> for LineFault {
    ghost use Rattle.mail_input.specs.declared.fault.LineFault.{LineFault};

    ghost from_gives = { λ _ fault. fault ≡ LineFault.Memory };

    fn from(_memory: Memory) -> LineFault {
        LineFault::Memory
    }
}
