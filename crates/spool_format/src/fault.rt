//! Why a payload gives no message.
ghost use Rattle.std.specs.Prelude.{◌≡◌};

use kumo_base::Memory;

/// Why a payload gives no message.
#[derive(Clone, Copy, Debug, PartialEq, Eq)]
pub enum FormatFault {
    /// It is no proper payload.
    Malformed,
    /// There was no memory.
    Memory,
}

impl From<Memory> for FormatFault {
    ghost use Rattle.spool_format.specs.declared.fault.FormatFault.{FormatFault};

    ghost from_gives = { λ _ fault. fault ≡ FormatFault.Memory };

    fn from(_memory: Memory) -> FormatFault {
        FormatFault::Memory
    }
}
