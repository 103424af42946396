//! Why one line gives no row, and the refusal that is reported of a text.
ghost use Rattle.std.specs.Prelude.{◌≡◌, ◌++◌, IfOk, codes, decimal};
ghost use Rattle.mx_table.specs.MxText.{line_fault};
ghost use Rattle.mx_table.specs.inside.Causes.{IsRowFault};

use itoa::Buffer;
use kumo_base::{Memory, Text};
use policy_fault::{PolicyFault, PolicyFile, PolicyPlace, Why};
use std::alloc::Global;

/// Why a line gives no row.
#[derive(Clone, Copy, Debug, PartialEq, Eq)]
pub enum RowFault {
    /// The line is refused.
    Refused(Why),
    /// There was no memory.
    Memory,
}

impl From<Memory> for RowFault {
    ghost use Rattle.mx_table.specs.declared.fault.RowFault.{RowFault};

    ghost from_gives = { λ _ fault. fault ≡ RowFault.Memory };

    fn from(_memory: Memory) -> RowFault {
        RowFault::Memory
    }
}

/// The report of a refused line.
pub fn report(alloc: Global, line: u64, why: Why) -> PolicyFault
    ensures { IsRowFault (line_fault line why) result }
{
    match place(alloc, line) {
        Ok((table, key)) => PolicyFault::At(PolicyPlace {
            file: PolicyFile::Mx,
            table,
            key,
            why,
        }),
        Err(Memory) => PolicyFault::Memory,
    }
}

/// The place of a line as a report names it: `line N`, and `-` for its key.
fn place(alloc: Global, line: u64) -> Result<(Text, Text), Memory>
    ensures table { IfOk result (λ names. names.0 ≡ codes "line " ++ decimal line) }
    ensures key { IfOk result (λ names. names.1 ≡ codes "-") }
{
    let mut digits = Buffer::new();
    let mut table = Text::of(alloc, "line ")?;
    table.push_str(digits.format(line))?;
    Ok((table, Text::of(alloc, "-")?))
}
