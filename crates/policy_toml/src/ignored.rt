//! Keys that were accepted and have no effect.
ghost use Rattle.std.specs.Prelude.{◌≡◌, ◌++◌, ◌∷◌, [], OnOk, OnErr};
ghost use Rattle.policy_toml.specs.Places.{ignored_at};

use crate::fault::WHOLE_TABLE;
use kumo_base::{Memory, Text};
use policy_fault::{Ignored, PolicyFile};
use std::alloc::Global;

/// Adds a key to the list of those without effect. The table is named by its joined keys, the top level by the empty text.
/// After `Memory` the list is as it was.
pub fn note_ignored(
    alloc: Global,
    ignored: &mut Vec<Ignored>,
    file: PolicyFile,
    table: &str,
    key: &str,
) -> Result<(), Memory>
    ensures ok { OnOk result (ignored.new.items ≡ ignored.old.items ++ ignored_at file table.now key.now ∷ []) }
    ensures err { OnErr result (ignored.new.items ≡ ignored.old.items) }
{
    let table = if table.is_empty() { WHOLE_TABLE } else { table };
    let key = Ignored {
        file,
        table: Text::of(alloc, table)?,
        key: Text::of(alloc, key)?,
    };
    ignored.push(key)?;
    Ok(())
}
