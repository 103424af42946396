//! The line of an entry.
ghost use Rattle.std.specs.Prelude.{◌≡◌, IfOk};
ghost use Rattle.delivery_log.specs.LogText.{line_of};

use crate::entry_value::entry_value;
use history_core::Entry;
use json_members::value_line;
use kumo_base::{Memory, Text};
use std::alloc::Global;

/// The line that the log has for the entry, with its line feed.
#[tactic(auto, using(crate::proofs::LogLines::has_float_of_entry), unfolding(crate::specs::LogText::line_of))]
pub fn entry_line(alloc: Global, entry: &Entry) -> Result<Text, Memory>
    ensures { IfOk result (λ line. line ≡ line_of entry.now) }
{
    let value = entry_value(alloc, entry)?;
    value_line(alloc, &value)
}
