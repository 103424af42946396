//! The name of a table of a policy text.
ghost use Rattle.std.specs.Prelude.{◌≡◌, IfOk};
ghost use Rattle.policy_fault.specs.TableNames.{joined};

use kumo_base::{Memory, Text};
use std::alloc::Global;

/// The name of a table within another, by its keys joined by `.`; the top level has the empty name.
pub fn joined(alloc: Global, place: &str, key: &str) -> Result<Text, Memory>
    ensures { IfOk result (λ text. text ≡ joined place.now key.now) }
{
    if place.is_empty() {
        return Text::of(alloc, key);
    }
    let mut text = Text::of(alloc, place)?;
    text.push_str(".")?;
    text.push_str(key)?;
    Ok(text)
}
