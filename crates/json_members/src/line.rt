//! A value on a line of its own.
ghost use Rattle.std.specs.Prelude.{◌≡◌, IfOk, false};
ghost use Rattle.serde_json.specs.View.{view};
ghost use Rattle.serde_json.specs.Written.{has_float};
ghost use Rattle.json_members.specs.Members.{json_line};

use kumo_base::{Memory, Text};
use serde_json::Value;
use std::alloc::Global;

/// The line of a value, with its line feed. Of a value with a float nothing is said.
pub fn value_line(alloc: Global, value: &Value) -> Result<Text, Memory>
    ensures { IfOk result (λ line. has_float (view value.now) ≡ false → line ≡ json_line (view value.now)) }
{
    let mut line = Text::of_string(value.to_string(alloc)?);
    line.push_str("\n")?;
    Ok(line)
}
