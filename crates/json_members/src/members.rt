//! Members of an object. After `Memory` the object has the members that it had.
ghost use Rattle.std.specs.Prelude.{◌≡◌, OnOk, OnErr};
ghost use Rattle.serde_json.specs.Data.{put as with_member, string};
ghost use Rattle.serde_json.specs.View.{members_view};
ghost use Rattle.json_members.specs.Members.{whole_number, with_given};

use kumo_base::{Memory, Text};
use serde_json::{Map, Value, put};
use std::alloc::Global;

/// Puts a text at a key.
pub fn put_text(
    line: &mut Map<String, Value>,
    alloc: Global,
    key: &str,
    text: &str,
) -> Result<(), Memory>
    ensures ok { OnOk result
        (members_view line.new.entries ≡ with_member key.now (string text.now) (members_view line.old.entries)) }
    ensures err { OnErr result (line.new.entries ≡ line.old.entries) }
{
    put(line, alloc, key, Value::try_from_str(alloc, text)?)?;
    Ok(())
}

/// Puts a number at a key.
pub fn put_number(
    line: &mut Map<String, Value>,
    alloc: Global,
    key: &str,
    number: u64,
) -> Result<(), Memory>
    ensures ok { OnOk result
        (members_view line.new.entries ≡ with_member key.now (whole_number number) (members_view line.old.entries)) }
    ensures err { OnErr result (line.new.entries ≡ line.old.entries) }
{
    put(line, alloc, key, Value::from(number))?;
    Ok(())
}

/// Puts a text at a key, where it is given.
pub fn put_given(
    line: &mut Map<String, Value>,
    alloc: Global,
    key: &str,
    given: &Option<Text>,
) -> Result<(), Memory>
    ensures ok { OnOk result (members_view line.new.entries ≡ with_given key.now given.now (members_view line.old.entries)) }
    ensures err { OnErr result (line.new.entries ≡ line.old.entries) }
{
    match given {
        None => Ok(()),
        Some(text) => put_text(line, alloc, key, text.as_str()),
    }
}
