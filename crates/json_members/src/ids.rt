//! An id as a text.
ghost use Rattle.std.specs.Prelude.{◌≡◌, IfOk};
ghost use Rattle.json_members.specs.Members.{id_text};

use kumo_base::{Memory, Text};
use std::alloc::Global;
use uuid::Uuid;

/// An id in lower case, with hyphens.
pub fn id_text(alloc: Global, id: u128) -> Result<Text, Memory>
    ensures { IfOk result (λ text. text ≡ id_text id) }
{
    let mut buffer = Uuid::encode_buffer();
    let text = Uuid::from_u128(id).hyphenated().encode_lower(&mut buffer);
    Text::of(alloc, text)
}
