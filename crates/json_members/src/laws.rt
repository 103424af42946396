//! Laws of printed ids. Each function does nothing: its contract is the law, and the check proves it.
ghost use Rattle.std.specs.Prelude.{◌≡◌, ◌<◌, ◌^◌, ℕ, Some, option_map, IsTrue};
ghost use Rattle.std.specs.Int.{w128, from_be_bytes};
ghost use Rattle.std.specs.Str.{is_utf8};
ghost use Rattle.uuid.specs.Text.{parsed};
ghost use Rattle.json_members.specs.Members.{id_text};

/// The text of an id parses, as a UUID, to that id.
pub fn printed_id_is_read()
    ensures { (id : ℕ) → id < 2 ^ 128 → option_map (from_be_bytes w128) (parsed (id_text id)) ≡ Some id }
{}

/// The text of an id is UTF-8.
pub fn printed_id_is_utf8()
    ensures { (id : ℕ) → IsTrue (is_utf8 (id_text id)) }
{}
