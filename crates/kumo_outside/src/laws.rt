//! That the limits of the code are those that the definitions state.
ghost use Rattle.std.specs.Prelude.{◌≡◌};
ghost use Rattle.kumo_outside.specs.Limits.{text_limit, pattern_depth_limit};
ghost use Rattle.kumo_outside.specs.declared.search.TheConstants.{PATTERN_DEPTH_LIMIT};
ghost use Rattle.kumo_outside.specs.declared.text_reader.TheConstants.{TEXT_LIMIT};

/// The limits that the code has are those of the definitions.
pub fn limits_are_as_stated()
    ensures text { TEXT_LIMIT ≡ text_limit }
    ensures pattern_depth { PATTERN_DEPTH_LIMIT ≡ pattern_depth_limit }
{}
