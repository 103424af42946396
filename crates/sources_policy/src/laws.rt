//! That the limits of the code are those that the definitions state.
ghost use Rattle.std.specs.Prelude.{◌≡◌};
ghost use Rattle.sources_policy.specs.Limits.{entrant_limit};
ghost use Rattle.sources_policy.specs.declared.values.TheConstants.{ENTRANT_LIMIT};

/// The limits that the code has are those that the definitions state.
pub fn limits_are_as_stated()
    ensures { ENTRANT_LIMIT ≡ entrant_limit }
{}
