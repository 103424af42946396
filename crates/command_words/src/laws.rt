//! That the limits of the code are those that the definitions state.
ghost use Rattle.std.specs.Prelude.{◌≡◌};
ghost use Rattle.command_words.specs.Limits.{greatest_workers, greatest_load};
ghost use Rattle.command_words.specs.declared.numbers.TheConstants.{GREATEST_WORKERS, GREATEST_LOAD};

/// The limits that the code has are those that the definitions state.
pub fn limits_are_as_stated()
    ensures greatest_workers_is { GREATEST_WORKERS ≡ greatest_workers }
    ensures greatest_load_is { GREATEST_LOAD ≡ greatest_load }
{}
