//! That the limits of the code are those that the definitions state.
ghost use Rattle.std.specs.Prelude.{◌≡◌};
ghost use Rattle.kumo_base.specs.Limits.{latest_moment, reply_text_limit};
ghost use Rattle.kumo_base.specs.declared.moment.TheConstants.{LAST_MOMENT};
ghost use Rattle.kumo_base.specs.declared.room.TheConstants.{REPLY_TEXT_LIMIT};

/// The limits that the code has are those that the definitions state.
pub fn limits_are_as_stated()
    ensures latest_moment_is { LAST_MOMENT ≡ latest_moment }
    ensures reply_text_is { REPLY_TEXT_LIMIT ≡ reply_text_limit }
{}
