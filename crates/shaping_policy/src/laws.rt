//! Laws of what a shaping file gives. Each function does nothing: its contract is the law, and the check proves it.
ghost use Rattle.std.specs.Prelude.{◌≡◌, IfOk};
ghost use Rattle.toml.specs.Data.{Data};
ghost use Rattle.policy_core.specs.declared.option_name.OptionName.{OptionName};
ghost use Rattle.policy_core.specs.OptionNames.{option_of};
ghost use Rattle.shaping_policy.specs.OptionValues.{setting_of};
ghost use Rattle.shaping_policy.specs.Limits.{pattern_limit, pattern_count_limit};
ghost use Rattle.shaping_policy.specs.declared.patterns.TheConstants.{PATTERN_LIMIT, PATTERN_COUNT_LIMIT};

/// What a value sets is the option that it is given to.
pub fn a_value_sets_its_own_option()
    ensures { (name : OptionName) (value : Data) → IfOk (setting_of name value) (λ setting. option_of setting ≡ name) }
{}

/// The limits that the code has are those that the definitions state.
pub fn limits_are_as_stated()
    ensures pattern_is { PATTERN_LIMIT ≡ pattern_limit }
    ensures pattern_count_is { PATTERN_COUNT_LIMIT ≡ pattern_count_limit }
{}
