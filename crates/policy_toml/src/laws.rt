//! Laws of the first fault by place. Each function does nothing: its contract is the law, and the check proves it.
ghost use Rattle.std.specs.Prelude.{◌≡◌, ℕ, List, Some, None, false, slice_get};
ghost use Rattle.std.specs.Ordering.{is_lt};
ghost use Rattle.policy_toml.specs.declared.fault.Fault.{Fault};
ghost use Rattle.policy_toml.specs.Places.{first_of, fault_cmp};
ghost use Rattle.policy_toml.specs.Places.{whole_table};
ghost use Rattle.policy_toml.specs.declared.fault.TheConstants.{WHOLE_TABLE};

/// The first of faults is one of them.
pub fn first_is_one_of_them()
    ensures { (faults : List Fault) (first : Fault) → first_of None faults ≡ Some first → (k : ℕ)
        × (slice_get faults k ≡ Some first) }
{}

/// None of them comes before it.
pub fn none_comes_before_the_first()
    ensures { (faults : List Fault) (first other : Fault) (k : ℕ) → first_of None faults ≡ Some first → slice_get faults k
        ≡ Some other → is_lt (fault_cmp other first) ≡ false }
{}

/// The limits that the code has are those that the definitions state.
pub fn limits_are_as_stated()
    ensures { WHOLE_TABLE.now ≡ whole_table }
{}
