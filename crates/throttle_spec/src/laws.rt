//! Laws of throttles and buckets. Each function does nothing: its contract is the law, and the check proves it.
ghost use Rattle.std.specs.Prelude.{◌≡◌, ◌<◌, ◌≤◌, ◌↔◌, ◌+◌, ℕ, List, [], ◌∷◌, ◌++◌};
ghost use Rattle.std.specs.List.{count_by};
ghost use Rattle.kumo_base.specs.Moment.{clamped};
ghost use Rattle.throttle_spec.specs.Throttle.{Throttle, IsThrottle, Conforms, least_admitted, IsLeastAdmitted, is_in, is_in_closed};
ghost use Rattle.throttle_spec.specs.Bucket.{BucketState, StandsFor, IsAdmitted};
ghost use Rattle.throttle_spec.specs.Limits.{greatest_quantity, longest_period, shortest_unit};
ghost use Rattle.throttle_spec.specs.declared.throttle.TheConstants.{GREATEST_QUANTITY, LONGEST_PERIOD, SHORTEST_UNIT};

/// Of moments that keep a throttle fewer than quantity and burst together are in a window of one period, its end left out.
pub fn window_holds_fewer_than_quantity_and_burst()
    ensures { (s : Throttle) (moments : List ℕ) (from : ℕ) → IsThrottle s → Conforms s moments
        → count_by (is_in from (from + s.period)) moments < s.quantity + s.burst }
{}

/// Of moments that keep a throttle at most quantity and burst together are in a window of one period, with its end.
pub fn closed_window_holds_at_most_quantity_and_burst()
    ensures { (s : Throttle) (moments : List ℕ) (from : ℕ) → IsThrottle s → Conforms s moments
        → count_by (is_in_closed from (from + s.period)) moments ≤ s.quantity + s.burst }
{}

/// Where a bucket has room, the moments that it stands for conform with one more, and nowhere else.
pub fn room_decides_as_all_pairs()
    ensures { (b : BucketState) (moments : List ℕ) (t : ℕ) → StandsFor b moments
        → (IsAdmitted b t ↔ Conforms b.throttle (moments ++ clamped t ∷ [])) }
{}

/// Buckets of one throttle that stand for the same moments are the same.
pub fn moments_determine_the_bucket()
    ensures { (a : BucketState) (b : BucketState) (moments : List ℕ) → a.throttle ≡ b.throttle → StandsFor a moments
        → StandsFor b moments → a ≡ b }
{}

/// The least admitted moment is from the moment asked for to the last one, conforms or is the last, and none before conforms.
pub fn least_admitted_is_least()
    ensures { (s : Throttle) (moments : List ℕ) (t : ℕ) → IsLeastAdmitted s moments t (least_admitted s moments t) }
{}

/// The limits that the code has are those that the definitions state.
pub fn limits_are_as_stated()
    ensures greatest_quantity_is { GREATEST_QUANTITY ≡ greatest_quantity }
    ensures longest_period_is { LONGEST_PERIOD ≡ longest_period }
    ensures shortest_unit_is { SHORTEST_UNIT ≡ shortest_unit }
{}
