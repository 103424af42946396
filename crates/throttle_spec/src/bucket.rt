//! What a throttle has let through, as one number.
//!
//! A bucket takes the moments at which something happened, and answers whether one more at some moment keeps the throttle.
//! It does not keep the moments. For each of them there is how far it reaches: the moment, and a period's share for it
//! and for each taken after it, all times the quantity. The greatest reach is the number that a bucket keeps, the
//! theoretical arrival time of the generic cell rate algorithm (ITU-T I.371), and it decides as all pairs do.
ghost use Rattle.std.specs.Prelude.{◌≡◌, ◌↔◌, ◌≤◌, ℕ, ◌+◌, ◌*◌, max, List, [], ◌∷◌, ◌++◌, IsTrue};
ghost use Rattle.kumo_base.specs.Moment.{clamped};
ghost use Rattle.throttle_spec.specs.Throttle.{Conforms, least_admitted};
ghost use Rattle.throttle_spec.specs.Bucket.{StandsFor, IsAdmitted};

use crate::throttle::{GREATEST_QUANTITY, LONGEST_PERIOD, ThrottleSpec};
use kumo_base::LAST_MOMENT;
use std::marker::Model;

/// The greatest number that a bucket keeps.
const GREATEST_ARRIVAL: u128 = LAST_MOMENT as u128 * GREATEST_QUANTITY as u128
    + GREATEST_QUANTITY as u128 * LONGEST_PERIOD as u128;

/// A throttle, and how far the moments taken reach. Moments are milliseconds; one above `LAST_MOMENT` counts as that.
#[derive(Clone, Copy, Debug, PartialEq, Eq)]
pub struct Bucket {
    spec: ThrottleSpec,
    arrival: u128,
}

impl Model for Bucket {
    ghost use Rattle.std.specs.Prelude.{◌≤◌};
    ghost use Rattle.throttle_spec.specs.Bucket.{BucketState};
    ghost use Rattle.throttle_spec.specs.declared.bucket.TheConstants.{GREATEST_ARRIVAL};

    ghost Value = { BucketState };

    ghost view = { λ b. record { throttle = b.spec; arrival = b.arrival } };

    ghost invariant = { λ b. b.arrival ≤ GREATEST_ARRIVAL };

    ghost inverse = { λ b. record { spec = b.throttle; arrival = b.arrival } };
}

impl Bucket {
    /// A bucket that took nothing yet.
    pub fn new(spec: ThrottleSpec) -> Bucket
        ensures throttle { result.throttle ≡ spec }
        ensures stands { StandsFor result [] }
    {
        // What this call ensures tells the proof that the throttle keeps its limits.
        let _ = spec.burst();
        Bucket { spec, arrival: 0 }
    }

    /// The throttle that it keeps.
    pub fn spec(&self) -> ThrottleSpec
        ensures { result ≡ self.now.throttle }
    {
        self.spec
    }

    /// Whether the moments taken, with one more after them, keep the throttle. The one more may be before the last.
    #[tactic(auto, unfolding(crate::specs::Bucket::IsAdmitted))]
    pub fn admits(&self, t: u64) -> bool
        ensures exact { (moments : List ℕ) → StandsFor self.now moments
            → (IsTrue result ↔ Conforms self.now.throttle (moments ++ clamped t ∷ [])) }
        ensures word { IsTrue result ↔ IsAdmitted self.now t }
    {
        has_room(&self.spec, self.arrival, t)
    }

    /// Takes a moment that is admitted, which `admits` tells. It comes last in the list, also where it is before others.
    #[tactic(auto, unfolding(crate::specs::Bucket::IsAdmitted))]
    pub fn take(&mut self, t: u64)
        requires { IsAdmitted self.old t }
        ensures throttle { self.new.throttle ≡ self.old.throttle }
        ensures stands { (moments : List ℕ) → StandsFor self.old moments
            → StandsFor self.new (moments ++ clamped t ∷ []) }
    {
        self.arrival = reach_with(&self.spec, self.arrival, t);
    }

    /// The least moment from t to `LAST_MOMENT` that is admitted, and `LAST_MOMENT` where none is.
    pub fn next(&self, t: u64) -> u64
        ensures exact { (moments : List ℕ) → StandsFor self.now moments
            → result ≡ least_admitted self.now.throttle moments t }
    {
        let least = first_with_room(&self.spec, self.arrival);
        least.max(t.min(LAST_MOMENT))
    }
}

/// A moment times the quantity.
fn scaled(spec: &ThrottleSpec, t: u64) -> u128
    ensures value { result ≡ clamped t * spec.now.quantity }
    ensures limit { result ≤ LAST_MOMENT * GREATEST_QUANTITY }
{
    u128::from(t.min(LAST_MOMENT)) * u128::from(spec.quantity())
}

/// The time that a burst is worth, times the quantity.
fn allowance(spec: &ThrottleSpec) -> u128
    ensures value { result ≡ spec.now.burst * spec.now.period }
    ensures limit { result ≤ GREATEST_QUANTITY * LONGEST_PERIOD }
{
    u128::from(spec.burst()) * u128::from(spec.period())
}

/// Whether there is room for one more at a moment, where the moments taken reach so far.
fn has_room(spec: &ThrottleSpec, arrival: u128, t: u64) -> bool
    requires { arrival ≤ GREATEST_ARRIVAL }
    ensures { IsTrue result ↔ (arrival + spec.now.period ≤ clamped t * spec.now.quantity + spec.now.burst * spec.now.period) }
{
    arrival + u128::from(spec.period()) <= scaled(spec, t) + allowance(spec)
}

/// How far the moments taken reach with one more, for which there is room.
fn reach_with(spec: &ThrottleSpec, arrival: u128, t: u64) -> u128
    requires { arrival + spec.now.period ≤ clamped t * spec.now.quantity + spec.now.burst * spec.now.period }
    ensures value { result ≡ max arrival (clamped t * spec.now.quantity) + spec.now.period }
    ensures limit { result ≤ GREATEST_ARRIVAL }
{
    arrival.max(scaled(spec, t)) + u128::from(spec.period())
}

/// The first moment with room for one more, and `LAST_MOMENT` where none has.
fn first_with_room(spec: &ThrottleSpec, arrival: u128) -> u64
    requires { arrival ≤ GREATEST_ARRIVAL }
    ensures within { result ≤ LAST_MOMENT }
    ensures before { (v : ℕ) → v + 1 ≤ result
        → v * spec.now.quantity + spec.now.burst * spec.now.period + 1 ≤ arrival + spec.now.period }
    ensures room { result + 1 ≤ LAST_MOMENT
        → arrival + spec.now.period ≤ result * spec.now.quantity + spec.now.burst * spec.now.period }
{
    let short = (arrival + u128::from(spec.period())).saturating_sub(allowance(spec));
    let first = short.div_ceil(u128::from(spec.quantity()));
    first.min(u128::from(LAST_MOMENT)) as u64
}
