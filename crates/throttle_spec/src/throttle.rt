//! A throttle: a quantity a period, and a burst.
ghost use Rattle.std.specs.Prelude.{◌≡◌, ◌↔◌, true, IfSome, IsSome};
ghost use Rattle.throttle_spec.specs.Throttle.{IsThrottle};

use std::marker::Model;

/// The greatest quantity and the greatest burst.
pub const GREATEST_QUANTITY: u64 = 1_000_000_000;

/// The longest period, in milliseconds: a day.
pub const LONGEST_PERIOD: u64 = 86_400_000;

/// The shortest unit that a throttle's text may name, in milliseconds: a second.
pub(crate) const SHORTEST_UNIT: u64 = 1000;

/// A quantity a period of some milliseconds, of which a burst may come at one moment. Each is at least 1, and at most
/// `GREATEST_QUANTITY`, `LONGEST_PERIOD` and `GREATEST_QUANTITY`.
#[derive(Clone, Copy, Debug, PartialEq, Eq)]
pub struct ThrottleSpec {
    quantity: u64,
    period: u64,
    burst: u64,
}

impl Model for ThrottleSpec {
    ghost use Rattle.throttle_spec.specs.Throttle.{Throttle, IsThrottle};

    ghost Value = { Throttle };

    ghost view = { λ s. record { quantity = s.quantity; period = s.period; burst = s.burst } };

    ghost invariant = { λ s. IsThrottle (record { quantity = s.quantity; period = s.period; burst = s.burst }) };

    ghost inverse = { λ s. record { quantity = s.quantity; period = s.period; burst = s.burst } };
}

impl ThrottleSpec {
    /// The throttle of a quantity, a period in milliseconds and a burst, or none where one is 0 or above its limit.
    pub fn of(quantity: u64, period: u64, burst: u64) -> Option<ThrottleSpec>
        ensures value { IfSome result (λ spec. spec ≡ record { quantity = quantity; period = period; burst = burst }) }
        ensures exact { IsSome result ↔ IsThrottle (record { quantity = quantity; period = period; burst = burst }) }
    {
        if is_throttle(quantity, period, burst) {
            Some(ThrottleSpec {
                quantity,
                period,
                burst,
            })
        } else {
            None
        }
    }

    /// How many a period.
    pub fn quantity(&self) -> u64
        ensures value { result ≡ self.now.quantity }
        ensures throttle { IsThrottle self.now }
    {
        self.quantity
    }

    /// The period, in milliseconds.
    pub fn period(&self) -> u64
        ensures value { result ≡ self.now.period }
        ensures throttle { IsThrottle self.now }
    {
        self.period
    }

    /// How many at one moment.
    pub fn burst(&self) -> u64
        ensures value { result ≡ self.now.burst }
        ensures throttle { IsThrottle self.now }
    {
        self.burst
    }
}

/// Whether each number keeps its limits.
fn is_throttle(quantity: u64, period: u64, burst: u64) -> bool
    ensures yes { result ≡ true → IsThrottle (record { quantity = quantity; period = period; burst = burst }) }
    ensures no { IsThrottle (record { quantity = quantity; period = period; burst = burst }) → result ≡ true }
{
    1 <= quantity
        && quantity <= GREATEST_QUANTITY
        && 1 <= period
        && period <= LONGEST_PERIOD
        && 1 <= burst
        && burst <= GREATEST_QUANTITY
}
