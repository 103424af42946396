//! Whether a list of moments keeps a throttle, by all its pairs. Slow and plain: buckets answer the same from one number.
ghost use Rattle.std.specs.Prelude.{◌≡◌, ◌↔◌, ◌<◌, ◌≤◌, ℕ, ◌+◌, IsTrue, length};
ghost use Rattle.throttle_spec.specs.Throttle.{Conforms, PairFits, pair_fits, all_below, conforms};

use crate::throttle::ThrottleSpec;

/// Whether moments, in milliseconds and in the order in which they were taken, keep a throttle. The time that it takes
/// grows with the square of their number.
pub fn conforms(spec: &ThrottleSpec, moments: &[u64]) -> bool
    ensures exact { IsTrue result ↔ Conforms spec.now moments.now }
{
    for j in 0..moments.len() {
        if !all_fit(spec, moments, j) {
            return false;
        }
    }
    true
}

/// Whether each pair fits whose later place is j.
fn all_fit(spec: &ThrottleSpec, moments: &[u64], j: usize) -> bool
    requires { j < length moments.now }
    ensures { IsTrue result ↔ ((i : ℕ) → i ≤ j → PairFits spec.now moments.now i j) }
{
    for i in 0..j + 1 {
        if !pair_fits(spec, moments, i, j) {
            return false;
        }
    }
    true
}

/// Whether those from one place to another fit between their moments, the burst beside.
fn pair_fits(spec: &ThrottleSpec, moments: &[u64], i: usize, j: usize) -> bool
    requires order { i ≤ j }
    requires within { j < length moments.now }
    ensures { IsTrue result ↔ PairFits spec.now moments.now i j }
{
    let count = (j - i + 1) as u128;
    let period = u128::from(spec.period());
    let quantity = u128::from(spec.quantity());
    let burst = u128::from(spec.burst());
    count * period + u128::from(moments[i]) * quantity
        <= u128::from(moments[j]) * quantity + burst * period
}
