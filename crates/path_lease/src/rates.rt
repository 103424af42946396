//! The moments taken under each key of a throttle: a bucket for each key.
//!
//! A key without a throttle has no bucket. Another key's moments do not count.
ghost use Rattle.std.specs.Prelude.{◌≡◌, ◌≤◌, ◌<◌, ◌+◌, ℕ, List, [], ◌∷◌, ◌++◌, Some, nat_eq, false, IsTrue, ◌↔◌};
ghost use Rattle.kumo_base.specs.Moment.{clamped};
ghost use Rattle.throttle_spec.specs.Rates.{admits, least_by_rate};
ghost use Rattle.throttle_spec.specs.Bucket.{IsAdmitted};
ghost use Rattle.indexmap.specs.IndexMap.{get, spare};
ghost use Rattle.path_lease.specs.Standing.{IsCounted};
ghost use Rattle.path_lease.specs.Allowed.{Admits};

use indexmap::IndexMap;
use kumo_base::LAST_MOMENT;
use throttle_spec::{Bucket, ThrottleSpec};

/// The buckets by key.
pub(crate) type Buckets = IndexMap<u32, Bucket>;

/// Whether the rate of a key admits one more at a moment.
pub(crate) fn admits(buckets: &Buckets, rate: Option<ThrottleSpec>, key: u32, t: u64) -> bool
    ensures exact { (moments : List ℕ) → IsCounted rate moments (get nat_eq buckets.now key) → result ≡ admits rate moments t }
    ensures word { IsTrue result → Admits rate (get nat_eq buckets.now key) t }
{
    match rate {
        Some(rate) => bucket_of(buckets, rate, key).admits(t),
        None => true,
    }
}

/// The least moment from t on that the rate of a key admits; the latest moment where there is none.
pub(crate) fn next(buckets: &Buckets, rate: Option<ThrottleSpec>, key: u32, t: u64) -> u64
    ensures { (moments : List ℕ) → IsCounted rate moments (get nat_eq buckets.now key) → result ≡ least_by_rate rate moments t }
{
    match rate {
        Some(rate) => bucket_of(buckets, rate, key).next(t),
        None => t.min(LAST_MOMENT),
    }
}

/// Takes one more moment under a key.
pub(crate) fn count(buckets: &mut Buckets, rate: Option<ThrottleSpec>, key: u32, t: u64)
    requires room { 0 < spare buckets.old }
    requires admitted { Admits rate (get nat_eq buckets.old key) t }
    ensures counted { (moments : List ℕ) → IsCounted rate moments (get nat_eq buckets.old key)
        → IsCounted rate (moments ++ clamped t ∷ []) (get nat_eq buckets.new key) }
    ensures others { (other : ℕ) → nat_eq key other ≡ false → get nat_eq buckets.new other ≡ get nat_eq buckets.old other }
    ensures room { spare buckets.old ≤ spare buckets.new + 1 }
{
    if let Some(rate) = rate {
        let mut bucket = bucket_of(buckets, rate, key);
        bucket.take(t);
        let _counted = buckets.insert(key, bucket);
    }
}

/// The bucket of a key, new where nothing was taken under it.
fn bucket_of(buckets: &Buckets, rate: ThrottleSpec, key: u32) -> Bucket
    ensures counted { (moments : List ℕ) → IsCounted (Some rate) moments (get nat_eq buckets.now key) → IsCounted (Some rate) moments (Some result) }
    ensures word { (t : ℕ) → (IsAdmitted result t ↔ Admits (Some rate) (get nat_eq buckets.now key) t) }
{
    match buckets.get(&key) {
        Some(bucket) => *bucket,
        None => Bucket::new(rate),
    }
}
