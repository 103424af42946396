//! The payload that defers a message.
ghost use Rattle.std.specs.Prelude.{◌≡◌};
ghost use Rattle.spool_format.specs.Deferred.{deferred_payload, deferred_in};

use crate::fields::{count_at, id_at, moment_at};
use kumo_base::LAST_MOMENT;

/// What is kept of a message that failed for now. Proper ones have one failure or more, and a moment up to `LAST_MOMENT`.
#[derive(Clone, Copy, Debug, PartialEq, Eq)]
pub struct Deferral {
    /// Which message it is.
    pub id: u128,
    /// Its failures so far.
    pub failures: u32,
    /// The moment from which it is tried next, in milliseconds since 1970.
    pub due: u64,
}

/// The bytes of a deferral.
#[tactic(auto, unfolding(crate::specs::Deferred::deferred_payload))]
pub fn write_deferred(deferral: Deferral) -> [u8; 28]
    ensures { result ≡ deferred_payload deferral }
{
    let [a, b, c, d, e, f, g, h, i, j, k, l, m, n, o, p] = deferral.id.to_be_bytes();
    let [q, r, s, t] = deferral.failures.to_be_bytes();
    let [u, v, w, x, y, z, first, last] = deferral.due.to_be_bytes();
    [
        a, b, c, d, e, f, g, h, i, j, k, l, m, n, o, p, q, r, s, t, u, v, w, x, y, z, first, last,
    ]
}

/// The deferral that a payload says, where it is proper.
#[tactic(auto, unfolding(crate::specs::Deferred::deferred_in))]
pub fn read_deferred(payload: &[u8]) -> Option<Deferral>
    ensures { result ≡ deferred_in payload.now }
{
    let (id, rest) = id_at(payload)?;
    let (failures, rest) = count_at(rest)?;
    let (due, rest) = moment_at(rest)?;
    if rest.is_empty() && failures >= 1 && due <= LAST_MOMENT {
        Some(Deferral { id, failures, due })
    } else {
        None
    }
}
