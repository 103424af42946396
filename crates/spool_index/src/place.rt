//! The place of a pending message, and what it adds to the sizes of a file.
ghost use Rattle.std.specs.Prelude.{◌≡◌};
ghost use Rattle.spool_index.specs.Places as spec;

/// A pending message: its id, and where its record stands in the spool's area.
#[derive(Clone, Copy)]
pub struct Place {
    pub id: u128,
    /// Where the payload of the record begins in the area, in bytes.
    pub at: u64,
    /// How long the payload is, in bytes.
    pub size: u32,
    /// How often the message was put off.
    pub failures: u32,
    /// From when on it is to be tried, in milliseconds since 1970.
    pub due: u64,
}

/// What a message adds to the live size.
pub(crate) fn live_cost(place: Place) -> u64
    ensures { result ≡ spec.live_cost place }
{
    u64::from(place.size) + 96
}

/// What a message adds to the compacted size.
pub(crate) fn compacted_cost(place: Place) -> u64
    ensures { result ≡ spec.compacted_cost place }
{
    let record = u64::from(place.size) + 6;
    if place.failures == 0 {
        record
    } else {
        record + 34
    }
}
