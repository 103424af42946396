//! Whether an entry is proper, whatever history it stands in.
ghost use Rattle.std.specs.Prelude.{◌≡◌, ◌↔◌, IsTrue};
ghost use Rattle.history_core.specs.Proper.{Fits, FitsDelay, IsGivable, IsProperEvent, IsProperEntry};
ghost use Rattle.history_walk.specs.inside.Settling.{is_settled};

use history_core::{Entry, Event, Next};
use kumo_base::LAST_MOMENT;
use policy_core::Order;
use smtp_reply::Outcome;

/// Whether what comes of an attempt fits its outcome.
fn fits(outcome: &Outcome, next: Next) -> bool
    ensures { IsTrue result ↔ Fits outcome.now next }
{
    match outcome {
        Outcome::Delivered(_) => is_settled(next),
        Outcome::Permanent(_) => is_settled(next),
        Outcome::Transient(_) => fits_delay(next),
        Outcome::Lost(_) => fits_delay(next),
    }
}

/// Whether a receiver decided for good.
fn is_settled(next: Next) -> bool
    ensures { result ≡ is_settled next }
{
    match next {
        Next::Settled => true,
        Next::Due(_) => false,
        Next::Expired => false,
    }
}

/// Whether a message that failed may go on so.
fn fits_delay(next: Next) -> bool
    ensures { IsTrue result ↔ FitsDelay next }
{
    match next {
        Next::Settled => false,
        Next::Due(moment) => moment <= LAST_MOMENT,
        Next::Expired => true,
    }
}

/// Whether an order may be given.
fn is_givable(order: &Order) -> bool
    ensures { IsTrue result ↔ IsGivable order.now }
{
    match order {
        Order::Resume { .. } => false,
        _ => true,
    }
}

/// Whether an event is proper.
fn is_proper_event(event: &Event) -> bool
    ensures { IsTrue result ↔ IsProperEvent event.now }
{
    match event {
        Event::Recovered { message, due, .. } => message.is_proper() && *due <= LAST_MOMENT,
        Event::Accepted(message) => message.is_proper(),
        Event::Ended { outcome, next, .. } => outcome.is_proper() && fits(outcome, *next),
        Event::Delayed { next, .. } => fits_delay(*next),
        Event::Ordered { order, .. } => is_givable(order),
        Event::Rested { until } => *until <= LAST_MOMENT,
        _ => true,
    }
}

/// Whether an entry is proper.
pub(crate) fn is_proper(entry: &Entry) -> bool
    ensures { IsTrue result ↔ IsProperEntry entry.now }
{
    entry.at <= LAST_MOMENT && is_proper_event(&entry.what)
}
