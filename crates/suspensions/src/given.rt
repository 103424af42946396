//! An order as it was given, and when it is live.
ghost use Rattle.std.specs.Prelude.{◌≡◌};
ghost use Rattle.policy_core.specs.LiveOrders as words;
ghost use Rattle.suspensions.specs.Orders as spec;

use kumo_base::LAST_MOMENT;
use policy_core::Order;

/// An order as it was given.
#[derive(Drop)]
pub struct Given {
    /// Orders are numbered from 1, in the order in which they were given.
    pub number: u32,
    /// The moment at which it was given, in milliseconds since 1970.
    pub at: u64,
    pub order: Order,
    /// Whether it was taken back.
    pub resumed: bool,
}

impl Given {
    /// Whether it is live at a moment.
    pub(crate) fn is_live(&self, t: u64) -> bool
        ensures { result ≡ spec.is_live t self.now }
    {
        self.at <= t && t < end_of(self.at, &self.order) && !self.resumed
    }
}

/// The moment from which on an order that was given at a moment is live no longer.
pub(crate) fn end_of(at: u64, order: &Order) -> u64
    ensures { result ≡ words.end_of at (words.duration_of order.now) }
{
    at.saturating_add(duration_of(order)).min(LAST_MOMENT)
}

/// How long an order is live, in milliseconds.
fn duration_of(order: &Order) -> u64
    ensures { result ≡ words.duration_of order.now }
{
    match order {
        Order::Suspend { duration, .. } => *duration,
        Order::SuspendReady { duration, .. } => *duration,
        Order::Bounce { duration, .. } => *duration,
        Order::Resume { .. } => 0,
    }
}
