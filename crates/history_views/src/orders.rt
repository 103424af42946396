//! The orders of an administrator that are live at a moment, and what they do.
ghost use Rattle.std.specs.Prelude.{◌≡◌, ◌&&◌, not, option_map, find, filter, filter_map, length};
ghost use Rattle.std.specs.List.{list_any};
ghost use Rattle.policy_core.specs.LiveOrders.{is_during, duration_of, holds, bounces, halts, end_of};
ghost use Rattle.history_core.specs.Events.{resumed_in, is_this};
ghost use Rattle.history_core.specs.LiveOrders.{given_order_in, is_resumed, is_live, is_held, bounced_by, is_suspended, orders, live_orders};
ghost use Rattle.history_views.specs.GivenNow.{order_of, live_in};

use history_core::{Entry, Event};
use kumo_base::LAST_MOMENT;
use policy_core::Order;
use queue_name::QueueName;

/// An order as its entry has it.
#[derive(Clone, Copy)]
pub struct GivenNow<'h> {
    pub number: u32,
    /// The moment at which it was given, in milliseconds since 1970.
    pub at: u64,
    pub order: &'h Order,
}

/// The moment at which what began at one moment and lasts so long is over, in milliseconds.
pub fn end_of(start: u64, duration: u64) -> u64
    ensures { result ≡ end_of start duration }
{
    start.saturating_add(duration).min(LAST_MOMENT)
}

/// Whether a moment is in what began at one moment and lasts so long.
pub fn is_during(start: u64, duration: u64, t: u64) -> bool
    ensures { result ≡ is_during start duration t }
{
    start <= t && t < end_of(start, duration)
}

/// How long an order is live, in milliseconds.
pub fn duration_of(order: &Order) -> u64
    ensures { result ≡ duration_of order.now }
{
    match order {
        Order::Suspend { duration, .. } => *duration,
        Order::SuspendReady { duration, .. } => *duration,
        Order::Bounce { duration, .. } => *duration,
        Order::Resume { .. } => 0,
    }
}

/// Whether an order holds back the messages of a queue.
fn holds(order: &Order, name: &QueueName) -> bool
    ensures { result ≡ holds order.now name.now }
{
    match order {
        Order::Suspend { criteria, .. } => criteria.matches(name),
        Order::SuspendReady { .. } => false,
        Order::Bounce { criteria, .. } => criteria.matches(name),
        Order::Resume { .. } => false,
    }
}

/// Whether an order settles the messages of a queue.
fn bounces(order: &Order, name: &QueueName) -> bool
    ensures { result ≡ bounces order.now name.now }
{
    match order {
        Order::Bounce { criteria, .. } => criteria.matches(name),
        _ => false,
    }
}

/// Whether an order halts the path of this text.
fn halts(order: &Order, text: &str) -> bool
    ensures { result ≡ halts order.now text.now }
{
    match order {
        Order::SuspendReady { path, .. } => path.is_same(text),
        _ => false,
    }
}

/// The order that an entry gives.
pub fn given_by(entry: &Entry) -> Option<GivenNow<'_>>
    ensures { option_map order_of result ≡ given_order_in entry.now }
{
    match &entry.what {
        Event::Ordered { number, order } => Some(GivenNow {
            number: *number,
            at: entry.at,
            order,
        }),
        _ => None,
    }
}

/// Whether the entry resumes the order.
fn resumes(entry: &Entry, number: u32) -> bool
    ensures { result ≡ is_this (resumed_in entry.now.what) number }
{
    match &entry.what {
        Event::Resumed { number: resumed } => *resumed == number,
        _ => false,
    }
}

/// Whether the order was resumed.
pub fn is_resumed(entries: &[Entry], number: u32) -> bool
    ensures { result ≡ is_resumed entries.now number }
{
    entries.iter().any(|entry| resumes(entry, number))
}

/// Whether an order is live at a moment.
pub fn is_live(entries: &[Entry], t: u64, given: &GivenNow<'_>) -> bool
    ensures { result ≡ is_live entries.now t (order_of given.now) }
{
    is_during(given.at, duration_of(given.order), t) && !is_resumed(entries, given.number)
}

/// The order that an entry gives, where it is live.
pub fn live_by<'h>(entries: &[Entry], t: u64, entry: &'h Entry) -> Option<GivenNow<'h>>
    ensures { option_map order_of result ≡ live_in entries.now t entry.now }
{
    match given_by(entry) {
        Some(given) if is_live(entries, t, &given) => Some(given),
        _ => None,
    }
}

/// Whether a live order holds back the messages of a queue.
pub fn is_held(entries: &[Entry], t: u64, name: &QueueName) -> bool
    ensures { result ≡ is_held entries.now t name.now }
{
    for entry in entries {
        if let Some(given) = live_by(entries, t, entry) {
            if holds(given.order, name) {
                return true;
            }
        }
    }
    false
}

/// The number of the first live bounce that matches a queue's name.
pub fn bounced_by(entries: &[Entry], t: u64, name: &QueueName) -> Option<u32>
    ensures { result ≡ bounced_by entries.now t name.now }
{
    for entry in entries {
        if let Some(given) = live_by(entries, t, entry) {
            if bounces(given.order, name) {
                return Some(given.number);
            }
        }
    }
    None
}

/// Whether a live order halts the path of this text.
pub fn is_suspended(entries: &[Entry], t: u64, text: &str) -> bool
    ensures { result ≡ is_suspended entries.now t text.now }
{
    for entry in entries {
        if let Some(given) = live_by(entries, t, entry) {
            if halts(given.order, text) {
                return true;
            }
        }
    }
    false
}
