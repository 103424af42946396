//! What is asked of an order.
ghost use Rattle.std.specs.Prelude.{◌≡◌};
ghost use Rattle.suspensions.specs.inside.Question as spec;

use policy_core::Order;
use queue_name::QueueName;

/// What is asked of an order.
#[derive(Clone, Copy)]
pub(crate) enum Question<'a> {
    /// Whether it holds back the messages of a queue.
    Holds(&'a QueueName),
    /// Whether it bounces the messages of a queue.
    Bounces(&'a QueueName),
    /// Whether it halts the path of a text.
    Halts(&'a str),
}

/// Whether the answer is yes.
pub(crate) fn is_met(question: Question<'_>, order: &Order) -> bool
    ensures { result ≡ spec.is_met question.entry order.now }
{
    match question {
        Question::Holds(name) => match order {
            Order::Suspend { criteria, .. } => criteria.matches(name),
            Order::Bounce { criteria, .. } => criteria.matches(name),
            _ => false,
        },
        Question::Bounces(name) => match order {
            Order::Bounce { criteria, .. } => criteria.matches(name),
            _ => false,
        },
        Question::Halts(text) => match order {
            Order::SuspendReady { path, .. } => path.is_same(text),
            _ => false,
        },
    }
}
