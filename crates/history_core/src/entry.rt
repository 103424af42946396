//! One event of the core, as the history keeps it and the log prints it.
use kumo_base::Text;
use policy_core::Order;
use queue_name::Message;
use smtp_reply::Outcome;

/// An event, when it was and by which pass.
#[derive(Drop)]
pub struct Entry {
    /// Milliseconds since 1970.
    pub at: u64,
    /// The number of the pass whose turn it was, 0 for the owner.
    pub who: u32,
    pub what: Event,
}

/// What happened.
#[derive(Drop)]
pub enum Event {
    /// The message stood in the spool when the work began: with the failures that it had, and the moment at which it is
    /// due, in milliseconds since 1970.
    Recovered {
        message: Message,
        failures: u32,
        due: u64,
    },
    /// The message was taken over.
    Accepted(Message),
    /// A message came whose id is that of a recovered one, which stays.
    Known {
        id: u128,
    },
    /// The message went from its scheduled queue to the ready queue of a path.
    Promoted {
        id: u128,
        source: Text,
    },
    /// A connection of the path was opened. Connections are numbered from 1. The key names the rule that its rate
    /// counts under, 0 where there is none.
    Opened {
        conn: u64,
        path: Text,
        key: u32,
    },
    /// An attempt began. The key is as above.
    Begun {
        conn: u64,
        id: u128,
        key: u32,
    },
    /// The attempt ended.
    Ended {
        conn: u64,
        id: u128,
        outcome: Outcome,
        next: Next,
    },
    /// The connection was closed.
    Closed {
        conn: u64,
        cause: Cause,
    },
    /// The message left its ready queue, since connections of its path were refused.
    Delayed {
        id: u128,
        next: Next,
    },
    /// An administrator gave an order. Orders are numbered from 1; a resumption has an event of its own.
    Ordered {
        number: u32,
        order: Order,
    },
    /// An administrator ended the order of this number.
    Resumed {
        number: u32,
    },
    /// The message got its fate without an attempt.
    Resolved {
        id: u128,
        how: How,
    },
    /// Nothing was left to do before this moment, in milliseconds since 1970.
    Rested {
        until: u64,
    },
    /// The work ended.
    Stopped,
}

/// What an ended attempt means for its message.
#[derive(Clone, Copy, Debug, PartialEq, Eq)]
pub enum Next {
    /// It has its fate: delivered or refused for good.
    Settled,
    /// It is due again at this moment, in milliseconds since 1970.
    Due(u64),
    /// It has its fate: too old to be tried again.
    Expired,
}

/// How a message got its fate without an attempt.
#[derive(Clone, Copy, Debug, PartialEq, Eq)]
pub enum How {
    /// It was too old.
    Expired,
    /// The order of this number bounced it.
    AdminBounced(u32),
}

/// Why a connection was closed.
#[derive(Clone, Copy, Debug, PartialEq, Eq)]
pub enum Cause {
    /// It had nothing to send for the path's idle timeout.
    Idle,
    /// It has had its number of attempts.
    Spent,
    /// The path has more connections than its limit now allows.
    Shed,
    /// The path is suspended.
    Halted,
    /// The rate of messages admits none now.
    Throttled,
    /// No ready message is left for it.
    Empty,
    /// The last attempt left the link unusable.
    Broken,
    /// No host of the path greeted.
    Refused,
    /// The work ends.
    Stop,
}
