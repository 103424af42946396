//! The orders of an administrator (KumoMTA's administrative suspensions and bounces).
ghost use Rattle.std.specs.Prelude.{◌≡◌, IfOk};

use kumo_base::{Memory, Text};
use queue_name::Criteria;
use std::alloc::Global;

/// An order. Those with a duration, in milliseconds, are live from their moment on for so long, or until they are resumed.
#[derive(Drop)]
pub enum Order {
    /// Messages whose queue's name meets the criteria wait.
    Suspend {
        criteria: Criteria,
        reason: Text,
        duration: u64,
    },
    /// The path of this text opens no connection and begins no attempt.
    SuspendReady {
        path: Text,
        reason: Text,
        duration: u64,
    },
    /// Messages whose queue's name meets the criteria are settled as bounced.
    Bounce {
        criteria: Criteria,
        reason: Text,
        duration: u64,
    },
    /// The order of this number is live no longer.
    Resume {
        number: u32,
    },
}

impl Order {
    /// An equal order.
    pub fn copy(&self, alloc: Global) -> Result<Order, Memory>
        ensures { IfOk result (λ copy. copy ≡ self.now) }
    {
        match self {
            Order::Suspend {
                criteria,
                reason,
                duration,
            } => Ok(Order::Suspend {
                criteria: criteria.copy(alloc)?,
                reason: reason.copy(alloc)?,
                duration: *duration,
            }),
            Order::SuspendReady {
                path,
                reason,
                duration,
            } => Ok(Order::SuspendReady {
                path: path.copy(alloc)?,
                reason: reason.copy(alloc)?,
                duration: *duration,
            }),
            Order::Bounce {
                criteria,
                reason,
                duration,
            } => Ok(Order::Bounce {
                criteria: criteria.copy(alloc)?,
                reason: reason.copy(alloc)?,
                duration: *duration,
            }),
            Order::Resume { number } => Ok(Order::Resume { number: *number }),
        }
    }
}
