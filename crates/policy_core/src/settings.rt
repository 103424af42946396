//! The settings of a scheduled queue, and the layers that they come from. The names are those of the options of KumoMTA's
//! `make_queue_config`.
ghost use Rattle.std.specs.Prelude.{◌≡◌, IfOk};

use crate::copying::copy_optional;
use kumo_base::{Memory, Text};
use std::alloc::Global;

/// The age that a message may reach where no layer says another, in milliseconds: 7 days.
pub const DEFAULT_MAX_AGE: u64 = 604_800_000;

/// The delay after a first failure where no layer says another, in milliseconds: 20 minutes.
pub const DEFAULT_RETRY_INTERVAL: u64 = 1_200_000;

/// The name of the source and of the pool that are always there. A queue whose layers name no pool has this one.
pub const UNSPECIFIED: &str = "unspecified";

/// What a source says in EHLO where its table says nothing else.
pub const DEFAULT_EHLO: &str = "localhost";

/// The settings in force for a queue.
#[derive(Drop)]
pub struct Settings {
    /// The age in milliseconds past which a message expires.
    pub max_age: u64,
    /// The delay after the first failure, in milliseconds. It doubles with each further one.
    pub retry_interval: u64,
    /// What no delay passes, in milliseconds; none for no bound.
    pub max_retry_interval: Option<u64>,
    /// The name of the pool whose sources the queue's messages leave by (`egress_pool` in files).
    pub pool: Text,
}

/// Settings as one table of a text gives them. An option that is not set leaves the layers below as they are.
#[derive(Drop)]
pub struct Layer {
    /// As in `Settings`, in milliseconds.
    pub max_age: Option<u64>,
    /// As in `Settings`, in milliseconds.
    pub retry_interval: Option<u64>,
    /// As in `Settings`, in milliseconds. No layer can take a bound away again.
    pub max_retry_interval: Option<u64>,
    /// As in `Settings`.
    pub pool: Option<Text>,
}

impl Settings {
    /// Equal settings.
    pub fn copy(&self, alloc: Global) -> Result<Settings, Memory>
        ensures { IfOk result (λ copy. copy ≡ self.now) }
    {
        Ok(Settings {
            max_age: self.max_age,
            retry_interval: self.retry_interval,
            max_retry_interval: self.max_retry_interval,
            pool: self.pool.copy(alloc)?,
        })
    }
}

impl Layer {
    /// An equal layer.
    pub fn copy(&self, alloc: Global) -> Result<Layer, Memory>
        ensures { IfOk result (λ copy. copy ≡ self.now) }
    {
        Ok(Layer {
            max_age: self.max_age,
            retry_interval: self.retry_interval,
            max_retry_interval: self.max_retry_interval,
            pool: copy_optional(alloc, &self.pool)?,
        })
    }
}
