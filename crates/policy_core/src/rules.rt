//! The rules of a path: which replies they react to, and what they then do for a while (KumoMTA's traffic shaping
//! automation).
ghost use Rattle.std.specs.Prelude.{◌≡◌, IfOk};
ghost use Rattle.policy_core.specs.OptionNames.{option_of};

use crate::copying::{TryCopy, copy_items};
use crate::option_name::OptionName;
use kumo_base::{Items, Memory, Text};
use std::alloc::Global;
use throttle_spec::ThrottleSpec;

/// The greatest count of a threshold. The least is 1.
pub const GREATEST_COUNT: u32 = 10_000;

/// A value that a rule gives to one of the options of a path.
#[derive(Clone, Copy)]
pub enum Setting {
    /// `connection_limit`
    ConnectionLimit(u32),
    /// `max_message_rate`
    MessageRate(ThrottleSpec),
    /// `max_connection_rate`
    ConnectionRate(ThrottleSpec),
    /// `max_deliveries_per_connection`
    Deliveries(u32),
    /// `max_ready`
    ReadyLimit(u32),
    /// `consecutive_connection_failures_before_delay`
    FailuresBeforeDelay(u32),
    /// `idle_timeout`, in milliseconds
    IdleTimeout(u64),
}

/// What a rule does while it is in force.
#[derive(Clone, Copy)]
pub enum Action {
    /// The path opens no connection and begins no attempt.
    Suspend,
    /// The tenant of the message whose reply fired the rule waits, at this site.
    SuspendTenant,
    /// The campaign of the message whose reply fired the rule waits, at this site.
    SuspendCampaign,
    /// The path has this value of an option.
    Set(Setting),
    /// It sets an option that has no effect here.
    Nothing,
}

/// How many replies that match fire a rule.
#[derive(Clone, Copy)]
pub enum Trigger {
    /// Each one does.
    Immediate,
    /// One does that is at least the `count`-th within `period`, which is in milliseconds.
    Threshold { count: u32, period: u64 },
}

/// A rule.
#[derive(Drop)]
pub struct Rule {
    /// A reply matches in whose text one of these search patterns is found.
    pub patterns: Items<Text>,
    pub action: Action,
    pub trigger: Trigger,
    /// How long the rule is in force once it fired, in milliseconds.
    pub duration: u64,
}

impl Setting {
    /// The option that is set.
    pub fn option(&self) -> OptionName
        ensures { result ≡ option_of self.now }
    {
        match self {
            Setting::ConnectionLimit(_) => OptionName::ConnectionLimit,
            Setting::MessageRate(_) => OptionName::MessageRate,
            Setting::ConnectionRate(_) => OptionName::ConnectionRate,
            Setting::Deliveries(_) => OptionName::Deliveries,
            Setting::ReadyLimit(_) => OptionName::ReadyLimit,
            Setting::FailuresBeforeDelay(_) => OptionName::FailuresBeforeDelay,
            Setting::IdleTimeout(_) => OptionName::IdleTimeout,
        }
    }
}

impl Rule {
    /// An equal rule.
    pub fn copy(&self, alloc: Global) -> Result<Rule, Memory>
        ensures { IfOk result (λ copy. copy ≡ self.now) }
    {
        Ok(Rule {
            patterns: copy_items(alloc, &self.patterns)?,
            action: self.action,
            trigger: self.trigger,
            duration: self.duration,
        })
    }
}

impl TryCopy for Rule {
    fn try_copy(&self, alloc: Global) -> Result<Rule, Memory> {
        self.copy(alloc)
    }
}
