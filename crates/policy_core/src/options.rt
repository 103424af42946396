//! The options of a path, as the tables of a shaping file set them, and their values in force. The names are those of
//! KumoMTA's `make_egress_path`.
ghost use Rattle.std.specs.Prelude.{◌≡◌, None};
ghost use Rattle.policy_core.specs.PathOptions.{options_over, in_force_of, no_options};

use throttle_spec::ThrottleSpec;

/// The connections that a path may have open at one time where no table says another number.
pub const DEFAULT_CONNECTION_LIMIT: u32 = 32;

/// The attempts that may begin on one connection where no table says another number.
pub const DEFAULT_MAX_DELIVERIES: u32 = 1024;

/// The messages that may be ready on a path where no table says another number.
pub const DEFAULT_MAX_READY: u32 = 1024;

/// The connections refused in a row that delay a path's ready messages where no table says another number.
pub const DEFAULT_FAILURES_BEFORE_DELAY: u32 = 100;

/// The greatest value of an option that is a number. The least is 1.
pub const GREATEST_OPTION: u32 = 1_000_000;

/// The options that one table sets, or that tables laid over each other come to. One that is not set leaves the tables
/// below as they are.
#[derive(Clone, Copy)]
pub struct Options {
    /// How many connections a path may have open at one time.
    pub connection_limit: Option<u32>,
    /// How often an attempt may begin.
    pub max_message_rate: Option<ThrottleSpec>,
    /// How often a connection may be opened.
    pub max_connection_rate: Option<ThrottleSpec>,
    /// How many attempts may begin on one connection.
    pub max_deliveries_per_connection: Option<u32>,
    /// How many messages may be ready on a path.
    pub max_ready: Option<u32>,
    /// How many connections refused in a row delay the ready messages
    /// (`consecutive_connection_failures_before_delay` in files).
    pub failures_before_delay: Option<u32>,
    /// How long a connection that has nothing to send may be kept, in milliseconds.
    pub idle_timeout: Option<u64>,
}

/// The options of a path in force at a moment. A key says which rule set a throttle: 0 is the path's own, r is the r-th
/// rule of its list, counted from 1. Moments that were taken under one key count together.
#[derive(Clone, Copy)]
pub struct InForce {
    pub connection_limit: u32,
    /// None where attempts may begin at any time.
    pub message_rate: Option<ThrottleSpec>,
    pub message_key: u32,
    /// None where connections may be opened at any time.
    pub connection_rate: Option<ThrottleSpec>,
    pub connection_key: u32,
    pub deliveries: u32,
    pub ready_limit: u32,
    pub failures_before_delay: u32,
    /// In milliseconds; none where no connection is kept that has nothing to send.
    pub idle_timeout: Option<u64>,
}

impl Options {
    /// Options of which none is set.
    pub fn new() -> Options
        ensures { result ≡ no_options }
    {
        Options {
            connection_limit: None,
            max_message_rate: None,
            max_connection_rate: None,
            max_deliveries_per_connection: None,
            max_ready: None,
            failures_before_delay: None,
            idle_timeout: None,
        }
    }
}

impl InForce {
    /// What is in force on a path of these options while no rule sets any: the options with their defaults.
    pub fn of(options: &Options) -> InForce
        ensures { result ≡ in_force_of options.now }
    {
        InForce {
            connection_limit: options.connection_limit.unwrap_or(DEFAULT_CONNECTION_LIMIT),
            message_rate: options.max_message_rate,
            message_key: 0,
            connection_rate: options.max_connection_rate,
            connection_key: 0,
            deliveries: options
                .max_deliveries_per_connection
                .unwrap_or(DEFAULT_MAX_DELIVERIES),
            ready_limit: options.max_ready.unwrap_or(DEFAULT_MAX_READY),
            failures_before_delay: options
                .failures_before_delay
                .unwrap_or(DEFAULT_FAILURES_BEFORE_DELAY),
            idle_timeout: options.idle_timeout,
        }
    }
}

/// Lays options over others: each that `over` sets takes the place of the one below.
pub fn overlay(under: &mut Options, over: &Options)
    ensures { under.new ≡ options_over under.old over.now }
{
    under.connection_limit = over.connection_limit.or(under.connection_limit);
    under.max_message_rate = over.max_message_rate.or(under.max_message_rate);
    under.max_connection_rate = over.max_connection_rate.or(under.max_connection_rate);
    under.max_deliveries_per_connection = over
        .max_deliveries_per_connection
        .or(under.max_deliveries_per_connection);
    under.max_ready = over.max_ready.or(under.max_ready);
    under.failures_before_delay = over.failures_before_delay.or(under.failures_before_delay);
    under.idle_timeout = over.idle_timeout.or(under.idle_timeout);
}
