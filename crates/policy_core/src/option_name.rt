//! The names of the options of a path, in one list. The reader of shaping files takes its keys from it, and the text that
//! explains a path its lines.
ghost use Rattle.std.specs.Prelude.{◌≡◌, bytes_eq, find, option_map};
ghost use Rattle.policy_core.specs.OptionNames.{name_of_option, option_named};

/// An option of a path.
#[derive(Clone, Copy, Debug, PartialEq, Eq)]
pub enum OptionName {
    /// How many connections a path may have open at one time.
    ConnectionLimit,
    /// How often an attempt may begin.
    MessageRate,
    /// How often a connection may be opened.
    ConnectionRate,
    /// How many attempts may begin on one connection.
    Deliveries,
    /// How many messages may be ready on a path.
    ReadyLimit,
    /// How many connections refused in a row delay the ready messages.
    FailuresBeforeDelay,
    /// How long a connection that has nothing to send may be kept.
    IdleTimeout,
}

/// Every option of a path, in the order in which they are listed.
pub const OPTION_NAMES: [OptionName; 7] = [
    OptionName::ConnectionLimit,
    OptionName::MessageRate,
    OptionName::ConnectionRate,
    OptionName::Deliveries,
    OptionName::ReadyLimit,
    OptionName::FailuresBeforeDelay,
    OptionName::IdleTimeout,
];

impl OptionName {
    /// The key of the option in a shaping file, which is also its name in printed lines.
    pub fn name(self) -> &'static str
        ensures { result.now ≡ name_of_option self }
    {
        match self {
            OptionName::ConnectionLimit => "connection_limit",
            OptionName::MessageRate => "max_message_rate",
            OptionName::ConnectionRate => "max_connection_rate",
            OptionName::Deliveries => "max_deliveries_per_connection",
            OptionName::ReadyLimit => "max_ready",
            OptionName::FailuresBeforeDelay => "consecutive_connection_failures_before_delay",
            OptionName::IdleTimeout => "idle_timeout",
        }
    }

    /// The option of this name, `None` where there is none.
    #[tactic(auto, unfolding(crate::specs::OptionNames::option_named))]
    pub fn named(key: &str) -> Option<OptionName>
        ensures { result ≡ option_named key.now }
    {
        first_named(&OPTION_NAMES, key).copied()
    }
}

/// The first of options that has the name.
fn first_named<'o>(options: &'o [OptionName], key: &str) -> Option<&'o OptionName>
    ensures { option_map (λ o. o.now) result ≡ find (λ o. bytes_eq (name_of_option o) key.now) options.now }
{
    options.iter().find(|option| option.name() == key)
}
