//! What the options of a path are set to, as the tables of a shaping file spell it.
//!
//! The faults, the data and the rules' `SetConfig` all ask here what a key and a value set, so that they agree. Nothing is
//! kept and no memory is taken. A value that is refused gives its word: `BadType`, `BadOption` or `BadThrottle`.
ghost use Rattle.std.specs.Prelude.{◌≡◌};
ghost use Rattle.std.specs.List.{list_any};
ghost use Rattle.throttle_spec.specs.ThrottleText.{is_underscore};
ghost use Rattle.toml.specs.View.{table_view, view};
ghost use Rattle.policy_core.specs.OptionNames.{name_of_option};
ghost use Rattle.policy_toml.specs.Walks.{value_at};
ghost use Rattle.shaping_policy.specs.OptionValues.{option_number, whole_number, spelled_number, digits_in, number_at, rate_at, timeout_at, setting_of, setting_at, options_of};

use policy_core::{GREATEST_OPTION, OptionName, Options, Setting};
use policy_fault::Why;
use policy_toml::{duration_at, entry};
use throttle_spec::{ThrottleSpec, number_in, without_local};
use toml::{Table, Value};

/// What a key and a value set, `None` where the key is that of no option. The value may be refused as that of the option is.
#[tactic(auto, unfolding(crate::specs::OptionValues::setting_at))]
pub(crate) fn setting_at(key: &str, value: &Value) -> Option<Result<Setting, Why>>
    ensures { result ≡ setting_at key.now (view value.now) }
{
    match OptionName::named(key) {
        Some(option) => Some(setting_of(option, value)),
        None => None,
    }
}

/// What a value sets an option to. It is refused as `BadType` where it is of another kind than the option, else as
/// `BadOption` or `BadThrottle`.
#[tactic(auto, unfolding(crate::specs::OptionValues::setting_of))]
fn setting_of(option: OptionName, value: &Value) -> Result<Setting, Why>
    ensures { result ≡ setting_of option (view value.now) }
{
    match option {
        OptionName::ConnectionLimit => number_at(value).map(Setting::ConnectionLimit),
        OptionName::MessageRate => rate_at(value).map(Setting::MessageRate),
        OptionName::ConnectionRate => rate_at(value).map(Setting::ConnectionRate),
        OptionName::Deliveries => number_at(value).map(Setting::Deliveries),
        OptionName::ReadyLimit => number_at(value).map(Setting::ReadyLimit),
        OptionName::FailuresBeforeDelay => number_at(value).map(Setting::FailuresBeforeDelay),
        OptionName::IdleTimeout => timeout_at(value).map(Setting::IdleTimeout),
    }
}

/// The options that a table without faults sets.
#[tactic(auto, unfolding(crate::specs::OptionValues::options_of))]
pub(crate) fn options_of(table: &Table) -> Options
    ensures { result ≡ options_of (table_view table.now) }
{
    Options {
        connection_limit: number_of(table, OptionName::ConnectionLimit),
        max_message_rate: rate_of(table, OptionName::MessageRate),
        max_connection_rate: rate_of(table, OptionName::ConnectionRate),
        max_deliveries_per_connection: number_of(table, OptionName::Deliveries),
        max_ready: number_of(table, OptionName::ReadyLimit),
        failures_before_delay: number_of(table, OptionName::FailuresBeforeDelay),
        idle_timeout: timeout_of(table, OptionName::IdleTimeout),
    }
}

/// The number that a table gives to an option.
fn number_of(table: &Table, option: OptionName) -> Option<u32>
    ensures { result ≡ value_at number_at (name_of_option option) (table_view table.now) }
{
    match entry(table, option.name()) {
        Some(value) => match number_at(value) {
            Ok(number) => Some(number),
            Err(_) => None,
        },
        None => None,
    }
}

/// The rate that a table gives to an option.
fn rate_of(table: &Table, option: OptionName) -> Option<ThrottleSpec>
    ensures { result ≡ value_at rate_at (name_of_option option) (table_view table.now) }
{
    match entry(table, option.name()) {
        Some(value) => match rate_at(value) {
            Ok(rate) => Some(rate),
            Err(_) => None,
        },
        None => None,
    }
}

/// The duration that a table gives to an option, in milliseconds.
fn timeout_of(table: &Table, option: OptionName) -> Option<u64>
    ensures { result ≡ value_at timeout_at (name_of_option option) (table_view table.now) }
{
    match entry(table, option.name()) {
        Some(value) => match timeout_at(value) {
            Ok(milliseconds) => Some(milliseconds),
            Err(_) => None,
        },
        None => None,
    }
}

/// The number that a value gives to an option: a whole number, or the text of one.
#[tactic(auto, unfolding(crate::specs::OptionValues::number_at))]
fn number_at(value: &Value) -> Result<u32, Why>
    ensures { result ≡ number_at (view value.now) }
{
    if let Some(text) = value.as_str() {
        return spelled_number(text);
    }
    match value.as_integer() {
        Some(number) => whole_number(number),
        None => Err(Why::BadType),
    }
}

/// A whole number that an option may have.
fn whole_number(number: i64) -> Result<u32, Why>
    ensures { result ≡ whole_number number }
{
    if 1 <= number && number <= i64::from(GREATEST_OPTION) {
        Ok(number as u32)
    } else {
        Err(Why::BadOption)
    }
}

/// The number that a text writes, where it is one that an option may have.
fn spelled_number(text: &str) -> Result<u32, Why>
    ensures { result ≡ spelled_number (digits_in text.now) }
{
    match digits_in(text) {
        Some(number) => {
            if 1 <= number && number <= u64::from(GREATEST_OPTION) {
                Ok(number as u32)
            } else {
                Err(Why::BadOption)
            }
        }
        None => Err(Why::BadOption),
    }
}

/// The number that a text writes in digits alone, behind an optional `local:`.
fn digits_in(text: &str) -> Option<u64>
    ensures { result ≡ digits_in text.now }
{
    if has_underscore(text.as_bytes()) {
        None
    } else {
        number_in(without_local(text).as_bytes())
    }
}

/// Whether there is a `_`, which may stand between the digits of a rate alone.
fn has_underscore(text: &[u8]) -> bool
    ensures { result ≡ list_any is_underscore text.now }
{
    text.iter().any(|b| *b == b'_')
}

/// The rate that a value gives to an option: the text of a throttle.
#[tactic(auto, unfolding(crate::specs::OptionValues::rate_at))]
fn rate_at(value: &Value) -> Result<ThrottleSpec, Why>
    ensures { result ≡ rate_at (view value.now) }
{
    match value.as_str() {
        Some(text) => match ThrottleSpec::parse(text) {
            Ok(rate) => Ok(rate),
            Err(_) => Err(Why::BadThrottle),
        },
        None => Err(Why::BadType),
    }
}

/// The milliseconds that a value gives to an option: a duration, a text with units or a whole number of seconds, of at least
/// a millisecond.
#[tactic(auto, unfolding(crate::specs::OptionValues::timeout_at))]
fn timeout_at(value: &Value) -> Result<u64, Why>
    ensures { result ≡ timeout_at (view value.now) }
{
    match duration_at(value) {
        Ok(milliseconds) => {
            if 1 <= milliseconds {
                Ok(milliseconds)
            } else {
                Err(Why::BadOption)
            }
        }
        Err(Why::BadType) => Err(Why::BadType),
        Err(_) => Err(Why::BadOption),
    }
}
