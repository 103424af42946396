//! Reads a throttle from its text, as `local:1_000/hour,max_burst=50`. The readers of shaping files read their rates here.
//!
//! `ThrottleSpec::parse` cuts the text at its first slash and at `,max_burst=`, and reads the parts. It keeps nothing and
//! takes no memory. It answers the throttle, or the first `ThrottleFault` in the order in which they are listed.
ghost use Rattle.std.specs.Prelude.{◌≡◌, ◌<◌, ◌≤◌, ℕ, ◌+◌, ◌==◌, min, true, false, Option, Some, None, Ok, Err, IfOk, IfSome, MatchOption, length, codes};
ghost use Rattle.std.specs.Option.{option_map};
ghost use Rattle.std.specs.List.{list_any, list_all, filter, before_first, after_first};
ghost use Rattle.std.specs.Char.{is_ascii_digit};
ghost use Rattle.std.specs.Str.Parse.{digits_value};
ghost use Rattle.throttle_spec.specs.ThrottleText.{is_slash, Around, without_word, around_word, is_digits, is_number, number_of, period_of, with_rate, with_period, with_burst, throttle_around, throttle_of};

use crate::throttle::{GREATEST_QUANTITY, LONGEST_PERIOD, SHORTEST_UNIT, ThrottleSpec};
use kumo_base::{all_digits, around_first, unit_milliseconds};

/// One past the greatest quantity. A number that is larger is kept as this, so that none is too large for its type.
const TOO_LARGE: u64 = GREATEST_QUANTITY + 1;

/// Why a text is no throttle. Of several causes the one that stands first here is answered.
#[derive(Clone, Copy, Debug, PartialEq, Eq)]
pub enum ThrottleFault {
    /// There is no `/`.
    NoSlash,
    /// What stands before the first `/` is no number, or one above `GREATEST_QUANTITY`.
    BadQuantity,
    /// The quantity is 0.
    Zero,
    /// What stands behind the slash, and before `,max_burst=` where there is one, is no unit from a second to a day.
    BadPeriod,
    /// What stands behind `,max_burst=` is no number, 0 or one above `GREATEST_QUANTITY`.
    BadBurst,
}

impl ThrottleSpec {
    /// The throttle that a text writes: an optional `local:`, a quantity, `/`, a unit of seconds, minutes, hours or
    /// days, and optionally `,max_burst=` and a number. A `_` may stand between two digits. Without a burst it is the
    /// quantity. (The form is that of KumoMTA's throttles; which spellings are read is this project's choice.)
    #[tactic(auto, unfolding(crate::specs::ThrottleText::throttle_of))]
    pub fn parse(text: &str) -> Result<ThrottleSpec, ThrottleFault>
        ensures value { result ≡ throttle_of text.now }
    {
        let limit = without_local(text);
        match around_first(limit, '/') {
            Some((quantity, rate)) => throttle_around(quantity, rate),
            None => Err(ThrottleFault::NoSlash),
        }
    }
}

/// A text without `local:` at its front. It says that a limit is kept by this node alone, as every one here is.
pub fn without_local(text: &str) -> &str
    ensures { result.now ≡ without_word (codes "local:") text.now }
{
    match text.strip_prefix("local:") {
        Some(rest) => rest,
        None => text,
    }
}

/// What stands before and behind the first `,max_burst=`.
fn around_burst(rate: &str) -> Option<(&str, &str)>
    ensures { around_word (codes ",max_burst=") rate.now ≡ option_map
        (λ p. record { before = p.0.now; behind = p.1.now }) result }
{
    rate.split_once(",max_burst=")
}

/// The throttle of a quantity and of what stands behind the slash.
fn throttle_around(quantity: &str, rate: &str) -> Result<ThrottleSpec, ThrottleFault>
    ensures { result ≡ throttle_around quantity.now rate.now }
{
    match number_in(quantity.as_bytes()) {
        Some(quantity) => {
            if quantity == 0 {
                Err(ThrottleFault::Zero)
            } else {
                with_rate(quantity, rate)
            }
        }
        None => Err(ThrottleFault::BadQuantity),
    }
}

/// The throttle of a number and of what stands behind the slash.
fn with_rate(quantity: u64, rate: &str) -> Result<ThrottleSpec, ThrottleFault>
    requires some { 0 < quantity }
    requires limit { quantity ≤ GREATEST_QUANTITY }
    ensures { result ≡ with_rate quantity rate.now (around_word (codes ",max_burst=") rate.now) }
{
    match around_burst(rate) {
        Some((unit, burst)) => with_period(quantity, unit.as_bytes(), number_in(burst.as_bytes())),
        None => with_period(quantity, rate.as_bytes(), Some(quantity)),
    }
}

/// The throttle of a quantity, a unit and a burst, where it could be read.
fn with_period(
    quantity: u64,
    unit: &[u8],
    burst: Option<u64>,
) -> Result<ThrottleSpec, ThrottleFault>
    requires some { 0 < quantity }
    requires limit { quantity ≤ GREATEST_QUANTITY }
    requires burst_limit { IfSome burst (λ n. n ≤ GREATEST_QUANTITY) }
    ensures { result ≡ with_period quantity (period_of unit.now) burst }
{
    match period_of(unit) {
        Some(period) => with_burst(quantity, period, burst),
        None => Err(ThrottleFault::BadPeriod),
    }
}

/// The throttle of a quantity, a period and a burst, where it could be read.
fn with_burst(quantity: u64, period: u64, burst: Option<u64>) -> Result<ThrottleSpec, ThrottleFault>
    requires some { 0 < quantity }
    requires limit { quantity ≤ GREATEST_QUANTITY }
    requires some_period { 0 < period }
    requires period_limit { period ≤ LONGEST_PERIOD }
    requires burst_limit { IfSome burst (λ n. n ≤ GREATEST_QUANTITY) }
    ensures { result ≡ with_burst quantity period burst }
{
    match burst {
        Some(burst) => ThrottleSpec::of(quantity, period, burst).ok_or(ThrottleFault::BadBurst),
        None => Err(ThrottleFault::BadBurst),
    }
}

/// The milliseconds of a unit from a second to a day.
pub fn period_of(unit: &[u8]) -> Option<u64>
    ensures value { result ≡ period_of unit.now }
    ensures some { IfSome result (λ period. 0 < period) }
    ensures limit { IfSome result (λ period. period ≤ LONGEST_PERIOD) }
{
    match unit_milliseconds(unit) {
        Some(period) => {
            if SHORTEST_UNIT <= period && period <= LONGEST_PERIOD {
                Some(period)
            } else {
                None
            }
        }
        None => None,
    }
}

/// The number that a text writes in decimal digits, of which two may have a `_` between, where it is one and at most
/// `GREATEST_QUANTITY`.
#[tactic(auto, unfolding(crate::specs::ThrottleText::number_of))]
pub fn number_in(text: &[u8]) -> Option<u64>
    ensures value { result ≡ number_of text.now }
    ensures limit { IfSome result (λ n. n ≤ GREATEST_QUANTITY) }
{
    if !is_number(text) {
        return None;
    }
    let number = value_of(text);
    if number <= GREATEST_QUANTITY {
        Some(number)
    } else {
        None
    }
}

/// Whether a text is digits, each `_` between two of them.
fn is_number(text: &[u8]) -> bool
    ensures { result ≡ is_number text.now }
{
    text.split(|b| *b == b'_').all(is_digits)
}

/// Whether there is one digit or more, and nothing else.
fn is_digits(part: &[u8]) -> bool
    ensures { result ≡ is_digits part.now }
{
    0 < part.len() && all_digits(part)
}

/// The number that the digits of a text write, or `TOO_LARGE` where it is more.
fn value_of(text: &[u8]) -> u64
    ensures { result ≡ min (digits_value 10 (filter is_ascii_digit text.now)) TOO_LARGE }
{
    let mut number = 0;
    for byte in text {
        if byte.is_ascii_digit() {
            number = (number * 10 + u64::from(*byte - b'0')).min(TOO_LARGE);
        }
    }
    number
}
