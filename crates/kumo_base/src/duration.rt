//! Durations as people write them: `1h 30 mins`. Readers of policies and of orders read their times here.
//!
//! `duration_of` goes over the text once, group by group of a number and a unit, and keeps the sum in milliseconds. It
//! answers that sum, or the first fault and the place of its byte (`DurationFault`); it takes no memory.
ghost use Rattle.std.specs.Prelude.{◌≡◌, ◌+◌, ◌*◌, ◌≤◌, ◌<◌, ℕ, min, IfOk, IfSome, MatchResult, Ok, Err, EachIndex, length, slice_index};
ghost use Rattle.std.specs.List.{prefix_len};
ghost use Rattle.std.specs.Char.{IsAsciiDigit, is_ascii_digit, is_ascii_alphabetic};
ghost use Rattle.std.specs.Str.Parse.{digits_value};
ghost use Rattle.kumo_base.specs.Duration.{is_space, behind, unit_milliseconds, fault_at, group, duration_in, means_milliseconds, means_seconds, means_minutes, means_hours, means_days, means_weeks};

/// The longest duration, in milliseconds: 36,500 days.
pub const LONGEST_DURATION: u64 = 3_153_600_000_000;

/// One past the longest duration. What is longer is kept as this, so that no sum or product is too large for its type.
const TOO_LONG: u64 = LONGEST_DURATION + 1;

/// What is wrong with the text of a duration.
#[derive(Clone, Copy, Debug, PartialEq, Eq)]
pub enum DurationWhy {
    /// There is nothing but spaces.
    Empty,
    /// There is no digit where a number should begin.
    NoNumber,
    /// There is no unit behind a number, or none that is known.
    BadUnit,
    /// With the number that begins here the sum passes the longest duration.
    TooLong,
}

/// The first thing that is wrong with the text of a duration, and the byte where it begins, from 0.
#[derive(Clone, Copy, Debug, PartialEq, Eq)]
pub struct DurationFault {
    pub at: usize,
    pub why: DurationWhy,
}

/// A group, as `30 mins`: its milliseconds, at most one past the longest duration, and the text behind it.
#[derive(Clone, Copy)]
struct Group<'a> {
    milliseconds: u64,
    rest: &'a [u8],
}

/// The milliseconds of a duration: of one or more groups, each a decimal number and a unit, which may have spaces before,
/// between and behind them. Their sum is at most `LONGEST_DURATION`. The error is the first thing that is wrong, from the left.
pub fn duration_of(text: &str) -> Result<u64, DurationFault>
    ensures value { result ≡ duration_in text.now }
    ensures limit { IfOk result (λ milliseconds. milliseconds ≤ 3_153_600_000_000) }
{
    let whole = text.len();
    let mut rest = without_spaces(text.as_bytes());
    if rest.is_empty() {
        return Err(DurationFault {
            at: 0,
            why: DurationWhy::Empty,
        });
    }
    let mut sum = 0;
    while !rest.is_empty() {
        let group = first_group(rest, whole)?;
        sum += group.milliseconds;
        if sum > LONGEST_DURATION {
            return Err(fault_at(rest, whole, DurationWhy::TooLong));
        }
        rest = without_spaces(group.rest);
    }
    Ok(sum)
}

/// The group with which the rest of a text of `whole` bytes should begin.
fn first_group(bytes: &[u8], whole: usize) -> Result<Group<'_>, DurationFault>
    requires { length bytes.now ≤ whole }
    ensures value { MatchResult result
        (λ found. (m : ℕ)
        × (group whole bytes.now ≡ Ok (record { milliseconds = m; rest = found.rest.now }))
        × (found.milliseconds ≡ min m TOO_LONG))
        (λ fault. group whole bytes.now ≡ Err fault) }
    ensures shorter { IfOk result (λ found. length found.rest.now < length bytes.now) }
{
    let (digits, behind) = bytes.split_at(digits_in_front(bytes));
    if digits.is_empty() {
        return Err(fault_at(bytes, whole, DurationWhy::NoNumber));
    }
    let unit = without_spaces(behind);
    let (name, rest) = unit.split_at(letters_in_front(unit));
    match unit_milliseconds(name) {
        Some(factor) => Ok(Group {
            milliseconds: product(number_in(digits), factor),
            rest,
        }),
        None => Err(fault_at(unit, whole, DurationWhy::BadUnit)),
    }
}

/// A fault where the rest of a text of `whole` bytes begins.
fn fault_at(rest: &[u8], whole: usize, why: DurationWhy) -> DurationFault
    requires { length rest.now ≤ whole }
    ensures { result ≡ fault_at whole rest.now why }
{
    DurationFault {
        at: whole - rest.len(),
        why,
    }
}

/// What stands behind the spaces in front.
fn without_spaces(bytes: &[u8]) -> &[u8]
    ensures value { result.now ≡ behind is_space bytes.now }
    ensures within { length result.now ≤ length bytes.now }
{
    let (_, rest) = bytes.split_at(spaces_in_front(bytes));
    rest
}

/// How many spaces stand in front.
fn spaces_in_front(bytes: &[u8]) -> usize
    ensures value { result ≡ prefix_len is_space bytes.now }
    ensures within { result ≤ length bytes.now }
{
    bytes.iter().take_while(|b| **b == b' ').count()
}

/// How many digits stand in front.
fn digits_in_front(bytes: &[u8]) -> usize
    ensures value { result ≡ prefix_len is_ascii_digit bytes.now }
    ensures within { result ≤ length bytes.now }
{
    bytes.iter().take_while(|b| b.is_ascii_digit()).count()
}

/// How many ASCII letters stand in front.
fn letters_in_front(bytes: &[u8]) -> usize
    ensures value { result ≡ prefix_len is_ascii_alphabetic bytes.now }
    ensures within { result ≤ length bytes.now }
{
    bytes.iter().take_while(|b| b.is_ascii_alphabetic()).count()
}

/// The number that decimal digits write, or `TOO_LONG` where it is more.
fn number_in(digits: &[u8]) -> u64
    requires { EachIndex digits.now (λ k. IsAsciiDigit (slice_index digits.now k)) }
    ensures { result ≡ min (digits_value 10 digits.now) TOO_LONG }
{
    let mut number = 0;
    for digit in digits {
        number = (number * 10 + u64::from(*digit - b'0')).min(TOO_LONG);
    }
    number
}

/// A number of units in milliseconds, or `TOO_LONG` where it is more.
fn product(number: u64, factor: u64) -> u64
    ensures { result ≡ min (number * factor) TOO_LONG }
{
    number.saturating_mul(factor).min(TOO_LONG)
}

/// The milliseconds of a unit, as `mins`, or none where the name is no unit's.
pub fn unit_milliseconds(name: &[u8]) -> Option<u64>
    ensures value { result ≡ unit_milliseconds name.now }
    ensures positive { IfSome result (λ factor. 0 < factor) }
{
    if means_milliseconds(name) {
        Some(1)
    } else if means_seconds(name) {
        Some(1000)
    } else if means_minutes(name) {
        Some(60_000)
    } else if means_hours(name) {
        Some(3_600_000)
    } else if means_days(name) {
        Some(86_400_000)
    } else if means_weeks(name) {
        Some(604_800_000)
    } else {
        None
    }
}

/// Whether a name means milliseconds.
#[tactic(auto, unfolding(crate::specs::Duration::means_milliseconds))]
fn means_milliseconds(name: &[u8]) -> bool
    ensures { result ≡ means_milliseconds name.now }
{
    name == b"ms".as_slice()
        || name == b"msec".as_slice()
        || name == b"millisecond".as_slice()
        || name == b"milliseconds".as_slice()
}

/// Whether a name means seconds.
#[tactic(auto, unfolding(crate::specs::Duration::means_seconds))]
fn means_seconds(name: &[u8]) -> bool
    ensures { result ≡ means_seconds name.now }
{
    name == b"s".as_slice()
        || name == b"sec".as_slice()
        || name == b"secs".as_slice()
        || name == b"second".as_slice()
        || name == b"seconds".as_slice()
}

/// Whether a name means minutes.
#[tactic(auto, unfolding(crate::specs::Duration::means_minutes))]
fn means_minutes(name: &[u8]) -> bool
    ensures { result ≡ means_minutes name.now }
{
    name == b"m".as_slice()
        || name == b"min".as_slice()
        || name == b"mins".as_slice()
        || name == b"minute".as_slice()
        || name == b"minutes".as_slice()
}

/// Whether a name means hours.
#[tactic(auto, unfolding(crate::specs::Duration::means_hours))]
fn means_hours(name: &[u8]) -> bool
    ensures { result ≡ means_hours name.now }
{
    name == b"h".as_slice()
        || name == b"hr".as_slice()
        || name == b"hrs".as_slice()
        || name == b"hour".as_slice()
        || name == b"hours".as_slice()
}

/// Whether a name means days.
#[tactic(auto, unfolding(crate::specs::Duration::means_days))]
fn means_days(name: &[u8]) -> bool
    ensures { result ≡ means_days name.now }
{
    name == b"d".as_slice() || name == b"day".as_slice() || name == b"days".as_slice()
}

/// Whether a name means weeks.
#[tactic(auto, unfolding(crate::specs::Duration::means_weeks))]
fn means_weeks(name: &[u8]) -> bool
    ensures { result ≡ means_weeks name.now }
{
    name == b"w".as_slice() || name == b"week".as_slice() || name == b"weeks".as_slice()
}
