//! What the values at the keys of a policy file give.
ghost use Rattle.std.specs.Prelude.{◌≡◌, Ok, Err, MatchResult};
ghost use Rattle.toml.specs.View.{view};
ghost use Rattle.policy_toml.specs.Values.{text_in, duration_at};

use kumo_base::{LONGEST_DURATION, duration_of};
use policy_fault::Why;
use toml::Value;

/// Seconds of the longest duration.
const LONGEST_SECONDS: i64 = 3_153_600_000;

/// The text that a value is; `BadType` for another kind.
pub fn text_at(value: &Value) -> Result<&str, Why>
    ensures { MatchResult result (λ text. text_in (view value.now) ≡ Ok text.now)
        (λ why. text_in (view value.now) ≡ Err why) }
{
    match value.as_str() {
        Some(text) => Ok(text),
        None => Err(Why::BadType),
    }
}

/// The milliseconds of a duration: a text with units, or a whole number of seconds. `BadDuration` where the text is none, or
/// the number is negative or past the longest duration; `BadType` for another kind of value.
pub fn duration_at(value: &Value) -> Result<u64, Why>
    ensures { result ≡ duration_at (view value.now) }
{
    if let Some(text) = value.as_str() {
        return match duration_of(text) {
            Ok(milliseconds) => Ok(milliseconds),
            Err(_) => Err(Why::BadDuration),
        };
    }
    match value.as_integer() {
        Some(seconds) => {
            if 0 <= seconds && seconds <= LONGEST_SECONDS {
                Ok(seconds as u64 * 1000)
            } else {
                Err(Why::BadDuration)
            }
        }
        None => Err(Why::BadType),
    }
}
