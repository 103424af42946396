//! Numbers among words.
ghost use Rattle.std.specs.Prelude.{◌≡◌, ◌≤◌, ℕ, IfSome};
ghost use Rattle.std.specs.List.{list_all};
ghost use Rattle.std.specs.Char.{is_ascii_digit};
ghost use Rattle.command_words.specs.Options.{is_number, in_range, number_in};

use kumo_base::all_digits;

/// The most workers of a crew. The least is 1.
pub const GREATEST_WORKERS: u32 = 64;

/// The most messages of a load. The least is 1.
pub const GREATEST_LOAD: u32 = 100_000;

/// The most digits of a number.
const MOST_DIGITS: usize = 20;

/// The number that a text of 1 to 20 decimal digits is, where it is in a range.
#[tactic(auto, unfolding(crate::specs::Options::number_in))]
pub(crate) fn number_in(least: u64, greatest: u64, text: &str) -> Option<u64>
    ensures value { result ≡ number_in least greatest text.now }
    ensures limit { IfSome result (λ number. number ≤ greatest) }
{
    if !is_number(text) {
        return None;
    }
    match text.parse::<u64>() {
        Ok(number) => in_range(least, greatest, number),
        Err(_) => None,
    }
}

/// Whether a text is 1 to 20 decimal digits.
fn is_number(text: &str) -> bool
    ensures { result ≡ is_number text.now }
{
    !text.is_empty() && text.len() <= MOST_DIGITS && all_digits(text.as_bytes())
}

/// A number, where it is in a range.
fn in_range(least: u64, greatest: u64, number: u64) -> Option<u64>
    ensures value { result ≡ in_range least greatest number }
    ensures limit { IfSome result (λ number. number ≤ greatest) }
{
    if least <= number && number <= greatest {
        Some(number)
    } else {
        None
    }
}
