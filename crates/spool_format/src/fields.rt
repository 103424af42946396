//! The fields of a payload, read from its front. Each function answers the field and the bytes behind it, or nothing
//! where the bytes do not begin with such a field. Nothing is copied.
ghost use Rattle.std.specs.Prelude.{◌≡◌, option_map};
ghost use Rattle.std.specs.Int.{w32, w64, w128};
ghost use Rattle.spool_format.specs.Fields.{number_at, text_at, bytes_at};

use kumo_base::utf8_in;

/// An id.
#[tactic(auto, unfolding(crate::specs::Fields::number_at))]
pub fn id_at(bytes: &[u8]) -> Option<(u128, &[u8])>
    ensures { option_map (λ x. (x.0, x.1.now)) result ≡ number_at w128 bytes.now }
{
    let (front, rest) = bytes.split_first_chunk::<16>()?;
    Some((u128::from_be_bytes(*front), rest))
}

/// A moment.
#[tactic(auto, unfolding(crate::specs::Fields::number_at))]
pub fn moment_at(bytes: &[u8]) -> Option<(u64, &[u8])>
    ensures { option_map (λ x. (x.0, x.1.now)) result ≡ number_at w64 bytes.now }
{
    let (front, rest) = bytes.split_first_chunk::<8>()?;
    Some((u64::from_be_bytes(*front), rest))
}

/// A count or a length.
#[tactic(auto, unfolding(crate::specs::Fields::number_at))]
pub fn count_at(bytes: &[u8]) -> Option<(u32, &[u8])>
    ensures { option_map (λ x. (x.0, x.1.now)) result ≡ number_at w32 bytes.now }
{
    let (front, rest) = bytes.split_first_chunk::<4>()?;
    Some((u32::from_be_bytes(*front), rest))
}

/// A text with its length before it.
#[tactic(auto, unfolding(crate::specs::Fields::text_at))]
pub fn text_at(bytes: &[u8]) -> Option<(&str, &[u8])>
    ensures { option_map (λ x. (x.0.now, x.1.now)) result ≡ text_at bytes.now }
{
    let (length, rest) = count_at(bytes)?;
    let (front, rest) = bytes_at(rest, length as usize)?;
    Some((utf8_in(front)?, rest))
}

/// So many bytes.
fn bytes_at(bytes: &[u8], length: usize) -> Option<(&[u8], &[u8])>
    ensures { option_map (λ x. (x.0.now, x.1.now)) result ≡ bytes_at length bytes.now }
{
    if length <= bytes.len() {
        Some(bytes.split_at(length))
    } else {
        None
    }
}
