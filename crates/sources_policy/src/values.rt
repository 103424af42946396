//! What the values of a sources file give.
ghost use Rattle.std.specs.Prelude.{◌≡◌, Ok, Err, MatchResult};
ghost use Rattle.std.specs.List.{list_all};
ghost use Rattle.toml.specs.View.{table_view, view};
ghost use Rattle.sources_policy.specs.SourcesFile.{ehlo_at, is_ehlo, is_ehlo_byte, weight_at, entrants_of, has_more_than};

use policy_fault::Why;
use policy_toml::text_at;
use toml::{Table, Value};

/// The most bytes of the argument of EHLO.
const EHLO_LIMIT: usize = 255;

/// The most entrants of a pool.
const ENTRANT_LIMIT: usize = 200;

/// The greatest weight of an entrant.
const WEIGHT_LIMIT: i64 = 1_000;

/// The argument of EHLO that a value is: printable, without blanks.
pub(crate) fn ehlo_at(value: &Value) -> Result<&str, Why>
    ensures { MatchResult result (λ text. ehlo_at (view value.now) ≡ Ok text.now)
        (λ why. ehlo_at (view value.now) ≡ Err why) }
{
    let text = match text_at(value) {
        Ok(text) => text,
        Err(why) => return Err(why),
    };
    if is_ehlo(text) {
        Ok(text)
    } else {
        Err(Why::BadName)
    }
}

fn is_ehlo(text: &str) -> bool
    ensures { result ≡ is_ehlo text.now }
{
    !text.is_empty() && text.len() <= EHLO_LIMIT && all_ehlo(text.as_bytes())
}

fn all_ehlo(bytes: &[u8]) -> bool
    ensures { result ≡ list_all is_ehlo_byte bytes.now }
{
    bytes.iter().all(|b| b'!' <= *b && *b <= b'~')
}

/// The weight that a value is.
pub(crate) fn weight_at(value: &Value) -> Result<u32, Why>
    ensures { result ≡ weight_at (view value.now) }
{
    match value.as_integer() {
        Some(weight) => {
            if 0 <= weight && weight <= WEIGHT_LIMIT {
                Ok(weight as u32)
            } else {
                Err(Why::BadWeight)
            }
        }
        None => Err(Why::BadType),
    }
}

/// Whether a pool has more entrants than it may.
pub(crate) fn has_many_entrants(pool: &Table) -> bool
    ensures { result ≡ has_more_than ENTRANT_LIMIT (entrants_of (table_view pool.now)) }
{
    let mut room = ENTRANT_LIMIT;
    for (_, value) in pool.iter() {
        if value.as_table().is_some() {
            if room == 0 {
                return true;
            }
            room -= 1;
        }
    }
    false
}
