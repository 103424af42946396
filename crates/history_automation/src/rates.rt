//! What the rates of a path admit at a moment, by the connections that were opened and the attempts that began so far.
//!
//! A bucket takes the moments of a history one by one. A history that is not legal may have moments that do not keep the rate;
//! no bucket stands for these, and then nothing more is admitted.
ghost use Rattle.std.specs.Prelude.{◌≡◌, ◌∷◌, ◌++◌, [], ℕ, List, option_map, option_to_list};
ghost use Rattle.kumo_base.specs.Moment.{clamped};
ghost use Rattle.throttle_spec.specs.Throttle.{Throttle, conforms, least_admitted};
ghost use Rattle.throttle_spec.specs.Rates.{admits, least_by_rate};
ghost use Rattle.history_core.specs.Limits.{opened_moments, begun_moments, begun_at, is_text};
ghost use Rattle.history_core.specs.Connection.{path_of_connection};
ghost use Rattle.history_automation.specs.inside.Filled.{IsFilled};

use history_core::{Entry, Event};
use history_views::connections::{connection_with, opened_by};
use kumo_base::LAST_MOMENT;
use policy_core::InForce;
use throttle_spec::{Bucket, ThrottleSpec};

/// Whether the rate of connections of a path in force, whose text this is, admits one at a moment.
pub fn admits_opening(entries: &[Entry], text: &str, now: &InForce, t: u64) -> bool
    ensures { result ≡ admits now.now.connection_rate (opened_moments entries.now text.now now.now.connection_key) t }
{
    match now.connection_rate {
        Some(rate) => admits(
            &opened_bucket(entries, text, now.connection_key, &rate),
            &rate,
            t,
        ),
        None => true,
    }
}

/// The least moment from t on at which the rate of connections of a path in force, whose text this is, admits one; the latest
/// moment where there is none.
pub fn next_opening(entries: &[Entry], text: &str, now: &InForce, t: u64) -> u64
    ensures { result ≡ least_by_rate now.now.connection_rate (opened_moments entries.now text.now now.now.connection_key) t }
{
    match now.connection_rate {
        Some(rate) => next(
            &opened_bucket(entries, text, now.connection_key, &rate),
            &rate,
            t,
        ),
        None => t.min(LAST_MOMENT),
    }
}

/// Whether the rate of messages of a path in force, whose text this is, admits an attempt at a moment.
pub fn admits_beginning(entries: &[Entry], text: &str, now: &InForce, t: u64) -> bool
    ensures { result ≡ admits now.now.message_rate (begun_moments entries.now text.now now.now.message_key) t }
{
    match now.message_rate {
        Some(rate) => admits(
            &begun_bucket(entries, text, now.message_key, &rate),
            &rate,
            t,
        ),
        None => true,
    }
}

/// The least moment from t on at which the rate of messages of a path in force, whose text this is, admits an attempt; the
/// latest moment where there is none.
pub fn next_beginning(entries: &[Entry], text: &str, now: &InForce, t: u64) -> u64
    ensures { result ≡ least_by_rate now.now.message_rate (begun_moments entries.now text.now now.now.message_key) t }
{
    match now.message_rate {
        Some(rate) => next(
            &begun_bucket(entries, text, now.message_key, &rate),
            &rate,
            t,
        ),
        None => t.min(LAST_MOMENT),
    }
}

/// The bucket that took the moments at which connections of the path of a text were opened under a key.
fn opened_bucket(entries: &[Entry], text: &str, key: u32, rate: &ThrottleSpec) -> Option<Bucket>
    ensures { IsFilled rate.now (opened_moments entries.now text.now key) result }
{
    let mut filled = Some(Bucket::new(*rate));
    for entry in entries {
        filled = with_moment(filled, rate, opening_moment(entry, text, key));
    }
    filled
}

/// The moment of an entry that opens a connection of the path of a text under a key.
fn opening_moment(entry: &Entry, text: &str, key: u32) -> Option<u64>
    ensures { option_to_list (option_map clamped result) ≡ opened_moments (entry.now ∷ []) text.now key }
{
    match opened_by(entry) {
        Some(opened) if opened.path == text && opened.key == key => Some(opened.at),
        _ => None,
    }
}

/// The bucket that took the moments at which attempts on connections of the path of a text began under a key.
fn begun_bucket(entries: &[Entry], text: &str, key: u32, rate: &ThrottleSpec) -> Option<Bucket>
    ensures { IsFilled rate.now (begun_moments entries.now text.now key) result }
{
    let mut filled = Some(Bucket::new(*rate));
    for place in 0..entries.len() {
        let moment = beginning_moment(&entries[..place], &entries[place], text, key);
        filled = with_moment(filled, rate, moment);
    }
    filled
}

/// The moment of an entry that begins an attempt on a connection of the path of a text under a key.
fn beginning_moment(before: &[Entry], entry: &Entry, text: &str, key: u32) -> Option<u64>
    ensures { option_to_list (option_map clamped result) ≡ begun_at text.now key before.now entry.now }
{
    match &entry.what {
        Event::Begun {
            conn,
            key: under,
            ..
        } if *under == key && is_on_path(before, *conn, text) => { Some(entry.at) }
        _ => None,
    }
}

/// Whether a connection is of the path of a text.
fn is_on_path(before: &[Entry], conn: u64, text: &str) -> bool
    ensures { result ≡ is_text (path_of_connection before.now conn) text.now }
{
    match connection_with(before, conn) {
        Some(opened) => opened.path == text,
        None => false,
    }
}

/// A bucket with one moment more, where there is one. None where the moments do not keep the rate.
fn with_moment(filled: Option<Bucket>, rate: &ThrottleSpec, moment: Option<u64>) -> Option<Bucket>
    ensures { (moments : List ℕ) → IsFilled rate.now moments filled
        → IsFilled rate.now (moments ++ option_to_list (option_map clamped moment)) result }
{
    match (filled, moment) {
        (Some(bucket), Some(t)) => taken(bucket, t),
        (filled, None) => filled,
        (None, _) => None,
    }
}

/// A bucket that took one moment more. None where it does not admit it.
fn taken(bucket: Bucket, t: u64) -> Option<Bucket>
    ensures { (s : Throttle) (moments : List ℕ) → IsFilled s moments (Some bucket)
        → IsFilled s (moments ++ clamped t ∷ []) result }
{
    if !bucket.admits(t) {
        return None;
    }
    let mut taken = bucket;
    taken.take(t);
    Some(taken)
}

/// Whether one more moment is admitted.
fn admits(filled: &Option<Bucket>, rate: &ThrottleSpec, t: u64) -> bool
    ensures { (moments : List ℕ) → IsFilled rate.now moments filled.now → result ≡ conforms rate.now (moments ++ clamped t ∷ []) }
{
    match filled {
        Some(bucket) => bucket.admits(t),
        None => false,
    }
}

/// The least moment from t on that is admitted; the latest moment where there is none.
fn next(filled: &Option<Bucket>, rate: &ThrottleSpec, t: u64) -> u64
    ensures { (moments : List ℕ) → IsFilled rate.now moments filled.now → result ≡ least_admitted rate.now moments t }
{
    match filled {
        Some(bucket) => bucket.next(t),
        None => LAST_MOMENT,
    }
}
