//! The openings and closings of a path, and the refusals among them.
ghost use Rattle.std.specs.Prelude.{◌≡◌, ◌≤◌, ◌+◌, ◌^◌, length, option_map, fold};
ghost use Rattle.std.specs.Option.{option_or};
ghost use Rattle.history_core.specs.Events.{closing_in};
ghost use Rattle.history_core.specs.Connection.{path_of_connection};
ghost use Rattle.history_core.specs.Limits.{is_text};
ghost use Rattle.history_core.specs.Candidates.{opened_by, closed_by, passage_at, refused_at, last_refusal, run_after, refusals};

use history_core::{Cause, Entry, Event};
use history_views::connections::connection_with;

/// Whether the entry opens or closes a connection of the path of a text. `before` are the entries before it.
fn is_passage(before: &[Entry], entry: &Entry, text: &str) -> bool
    ensures { result ≡ is_text (option_or (opened_by entry.now) (closed_by before.now entry.now)) text.now }
{
    match &entry.what {
        Event::Opened { path, .. } => path.is_same(text),
        Event::Closed { conn, .. } => is_of_path(before, *conn, text),
        _ => false,
    }
}

/// Whether the connection is of the path of a text.
fn is_of_path(entries: &[Entry], conn: u64, text: &str) -> bool
    ensures { result ≡ is_text (path_of_connection entries.now conn) text.now }
{
    match connection_with(entries, conn) {
        Some(opened) => opened.path == text,
        None => false,
    }
}

/// Why the entry closes a connection, where it does.
fn cause_by(entry: &Entry) -> Option<Cause>
    ensures { result ≡ option_map (λ c. c.cause) (closing_in entry.now.what) }
{
    match &entry.what {
        Event::Closed { cause, .. } => Some(*cause),
        _ => None,
    }
}

/// The place, where the cause is a refusal.
fn refused_at(place: usize, cause: Option<Cause>) -> Option<usize>
    ensures { result ≡ refused_at place cause }
{
    match cause {
        Some(Cause::Refused) => Some(place),
        _ => None,
    }
}

/// The last refusal after an entry, which stands behind those before it.
fn last_refusal_after(
    before: &[Entry],
    entry: &Entry,
    text: &str,
    was: Option<usize>,
) -> Option<usize>
    ensures { result ≡ fold (λ was p. refused_at p.place p.cause) was (passage_at text.now before.now entry.now) }
{
    if is_passage(before, entry, text) {
        refused_at(before.len(), cause_by(entry))
    } else {
        was
    }
}

/// The place of the refused connection that is the last opening or closing of the path of a text.
#[tactic(auto, using(history_automation::proofs::Along::last_refusal_next))]
pub fn last_refusal(entries: &[Entry], text: &str) -> Option<usize>
    ensures { result ≡ last_refusal entries.now text.now }
{
    let mut last = None;
    for place in 0..entries.len() {
        last = last_refusal_after(&entries[..place], &entries[place], text, last);
    }
    last
}

/// The run of refusals after an opening, which has no cause, or a closing.
fn run_after(was: u64, cause: Option<Cause>) -> u64
    requires { was ≤ 2 ^ 63 }
    ensures run { result ≡ run_after was cause }
    ensures least { result ≤ was + 1 }
{
    match cause {
        None => was,
        Some(Cause::Refused) => was + 1,
        Some(_) => 0,
    }
}

/// The run of refusals after an entry, which stands behind those before it.
fn refusals_after(before: &[Entry], entry: &Entry, text: &str, was: u64) -> u64
    requires { was ≤ length before.now }
    ensures run { result ≡ fold (λ was p. run_after was p.cause) was (passage_at text.now before.now entry.now) }
    ensures least { result ≤ length before.now + 1 }
{
    if is_passage(before, entry, text) {
        run_after(was, cause_by(entry))
    } else {
        was
    }
}

/// How many connections of the path of a text were refused since one was closed for another cause.
#[tactic(auto, using(history_automation::proofs::Along::refusals_next))]
pub fn refusals(entries: &[Entry], text: &str) -> u64
    ensures { result ≡ refusals entries.now text.now }
{
    let mut run = 0;
    for place in 0..entries.len() {
        run = refusals_after(&entries[..place], &entries[place], text, run);
    }
    run
}
