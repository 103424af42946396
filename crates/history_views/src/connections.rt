//! Connections, and what they are busy with.
ghost use Rattle.std.specs.Prelude.{◌≡◌, ◌≢◌, ◌↔◌, ◌≤◌, ◌+◌, ◌==◌, List, [], ◌∷◌, option_map, length, count_by, bytes_eq, IsTrue, true, false};
ghost use Rattle.history_core.specs.declared.entry.Entry.{Entry};
ghost use Rattle.history_core.specs.Events.{opening_in, closing_in, beginning_in, attempt_end_in, is_this};
ghost use Rattle.history_core.specs.Connection.{connection_in, connections, connection_with, is_closed, used, busy_after, busy_with, is_in_flight, idle_after, idle_since, open_anywhere, open_connections, is_live_for};
ghost use Rattle.history_views.specs.Opened.{connection_of, some_passes, open_in, idle_in};

use history_core::{Entry, Event};

/// A connection as its entry has it.
#[derive(Clone, Copy)]
pub struct Opened<'h> {
    pub number: u64,
    /// The text of its path.
    pub path: &'h str,
    /// The pass that opened it.
    pub who: u32,
    /// The moment of its opening, in milliseconds since 1970.
    pub at: u64,
    /// The key of the rate that its opening counts under.
    pub key: u32,
}

/// The connection that an entry opens.
pub fn opened_by(entry: &Entry) -> Option<Opened<'_>>
    ensures { option_map connection_of result ≡ connection_in entry.now }
{
    match &entry.what {
        Event::Opened { conn, path, key } => Some(Opened {
            number: *conn,
            path: path.as_str(),
            who: entry.who,
            at: entry.at,
            key: *key,
        }),
        _ => None,
    }
}

/// The first connection of a number.
pub fn connection_with(entries: &[Entry], conn: u64) -> Option<Opened<'_>>
    ensures { option_map connection_of result ≡ connection_with entries.now conn }
{
    for entry in entries {
        if let Some(opened) = opened_by(entry) {
            if opened.number == conn {
                return Some(opened);
            }
        }
    }
    None
}

/// Whether the entry closes the connection.
fn closes(entry: &Entry, conn: u64) -> bool
    ensures { result ≡ is_this (option_map (λ c. c.conn) (closing_in entry.now.what)) conn }
{
    match &entry.what {
        Event::Closed { conn: closed, .. } => *closed == conn,
        _ => false,
    }
}

/// Whether the connection was closed.
pub fn is_closed(entries: &[Entry], conn: u64) -> bool
    ensures { result ≡ is_closed entries.now conn }
{
    entries.iter().any(|entry| closes(entry, conn))
}

/// What the connection is busy with after an entry.
fn busy_after(conn: u64, was: Option<u128>, entry: &Entry) -> Option<u128>
    ensures { result ≡ busy_after conn was entry.now.what }
{
    match &entry.what {
        Event::Begun { conn: on, id, .. } if *on == conn => Some(*id),
        Event::Ended { conn: on, .. } if *on == conn => None,
        _ => was,
    }
}

/// The message that the connection is busy with.
pub fn busy_with(entries: &[Entry], conn: u64) -> Option<u128>
    ensures { result ≡ busy_with entries.now conn }
{
    let mut busy = None;
    for entry in entries {
        busy = busy_after(conn, busy, entry);
    }
    busy
}

/// Whether the entry opens a connection that is busy with the message.
fn opens_busy(entries: &[Entry], entry: &Entry, id: u128) -> bool
    ensures { result ≡ some_passes (λ c. is_this (busy_with entries.now c.number) id) (connection_in entry.now) }
{
    match opened_by(entry) {
        Some(opened) => busy_with(entries, opened.number) == Some(id),
        None => false,
    }
}

/// Whether some connection is busy with the message.
pub fn is_in_flight(entries: &[Entry], id: u128) -> bool
    ensures { result ≡ is_in_flight entries.now id }
{
    for entry in entries {
        if opens_busy(entries, entry, id) {
            return true;
        }
    }
    false
}

/// Whether the entry begins an attempt on the connection.
fn begins_on(entry: &Entry, conn: u64) -> bool
    ensures { result ≡ is_this (option_map (λ b. b.conn) (beginning_in entry.now.what)) conn }
{
    match &entry.what {
        Event::Begun { conn: on, .. } => *on == conn,
        _ => false,
    }
}

/// How many attempts began on the connection.
pub fn used(entries: &[Entry], conn: u64) -> usize
    ensures { result ≡ used entries.now conn }
{
    entries
        .iter()
        .filter(|entry| begins_on(entry, conn))
        .count()
}

/// Since when a connection has had nothing to send, after an entry.
fn idle_after(conn: u64, was: u64, entry: &Entry) -> u64
    ensures { result ≡ idle_after conn was entry.now }
{
    match &entry.what {
        Event::Ended { conn: on, .. } if *on == conn => entry.at,
        _ => was,
    }
}

/// Since when a connection that is not busy has had nothing to send: the end of its last attempt, else its opening.
pub fn idle_since(entries: &[Entry], opened: &Opened<'_>) -> u64
    ensures { result ≡ idle_since entries.now (connection_of opened.now) }
{
    let mut since = opened.at;
    for entry in entries {
        since = idle_after(opened.number, since, entry);
    }
    since
}

/// The connection that an entry opens, where it is still open.
pub fn open_by<'h>(entries: &[Entry], entry: &'h Entry) -> Option<Opened<'h>>
    ensures { option_map connection_of result ≡ open_in entries.now entry.now }
{
    match opened_by(entry) {
        Some(opened) if !is_closed(entries, opened.number) => Some(opened),
        _ => None,
    }
}

/// Whether some connection is open.
pub fn has_open(entries: &[Entry]) -> bool
    ensures some { IsTrue result ↔ (open_anywhere entries.now ≢ []) }
    ensures none { result ≡ false ↔ (open_anywhere entries.now ≡ []) }
{
    for entry in entries {
        if open_by(entries, entry).is_some() {
            return true;
        }
    }
    false
}

/// How many connections the entry opens: one or none.
fn openings_in(entry: &Entry) -> usize
    ensures value { (later : List Entry) → length (connections (entry.now ∷ later)) ≡ result + length (connections later) }
    ensures low { result ≤ 1 }
{
    match opened_by(entry) {
        Some(_) => 1,
        None => 0,
    }
}

/// How many connections were opened.
pub fn opened_count(entries: &[Entry]) -> usize
    ensures { result ≡ length (connections entries.now) }
{
    let mut count = 0;
    for entry in entries {
        count += openings_in(entry);
    }
    count
}

/// Whether the entry opens a connection of the path of a text that is still open.
fn opens_on(entries: &[Entry], entry: &Entry, text: &str) -> bool
    ensures { result ≡ some_passes (λ c. bytes_eq c.path text.now) (open_in entries.now entry.now) }
{
    match open_by(entries, entry) {
        Some(opened) => opened.path == text,
        None => false,
    }
}

/// How many entries open a connection of the path of a text that is still open.
fn openings_on(entries: &[Entry], text: &str) -> usize
    ensures { result ≡ count_by (λ e. some_passes (λ c. bytes_eq c.path text.now) (open_in entries.now e)) entries.now }
{
    entries
        .iter()
        .filter(|entry| opens_on(entries, entry, text))
        .count()
}

/// How many connections of the path of a text are open.
pub fn open_count(entries: &[Entry], text: &str) -> usize
    ensures { result ≡ length (open_connections entries.now text.now) }
{
    openings_on(entries, text)
}

/// Whether a connection is open and was opened by this pass.
pub fn is_live_for(entries: &[Entry], conn: u64, who: u32) -> bool
    ensures { result ≡ is_live_for entries.now conn who }
{
    for entry in entries {
        if let Some(opened) = open_by(entries, entry) {
            if opened.number == conn && opened.who == who {
                return true;
            }
        }
    }
    false
}

/// The connection that an entry opens, where it is open and not busy.
pub fn idle_by<'h>(entries: &[Entry], entry: &'h Entry) -> Option<Opened<'h>>
    ensures { option_map connection_of result ≡ idle_in entries.now entry.now }
{
    match open_by(entries, entry) {
        Some(opened) if busy_with(entries, opened.number).is_none() => Some(opened),
        _ => None,
    }
}
