//! What a path keeps of an open connection.
ghost use Rattle.std.specs.Prelude.{◌≡◌, ℕ, Some, nat_eq, if◌then◌else◌};
ghost use Rattle.indexmap.specs.IndexMap.{get, index_map_len, spare};
ghost use Rattle.path_lease.specs.declared.connection.Connection.{Connection as Kept};
ghost use Rattle.path_lease.specs.Leaves.{is_past};
ghost use Rattle.path_lease.specs.inside.Kept.{with_attempt, at_rest, HasAttempts};

use indexmap::IndexMap;
use kumo_base::LAST_MOMENT;

/// An open connection.
#[derive(Clone, Copy)]
pub(crate) struct Connection {
    /// How many attempts began on it.
    pub(crate) beginnings: u32,
    /// Since when it has had nothing to send, while it is not busy: milliseconds since 1970.
    pub(crate) idle: u64,
    /// The last attempt that began on it has not ended.
    pub(crate) busy: bool,
}

/// The open connections by their numbers.
pub(crate) type Connections = IndexMap<u64, Connection>;

/// An attempt begins on a connection.
pub(crate) fn begin_attempt(connections: &mut Connections, conn: u64)
    requires { HasAttempts (get nat_eq connections.old conn) }
    ensures updates { (w : Kept) → get nat_eq connections.old conn ≡ Some w → (q : ℕ)
        → get nat_eq connections.new q ≡ (if nat_eq conn q then Some (with_attempt w) else get nat_eq connections.old q) }
    ensures len { index_map_len connections.new ≡ index_map_len connections.old }
    ensures room { spare connections.new ≡ spare connections.old }
{
    if let Some(connection) = connections.get_mut(&conn) {
        connection.beginnings += 1;
        connection.busy = true;
    }
}

/// The attempt on a connection ends.
pub(crate) fn end_attempt(connections: &mut Connections, conn: u64, t: u64)
    ensures updates { (w : Kept) → get nat_eq connections.old conn ≡ Some w → (q : ℕ)
        → get nat_eq connections.new q ≡ (if nat_eq conn q then Some (at_rest t w) else get nat_eq connections.old q) }
    ensures len { index_map_len connections.new ≡ index_map_len connections.old }
    ensures room { spare connections.new ≡ spare connections.old }
{
    if let Some(connection) = connections.get_mut(&conn) {
        connection.idle = t;
        connection.busy = false;
    }
}

/// Whether a timeout, in milliseconds, has passed at a moment, where there is one.
pub(crate) fn is_past(timeout: Option<u64>, since: u64, t: u64) -> bool
    ensures { result ≡ is_past timeout since t }
{
    match timeout {
        Some(timeout) => since.saturating_add(timeout).min(LAST_MOMENT) <= t,
        None => false,
    }
}
