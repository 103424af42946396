//! A path, and what it allows.
ghost use Rattle.std.specs.Prelude.{◌≡◌, ◌≤◌, ◌<◌, ◌+◌, ◌^◌, List, [], ◌∷◌, ◌++◌, length, false, IsTrue, ◌↔◌, OnOk};
ghost use Rattle.path_lease.specs.Calls.{Call, opening, beginning, ending, closing, openings, was_opened, open_count, idle_since, is_idle, is_working, refusals};
ghost use Rattle.path_lease.specs.Leaves.{Rates, AgreesOn, may_open, leave, next_admitted, after_or_latest};
ghost use Rattle.path_lease.specs.State.{HasRoomToOpen, HasRoomToBegin, KeepsRoom, IsSameButRoom};
ghost use Rattle.path_lease.specs.Standing.{StandsFor};
ghost use Rattle.path_lease.specs.Allowed.{MayOpen, MayBegin, IsIdle, IsBusy};
ghost use Rattle.path_lease.specs.inside.Kept.{refusals_with};

use crate::connection::{Connection, Connections, begin_attempt, end_attempt, is_past};
use crate::leave::Leave;
use crate::rates::{Buckets, admits, count, next};
use indexmap::IndexMap;
use kumo_base::{LAST_MOMENT, Memory};
use policy_core::InForce;
use std::alloc::Global;
use std::marker::Model;

/// The limits of a path over the calls made on it. Moments are milliseconds since 1970. Each call takes constant time,
/// however many were made before.
///
/// A key of a throttle comes with the same throttle in all calls, or with none in all, and no number is opened twice: the
/// answers are promised where the calls keep to this. Moments may come in any order.
#[derive(Drop)]
pub struct Path {
    /// The open connections.
    connections: Connections,
    /// How often connections were opened under each key, as far as its throttle asks.
    opened: Buckets,
    /// How often attempts began under each key, as far as its throttle asks.
    begun: Buckets,
    /// How many connections were refused since one was closed for another cause.
    refusals: u32,
}

impl Model for Path {
    ghost use Rattle.std.specs.Prelude.{min};
    ghost use Rattle.indexmap.specs.IndexMap.{spare};
    ghost use Rattle.path_lease.specs.State.{PathState};

    ghost Value = { PathState };

    ghost view = { λ p. record {
      connections = p.connections.entries;
      opened = p.opened.entries;
      begun = p.begun.entries;
      refusals = p.refusals;
      room_to_open = min (spare p.connections) (spare p.opened);
      room_to_begin = spare p.begun;
    } };
}

impl Path {
    /// A path on which no call was made.
    pub fn new(alloc: Global) -> Path
        ensures { (rates : Rates) → StandsFor result rates [] }
    {
        Path {
            connections: IndexMap::new(alloc),
            opened: IndexMap::new(alloc),
            begun: IndexMap::new(alloc),
            refusals: 0,
        }
    }

    /// Makes room, so that one opening and one beginning, under any keys, take no memory. All else is as it was, also after
    /// `Memory`.
    pub fn reserve(&mut self) -> Result<(), Memory>
        ensures stands { (rates : Rates) (calls : List Call) → StandsFor self.old rates calls → StandsFor self.new rates calls }
        ensures same { IsSameButRoom self.old self.new }
        ensures to_open { OnOk result (HasRoomToOpen self.new) }
        ensures to_begin { OnOk result (HasRoomToBegin self.new) }
        ensures room { KeepsRoom self.old self.new }
    {
        self.connections.reserve(1)?;
        self.opened.reserve(1)?;
        self.begun.reserve(1)?;
        Ok(())
    }

    /// Whether a connection may be opened: fewer are open than `connection_limit`, and both throttles admit the moment.
    pub fn may_open(&self, t: u64, now: &InForce) -> bool
        ensures exact { (rates : Rates) (calls : List Call) → StandsFor self.now rates calls → AgreesOn rates now.now
            → result ≡ may_open calls t now.now }
        ensures word { IsTrue result → MayOpen self.now t now.now }
    {
        self.connections.len() < now.connection_limit as usize
            && admits(&self.opened, now.connection_rate, now.connection_key, t)
            && admits(&self.begun, now.message_rate, now.message_key, t)
    }

    /// Opens a connection of a number that none had before, where `may_open` allows it. It takes no memory: `reserve` has
    /// made room.
    pub fn open(&mut self, t: u64, conn: u64, now: &InForce)
        requires allowed { MayOpen self.old t now.now }
        requires room { HasRoomToOpen self.old }
        ensures stands { (rates : Rates) (calls : List Call) → StandsFor self.old rates calls → AgreesOn rates now.now
            → was_opened calls conn ≡ false → StandsFor self.new rates (calls ++ opening t conn now.now.connection_key ∷ []) }
        ensures to_open { self.old.room_to_open ≤ self.new.room_to_open + 1 }
        ensures to_begin { self.old.room_to_begin ≤ self.new.room_to_begin }
    {
        let connection = Connection {
            beginnings: 0,
            idle: t,
            busy: false,
        };
        let _opened = self.connections.insert(conn, connection);
        count(&mut self.opened, now.connection_rate, now.connection_key, t);
    }

    /// Whether a connection is open and not busy.
    pub fn is_idle(&self, conn: u64) -> bool
        ensures exact { (rates : Rates) (calls : List Call) → StandsFor self.now rates calls → result ≡ is_idle calls conn }
        ensures word { IsTrue result ↔ IsIdle self.now conn }
    {
        match self.connections.get(&conn) {
            Some(connection) => !connection.busy,
            None => false,
        }
    }

    /// Whether a connection is open and busy: the last attempt that began on it has not ended.
    pub fn is_busy(&self, conn: u64) -> bool
        ensures exact { (rates : Rates) (calls : List Call) → StandsFor self.now rates calls → result ≡ is_working calls conn }
        ensures word { IsTrue result ↔ IsBusy self.now conn }
    {
        match self.connections.get(&conn) {
            Some(connection) => connection.busy,
            None => false,
        }
    }

    /// Whether an attempt may begin on a connection, which is open and not busy, else the first reason why not.
    pub fn may_begin(&self, t: u64, conn: u64, now: &InForce) -> Leave
        requires { IsIdle self.now conn }
        ensures exact { (rates : Rates) (calls : List Call) → StandsFor self.now rates calls → AgreesOn rates now.now
            → result ≡ leave calls t conn now.now }
        ensures word { result ≡ Leave.Yes → MayBegin self.now t conn now.now }
    {
        let connection = self.connections[&conn];
        if is_past(now.idle_timeout, connection.idle, t) {
            Leave::Stale
        } else if now.deliveries <= connection.beginnings {
            Leave::Spent
        } else if self.connections.len() > now.connection_limit as usize {
            Leave::Shed
        } else if !admits(&self.begun, now.message_rate, now.message_key, t) {
            Leave::Throttled(next(&self.begun, now.message_rate, now.message_key, t))
        } else {
            Leave::Yes
        }
    }

    /// Begins an attempt on a connection that is open and not busy, where `may_begin` says `Yes`. It takes no memory:
    /// `reserve` has made room.
    pub fn begin(&mut self, t: u64, conn: u64, now: &InForce)
        requires allowed { MayBegin self.old t conn now.now }
        requires room { HasRoomToBegin self.old }
        ensures stands { (rates : Rates) (calls : List Call) → StandsFor self.old rates calls → AgreesOn rates now.now
            → StandsFor self.new rates (calls ++ beginning t conn now.now.message_key ∷ []) }
        ensures to_open { self.old.room_to_open ≤ self.new.room_to_open }
        ensures to_begin { self.old.room_to_begin ≤ self.new.room_to_begin + 1 }
    {
        // Reading the number tells the proof that one more attempt is a number that fits.
        let _deliveries = now.deliveries;
        begin_attempt(&mut self.connections, conn);
        count(&mut self.begun, now.message_rate, now.message_key, t);
    }

    /// The attempt on a connection, which is open and busy, ends. It takes no memory.
    pub fn end(&mut self, t: u64, conn: u64)
        requires { IsBusy self.old conn }
        ensures stands { (rates : Rates) (calls : List Call) → StandsFor self.old rates calls
            → StandsFor self.new rates (calls ++ ending t conn ∷ []) }
        ensures room { KeepsRoom self.old self.new }
    {
        end_attempt(&mut self.connections, conn, t);
    }

    /// Since when a connection, which is open and not busy, has had nothing to send: the later of its opening and the end of
    /// its last attempt.
    pub fn idle(&self, conn: u64) -> u64
        requires { IsIdle self.now conn }
        ensures { (rates : Rates) (calls : List Call) → StandsFor self.now rates calls → result ≡ idle_since calls conn }
    {
        self.connections[&conn].idle
    }

    /// Closes a connection, which is open and not busy: the far side refused it, or not. It takes no memory.
    pub fn close(&mut self, conn: u64, refused: bool)
        requires { IsIdle self.old conn }
        ensures stands { (rates : Rates) (calls : List Call) → StandsFor self.old rates calls
            → StandsFor self.new rates (calls ++ closing conn refused ∷ []) }
        ensures room { KeepsRoom self.old self.new }
    {
        let _closed = self.connections.swap_remove(&conn);
        self.refusals = refusals_after(self.refusals, refused);
    }

    /// How many connections were refused since one was closed for another cause. The greatest number where there were more,
    /// which needs 2^32 openings.
    pub fn refusals(&self) -> u32
        ensures exact { (rates : Rates) (calls : List Call) → StandsFor self.now rates calls → length (openings calls) < 2 ^ 32
            → result ≡ refusals calls }
        ensures within { (rates : Rates) (calls : List Call) → StandsFor self.now rates calls → result ≤ refusals calls }
    {
        self.refusals
    }

    /// How many connections are open.
    pub fn open_connections(&self) -> usize
        ensures { (rates : Rates) (calls : List Call) → StandsFor self.now rates calls → result ≡ open_count calls }
    {
        self.connections.len()
    }

    /// The least moment above t among those from t on at which the rate of connections admits one, and at which the rate of
    /// messages admits an attempt: of each the least. The latest moment where none of the two is above t.
    pub fn next_admitted(&self, t: u64, now: &InForce) -> u64
        ensures { (rates : Rates) (calls : List Call) → StandsFor self.now rates calls → AgreesOn rates now.now
            → result ≡ next_admitted calls t now.now }
    {
        let opening = next(&self.opened, now.connection_rate, now.connection_key, t);
        let beginning = next(&self.begun, now.message_rate, now.message_key, t);
        after_or_latest(opening, t).min(after_or_latest(beginning, t))
    }
}

/// A moment that is above t, and the latest one in place of another.
fn after_or_latest(moment: u64, t: u64) -> u64
    ensures { result ≡ after_or_latest t moment }
{
    if t < moment { moment } else { LAST_MOMENT }
}

/// How many connections were refused in a row, after one more was closed.
fn refusals_after(before: u32, refused: bool) -> u32
    ensures { result ≡ refusals_with refused before }
{
    if !refused {
        return 0;
    }
    before.saturating_add(1)
}
