//! Whether the row of an event holds at a scene.
ghost use Rattle.std.specs.Prelude.{◌≡◌, ◌↔◌, ◌+◌, [], Some, None, false, length, IsTrue, IfOk};
ghost use Rattle.std.specs.List.{list_any};
ghost use Rattle.history_core.specs.declared.entry.Event.TheVariants.{Promoted};
ghost use Rattle.history_core.specs.declared.path.Path.{Path as a_path};
ghost use Rattle.history_core.specs.History.{text_of, paths};
ghost use Rattle.history_core.specs.Connection.{connections, busy_with, IsLiveFor};
ghost use Rattle.history_core.specs.Limits.{limits};
ghost use Rattle.history_core.specs.Retry.{next_after};
ghost use Rattle.history_core.specs.Candidates.{is_delayable};
ghost use Rattle.history_core.specs.Openable.{is_openable, next_to_open, reusable, verdict, work, message_key};
ghost use Rattle.history_core.specs.Legal.{OpenedRow, BegunRow, ClosedCause, PendingMessage, RestedRow};
ghost use Rattle.history_core.specs.Sweep.{next_swept};

use crate::scene::Scene;
use crate::verdict::Verdict;
use history_candidates::candidates::is_delayable;
use history_candidates::promotion::next_swept;
use history_candidates::sweep::next_after;
use history_core::{Cause, Event, Next};
use history_views::connections::{busy_with, connection_with, is_live_for, opened_count};
use history_views::messages::{has_pending, pending_with};
use kumo_base::{Memory, Text};
use std::alloc::Global;

/// Whether an entry is the promotion of this message from this source.
fn is_promotion(event: &Option<Event>, id: u128, source: &str) -> bool
    ensures { IsTrue result ↔ (event.now ≡ Some (Promoted id source.now)) }
{
    match event {
        Some(
            Event::Promoted {
                id: of,
                source: from,
            },
        ) => *of == id && from.is_same(source),
        _ => false,
    }
}

impl<'h> Scene<'h> {
    /// The entry that the sweep appends next.
    pub fn next_swept(&self, alloc: Global) -> Result<Option<Event>, Memory>
        ensures { IfOk result (λ event. event ≡ next_swept self.now.policy self.now.history self.now.moment) }
    {
        next_swept(
            alloc,
            self.policy(),
            self.entries(),
            self.known(),
            self.firings(),
            self.moment(),
        )
    }

    /// Whether the message may be promoted from the source.
    pub(crate) fn may_promote(&self, alloc: Global, id: u128, source: &str) -> Result<bool, Memory>
        ensures { IfOk result (λ may. IsTrue may
            ↔ (next_swept self.now.policy self.now.history self.now.moment ≡ Some (Promoted id source.now))) }
    {
        let swept = self.next_swept(alloc)?;
        Ok(is_promotion(&swept, id, source))
    }

    /// Whether nothing is left for the sweep.
    fn is_swept(&self, alloc: Global) -> Result<bool, Memory>
        ensures { IfOk result (λ swept. IsTrue swept ↔ (next_swept self.now.policy self.now.history self.now.moment ≡ None)) }
    {
        let swept = self.next_swept(alloc)?;
        Ok(swept.is_none())
    }

    /// Whether no connection of the pass that is kept may begin.
    #[tactic(auto, using(crate::proofs::NoneFound::none_found, crate::proofs::NoneFound::some_found))]
    fn has_no_reusable(&self, who: u32) -> bool
        ensures { IsTrue result ↔ (reusable self.now.policy self.now.history self.now.moment who ≡ []) }
    {
        self.reusable(who).is_none()
    }

    /// Whether the path of the text is the next to open, and the key that of its rate of connections.
    fn opens_next(&self, text: &str, key: u32) -> bool
        ensures { IsTrue result ↔ ((p : a_path) × (next_to_open self.now.policy self.now.history self.now.moment ≡ Some p)
            × (text.now ≡ text_of p) × (key ≡ (limits self.now.policy self.now.history self.now.moment p).connection_key)) }
    {
        match self.next_to_open() {
            Some(path) => path.text.is_same(text) && key == self.limits(path).connection_key,
            None => false,
        }
    }

    /// Whether the connection may be opened.
    pub(crate) fn may_open(
        &self,
        alloc: Global,
        who: u32,
        conn: u64,
        path: &Text,
        key: u32,
    ) -> Result<bool, Memory>
        ensures { IfOk result (λ may. IsTrue may
            ↔ OpenedRow self.now.policy self.now.history self.now.moment who conn path.now key) }
    {
        let swept = self.is_swept(alloc)?;
        Ok(
            swept
                && self.has_no_reusable(who)
                && self.is_next_number(conn)
                && self.opens_next(path.as_str(), key),
        )
    }

    /// Whether the number is the next of a connection.
    fn is_next_number(&self, conn: u64) -> bool
        ensures { IsTrue result ↔ (conn ≡ length (connections self.now.history) + 1) }
    {
        conn != 0 && conn - 1 == opened_count(self.entries()) as u64
    }

    /// Whether the verdict on the connection is to attempt the message.
    fn is_to_attempt(&self, conn: u64, id: u128) -> bool
        ensures { IsTrue result ↔ (verdict self.now.policy self.now.history self.now.moment conn ≡ Some (work id)) }
    {
        match self.verdict(conn) {
            Some(Verdict::Work(first)) => first == id,
            _ => false,
        }
    }

    /// Whether the connection is open for the pass and not busy.
    fn is_at_rest(&self, who: u32, conn: u64) -> bool
        ensures { IsTrue result ↔ (IsLiveFor self.now.history conn who × (busy_with self.now.history conn ≡ None)) }
    {
        is_live_for(self.entries(), conn, who) && busy_with(self.entries(), conn).is_none()
    }

    /// Whether no path may open a connection.
    fn none_openable(&self) -> bool
        ensures { IsTrue result ↔ (list_any (is_openable self.now.policy self.now.history self.now.moment)
            (paths self.now.policy self.now.history) ≡ false) }
    {
        self.next_to_open().is_none()
    }

    /// Whether a connection may be closed for the cause.
    pub(crate) fn may_close(&self, who: u32, conn: u64, cause: Cause) -> bool
        ensures { IsTrue result ↔ (IsLiveFor self.now.history conn who × (busy_with self.now.history conn ≡ None)
            × ClosedCause self.now.policy self.now.history self.now.moment conn cause) }
    {
        self.is_at_rest(who, conn)
            && (cause != Cause::Idle || self.verdict(conn) == Some(Verdict::Stale))
    }

    /// Whether the message may be delayed so.
    pub(crate) fn may_delay(&self, id: u128, next: Next) -> bool
        ensures { IsTrue result ↔ PendingMessage self.now.history id
            (λ m. IsTrue (is_delayable self.now.policy self.now.history self.now.moment m)
            × (next ≡ next_after self.now.policy self.now.history self.now.moment m)) }
    {
        let entries = self.entries();
        match pending_with(entries, id) {
            Some(message) => {
                is_delayable(
                    self.policy(),
                    entries,
                    self.known(),
                    self.firings(),
                    self.moment(),
                    message,
                ) && next == next_after(self.policy(), entries, self.moment(), message)
            }
            None => false,
        }
    }

    /// Whether the work may rest until the moment.
    pub(crate) fn may_rest(&self, alloc: Global, until: u64) -> Result<bool, Memory>
        ensures { IfOk result (λ may. IsTrue may ↔ RestedRow self.now.policy self.now.history self.now.moment until) }
    {
        let swept = self.is_swept(alloc)?;
        Ok(
            has_pending(self.entries())
                && swept
                && self.none_openable()
                && self.all_linger()
                && until == self.wake(),
        )
    }

    /// Whether the key is that of the rate of messages on the connection's path.
    fn has_key(&self, conn: u64, key: u32) -> bool
        ensures { IsTrue result ↔ (message_key self.now.policy self.now.history self.now.moment conn ≡ Some key) }
    {
        match self.message_key(conn) {
            Some(own) => own == key,
            None => false,
        }
    }

    /// The key of the rate of messages on the connection's path.
    pub fn message_key(&self, conn: u64) -> Option<u32>
        ensures { result ≡ message_key self.now.policy self.now.history self.now.moment conn }
    {
        let opened = connection_with(self.entries(), conn)?;
        let path = self.path_named(opened.path)?;
        Some(self.limits(path).message_key)
    }

    /// Whether the attempt may begin.
    pub(crate) fn may_begin_attempt(&self, who: u32, conn: u64, id: u128, key: u32) -> bool
        ensures { IsTrue result ↔ BegunRow self.now.policy self.now.history self.now.moment who conn id key }
    {
        self.is_at_rest(who, conn) && self.is_to_attempt(conn, id) && self.has_key(conn, key)
    }
}
