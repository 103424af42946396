//! What a connection may do next.
ghost use Rattle.std.specs.Prelude.{◌≡◌, nat_le, option_map};
ghost use Rattle.history_core.specs.Connection.{used};
ghost use Rattle.history_core.specs.Limits.{limits};
ghost use Rattle.history_core.specs.Openable.{is_past, is_stale, verdict_on, verdict_of, verdict, first_or_empty};
ghost use Rattle.history_automation.specs.Known.{known_path};
ghost use Rattle.history_views.specs.Opened.{connection_of};
ghost use Rattle.history_walk.specs.Verdicts.{told};

use crate::scene::Scene;
use history_automation::paths::KnownPath;
use history_views::connections::{Opened, connection_with, idle_since, used};
use kumo_base::LAST_MOMENT;

/// What a connection may do, by the first that holds.
#[derive(Clone, Copy, Debug, PartialEq, Eq)]
pub enum Verdict {
    /// It has had nothing to send for the path's idle timeout.
    Stale,
    /// It has had its number of attempts.
    Spent,
    /// Its path has more open connections than the limit.
    Shed,
    /// Its path is halted.
    Halted,
    /// The rate of messages admits none before this moment, in milliseconds since 1970.
    Throttled(u64),
    /// No ready message is free.
    Empty,
    /// The message to attempt.
    Work(u128),
}

/// Whether a timeout has passed at a moment, where there is one.
fn is_past(timeout: Option<u64>, since: u64, t: u64) -> bool
    ensures { result ≡ is_past timeout since t }
{
    match timeout {
        Some(timeout) => since.saturating_add(timeout).min(LAST_MOMENT) <= t,
        None => false,
    }
}

/// The message to attempt, where there is one.
fn first_or_empty(first: Option<u128>) -> Verdict
    ensures { told result ≡ first_or_empty first }
{
    match first {
        Some(id) => Verdict::Work(id),
        None => Verdict::Empty,
    }
}

impl<'h> Scene<'h> {
    /// Whether the path's idle timeout has passed since the connection's last attempt ended, or since its opening.
    fn is_stale(&self, path: &KnownPath, opened: &Opened<'_>) -> bool
        requires { path.now ≡ known_path self.now.policy path.now.path }
        ensures { result ≡ is_stale self.now.policy self.now.history self.now.moment path.now.path (connection_of opened.now) }
    {
        let timeout = self.limits(path).idle_timeout;
        is_past(timeout, idle_since(self.entries(), opened), self.moment())
    }

    /// Whether the connection has had its number of attempts.
    fn is_spent(&self, path: &KnownPath, opened: &Opened<'_>) -> bool
        requires { path.now ≡ known_path self.now.policy path.now.path }
        ensures { result ≡ nat_le (limits self.now.policy self.now.history self.now.moment path.now.path).deliveries
            (used self.now.history opened.now.number) }
    {
        let most = self.limits(path).deliveries;
        most as usize <= used(self.entries(), opened.number)
    }

    /// What a connection of the path may do.
    fn verdict_on(&self, path: &KnownPath, opened: &Opened<'_>) -> Verdict
        requires { path.now ≡ known_path self.now.policy path.now.path }
        ensures { told result
            ≡ verdict_on self.now.policy self.now.history self.now.moment path.now.path (connection_of opened.now) }
    {
        if self.is_stale(path, opened) {
            Verdict::Stale
        } else if self.is_spent(path, opened) {
            Verdict::Spent
        } else if self.is_above_limit(path) {
            Verdict::Shed
        } else if self.is_halted(path) {
            Verdict::Halted
        } else if !self.admits_beginning(path) {
            Verdict::Throttled(self.next_beginning(path))
        } else {
            first_or_empty(self.first_free(path))
        }
    }

    /// What a connection may do, where its path is known.
    pub fn verdict_of(&self, opened: &Opened<'_>) -> Option<Verdict>
        ensures { option_map told result
            ≡ verdict_of self.now.policy self.now.history self.now.moment (connection_of opened.now) }
    {
        let path = self.path_named(opened.path)?;
        Some(self.verdict_on(path, opened))
    }

    /// What the connection of a number may do, where there is one.
    pub fn verdict(&self, conn: u64) -> Option<Verdict>
        ensures { option_map told result ≡ verdict self.now.policy self.now.history self.now.moment conn }
    {
        let opened = connection_with(self.entries(), conn)?;
        self.verdict_of(&opened)
    }
}
