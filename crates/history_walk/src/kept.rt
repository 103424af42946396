//! Connections that have nothing to send now: which of them may begin after all, and which are kept.
ghost use Rattle.std.specs.Prelude.{◌≡◌, ◌==◌, ◌&&◌, option_map, find};
ghost use Rattle.std.specs.List.{list_any, list_all};
ghost use Rattle.history_core.specs.Connection.{idle_connections, open_anywhere};
ghost use Rattle.history_core.specs.History.{path_named};
ghost use Rattle.history_core.specs.Openable.{verdict_of, is_work, may_linger, has_idle_timeout, lingers};
ghost use Rattle.history_views.specs.Opened.{connection_of};
ghost use Rattle.history_walk.specs.Verdicts.{told};

use crate::scene::Scene;
use crate::verdict::Verdict;
use history_core::Entry;
use history_views::connections::{Opened, idle_by, open_by};

/// Whether a verdict is to attempt a message.
fn is_work(verdict: Option<Verdict>) -> bool
    ensures { result ≡ is_work (option_map told verdict) }
{
    match verdict {
        Some(Verdict::Work(_)) => true,
        _ => false,
    }
}

/// Whether a verdict lets a connection be kept.
fn may_linger(verdict: Option<Verdict>) -> bool
    ensures { result ≡ may_linger (option_map told verdict) }
{
    match verdict {
        Some(Verdict::Throttled(_)) => true,
        Some(Verdict::Empty) => true,
        _ => false,
    }
}

/// Whether a connection of a number is open and not busy.
#[tactic(auto, using(history_views::proofs::OpenWalks::idle_given))]
pub fn is_idle(entries: &[Entry], number: u64) -> bool
    ensures { result ≡ list_any (λ d. d.number == number) (idle_connections entries.now) }
{
    for entry in entries {
        if let Some(opened) = idle_by(entries, entry) {
            if opened.number == number {
                return true;
            }
        }
    }
    false
}

impl<'h> Scene<'h> {
    /// Whether a connection is of the pass and may begin an attempt.
    fn may_begin(&self, opened: &Opened<'_>, who: u32) -> bool
        ensures { result ≡ ((connection_of opened.now).who == who
            && is_work (verdict_of self.now.policy self.now.history self.now.moment (connection_of opened.now))) }
    {
        opened.who == who && is_work(self.verdict_of(opened))
    }

    /// The first connection of the pass that is open and not busy and may begin an attempt.
    pub fn reusable(&self, who: u32) -> Option<Opened<'h>>
        ensures { option_map connection_of result ≡ find (λ c. c.who == who
            && is_work (verdict_of self.now.policy self.now.history self.now.moment c)) (idle_connections self.now.history) }
    {
        first_reusable(self, self.entries(), who)
    }

    /// Whether the path of a text has an idle timeout in force.
    fn has_idle_timeout(&self, text: &str) -> bool
        ensures { result ≡ has_idle_timeout self.now.policy self.now.history self.now.moment
            (path_named self.now.policy self.now.history text.now) }
    {
        match self.path_named(text) {
            Some(path) => self.limits(path).idle_timeout.is_some(),
            None => false,
        }
    }

    /// Whether a connection is kept though it has nothing to send now.
    pub fn lingers(&self, opened: &Opened<'_>) -> bool
        ensures { result ≡ lingers self.now.policy self.now.history self.now.moment (connection_of opened.now) }
    {
        self.has_idle_timeout(opened.path)
            && is_idle(self.entries(), opened.number)
            && may_linger(self.verdict_of(opened))
    }

    /// Whether every open connection is kept.
    pub fn all_linger(&self) -> bool
        ensures { result ≡ list_all (lingers self.now.policy self.now.history self.now.moment) (open_anywhere self.now.history) }
    {
        all_linger(self, self.entries())
    }
}

/// The first connection of the pass that is open and not busy and may begin an attempt; the entries are those of the scene.
#[tactic(auto, using(history_views::proofs::OpenWalks::idle_given))]
fn first_reusable<'e>(scene: &Scene<'_>, entries: &'e [Entry], who: u32) -> Option<Opened<'e>>
    requires { entries.now ≡ scene.now.history }
    ensures { option_map connection_of result ≡ find (λ c. c.who == who
        && is_work (verdict_of scene.now.policy scene.now.history scene.now.moment c)) (idle_connections entries.now) }
{
    for entry in entries {
        if let Some(opened) = idle_by(entries, entry) {
            if scene.may_begin(&opened, who) {
                return Some(opened);
            }
        }
    }
    None
}

/// Whether every open connection is kept; the entries are those of the scene.
fn all_linger(scene: &Scene<'_>, entries: &[Entry]) -> bool
    requires { entries.now ≡ scene.now.history }
    ensures { result ≡ list_all (lingers scene.now.policy scene.now.history scene.now.moment) (open_anywhere entries.now) }
{
    for entry in entries {
        if let Some(opened) = open_by(entries, entry) {
            if !scene.lingers(&opened) {
                return false;
            }
        }
    }
    true
}
