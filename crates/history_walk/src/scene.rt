//! A history with what was found in it, at a moment. The questions of the rule book are asked of it.
//!
//! `Known` and the firings are found first, with memory and a search; nothing of a scene takes either.
ghost use Rattle.std.specs.Prelude.{◌≡◌, nat_lt, length, List, ◌∷◌, map, option_map, IfSome, All};
ghost use Rattle.history_core.specs.declared.path.Path.{Path as way};
ghost use Rattle.history_core.specs.History.{text_of, path_named, paths};
ghost use Rattle.history_core.specs.Connection.{open_connections};
ghost use Rattle.history_core.specs.Firing.{is_halted, is_free, firings as all_firings};
ghost use Rattle.history_core.specs.Limits.{limits};
ghost use Rattle.history_core.specs.Ready.{first_free};
ghost use Rattle.history_core.specs.Openable.{admits_opening, admits_beginning, next_beginning, is_openable, next_to_open};
ghost use Rattle.history_core.specs.Wake.{next_opening};
ghost use Rattle.history_automation.specs.Known.{known_path, IsKnown};
ghost use Rattle.history_walk.specs.Scene.{IsFound, rank_in, least_openable, least_so_far};

use crate::openable::opened_rank;
use history_automation::limits::limits_in_force;
use history_automation::paths::{Known, KnownPath, known_path_named};
use history_automation::{automation, rates};
use history_candidates::ready;
use history_core::{Entry, RuleMatch};
use history_views::connections::open_count;
use policy_core::{InForce, Policy};
use queue_name::Message;
use std::marker::Model;

/// A policy, the entries of a history, what is known of them and the firings that they come to, and a moment in milliseconds
/// since 1970.
#[derive(Drop)]
pub struct Scene<'h> {
    policy: &'h Policy,
    entries: &'h [Entry],
    known: &'h Known,
    firings: &'h [RuleMatch],
    moment: u64,
}

impl<'h> Model for Scene<'h> {
    ghost use Rattle.history_walk.specs.Scene.{SceneState, IsFound};

    ghost Value = { SceneState };

    ghost view = { λ s. record { policy = s.policy.now; history = s.entries.now; moment = s.moment } };

    ghost invariant = { λ s. IsFound s.policy.now s.entries.now s.known.now s.firings.now };
}

impl<'h> Scene<'h> {
    /// The scene of these parts.
    pub fn new(
        policy: &'h Policy,
        entries: &'h [Entry],
        known: &'h Known,
        firings: &'h [RuleMatch],
        moment: u64,
    ) -> Scene<'h>
        requires { IsFound policy.now entries.now known.now firings.now }
        ensures { result ≡ record { policy = policy.now; history = entries.now; moment = moment } }
    {
        Scene {
            policy,
            entries,
            known,
            firings,
            moment,
        }
    }

    /// The entries of the history, the oldest first.
    pub fn entries(&self) -> &'h [Entry]
        ensures { result.now ≡ self.now.history }
    {
        self.entries
    }

    /// The policy.
    pub fn policy(&self) -> &'h Policy
        ensures { result.now ≡ self.now.policy }
    {
        self.policy
    }

    /// The firings that the history comes to.
    pub fn firings(&self) -> &'h [RuleMatch]
        ensures { result.now ≡ all_firings self.now.policy self.now.history }
    {
        self.firings
    }

    /// What is known of the history's promotions and paths.
    pub fn known(&self) -> &'h Known
        ensures { IsKnown self.now.policy self.now.history result.now }
    {
        self.known
    }

    /// The paths that messages were promoted to, in order of their first promotion.
    pub fn paths(&self) -> &'h [KnownPath]
        ensures { result.now ≡ map (known_path self.now.policy) (paths self.now.policy self.now.history) }
    {
        self.known.paths()
    }

    /// The moment, in milliseconds since 1970.
    pub fn moment(&self) -> u64
        ensures { result ≡ self.now.moment }
    {
        self.moment
    }

    /// The path of a text, where messages were promoted to it.
    pub fn path_named(&self, text: &str) -> Option<&'h KnownPath>
        ensures named { option_map (λ k. k.now.path) result ≡ path_named self.now.policy self.now.history text.now }
        ensures known { IfSome result (λ k. k.now ≡ known_path self.now.policy k.now.path) }
    {
        known_path_named(self.known, text)
    }

    /// The options of a path in force.
    pub fn limits(&self, path: &KnownPath) -> InForce
        requires { path.now ≡ known_path self.now.policy path.now.path }
        ensures { result ≡ limits self.now.policy self.now.history self.now.moment path.now.path }
    {
        limits_in_force(self.firings, self.moment, &path.path, &path.base)
    }

    /// Whether an order or a firing halts a path.
    pub fn is_halted(&self, path: &KnownPath) -> bool
        requires { path.now ≡ known_path self.now.policy path.now.path }
        ensures { result ≡ is_halted self.now.policy self.now.history self.now.moment path.now.path }
    {
        automation::is_halted(
            self.entries,
            self.firings,
            self.moment,
            &path.path,
            path.text.as_str(),
        )
    }

    /// Whether no order and no firing holds a message back.
    pub fn is_free(&self, message: &Message) -> bool
        ensures { result ≡ is_free self.now.policy self.now.history self.now.moment message.now }
    {
        ready::is_free(
            self.policy,
            self.entries,
            self.firings,
            self.moment,
            message,
        )
    }

    /// The first ready message of a path that nothing holds back.
    pub fn first_free(&self, path: &KnownPath) -> Option<u128>
        ensures { result ≡ first_free self.now.policy self.now.history self.now.moment path.now.path }
    {
        ready::first_free(
            self.policy,
            self.entries,
            self.firings,
            self.known.promotions(),
            self.moment,
            &path.path,
        )
    }

    /// Whether the path's rate of connections admits one.
    pub fn admits_opening(&self, path: &KnownPath) -> bool
        requires { path.now ≡ known_path self.now.policy path.now.path }
        ensures { result ≡ admits_opening self.now.policy self.now.history self.now.moment path.now.path }
    {
        rates::admits_opening(
            self.entries,
            path.text.as_str(),
            &self.limits(path),
            self.moment,
        )
    }

    /// Whether the path's rate of messages admits an attempt.
    pub fn admits_beginning(&self, path: &KnownPath) -> bool
        requires { path.now ≡ known_path self.now.policy path.now.path }
        ensures { result ≡ admits_beginning self.now.policy self.now.history self.now.moment path.now.path }
    {
        rates::admits_beginning(
            self.entries,
            path.text.as_str(),
            &self.limits(path),
            self.moment,
        )
    }

    /// The least moment at which the path's rate of connections admits one.
    pub fn next_opening(&self, path: &KnownPath) -> u64
        requires { path.now ≡ known_path self.now.policy path.now.path }
        ensures { result ≡ next_opening self.now.policy self.now.history self.now.moment path.now.path }
    {
        rates::next_opening(
            self.entries,
            path.text.as_str(),
            &self.limits(path),
            self.moment,
        )
    }

    /// The least moment at which the path's rate of messages admits an attempt.
    pub fn next_beginning(&self, path: &KnownPath) -> u64
        requires { path.now ≡ known_path self.now.policy path.now.path }
        ensures { result ≡ next_beginning self.now.policy self.now.history self.now.moment path.now.path }
    {
        rates::next_beginning(
            self.entries,
            path.text.as_str(),
            &self.limits(path),
            self.moment,
        )
    }

    /// Whether the path has fewer open connections than its limit.
    fn is_below_limit(&self, path: &KnownPath) -> bool
        requires { path.now ≡ known_path self.now.policy path.now.path }
        ensures { result ≡ nat_lt (length (open_connections self.now.history (text_of path.now.path)))
            (limits self.now.policy self.now.history self.now.moment path.now.path).connection_limit }
    {
        let limit = self.limits(path).connection_limit;
        open_count(self.entries, path.text.as_str()) < limit as usize
    }

    /// Whether the path has more open connections than its limit.
    pub fn is_above_limit(&self, path: &KnownPath) -> bool
        requires { path.now ≡ known_path self.now.policy path.now.path }
        ensures { result ≡ nat_lt (limits self.now.policy self.now.history self.now.moment path.now.path).connection_limit
            (length (open_connections self.now.history (text_of path.now.path))) }
    {
        let limit = self.limits(path).connection_limit;
        (limit as usize) < open_count(self.entries, path.text.as_str())
    }

    /// Whether a path may open a connection.
    pub fn is_openable(&self, path: &KnownPath) -> bool
        requires { path.now ≡ known_path self.now.policy path.now.path }
        ensures { result ≡ is_openable self.now.policy self.now.history self.now.moment path.now.path }
    {
        !self.is_halted(path)
            && self.is_below_limit(path)
            && self.first_free(path).is_some()
            && self.admits_opening(path)
            && self.admits_beginning(path)
    }

    /// One more than the moment of the path's last opening, 0 where it was never opened.
    fn rank(&self, path: &KnownPath) -> u128
        requires { path.now ≡ known_path self.now.policy path.now.path }
        ensures { result ≡ rank_in self.now path.now.path }
    {
        opened_rank(self.entries, path.text.as_str())
    }

    /// The openable path whose last opening is earliest, the first promoted among equals.
    #[tactic(auto, using(history_candidates::proofs::LeastPaths::known_all, history_candidates::proofs::LeastPaths::paths_of_known))]
    pub fn next_to_open(&self) -> Option<&'h KnownPath>
        ensures next { option_map (λ k. k.now.path) result ≡ next_to_open self.now.policy self.now.history self.now.moment }
        ensures known { IfSome result (λ k. k.now ≡ known_path self.now.policy k.now.path) }
    {
        least_openable(self, self.known.paths())
    }
}

/// The openable path of least rank among these, the first of several.
fn least_openable<'h>(scene: &Scene<'_>, paths: &'h [KnownPath]) -> Option<&'h KnownPath>
    requires { All (λ k. k ≡ known_path scene.now.policy k.path) paths.now }
    ensures least { option_map (λ k. k.now.path) result ≡ least_openable scene.now (map (λ k. k.path) paths.now) }
    ensures known { IfSome result (λ k. k.now ≡ known_path scene.now.policy k.now.path) }
{
    let mut best = None;
    for path in paths {
        best = less_of(scene, best, path);
    }
    best
}

/// What was found so far, or a path behind it that is openable and of less rank.
#[tactic(auto, using(history_candidates::proofs::LeastPaths::lesser_twice))]
fn less_of<'h>(
    scene: &Scene<'_>,
    best: Option<&'h KnownPath>,
    path: &'h KnownPath,
) -> Option<&'h KnownPath>
    requires path { path.now ≡ known_path scene.now.policy path.now.path }
    requires best { IfSome best (λ k. k.now ≡ known_path scene.now.policy k.now.path) }
    ensures least { (later : List way) → least_so_far scene.now (option_map (λ k. k.now.path) best.entry)
        (least_openable scene.now (path.now.path ∷ later))
        ≡ least_so_far scene.now (option_map (λ k. k.now.path) result) (least_openable scene.now later) }
    ensures known { IfSome result (λ k. k.now ≡ known_path scene.now.policy k.now.path) }
{
    if !scene.is_openable(path) {
        return best;
    }
    match best {
        Some(found) if scene.rank(found) <= scene.rank(path) => Some(found),
        _ => Some(path),
    }
}
