//! The automation of all paths of a run.
ghost use Rattle.std.specs.Prelude.{◌≡◌, ◌<◌, ◌^◌, ◌++◌, ◌∷◌, ◌&&◌, [], ℕ, List, Some, true, length, IfOk, OnOk, OnErr};
ghost use Rattle.std.specs.List.{list_any};
ghost use Rattle.policy_core.specs.Site.{is_same_site};
ghost use Rattle.automation_rules.specs.inside.Noting.{is_by};
ghost use Rattle.automation_rules.specs.inside.Showing.{is_covering_path, is_ending_path};
ghost use Rattle.automation_rules.specs.Matches.{Noted, has_rule, noted_by, IsLatest, is_firing, is_rule_in_force, limits_at, is_covered, is_halted, next_end};
ghost use Rattle.automation_rules.specs.Standing.{paths_of, StandsFor};

use crate::known_path::{KnownPath, earlier};
use kumo_base::Memory;
use policy_core::{InForce, PathBase, Site};
use queue_name::QueueName;
use std::alloc::Global;
use std::marker::Model;

/// The rules of all paths, and what is kept of the matches that were noted. Contracts say of which list of matches: `StandsFor`.
/// Moments are milliseconds. What a call ensures of a moment it ensures where no match noted before is later.
#[derive(Drop)]
pub struct Automaton {
    alloc: Global,
    paths: Vec<KnownPath>,
}

impl Model for Automaton {
    ghost use Rattle.std.specs.Prelude.{List};
    ghost use Rattle.automation_rules.specs.Memory.{PathMemory};

    ghost Value = { List PathMemory };

    ghost view = { λ a. a.paths.items };
}

impl Automaton {
    /// No path yet. It takes no memory.
    pub fn new(alloc: Global) -> Automaton
        ensures paths { paths_of result ≡ [] }
        ensures stands { StandsFor result [] }
    {
        Automaton {
            alloc,
            paths: Vec::new(alloc),
        }
    }

    /// Adds a path of a site, and answers its number; paths are numbered from 0. After `Memory` all is as it was. That is also the
    /// answer where the path has more rules than 32 bits count.
    pub fn add_path(&mut self, base: PathBase, site: &Site) -> Result<u32, Memory>
        requires { length self.old < 2 ^ 32 }
        ensures number { IfOk result (λ number. number ≡ length self.old) }
        ensures paths { OnOk result (paths_of self.new ≡ paths_of self.old ++ record { base = base; site = site.now } ∷ []) }
        ensures stands { (matches : List Noted) → StandsFor self.old matches → OnOk result (StandsFor self.new matches) }
        ensures err { OnErr result (self.new ≡ self.old) }
    {
        let number = self.paths.len() as u32;
        let path = KnownPath::new(self.alloc, base, site)?;
        self.paths.push(path)?;
        Ok(number)
    }

    /// How many paths were added.
    pub fn len(&self) -> usize
        ensures { result ≡ length self.now }
    {
        self.paths.len()
    }

    /// Whether a path of this number was added and has a rule of this number. Rules are numbered from 1.
    pub fn has_rule(&self, path: u32, rule: u32) -> bool
        ensures { result ≡ has_rule (paths_of self.now) path rule }
    {
        match self.paths.get(path as usize) {
            Some(known) => known.has_rule(rule),
            None => false,
        }
    }

    /// Notes a match of a rule of a path, which is numbered from 1, by the reply to a message of a queue. It answers whether the
    /// match fires the rule. After `Memory` all is as it was.
    pub fn note(&mut self, path: u32, rule: u32, t: u64, name: &QueueName) -> Result<bool, Memory>
        requires { has_rule (paths_of self.old) path rule ≡ true }
        ensures paths { OnOk result (paths_of self.new ≡ paths_of self.old) }
        ensures fires { (matches : List Noted) (m : Noted) → StandsFor self.old matches → IsLatest t matches
            → noted_by (paths_of self.old) path rule t name.now ≡ Some m → IfOk result (λ fires. fires ≡ is_firing matches m) }
        ensures stands { (matches : List Noted) (m : Noted) → StandsFor self.old matches → IsLatest t matches
            → noted_by (paths_of self.old) path rule t name.now ≡ Some m → OnOk result (StandsFor self.new (matches ++ m ∷ [])) }
        ensures err { OnErr result (self.new ≡ self.old) }
    {
        let alloc = self.alloc;
        let known = &mut self.paths[path as usize];
        known.note(alloc, rule as usize - 1, t, name)
    }

    /// Whether some firing of a rule of a path is in force at a moment. It takes the same time however many firings there are.
    pub fn in_force(&self, path: u32, rule: u32, t: u64) -> bool
        requires { has_rule (paths_of self.now) path rule ≡ true }
        ensures { (matches : List Noted) → StandsFor self.now matches → IsLatest t matches
            → result ≡ is_rule_in_force matches t path rule }
    {
        let known = &self.paths[path as usize];
        known.is_in_force(rule as usize - 1, t)
    }

    /// What is in force on a path at a moment. It takes time for each rule of the path.
    pub fn limits(&self, path: u32, t: u64) -> InForce
        requires { path < length self.now }
        ensures { (matches : List Noted) → StandsFor self.now matches → IsLatest t matches
            → Some result ≡ limits_at (paths_of self.now) matches t path }
    {
        let known = &self.paths[path as usize];
        known.limits(t)
    }

    /// Whether a firing in force of SuspendTenant or SuspendCampaign, on any path of the same site as a path, holds back the
    /// messages of a queue. It takes time for each path, for each rule of those of the site, and for each of their firings that is
    /// in force.
    pub fn covers(&self, path: u32, name: &QueueName, t: u64) -> bool
        requires { path < length self.now }
        ensures { (matches : List Noted) → StandsFor self.now matches → IsLatest t matches
            → result ≡ is_covered (paths_of self.now) matches t path name.now }
    {
        covers_at_site(&self.paths, &self.paths[path as usize], name, t)
    }

    /// Whether a firing in force of Suspend halts a path. It takes time for each rule of the path.
    pub fn halted(&self, path: u32, t: u64) -> bool
        requires { path < length self.now }
        ensures { (matches : List Noted) → StandsFor self.now matches → IsLatest t matches → result ≡ is_halted matches t path }
    {
        let known = &self.paths[path as usize];
        known.is_halted(t)
    }

    /// The first moment after one at which a firing is over that is in force at it. It takes time for each rule of each path.
    pub fn next_end(&self, t: u64) -> Option<u64>
        ensures { (matches : List Noted) → StandsFor self.now matches → IsLatest t matches → result ≡ next_end matches t }
    {
        next_end_among(&self.paths, t)
    }
}

/// Whether some firing that is not over at a moment, on a path of the same site as one, holds back the messages of a queue.
fn covers_at_site(paths: &[KnownPath], here: &KnownPath, name: &QueueName, t: u64) -> bool
    ensures { result ≡ list_any (λ p. is_same_site p.site here.now.site && is_covering_path t name.now p) paths.now }
{
    for known in paths {
        if known.is_at_site_of(here) && known.covers(name, t) {
            return true;
        }
    }
    false
}

/// The first end of the firings that are not over at a moment.
fn next_end_among(paths: &[KnownPath], t: u64) -> Option<u64>
    ensures { (u : ℕ) → is_by u result ≡ list_any (is_ending_path t u) paths.now }
{
    let mut least = None;
    for known in paths {
        least = earlier(least, known.next_end(t));
    }
    least
}
