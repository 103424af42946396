//! The moment up to which the work may rest: the first of those at which something may change by itself.
ghost use Rattle.std.specs.Prelude.{◌≡◌, ◌∷◌, List, fold, map, All};
ghost use Rattle.history_core.specs.declared.entry.Entry.{Entry as an_entry};
ghost use Rattle.history_core.specs.declared.path.Path.{Path as a_path};
ghost use Rattle.history_core.specs.declared.rule_match.RuleMatch.{RuleMatch as a_match};
ghost use Rattle.history_core.specs.Wake.{due_marks, age_marks, order_marks, stale_marks, stale_mark, earlier_after, wake};
ghost use Rattle.history_automation.specs.Known.{known_path};
ghost use Rattle.history_views.specs.Opened.{connection_of};
ghost use Rattle.history_walk.specs.inside.Marks.{due_marks_among, age_marks_among, order_marks_among, firing_marks_among, rate_marks_among, stale_marks_among};

use crate::scene::Scene;
use history_automation::automation::is_in_force;
use history_automation::paths::KnownPath;
use history_candidates::ready::is_ready;
use history_core::{Entry, RuleMatch};
use history_views::connections::{Opened, idle_by, idle_since, is_in_flight};
use history_views::messages::{due, pending_by};
use history_views::orders::{duration_of, end_of, live_by};
use kumo_base::LAST_MOMENT;
use policy_core::Policy;
use queues_policy::ages_of;

/// The earlier of two moments, where the second is after the present one.
fn earlier_after(t: u64, was: u64, moment: u64) -> u64
    ensures { result ≡ earlier_after t was moment }
{
    if t < moment { was.min(moment) } else { was }
}

/// With the due moment of the message that an entry brings, where it waits.
fn due_with(entries: &[Entry], t: u64, best: u64, entry: &Entry) -> u64
    ensures { (later : List an_entry) → fold (earlier_after t) best (due_marks_among entries.now (entry.now ∷ later))
        ≡ fold (earlier_after t) result (due_marks_among entries.now later) }
{
    match pending_by(entries, entry) {
        Some(message) if !is_ready(entries, message.id) && !is_in_flight(entries, message.id) => {
            earlier_after(t, best, due(entries, message))
        }
        _ => best,
    }
}

/// The first moment at which a message that waits is due.
fn earliest_due(entries: &[Entry], t: u64, first: u64) -> u64
    ensures { result ≡ fold (earlier_after t) first (due_marks entries.now) }
{
    let mut best = first;
    for entry in entries {
        best = due_with(entries, t, best, entry);
    }
    best
}

/// With the moment at which the pending message that an entry brings is too old.
fn age_with(policy: &Policy, entries: &[Entry], t: u64, best: u64, entry: &Entry) -> u64
    ensures { (later : List an_entry) → fold (earlier_after t) best (age_marks_among policy.now entries.now (entry.now ∷ later))
        ≡ fold (earlier_after t) result (age_marks_among policy.now entries.now later) }
{
    match pending_by(entries, entry) {
        Some(message) => {
            let age = ages_of(&policy.queues, &message.name).max_age;
            let past = message.created.saturating_add(age).saturating_add(1);
            earlier_after(t, best, past.min(LAST_MOMENT))
        }
        None => best,
    }
}

/// The first moment at which a pending message is too old.
fn earliest_age(policy: &Policy, entries: &[Entry], t: u64, first: u64) -> u64
    ensures { result ≡ fold (earlier_after t) first (age_marks policy.now entries.now) }
{
    let mut best = first;
    for entry in entries {
        best = age_with(policy, entries, t, best, entry);
    }
    best
}

/// With the end of the order that an entry gives, where it is live.
fn order_with(entries: &[Entry], t: u64, best: u64, entry: &Entry) -> u64
    ensures { (later : List an_entry) → fold (earlier_after t) best (order_marks_among entries.now t (entry.now ∷ later))
        ≡ fold (earlier_after t) result (order_marks_among entries.now t later) }
{
    match live_by(entries, t, entry) {
        Some(given) => earlier_after(t, best, end_of(given.at, duration_of(given.order))),
        None => best,
    }
}

/// The first moment at which a live order ends.
fn earliest_order(entries: &[Entry], t: u64, first: u64) -> u64
    ensures { result ≡ fold (earlier_after t) first (order_marks entries.now t) }
{
    let mut best = first;
    for entry in entries {
        best = order_with(entries, t, best, entry);
    }
    best
}

/// With the end of a firing, where it is in force.
fn firing_with(t: u64, best: u64, firing: &RuleMatch) -> u64
    ensures { (later : List a_match) → fold (earlier_after t) best (firing_marks_among t (firing.now ∷ later))
        ≡ fold (earlier_after t) result (firing_marks_among t later) }
{
    if is_in_force(firing, t) {
        earlier_after(t, best, end_of(firing.at, firing.rule.duration))
    } else {
        best
    }
}

/// The first moment at which a firing ends that is in force.
fn earliest_firing(firings: &[RuleMatch], t: u64, first: u64) -> u64
    ensures { result ≡ fold (earlier_after t) first (firing_marks_among t firings.now) }
{
    let mut best = first;
    for firing in firings {
        best = firing_with(t, best, firing);
    }
    best
}

/// With the moments at which the rates of a path admit more, where it has a free ready message.
fn rates_with(scene: &Scene<'_>, best: u64, path: &KnownPath) -> u64
    requires { path.now ≡ known_path scene.now.policy path.now.path }
    ensures { (later : List a_path) → fold (earlier_after scene.now.moment) best
        (rate_marks_among scene.now (path.now.path ∷ later))
        ≡ fold (earlier_after scene.now.moment) result (rate_marks_among scene.now later) }
{
    if scene.first_free(path).is_none() {
        return best;
    }
    let opening = earlier_after(scene.moment(), best, scene.next_opening(path));
    earlier_after(scene.moment(), opening, scene.next_beginning(path))
}

/// The first moment at which a rate of a path with a free ready message admits more.
fn earliest_rate(scene: &Scene<'_>, paths: &[KnownPath], first: u64) -> u64
    requires { All (λ k. k ≡ known_path scene.now.policy k.path) paths.now }
    ensures { result ≡ fold (earlier_after scene.now.moment) first (rate_marks_among scene.now (map (λ k. k.path) paths.now)) }
{
    let mut best = first;
    for path in paths {
        best = rates_with(scene, best, path);
    }
    best
}

/// The moment at which a connection with nothing to send becomes stale.
fn stale_mark(scene: &Scene<'_>, entries: &[Entry], opened: &Opened<'_>) -> Option<u64>
    requires { entries.now ≡ scene.now.history }
    ensures { result ≡ stale_mark scene.now.policy scene.now.history scene.now.moment (connection_of opened.now) }
{
    let path = scene.path_named(opened.path)?;
    let timeout = scene.limits(path).idle_timeout?;
    let since = idle_since(entries, opened);
    Some(since.saturating_add(timeout).min(LAST_MOMENT))
}

/// With the moment at which the connection that an entry opens becomes stale, where it is kept.
fn stale_with(scene: &Scene<'_>, entries: &[Entry], best: u64, entry: &Entry) -> u64
    requires { entries.now ≡ scene.now.history }
    ensures { (later : List an_entry) → fold (earlier_after scene.now.moment) best
        (stale_marks_among scene.now (entry.now ∷ later))
        ≡ fold (earlier_after scene.now.moment) result (stale_marks_among scene.now later) }
{
    let Some(opened) = idle_by(entries, entry) else {
        return best;
    };
    match stale_mark(scene, entries, &opened) {
        Some(moment) => earlier_after(scene.moment(), best, moment),
        None => best,
    }
}

/// The first moment at which a connection that is kept becomes stale.
#[tactic(auto, using(history_views::proofs::OpenWalks::idle_given))]
fn earliest_stale(scene: &Scene<'_>, entries: &[Entry], first: u64) -> u64
    requires { entries.now ≡ scene.now.history }
    ensures { result ≡ fold (earlier_after scene.now.moment) first
        (stale_marks scene.now.policy scene.now.history scene.now.moment) }
{
    let mut best = first;
    for entry in entries {
        best = stale_with(scene, entries, best, entry);
    }
    best
}

/// The first of the stops.
fn earliest_stop(stops: &[u64], t: u64, first: u64) -> u64
    ensures { result ≡ fold (earlier_after t) first stops.now }
{
    let mut best = first;
    for stop in stops {
        best = earlier_after(t, best, *stop);
    }
    best
}

impl<'h> Scene<'h> {
    /// The moment up to which nothing may happen by itself: the first after the present one at which something may change, or at
    /// which the policy stops, and `LAST_MOMENT` where there is none.
    #[tactic(auto, using(history_candidates::proofs::LeastPaths::known_all))]
    pub fn wake(&self) -> u64
        ensures { result ≡ wake self.now.policy self.now.history self.now.moment }
    {
        let t = self.moment();
        let due = earliest_due(self.entries(), t, LAST_MOMENT);
        let age = earliest_age(self.policy(), self.entries(), t, due);
        let order = earliest_order(self.entries(), t, age);
        let firing = earliest_firing(self.firings(), t, order);
        let rate = earliest_rate(self, self.paths(), firing);
        let stale = earliest_stale(self, self.entries(), rate);
        earliest_stop(self.policy().stops.as_slice(), t, stale)
    }
}
