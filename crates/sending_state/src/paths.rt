//! What may come next: of the sweep, of a path and of a connection; and how long the work may rest.
ghost use Rattle.std.specs.Prelude.{◌≡◌, ◌≤◌, ◌+◌, ◌∷◌, [], ℕ, List, Some, None, false, IfOk, option_map, length};
ghost use Rattle.std.specs.List.{list_any};
ghost use Rattle.kumo_base.specs.Limits.{latest_moment};
ghost use Rattle.history_core.specs.declared.entry.Entry.{Entry as an_entry};
ghost use Rattle.history_core.specs.declared.entry.Event.{Event as an_event};
ghost use Rattle.history_core.specs.History.{has_stopped, last_moment, paths};
ghost use Rattle.history_core.specs.Legal.{MayFollow};
ghost use Rattle.history_core.specs.Openable.{is_openable, reusable, verdict, message_key};
ghost use Rattle.history_core.specs.Sweep.{next_swept};
ghost use Rattle.history_core.specs.Wake.{wake};
ghost use Rattle.history_views.specs.Opened.{connection_of};
ghost use Rattle.history_walk.specs.Verdicts.{told};
ghost use Rattle.sending_state.specs.State.{AllExamined};
ghost use Rattle.sending_state.specs.Questions.{next_path_to_open, first_reusable, lingers_now, at_work};
ghost use Rattle.sending_state.specs.inside.Among.{at_work_among};

use crate::state::SendingState;
use history_core::{Entry, Event};
use history_views::connections::{Opened, connection_with, open_by};
use history_walk::{Scene, Verdict};
use kumo_base::Memory;

/// A path that may open a connection.
#[derive(Clone, Copy)]
pub struct PathToOpen<'h> {
    /// The path's text.
    pub text: &'h str,
    /// The key of the rate that its opening counts under.
    pub key: u32,
}

impl SendingState {
    /// The entry that the sweep takes next at a moment, where anything is left for it: what may be resolved, then what is
    /// delayed, each in the order of the messages' numbers, then the message that is due first, with the source that is
    /// picked for it. It may follow, by whatever pass, where the work goes on and the moment is not before the last one.
    pub fn next_swept(&self, t: u64) -> Result<Option<Event>, Memory>
        requires { AllExamined self.now }
        ensures next { IfOk result (λ event. event ≡ next_swept self.now.policy self.now.history t) }
        ensures may { (who : ℕ) (event : an_event) → next_swept self.now.policy self.now.history t ≡ Some event
            → has_stopped self.now.history ≡ false → last_moment self.now.history ≤ t → t ≤ latest_moment
            → MayFollow self.now.policy self.now.history (record { at = t; who = who; what = event }) }
    {
        self.scene(t).next_swept(self.alloc)
    }

    /// The path that may open a connection next at a moment: the one whose last opening is earliest, the first promoted
    /// among equals. Where there is none, no path may.
    pub fn next_to_open(&self, t: u64) -> Option<PathToOpen<'_>>
        requires { AllExamined self.now }
        ensures next { option_map (λ p. record { text = p.text.now; key = p.key }) result
            ≡ next_path_to_open self.now.policy self.now.history t }
        ensures none { result ≡ None
            → list_any (is_openable self.now.policy self.now.history t) (paths self.now.policy self.now.history) ≡ false }
    {
        let scene = self.scene(t);
        match scene.next_to_open() {
            Some(path) => Some(PathToOpen {
                text: path.text.as_str(),
                key: scene.limits(path).connection_key,
            }),
            None => None,
        }
    }

    /// The first connection of the pass that is open and not busy and may begin an attempt at a moment. Where there is none,
    /// none may.
    pub fn first_reusable(&self, t: u64, who: u32) -> Option<Opened<'_>>
        requires { AllExamined self.now }
        ensures first { option_map connection_of result ≡ first_reusable self.now.policy self.now.history t who }
        ensures none { result ≡ None → reusable self.now.policy self.now.history t who ≡ [] }
    {
        self.scene(t).reusable(who)
    }

    /// What the connection of a number may do at a moment, where it was opened.
    pub fn verdict(&self, t: u64, conn: u64) -> Option<Verdict>
        requires { AllExamined self.now }
        ensures { option_map told result ≡ verdict self.now.policy self.now.history t conn }
    {
        self.scene(t).verdict(conn)
    }

    /// The key of the rate that an attempt on the connection of a number counts under at a moment.
    pub fn message_key(&self, t: u64, conn: u64) -> Option<u32>
        requires { AllExamined self.now }
        ensures { result ≡ message_key self.now.policy self.now.history t conn }
    {
        self.scene(t).message_key(conn)
    }

    /// Whether the connection of a number is kept at a moment though it has nothing to send.
    pub fn lingers(&self, t: u64, conn: u64) -> bool
        requires { AllExamined self.now }
        ensures { result ≡ lingers_now self.now.policy self.now.history t conn }
    {
        match connection_with(self.entries(), conn) {
            Some(opened) => self.scene(t).lingers(&opened),
            None => false,
        }
    }

    /// How many connections are open at a moment and are not kept with nothing to send.
    pub fn at_work(&self, t: u64) -> usize
        requires { AllExamined self.now }
        ensures { result ≡ length (at_work self.now.policy self.now.history t) }
    {
        at_work_among(&self.scene(t), self.entries())
    }

    /// The moment up to which nothing may happen by itself: the first after this one at which something may change, or at
    /// which the policy stops; `LAST_MOMENT` where there is none.
    pub fn wake(&self, t: u64) -> u64
        requires { AllExamined self.now }
        ensures { result ≡ wake self.now.policy self.now.history t }
    {
        self.scene(t).wake()
    }
}

/// How many connections the entry opens that are still open and are not kept with nothing to send: one or none.
fn at_work_in(scene: &Scene<'_>, entry: &Entry) -> usize
    ensures value { (later : List an_entry) → at_work_among scene.now (entry.now ∷ later)
        ≡ result + at_work_among scene.now later }
    ensures low { result ≤ 1 }
{
    match open_by(scene.entries(), entry) {
        Some(opened) if !scene.lingers(&opened) => 1,
        _ => 0,
    }
}

/// How many connections are open and are not kept with nothing to send; the entries are those of the scene.
fn at_work_among(scene: &Scene<'_>, entries: &[Entry]) -> usize
    ensures { result ≡ at_work_among scene.now entries.now }
{
    let mut count = 0;
    for entry in entries {
        count += at_work_in(scene, entry);
    }
    count
}
