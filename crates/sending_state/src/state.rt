//! The state, and what changes it.
ghost use Rattle.std.specs.Prelude.{◌≡◌, ◌<◌, ◌+◌, length, OnOk, OnErr};
ghost use Rattle.kumo_outside.specs.Search.{HasSearchCause};
ghost use Rattle.history_core.specs.History.{last_moment};
ghost use Rattle.history_core.specs.Legal.{IsLegal, MayFollow};
ghost use Rattle.sending_state.specs.State.{started, AllExamined, with_entry, with_owed, with_room, IsFurther, IsOwed};

use history_automation::paths::Known;
use history_automation::replies::{Examined, examine};
use history_core::{Entry, History};
use history_walk::Scene;
use kumo_base::Memory;
use kumo_outside::{Search, SearchFault};
use policy_core::Policy;
use std::alloc::Global;
use std::marker::Model;

/// A policy and a legal history under it, with what was found in it so far.
#[derive(Drop)]
pub struct SendingState {
    pub(crate) alloc: Global,
    policy: Policy,
    entries: Vec<Entry>,
    known: Known,
    /// What the entries come to that were examined.
    found: Examined,
    /// How many entries were examined, from the first on.
    examined: usize,
    /// How many entries have their room, beside those that are there.
    owed: usize,
}

impl Model for SendingState {
    ghost use Rattle.std.specs.Prelude.{◌+◌, ◌≤◌, vec_len, vec_capacity};
    ghost use Rattle.sending_state.specs.State.{State};
    ghost use Rattle.sending_state.specs.Kept.{Keeps};

    ghost Value = { State };

    ghost view = { λ s. record { policy = s.policy; history = s.entries.items; examined = s.examined; owed = s.owed } };

    ghost invariant = { λ s. Keeps s.policy s.entries.items s.examined s.known s.found
        × (vec_len s.entries + s.owed ≤ vec_capacity s.entries) };
}

impl SendingState {
    /// The state before the first entry.
    pub fn new(alloc: Global, policy: Policy) -> SendingState
        ensures { result ≡ started policy }
    {
        SendingState {
            alloc,
            policy,
            entries: Vec::new(alloc),
            known: Known::new(alloc),
            found: Examined::new(alloc),
            examined: 0,
            owed: 0,
        }
    }

    /// The policy.
    pub fn policy(&self) -> &Policy
        ensures { result.now ≡ self.now.policy }
    {
        &self.policy
    }

    /// The entries, the oldest first. They are a legal history.
    pub fn entries(&self) -> &[Entry]
        ensures same { result.now ≡ self.now.history }
        ensures legal { IsLegal self.now.policy result.now }
    {
        self.entries.as_slice()
    }

    /// Hands the history out. It is legal.
    pub fn into_history(self) -> History
        ensures same { result ≡ self.history }
        ensures legal { IsLegal self.policy result }
    {
        let SendingState { entries, .. } = self;
        History::of(entries)
    }

    /// Keeps room for so many entries that are owed, in all: a lower number than before gives room back. After `Memory` the
    /// state is as it was.
    pub fn reserve_owed(&mut self, room: usize) -> Result<(), Memory>
        ensures ok { OnOk result (self.new ≡ with_room self.old room) }
        ensures err { OnErr result (self.new ≡ self.old) }
    {
        self.entries.reserve(room)?;
        self.owed = room;
        Ok(())
    }

    /// Takes an entry that may follow. After `Memory` the state is as it was. The rooms of what is owed stay.
    pub fn take(&mut self, entry: Entry) -> Result<(), Memory>
        requires { MayFollow self.old.policy self.old.history entry }
        ensures ok { OnOk result (self.new ≡ with_entry self.old entry) }
        ensures err { OnErr result (self.new ≡ self.old) }
    {
        self.entries.reserve(self.owed + 1)?;
        self.known
            .add(self.alloc, &self.policy, &self.entries, &entry)?;
        self.entries.push_reserved(entry);
        Ok(())
    }

    /// Takes an entry that is owed, into a room that was kept for it: the end of an attempt, of a connection, of a rest or
    /// of the work.
    pub fn take_owed(&mut self, entry: Entry)
        requires follows { MayFollow self.old.policy self.old.history entry }
        requires owed { IsOwed entry.what }
        requires room { 0 < self.old.owed }
        ensures { self.new ≡ with_owed self.old entry }
    {
        self.entries.push_reserved(entry);
        self.owed -= 1;
    }

    /// Searches the replies of the entries that were not examined yet for the patterns of the rules. After `Memory` or
    /// `Search` what was examined stays, and the next call goes on there; `Search` comes only where the count of the search
    /// engine's faults rose.
    pub fn examine<S: Search>(&mut self, search: &mut S) -> Result<(), SearchFault>
        ensures ok { OnOk result (AllExamined self.new) }
        ensures further { IsFurther self.old self.new }
        ensures cause { HasSearchCause (S.seen search.old).faults (S.seen search.new).faults result }
    {
        while self.examined < self.entries.len() {
            self.examine_next(search)?;
        }
        Ok(())
    }

    /// Searches the replies of the first entry that was not examined yet. After a fault the state is as it was.
    fn examine_next<S: Search>(&mut self, search: &mut S) -> Result<(), SearchFault>
        requires { self.old.examined < length self.old.history }
        ensures ok { OnOk result (self.new.examined ≡ self.old.examined + 1) }
        ensures err { OnErr result (self.new.examined ≡ self.old.examined) }
        ensures further { IsFurther self.old self.new }
        ensures cause { HasSearchCause (S.seen search.old).faults (S.seen search.new).faults result }
    {
        examine(
            self.alloc,
            search,
            &self.policy,
            &self.entries,
            self.examined,
            &mut self.found,
        )?;
        self.examined += 1;
        Ok(())
    }

    /// The history at a moment, as its questions are asked.
    pub(crate) fn scene(&self, t: u64) -> Scene<'_>
        requires { AllExamined self.now }
        ensures { result ≡ record { policy = self.now.policy; history = self.now.history; moment = t } }
    {
        Scene::new(
            &self.policy,
            self.entries.as_slice(),
            &self.known,
            self.found.firings(),
            t,
        )
    }
}
