//! The history: all entries, the oldest first. What the core decides is decided from it, and the log is written of it.
ghost use Rattle.std.specs.Prelude.{◌≡◌, List, [], ◌∷◌, ◌++◌, OnOk, OnErr};
ghost use Rattle.history_core.specs.declared.entry.Entry.{Entry};

use crate::entry::Entry;
use kumo_base::Memory;
use std::alloc::Global;
use std::marker::Model;

/// Entries in the order in which they came. Nothing is said here of which entry may follow which.
#[derive(Drop)]
pub struct History {
    entries: Vec<Entry>,
}

impl Model for History {
    ghost Value = { List Entry };

    ghost view = { λ h. h.entries.items };
}

impl History {
    /// The history before the first entry.
    pub fn new(alloc: Global) -> History
        ensures { result ≡ [] }
    {
        History {
            entries: Vec::new(alloc),
        }
    }

    /// The history of these entries, the oldest first.
    pub fn of(entries: Vec<Entry>) -> History
        ensures { result ≡ entries.items }
    {
        History { entries }
    }

    /// Appends an entry. After `Memory` the history is as it was.
    pub fn push(&mut self, entry: Entry) -> Result<(), Memory>
        ensures ok { OnOk result (self.new ≡ self.old ++ entry ∷ []) }
        ensures err { OnErr result (self.new ≡ self.old) }
    {
        self.entries.push(entry)?;
        Ok(())
    }

    /// The entries, the oldest first.
    pub fn entries(&self) -> &[Entry]
        ensures { result.now ≡ self.now }
    {
        self.entries.as_slice()
    }
}
