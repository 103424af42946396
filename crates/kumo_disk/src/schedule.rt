//! Which calls of a disk in memory are made to fail.
ghost use Rattle.std.specs.Prelude.{◌≡◌, ◌↔◌, IsTrue, OnOk, OnErr, Contains, MatchOption, option_map, ◌-◌, ◌≤◌};
ghost use Rattle.kumo_disk.specs.Failing.{plan_by, no_plan, made_of, one_more, counted, WillFail, after_call, with_chosen, with_fuse, mended};

use kumo_base::Memory;
use std::alloc::Global;

/// A kind of calls of a disk. `Read` is both `read` and `read_exact`.
#[derive(Clone, Copy, Debug, PartialEq, Eq, Drop)]
pub enum DiskCall {
    Length,
    Read,
    WriteAt,
    Cut,
    Sync,
}

/// How many calls of each kind were made so far.
#[derive(Clone, Copy)]
struct Made {
    length: u64,
    read: u64,
    write_at: u64,
    cut: u64,
    sync: u64,
}

impl Made {
    /// Counts a call, and answers its number among those of its kind, from 1.
    fn count(&mut self, kind: DiskCall) -> u64
        ensures made { self.new ≡ counted kind self.old }
        ensures number { result ≡ one_more (made_of kind self.old) }
    {
        match kind {
            DiskCall::Length => {
                self.length = self.length.saturating_add(1);
                self.length
            }
            DiskCall::Read => {
                self.read = self.read.saturating_add(1);
                self.read
            }
            DiskCall::WriteAt => {
                self.write_at = self.write_at.saturating_add(1);
                self.write_at
            }
            DiskCall::Cut => {
                self.cut = self.cut.saturating_add(1);
                self.cut
            }
            DiskCall::Sync => {
                self.sync = self.sync.saturating_add(1);
                self.sync
            }
        }
    }
}

/// The calls that are to fail: those of a list, by kind and number, and all from the one on at which the fuse burns out.
#[derive(Drop)]
pub(crate) struct Schedule {
    failing: Vec<(DiskCall, u64)>,
    fuse: Option<u64>,
    made: Made,
}

impl Schedule {
    /// No call is to fail.
    pub(crate) fn new(alloc: Global) -> Schedule
        ensures { plan_by result ≡ no_plan }
    {
        Schedule {
            failing: Vec::new(alloc),
            fuse: None,
            made: Made {
                length: 0,
                read: 0,
                write_at: 0,
                cut: 0,
                sync: 0,
            },
        }
    }

    /// The k-th call of that kind is to fail.
    pub(crate) fn fail_at(&mut self, kind: DiskCall, k: u64) -> Result<(), Memory>
        ensures ok { OnOk result (plan_by self.new ≡ with_chosen kind k (plan_by self.old)) }
        ensures err { OnErr result (plan_by self.new ≡ plan_by self.old) }
    {
        self.failing.push((kind, k))?;
        Ok(())
    }

    /// The k-th call from now and all later ones are to fail. The sooner of two fuses counts.
    pub(crate) fn fuse(&mut self, k: u64)
        ensures { plan_by self.new ≡ with_fuse k (plan_by self.old) }
    {
        self.fuse = match self.fuse {
            Some(left) => Some(left.min(k)),
            None => Some(k),
        };
    }

    /// No call is to fail any more. The calls made so far still count.
    pub(crate) fn mend(&mut self)
        ensures { plan_by self.new ≡ mended (plan_by self.old) }
    {
        self.failing.clear();
        self.fuse = None;
    }

    /// Whether the call of this kind with this number is chosen.
    fn is_chosen(&self, kind: DiskCall, number: u64) -> bool
        ensures { IsTrue result ↔ Contains self.now.failing.items (kind, number) }
    {
        self.failing.contains(&(kind, number))
    }

    /// Burns the fuse down by a call, and answers whether it made this call fail.
    fn burn(&mut self) -> bool
        ensures answer { IsTrue result ↔ MatchOption self.old.fuse ⊥ (λ left. left ≤ 1) }
        ensures fuse { self.new.fuse ≡ option_map (λ left. left - 1) self.old.fuse }
        ensures made { self.new.made ≡ self.old.made }
        ensures failing { self.new.failing.items ≡ self.old.failing.items }
    {
        match self.fuse {
            Some(left) => {
                self.fuse = Some(left.saturating_sub(1));
                left <= 1
            }
            None => false,
        }
    }

    /// Counts a call, and answers whether it is to fail.
    pub(crate) fn fails(&mut self, kind: DiskCall) -> bool
        ensures answer { IsTrue result ↔ WillFail (plan_by self.old) kind }
        ensures plan { plan_by self.new ≡ after_call kind (plan_by self.old) }
    {
        let number = self.made.count(kind);
        let chosen = self.is_chosen(kind, number);
        let burnt = self.burn();
        chosen || burnt
    }
}
