//! What a crash may leave of a disk in memory, as a list that is short and telling.
//!
//! The list is found by going back over the kept calls, the last one first, to what was read before the first call that no sync of
//! its area follows. From there on each call adds images in which this call alone was made in part, with all later calls or with
//! none. So the list grows by a few images with each unsynced call.
ghost use Rattle.std.specs.Prelude.{◌≡◌, ◌≤◌, ℕ, ◌∷◌, reverse, length, vec_len, IsTrue, IfOk, IfSome, OnOk};
ghost use Rattle.kumo_disk.specs.Disk.{Torn, Cut};
ghost use Rattle.kumo_disk.specs.Memory.{before_call, undone, Does, May};
ghost use Rattle.kumo_disk.specs.inside.Crash.{shows, IsStep, AfterStep, AllMay, AllAfter};

use crate::kept_call::{Effect, KeptCall, overwrite};
use kumo_base::Memory;
use std::alloc::Global;

/// The bytes of both areas.
#[derive(Drop)]
pub(crate) struct Areas {
    pub(crate) first: Vec<u8>,
    pub(crate) second: Vec<u8>,
}

impl Areas {
    /// Areas with these bytes.
    pub(crate) fn copied(alloc: Global, first: &[u8], second: &[u8]) -> Result<Areas, Memory>
        ensures first { IfOk result (λ areas. areas.first.items ≡ first.now) }
        ensures second { IfOk result (λ areas. areas.second.items ≡ second.now) }
    {
        Ok(Areas {
            first: Vec::from_slice(alloc, first)?,
            second: Vec::from_slice(alloc, second)?,
        })
    }

    /// The same areas once more.
    fn again(&self, alloc: Global) -> Result<Areas, Memory>
        ensures { IfOk result (λ areas. shows areas ≡ shows self.now) }
    {
        Areas::copied(alloc, self.first.as_slice(), self.second.as_slice())
    }
}

/// An image, and whether the calls after the one that was made in part are made in it.
#[derive(Drop)]
pub(crate) struct Branch {
    pub(crate) areas: Areas,
    later: bool,
}

/// Of which areas a sync follows.
#[derive(Clone, Copy)]
pub(crate) struct Synced {
    first: bool,
    second: bool,
}

impl Synced {
    /// Of no area.
    pub(crate) fn neither() -> Synced {
        Synced {
            first: false,
            second: false,
        }
    }

    /// Whether one follows of this area.
    fn has(self, area: u8) -> bool {
        if area == 0 { self.first } else { self.second }
    }

    /// Before this call.
    fn before(self, call: &KeptCall) -> Synced {
        let syncs = matches!(call.effect, Effect::Sync);
        Synced {
            first: self.first || syncs && call.area == 0,
            second: self.second || syncs && call.area == 1,
        }
    }
}

/// The place of the first call that is no sync and that no sync of its area follows; how many calls there are, if there is none.
pub(crate) fn first_unsynced(calls: &[KeptCall]) -> usize {
    let mut first = calls.len();
    let mut synced = Synced::neither();
    for gone in 0..calls.len() {
        let place = calls.len() - 1 - gone;
        let call = &calls[place];
        synced = synced.before(call);
        if !synced.has(call.area) {
            first = place;
        }
    }
    first
}

/// Which part of a call is made. Of a write: no byte; what is read; the first half; that half and zeros; all; this byte all over
/// its range. Of a cut: nothing; what is read; half of what it cuts off; all. A call that failed reads as if nothing was made.
#[derive(Clone, Copy, Drop)]
enum Part {
    Nothing,
    AsRead,
    Half,
    Torn,
    Whole,
    Filled(u8),
}

const PARTS_OF_WRITE: [Part; 6] = [
    Part::Nothing,
    Part::Half,
    Part::Torn,
    Part::Filled(0),
    Part::Filled(1),
    Part::Filled(255),
];

const PARTS_OF_FAILED_WRITE: [Part; 7] = [
    Part::Nothing,
    Part::Half,
    Part::Torn,
    Part::Whole,
    Part::Filled(0),
    Part::Filled(1),
    Part::Filled(255),
];

const PARTS_OF_CUT: [Part; 3] = [Part::Nothing, Part::Half, Part::Whole];

/// An area before a call that reads so after it.
fn went_back(alloc: Global, call: &KeptCall, now: &[u8]) -> Result<Vec<u8>, Memory>
    ensures { IfOk result (λ was. was.items ≡ before_call call.now now.now) }
{
    let (front, _) = now.split_at(call.at.min(now.len()));
    let (_, behind) = now.split_at(call.at.saturating_add(call.placed).min(now.len()));
    let mut was = Vec::from_slice(alloc, front)?;
    was.extend_from_slice(call.replaced.as_slice())?;
    was.extend_from_slice(behind)?;
    Ok(was)
}

/// Both areas before a call.
fn areas_before(alloc: Global, call: &KeptCall, now: &Areas) -> Result<Areas, Memory>
    ensures { IfOk result (λ was. shows was ≡ undone call.now (shows now.now)) }
{
    match call.area {
        0 => Ok(Areas {
            first: went_back(alloc, call, now.first.as_slice())?,
            second: Vec::from_slice(alloc, now.second.as_slice())?,
        }),
        1 => Ok(Areas {
            first: Vec::from_slice(alloc, now.first.as_slice())?,
            second: went_back(alloc, call, now.second.as_slice())?,
        }),
        _ => now.again(alloc),
    }
}

/// The bytes that a write put into an area that reads so after it; for a write that failed, what a part of it is taken of.
fn bytes_of_write<'a>(call: &'a KeptCall, after: &'a [u8], part: Part) -> &'a [u8] {
    if call.placed == 0 && !matches!(part, Part::AsRead) {
        return call.unwritten.as_slice();
    }
    let (_, behind) = after.split_at(call.at.min(after.len()));
    let (made, _) = behind.split_at(call.placed.min(behind.len()));
    made
}

/// The bytes that a part of a write puts, which itself has put `made`, and so many at most.
fn bytes_of_part(alloc: Global, count: usize, made: &[u8], part: Part) -> Result<Vec<u8>, Memory>
    ensures { IfOk result (λ bytes. vec_len bytes ≤ count) }
{
    let most = made.len().min(count);
    let kept = match part {
        Part::Nothing | Part::Filled(_) => 0,
        Part::Half | Part::Torn => most / 2,
        Part::AsRead | Part::Whole => most,
    };
    let (front, _) = made.split_at(kept);
    let mut bytes = Vec::from_slice(alloc, front)?;
    match part {
        Part::Torn => bytes.resize(count, 0)?,
        Part::Filled(byte) => bytes.resize(count, byte)?,
        _ => {}
    }
    Ok(bytes)
}

/// Puts bytes at an offset, or at the end where the area is shorter.
fn put(area: &mut Vec<u8>, at: usize, bytes: &[u8]) -> Result<(), Memory>
    ensures { OnOk result ((count end : ℕ) → length bytes.now ≤ count → Torn at count end area.old.items area.new.items) }
{
    let start = at.min(area.len());
    overwrite(area, start, bytes)
}

/// Makes a part of a cut, after which so many bytes are read.
fn cut_in_part(area: &mut Vec<u8>, end: usize, read: usize, part: Part)
    ensures { Cut end area.old.items area.new.items }
{
    let long = match part {
        Part::Nothing => area.len(),
        Part::AsRead => read,
        Part::Half => end.max(area.len()) - area.len().saturating_sub(end) / 2,
        Part::Torn | Part::Whole | Part::Filled(_) => end,
    };
    area.truncate(long.max(end));
}

/// Makes a part of a call in an area that reads so before it and so after it, and answers whether a crash may find it so.
fn make_part(
    alloc: Global,
    call: &KeptCall,
    before: &[u8],
    after: &[u8],
    area: &mut Vec<u8>,
    part: Part,
) -> Result<bool, Memory>
    ensures { IfOk result (λ may. IsTrue may → Does call.now.effect call.now.at before.now area.old.items area.new.items) }
{
    match call.effect {
        Effect::Write(count) => {
            let bytes = bytes_of_part(alloc, count, bytes_of_write(call, after, part), part)?;
            put(area, call.at, bytes.as_slice())?;
            Ok(true)
        }
        Effect::Shorten => {
            cut_in_part(area, call.at, after.len(), part);
            Ok(true)
        }
        Effect::Sync => Ok(area.as_slice() == before),
    }
}

/// A call, the calls before it, and what is read before and after it.
#[derive(Clone, Copy, Drop)]
struct Step<'a> {
    alloc: Global,
    rest: &'a [KeptCall],
    call: &'a KeptCall,
    before: &'a Areas,
    after: &'a Areas,
}

impl Step<'_> {
    /// An image after a part of the call, where a crash may find it so.
    fn follow(&self, mut from: Areas, part: Part) -> Result<Option<Areas>, Memory>
        requires step { IsStep self.now }
        requires may { May (shows self.now.before.now) (reverse self.now.rest.now) (shows from) }
        ensures { IfOk result (λ found. IfSome found (λ areas. AfterStep self.now (shows areas))) }
    {
        let may = match self.call.area {
            0 => make_part(
                self.alloc,
                self.call,
                self.before.first.as_slice(),
                self.after.first.as_slice(),
                &mut from.first,
                part,
            )?,
            1 => make_part(
                self.alloc,
                self.call,
                self.before.second.as_slice(),
                self.after.second.as_slice(),
                &mut from.second,
                part,
            )?,
            _ => true,
        };
        Ok(may.then_some(from))
    }

    /// Adds an image after a part of the call.
    fn add(
        &self,
        from: Areas,
        part: Part,
        later: bool,
        found: &mut Vec<Branch>,
    ) -> Result<(), Memory>
        requires step { IsStep self.now }
        requires may { May (shows self.now.before.now) (reverse self.now.rest.now) (shows from) }
        requires found { AllAfter self.now found.old.items }
        ensures { OnOk result (AllAfter self.now found.new.items) }
    {
        let Some(areas) = self.follow(from, part)? else {
            return Ok(());
        };
        found.push(Branch { areas, later })?;
        Ok(())
    }

    /// Adds what is read before the call with each part of the call, all later calls made or none.
    fn add_parts(&self, found: &mut Vec<Branch>) -> Result<(), Memory>
        requires step { IsStep self.now }
        requires found { AllAfter self.now found.old.items }
        ensures { OnOk result (AllAfter self.now found.new.items) }
    {
        let parts: &[Part] = match self.call.effect {
            Effect::Write(_) if self.call.placed == 0 => &PARTS_OF_FAILED_WRITE,
            Effect::Write(_) => &PARTS_OF_WRITE,
            Effect::Shorten => &PARTS_OF_CUT,
            Effect::Sync => &[],
        };
        for part in parts {
            self.add(self.before.again(self.alloc)?, *part, true, found)?;
            self.add(self.before.again(self.alloc)?, *part, false, found)?;
        }
        Ok(())
    }

    /// Adds the images of the calls before, in which this call is made or is not.
    fn add_below(
        &self,
        mut below: Vec<Branch>,
        synced: bool,
        found: &mut Vec<Branch>,
    ) -> Result<(), Memory>
        requires step { IsStep self.now }
        requires below { AllMay (shows self.now.before.now) self.now.rest.now below.items }
        requires found { AllAfter self.now found.old.items }
        ensures { OnOk result (AllAfter self.now found.new.items) }
    {
        while let Some(branch) = below.pop() {
            let part = if synced || branch.later {
                Part::AsRead
            } else {
                Part::Nothing
            };
            self.add(branch.areas, part, branch.later, found)?;
        }
        Ok(())
    }
}

/// Images that a crash may leave after these calls, the last one as the areas read now. The first calls, so many, count as made.
pub(crate) fn branches(
    alloc: Global,
    calls: &[KeptCall],
    skipped: usize,
    synced: Synced,
    now: &Areas,
) -> Result<Vec<Branch>, Memory>
    ensures { IfOk result (λ found. AllMay (shows now.now) calls.now found.items) }
{
    let mut found = Vec::new(alloc);
    if calls.len() > skipped
        && let Some((call, rest)) = calls.split_last()
    {
        let before = areas_before(alloc, call, now)?;
        let mut below = branches(alloc, rest, skipped, synced.before(call), &before)?;
        let _ = below.pop();
        let step = Step {
            alloc,
            rest,
            call,
            before: &before,
            after: now,
        };
        let durable = synced.has(call.area);
        if !durable {
            step.add_parts(&mut found)?;
        }
        step.add_below(below, durable, &mut found)?;
    }
    let areas = now.again(alloc)?;
    found.push(Branch { areas, later: true })?;
    Ok(found)
}
