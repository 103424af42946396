//! A spool over a disk of which a call fails: whatever a crash may then leave has the messages pending from before the call that
//! was in hand, or those from after it.
use crate::spool::{is_deferred, is_held, is_settled, message};
use kumo_disk::{DiskCall, MemDisk};
use spool_format::Kept;
use spool_store::Store;
use std::alloc::Global;
use std::test::Fail;

/// A call of a store.
#[derive(Clone, Copy)]
enum Step {
    Hold(u128),
    Defer(u128),
    Settle(u128),
    Compact,
}

/// The calls, and what is pending after each: of each message its id, its failures and its due moment.
fn steps() -> [(Step, &'static str); 9] {
    [
        (Step::Hold(1), "1:0:0 "),
        (Step::Hold(2), "1:0:0 2:0:0 "),
        (Step::Defer(1), "1:1:1200000 2:0:0 "),
        (Step::Compact, "1:1:1200000 2:0:0 "),
        (Step::Hold(3), "1:1:1200000 2:0:0 3:0:0 "),
        (Step::Settle(2), "1:1:1200000 3:0:0 "),
        (Step::Defer(3), "1:1:1200000 3:1:1200000 "),
        (Step::Settle(1), "3:1:1200000 "),
        (Step::Compact, "3:1:1200000 "),
    ]
}

/// Whether the call was done.
fn is_done(alloc: Global, store: &mut Store<MemDisk>, step: Step) -> Result<bool, Fail> {
    match step {
        Step::Hold(id) => {
            let message = message(alloc, id, "hi")?;
            Ok(is_held(store, &message))
        }
        Step::Defer(id) => Ok(is_deferred(store, id)),
        Step::Settle(id) => Ok(is_settled(store, id)),
        Step::Compact => Ok(store.compact().is_ok()),
    }
}

/// What is pending in the spool of a disk.
fn pending_in(alloc: Global, disk: MemDisk) -> Result<String, Fail> {
    match Store::open(alloc, disk) {
        Ok((_, kept)) => text_of(alloc, &kept),
        Err((fault, _)) => Ok(format!(in alloc; "{fault:?}")?),
    }
}

/// Of each message its id, its failures and its due moment.
fn text_of(alloc: Global, kept: &[Kept]) -> Result<String, Fail> {
    let mut text = String::new(alloc);
    for one in kept {
        write!(text, "{}:{}:{} ", one.message.id, one.failures, one.due)?;
    }
    Ok(text)
}

/// Whether whatever a crash may leave of a disk has one of two lists pending, and the disk too, once no call of it fails any more.
fn leaves(alloc: Global, mut disk: MemDisk, before: &str, after: &str) -> Result<bool, Fail> {
    let images = disk.images()?;
    disk.mend();
    let found = pending_in(alloc, disk)?;
    let mut each = found.as_str() == before || found.as_str() == after;
    for image in images {
        let found = pending_in(alloc, image)?;
        each = each && (found.as_str() == before || found.as_str() == after);
    }
    Ok(each)
}

/// How the steps went over a disk.
#[derive(Clone, Copy)]
struct Outcome {
    /// No call failed.
    is_whole: bool,
    /// Each image has what is allowed pending.
    is_sound: bool,
}

/// Makes the calls until one fails, and looks at what a crash may leave then.
fn outcome_over(alloc: Global, disk: MemDisk) -> Result<Outcome, Fail> {
    let (mut store, _) = match Store::open(alloc, disk) {
        Ok(opened) => opened,
        Err((_, disk)) => {
            return Ok(Outcome {
                is_whole: false,
                is_sound: leaves(alloc, disk, "", "")?,
            });
        }
    };
    let mut before = "";
    for (step, after) in steps() {
        if !is_done(alloc, &mut store, step)? {
            return Ok(Outcome {
                is_whole: false,
                is_sound: leaves(alloc, store.into_disk(), before, after)?,
            });
        }
        before = after;
    }
    Ok(Outcome {
        is_whole: true,
        is_sound: leaves(alloc, store.into_disk(), before, before)?,
    })
}

#[test]
fn stops_at_every_call(rt: HostRuntime) -> Result<(), Fail> {
    let alloc = rt.alloc();
    let mut stops: u64 = 0;
    for k in 1..200_u64 {
        let mut disk = MemDisk::new(alloc);
        disk.fuse(k);
        let outcome = outcome_over(alloc, disk)?;
        assert!(rt; outcome.is_sound);
        if outcome.is_whole {
            break;
        }
        stops = k;
    }
    assert!(rt; stops > 60);
    assert!(rt; stops < 199);
    Ok(())
}

/// Makes each call of a kind fail, it alone, and answers how many there are; none where an image has something else pending.
fn failures_of(alloc: Global, kind: DiskCall) -> Result<Option<u64>, Fail> {
    let mut failed: u64 = 0;
    for k in 1..100_u64 {
        let mut disk = MemDisk::new(alloc);
        disk.fail_at(kind, k)?;
        let outcome = outcome_over(alloc, disk)?;
        if !outcome.is_sound {
            return Ok(None);
        }
        if outcome.is_whole {
            break;
        }
        failed = k;
    }
    Ok(Some(failed))
}

/// Opening makes two syncs, making area 0 three, three holdings, two deferrals and two settlings two each, the first compaction
/// three, and the second, which empties area 0 first, five.
#[test]
fn fails_at_every_call_alone(rt: HostRuntime) -> Result<(), Fail> {
    let alloc = rt.alloc();
    assert_eq!(rt; failures_of(alloc, DiskCall::Sync)?, Some(27));
    for kind in [
        DiskCall::Length,
        DiskCall::Read,
        DiskCall::WriteAt,
        DiskCall::Cut,
    ] {
        match failures_of(alloc, kind)? {
            Some(failed) => assert!(rt; failed > 0 && failed < 99),
            None => assert!(rt; false),
        }
    }
    Ok(())
}

/// What a crash may leave of two holdings where this call alone fails: the first message, or both.
fn left_where(alloc: Global, kind: DiskCall, k: u64) -> Result<&'static str, Fail> {
    let mut disk = MemDisk::new(alloc);
    disk.fail_at(kind, k)?;
    let Ok((mut store, _)) = Store::open(alloc, disk) else {
        return Ok("not opened");
    };
    if !is_done(alloc, &mut store, Step::Hold(1))? {
        return Ok("not held");
    }
    let _ = is_done(alloc, &mut store, Step::Hold(2))?;
    let disk = store.into_disk();
    let mut first = false;
    let mut both = false;
    for image in disk.images()? {
        match pending_in(alloc, image)?.as_str() {
            "1:0:0 " => first = true,
            "1:0:0 2:0:0 " => both = true,
            _ => return Ok("something else"),
        }
    }
    Ok(match (first, both) {
        (true, true) => "the first or both",
        (true, false) => "the first",
        (false, true) => "both",
        (false, false) => "nothing",
    })
}

/// Opening makes two syncs and making area 0 three, with four writes; a holding writes the kind with the length, the payload, the
/// closed gate, and behind a sync the open gate, and syncs again. So the calls of the second holding are writes 9 to 11, sync 8,
/// write 12 and sync 9.
#[test]
fn a_crash_in_the_second_holding(rt: HostRuntime) -> Result<(), Fail> {
    let alloc = rt.alloc();
    for (kind, k, left) in [
        (DiskCall::WriteAt, 9, "the first"),
        (DiskCall::WriteAt, 11, "the first"),
        (DiskCall::Sync, 8, "the first"),
        (DiskCall::WriteAt, 12, "the first or both"),
        (DiskCall::Sync, 9, "the first or both"),
        (DiskCall::WriteAt, 13, "both"),
        (DiskCall::Sync, 10, "both"),
    ] {
        assert_eq!(rt; left_where(alloc, kind, k)?, left);
    }
    Ok(())
}
