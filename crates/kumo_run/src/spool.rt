//! The text that `spool` prints: a mail line for each message that is pending in a spool.
//!
//! `run.rt` calls `spool_text` and prints what it gives. The spool is opened, which may make area 0, or write an older area anew;
//! nothing else of it changes. The disk is handed back, whatever comes of it.
ghost use Rattle.std.specs.Prelude.{◌≡◌, ◌≤◌, ◌++◌, [], length, take, IfOk, IfErr};
ghost use Rattle.kumo_run.specs.Outside.{shown};
ghost use Rattle.kumo_run.specs.Spool.{lines_of, IsSpoolText, WasOpened};
ghost use Rattle.kumo_run.specs.inside.SpoolCauses.{RefusesSpool, refusal_of_open};

use crate::refusal::Refusal;
use kumo_base::{Memory, Text};
use kumo_disk::Disk;
use mail_input::mail_line;
use spool_format::Kept;
use spool_store::{OpenFault, Store};
use std::alloc::Global;

/// Opens the spool of a disk, and gives the mail lines of its pending messages and the disk.
pub(crate) fn spool_text<D: Disk + Drop>(alloc: Global, disk: D) -> (Result<Text, Refusal>, D)
    ensures ok { IfOk result.0 (λ text. IsSpoolText (D.seen disk).told text) }
    ensures err { IfErr result.0 (λ why. RefusesSpool (shown (D.seen disk)) (shown (D.seen result.1)) why) }
    ensures disk { WasOpened D.seen disk result.1 }
    ensures later { (D.seen disk).faults ≤ (D.seen result.1).faults }
{
    match Store::open(alloc, disk) {
        Ok((store, kept)) => (lines_of(alloc, kept.as_slice()), store.into_disk()),
        Err((fault, disk)) => (Err(refusal_of_open(fault)), disk),
    }
}

/// A mail line for each message.
fn lines_of(alloc: Global, kept: &[Kept]) -> Result<Text, Refusal>
    ensures ok { IfOk result (λ text. text ≡ lines_of kept.now) }
    ensures err { IfErr result (λ why. why ≡ Refusal.Memory) }
{
    let mut text = Text::new(alloc);
    for one in kept {
        match mail_line(alloc, &one.message, &mut text) {
            Ok(()) => {}
            Err(Memory) => return Err(Refusal::Memory),
        }
    }
    Ok(text)
}

/// The refusal that a fault of opening comes to.
fn refusal_of_open(fault: OpenFault) -> Refusal
    ensures { result ≡ refusal_of_open fault }
{
    match fault {
        OpenFault::DiskFault => Refusal::SpoolFault,
        OpenFault::Damaged(area, at) => Refusal::SpoolDamaged { area, at },
        OpenFault::TooLarge(_) => Refusal::SpoolLimit,
        OpenFault::Memory => Refusal::Memory,
    }
}
