//! Mail lines: the JSON objects, one a line, that name the messages to send. `read_mail` reads them, `mail_line` writes one.
//!
//! `read_mail` is called once for a whole text. What it answers is the definition's reading of the bytes, both ways: the
//! messages exactly where the text gives them, a refusal exactly where it says so. What is written of a proper message is
//! read as that message (`laws.rt`).
#![tactic(auto)]

ghost use Rattle.std.specs.Prelude.{◌≡◌, ◌^◌, ◌<◌, length, IfOk, IfErr};
ghost use Rattle.std.specs.List.{All};
ghost use Rattle.queue_name.specs.Message.{IsProperMessage};
ghost use Rattle.mail_input.specs.Inputs.{messages, mail_of, IsFaultOf};

mod fault;
mod fields;
pub mod laws;
mod line;
mod name;
mod reading;
mod written;

use crate::fault::LineFault;
use crate::reading::Reading;
use kumo_base::Lines;
use queue_name::Message;
use std::alloc::Global;
pub use written::mail_line;

/// The most messages of a mail text.
pub const MESSAGE_LIMIT: usize = 100_000;

/// Why a line is refused. Of several causes the first in this order counts: the messages before it, its JSON, then `id`,
/// `created`, `sender`, `recipient`, `campaign` with `tenant`, `body`, and at last the ids of earlier lines.
#[derive(Clone, Copy, Debug, PartialEq, Eq)]
pub enum MailWhy {
    /// As many messages as a text may have stand before it.
    TooMany,
    /// It is no JSON object in UTF-8.
    NotJson,
    /// A key is not there, or its value is no text where a text is wanted.
    Missing,
    /// The `id` is no UUID.
    BadId,
    /// `created` is no whole number from 0 to the last moment.
    BadMoment,
    /// The sender is neither empty nor an address, or the recipient is no address.
    BadAddress,
    /// The campaign or the tenant is no text, or may not stand in a queue's name, or makes the name too long.
    BadName,
    /// The body has too many bytes.
    TooLong,
    /// An earlier line has the same id.
    Duplicate,
}

/// Why a mail text gives no messages.
#[derive(Clone, Copy, Debug, PartialEq, Eq)]
pub enum MailFault {
    /// The first refused line, counted from 1, and why.
    At { line: u64, why: MailWhy },
    /// There was no memory.
    Memory,
}

/// Reads a mail text: each line that is not empty is an object that gives a message, and no two have one id. Empty
/// lines count in the numbering of lines.
#[tactic(auto, unfolding(crate::specs::Inputs::mail_of))]
pub fn read_mail(alloc: Global, text: &[u8]) -> Result<Vec<Message>, MailFault>
    requires { length text.now < 2 ^ 63 }
    ensures ok { IfOk result (λ ms. mail_of text.now ≡ messages ms.items) }
    ensures err { IfErr result (λ e. IsFaultOf e (mail_of text.now)) }
    ensures proper { IfOk result (λ ms. All IsProperMessage ms.items) }
{
    let mut reading = Reading::new(alloc);
    let mut lines = Lines::of(text);
    while let Some((number, line)) = lines.next_line() {
        match reading.add_line(alloc, line) {
            Ok(()) => {}
            Err(LineFault::Refused(why)) => return Err(MailFault::At { line: number, why }),
            Err(LineFault::Memory) => return Err(MailFault::Memory),
        }
    }
    Ok(reading.messages())
}
