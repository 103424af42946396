//! Sends a command or a body, and reads the reply to it.
ghost use Rattle.std.specs.Prelude.{◌≡◌, ◌++◌, ℕ, List, IfOk};
ghost use Rattle.smtp_reply.specs.Replies.{code_of};
ghost use Rattle.smtp_dialogue.specs.Body.{wire};
ghost use Rattle.smtp_dialogue.specs.inside.Holding.{Holds};
ghost use Rattle.smtp_dialogue.specs.Speaks.{side};
ghost use Rattle.smtp_dialogue.specs.inside.Asking.{Asks};

use crate::body::send_body;
use crate::listen::{take_code, take_reply};
use crate::scratch::Scratch;
use crate::send::send_three;
use kumo_outside::Link;
use smtp_reply::{Lost, ReplyReader};

/// Sends a command, and reads the reply to it, which the reader then holds.
pub(crate) fn ask<L: Link>(
    link: &mut L,
    verb: &str,
    argument: &str,
    end: &str,
    scratch: &mut Scratch,
    reader: &mut ReplyReader,
) -> Result<(), Lost>
    ensures opening { (L.seen link.new).opening ≡ (L.seen link.old).opening }
    ensures asks { (reply : List ℕ) × Asks (verb.now ++ argument.now ++ end.now)
        (side (L.seen link.old) scratch.old)
        (side (L.seen link.new) scratch.new) reply result
        × IfOk result (λ _. Holds reader.new reply) }
{
    match send_three(link, verb.as_bytes(), argument.as_bytes(), end.as_bytes()) {
        Ok(()) => take_reply(link, scratch, reader),
        Err(_) => Err(Lost::LinkFault),
    }
}

/// Sends a command, and reads the code of the reply to it.
pub(crate) fn ask_code<L: Link>(
    link: &mut L,
    verb: &str,
    argument: &str,
    end: &str,
    scratch: &mut Scratch,
) -> Result<u16, Lost>
    ensures opening { (L.seen link.new).opening ≡ (L.seen link.old).opening }
    ensures asks { (reply : List ℕ) × Asks (verb.now ++ argument.now ++ end.now)
        (side (L.seen link.old) scratch.old)
        (side (L.seen link.new) scratch.new) reply result
        × IfOk result (λ code. code ≡ code_of reply) }
{
    match send_three(link, verb.as_bytes(), argument.as_bytes(), end.as_bytes()) {
        Ok(()) => take_code(link, scratch),
        Err(_) => Err(Lost::LinkFault),
    }
}

/// Sends a body, and reads the reply to it, which the reader then holds.
pub(crate) fn ask_body<L: Link>(
    link: &mut L,
    body: &str,
    scratch: &mut Scratch,
    reader: &mut ReplyReader,
) -> Result<(), Lost>
    ensures opening { (L.seen link.new).opening ≡ (L.seen link.old).opening }
    ensures asks { (reply : List ℕ) × Asks (wire body.now)
        (side (L.seen link.old) scratch.old)
        (side (L.seen link.new) scratch.new) reply result
        × IfOk result (λ _. Holds reader.new reply) }
{
    match send_body(link, body) {
        Ok(()) => take_reply(link, scratch, reader),
        Err(_) => Err(Lost::LinkFault),
    }
}
