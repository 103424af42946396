//! Reads one reply from a link, in whatever pieces it comes.
ghost use Rattle.std.specs.Prelude.{◌≡◌, ◌<◌, ◌≤◌, ◌+◌, ℕ, List, [], length, MatchResult, IfOk};
ghost use Rattle.smtp_reply.specs.Replies.{code_of};
ghost use Rattle.smtp_dialogue.specs.inside.Holding.{Holds};
ghost use Rattle.smtp_dialogue.specs.Speaks.{side};
ghost use Rattle.smtp_dialogue.specs.inside.Asking.{Gets, IsCutOff, Hears};

use crate::scratch::{Scratch, Unread};
use kumo_outside::Link;
use smtp_reply::{Heard, Lost, REPLY_LIMIT, ReplyReader};

/// Receives the next bytes, at most so many. `Lost` is `LinkFault` or `Ended`, and then none came.
fn receive<L: Link>(link: &mut L, unread: &mut Unread, most: usize) -> Result<(), Lost>
    requires some { 0 < most }
    requires room { length unread.old + most ≤ 4096 }
    ensures opening { (L.seen link.new).opening ≡ (L.seen link.old).opening }
    ensures gets { Gets
        (side (L.seen link.old) unread.old)
        (side (L.seen link.new) unread.new) }
    ensures came { MatchResult result
        (λ _. length unread.old < length unread.new)
        (λ why. (unread.new ≡ unread.old) × IsCutOff why
        (side (L.seen link.old) unread.old)
        (side (L.seen link.new) unread.new)) }
{
    let mut buffer = [0; REPLY_LIMIT];
    let (free, _) = buffer.split_at_mut(most);
    match link.recv(free) {
        Ok(0) => Err(Lost::Ended),
        Ok(count) => {
            let (piece, _) = free.split_at(count);
            unread.append(piece);
            Ok(())
        }
        Err(_) => Err(Lost::LinkFault),
    }
}

/// Reads one reply, which the reader then holds. The bytes behind it stay unread.
fn read_reply<L: Link>(
    link: &mut L,
    unread: &mut Unread,
    reader: &mut ReplyReader,
) -> Result<(), Lost>
    ensures opening { (L.seen link.new).opening ≡ (L.seen link.old).opening }
    ensures hears { (reply : List ℕ) × Hears
        (side (L.seen link.old) unread.old)
        (side (L.seen link.new) unread.new) reply result
        × IfOk result (λ _. Holds reader.new reply) }
{
    reader.restart();
    // how many bytes the reply may still have
    let mut left = REPLY_LIMIT;
    loop {
        let fed = reader.feed(unread.as_slice());
        unread.drop_front(fed.used);
        match fed.what {
            Heard::Whole => return Ok(()),
            Heard::Bad(_) => return Err(Lost::BadReply),
            Heard::TooLong => return Err(Lost::TooLong),
            Heard::More => {
                left -= fed.used;
                receive(link, unread, left)?;
            }
        }
    }
}

/// Reads one reply into a reader.
pub(crate) fn take_reply<L: Link>(
    link: &mut L,
    scratch: &mut Scratch,
    reader: &mut ReplyReader,
) -> Result<(), Lost>
    ensures opening { (L.seen link.new).opening ≡ (L.seen link.old).opening }
    ensures hears { (reply : List ℕ) × Hears
        (side (L.seen link.old) scratch.old)
        (side (L.seen link.new) scratch.new) reply result
        × IfOk result (λ _. Holds reader.new reply) }
{
    read_reply(link, &mut scratch.unread, reader)
}

/// Reads one reply of which the code alone is wanted.
pub(crate) fn take_code<L: Link>(link: &mut L, scratch: &mut Scratch) -> Result<u16, Lost>
    ensures opening { (L.seen link.new).opening ≡ (L.seen link.old).opening }
    ensures hears { (reply : List ℕ) × Hears
        (side (L.seen link.old) scratch.old)
        (side (L.seen link.new) scratch.new) reply result
        × IfOk result (λ code. code ≡ code_of reply) }
{
    read_reply(link, &mut scratch.unread, &mut scratch.reader)?;
    Ok(scratch.reader.code())
}
