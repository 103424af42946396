//! A scripted link, and one session over it.
ghost use Rattle.std.specs.Prelude.{◌≡◌, [], None};

use kumo_base::{Failed, Room};
use kumo_outside::Link;
use smtp_dialogue::{Greeted, Scratch, attempt, farewell, greet};
use smtp_reply::{Lost, Outcome};
use std::alloc::Global;
use std::test::Fail;

/// A link that takes and gives bytes in pieces, and ends at the end of its script.
#[derive(Drop)]
struct Script<'a> {
    left: &'a [u8],
    piece: usize,
    sent: Vec<u8>,
    ended: bool,
    faults: u64,
}

impl<'a> Link for Script<'a> {
    ghost seen = { λ s. record {
      opening = record { place = 0; host = []; source = []; uses = [] };
      sent = None;
      got = None;
      ended = s.ended;
      faults = s.faults;
    } };

    #[tactic(auto, unfolding(kumo_outside::specs::Content::told_with))]
    fn send(&mut self, piece: &[u8]) -> Result<usize, Failed> {
        self.ended = false;
        let count = piece.len().min(self.piece.max(1));
        let (front, _) = piece.split_at(count);
        if count == 0 || self.sent.extend_from_slice(front).is_err() {
            self.faults = self.faults.saturating_add(1);
            return Err(Failed);
        }
        Ok(count)
    }

    #[tactic(auto, unfolding(kumo_outside::specs::Content::told_with))]
    fn recv(&mut self, buffer: &mut [u8]) -> Result<usize, Failed> {
        if self.left.is_empty() {
            self.ended = true;
            return Ok(0);
        }
        self.ended = false;
        let count = self.left.len().min(buffer.len()).min(self.piece.max(1));
        let (front, left) = self.left.split_at(count);
        buffer[..count].copy_from_slice(front);
        self.left = left;
        Ok(count)
    }
}

/// A link with these replies, which gives and takes so many bytes at a time, and ends.
fn linked<'a>(alloc: Global, replies: &'a [u8], piece: usize) -> Script<'a> {
    Script {
        left: replies,
        piece,
        sent: Vec::new(alloc),
        ended: false,
        faults: 0,
    }
}

/// What came of one session: the outcome, the text of the reply that decided it and whether the link was alive behind the
/// attempt, on one line; and what was sent.
#[derive(Drop)]
pub(crate) struct Course {
    pub(crate) came: String,
    pub(crate) sent: String,
}

/// Goes through one session of one message.
pub(crate) fn go_through(
    alloc: Global,
    replies: &str,
    body: &str,
    piece: usize,
) -> Result<Course, Fail> {
    let mut scratch = Scratch::new(alloc)?;
    let mut link = linked(alloc, replies.as_bytes(), piece);
    let came = spoken(alloc, &mut link, body, &mut scratch)?;
    let sent = String::from_str(alloc, std::str::from_utf8(link.sent.as_slice())?)?;
    Ok(Course { came, sent })
}

/// Greets, attempts and says farewell.
fn spoken(
    alloc: Global,
    link: &mut Script<'_>,
    body: &str,
    scratch: &mut Scratch,
) -> Result<String, Fail> {
    let room = Room::new(alloc)?;
    if greet(link, "me", scratch) == Greeted::Refused {
        return Ok(String::from_str(alloc, "refused")?);
    }
    let tried = attempt(link, "s@a", "r@b", body, scratch, room);
    if !tried.alive {
        return came(alloc, &tried.outcome, "dead");
    }
    farewell(link, scratch);
    came(alloc, &tried.outcome, "alive")
}

/// What came of an attempt, on one line.
fn came(alloc: Global, outcome: &Outcome, link: &str) -> Result<String, Fail> {
    let (name, text) = named(outcome);
    Ok(format!(in alloc; "{name} {text}, {link}")?)
}

/// The name of an outcome, and the text of the reply that decided it.
fn named(outcome: &Outcome) -> (&str, &str) {
    match outcome {
        Outcome::Delivered(reply) => ("delivered", reply.text.as_str()),
        Outcome::Transient(reply) => ("transient", reply.text.as_str()),
        Outcome::Permanent(reply) => ("permanent", reply.text.as_str()),
        Outcome::Lost(Lost::LinkFault) => ("lost", "fault"),
        Outcome::Lost(Lost::Ended) => ("lost", "ended"),
        Outcome::Lost(Lost::BadReply) => ("lost", "bad"),
        Outcome::Lost(Lost::TooLong) => ("lost", "too long"),
    }
}

/// What goes over a link: a text in which `|` stands for a line's end, and behind it another.
pub(crate) fn wire(alloc: Global, front: &str, back: &str) -> Result<String, Fail> {
    let mut out = String::new(alloc);
    push_wire(&mut out, front)?;
    push_wire(&mut out, back)?;
    Ok(out)
}

fn push_wire(out: &mut String, text: &str) -> Result<(), Fail> {
    for sign in text.chars() {
        if sign == '|' {
            out.push_str("\r\n")?;
        } else {
            out.push(sign)?;
        }
    }
    Ok(())
}
