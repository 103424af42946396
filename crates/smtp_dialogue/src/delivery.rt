//! One attempt to deliver a message over a link that greeted: MAIL, RCPT, DATA and the body, and RSET after a refusal.
//!
//! Each function is one stage: it stands where a reply was read, and goes on with its code. The reply that decides is
//! taken from the reader.
ghost use Rattle.std.specs.Prelude.{◌≡◌, ◌/◌, ◌==◌, ℕ, List, [], ◌∷◌, true, false, Bool};
ghost use Rattle.kumo_base.specs.Causes.{Rose};
ghost use Rattle.smtp_reply.specs.Replies.{code_of, one_line_text};
ghost use Rattle.smtp_reply.specs.ReplyText.{IsReplyText, IsProperOutcome};
ghost use Rattle.smtp_reply.specs.declared.reply.Lost.TheVariants.{LinkFault, Ended};
ghost use Rattle.smtp_dialogue.specs.inside.Holding.{Holds, HoldsReply};
ghost use Rattle.smtp_dialogue.specs.Transcript.{ends, is_positive, resets, refused, after_body, after_data, after_recipient, after_sender, attempted};
ghost use Rattle.smtp_dialogue.specs.Speaks.{side, Speaks};
ghost use Rattle.smtp_dialogue.specs.inside.Tries.{Tries, IsDecided, standing_of};

use crate::ask::{ask, ask_body, ask_code};
use crate::scratch::Scratch;
use kumo_base::Room;
use kumo_outside::Link;
use smtp_reply::{Lost, Outcome, Reply, ReplyReader};

/// What came of one attempt.
#[derive(Drop)]
pub struct Tried {
    /// What became of the message.
    pub outcome: Outcome,
    /// Whether the link serves further.
    pub alive: bool,
}

impl Tried {
    /// No reply decided the attempt, and the link serves no further.
    fn lost(why: Lost) -> Tried
        ensures { result ≡ record { outcome = Outcome.Lost why; alive = false } }
    {
        Tried {
            outcome: Outcome::Lost(why),
            alive: false,
        }
    }
}

/// Whether a reply of this code grants what was asked.
pub(crate) fn is_positive(code: u16) -> bool
    ensures { result ≡ is_positive code }
{
    code / 100 == 2
}

/// Tries one message. The room is to be empty; the text of the reply that decides is written into it.
///
/// What is sent and what comes of it are the transcript of the bytes got, in whatever pieces they come. `LinkFault`
/// comes only where the link counted a fault, and `Ended` only where the link ended. A delivery leaves the link alive,
/// so no attempt that a fault cut short is told as delivered.
pub fn attempt<L: Link>(
    link: &mut L,
    sender: &str,
    recipient: &str,
    body: &str,
    scratch: &mut Scratch,
    room: Room,
) -> Tried
    requires { room ≡ [] }
    ensures opening { (L.seen link.new).opening ≡ (L.seen link.old).opening }
    ensures spoken { Speaks (attempted sender.now recipient.now body.now)
        (side (L.seen link.old) scratch.old)
        (side (L.seen link.new) scratch.new)
        (Outcome.Lost LinkFault ∷ []) (result.outcome ∷ []) result.alive }
    ensures fault { result.outcome ≡ Outcome.Lost LinkFault → Rose (L.seen link.old).faults (L.seen link.new).faults }
    ensures ended { result.outcome ≡ Outcome.Lost Ended → (L.seen link.new).ended ≡ true }
    ensures delivered { (reply : Reply) → result.outcome ≡ Outcome.Delivered reply → result.alive ≡ true }
    ensures proper { IsProperOutcome result.outcome }
{
    let mut reader = ReplyReader::new(room);
    match ask(link, "MAIL FROM:<", sender, ">\r\n", scratch, &mut reader) {
        Ok(()) => after_sender(link, recipient, body, scratch, reader),
        Err(why) => Tried::lost(why),
    }
}

/// The reply to MAIL is read: RCPT.
fn after_sender<L: Link>(
    link: &mut L,
    recipient: &str,
    body: &str,
    scratch: &mut Scratch,
    mut reader: ReplyReader,
) -> Tried
    requires { HoldsReply reader }
    ensures opening { (L.seen link.new).opening ≡ (L.seen link.old).opening }
    ensures tries { (reply : List ℕ) → Holds reader reply
        → Tries (after_sender recipient.now body.now (code_of reply) (one_line_text reply))
        (side (L.seen link.old) scratch.old)
        (side (L.seen link.new) scratch.new) result }
{
    if !is_positive(reader.code()) {
        return refused(link, scratch, reader.take());
    }
    match ask(link, "RCPT TO:<", recipient, ">\r\n", scratch, &mut reader) {
        Ok(()) => after_recipient(link, body, scratch, reader),
        Err(why) => Tried::lost(why),
    }
}

/// The reply to RCPT is read: DATA.
fn after_recipient<L: Link>(
    link: &mut L,
    body: &str,
    scratch: &mut Scratch,
    mut reader: ReplyReader,
) -> Tried
    requires { HoldsReply reader }
    ensures opening { (L.seen link.new).opening ≡ (L.seen link.old).opening }
    ensures tries { (reply : List ℕ) → Holds reader reply → Tries (after_recipient body.now
        (code_of reply) (one_line_text reply)) (side (L.seen link.old) scratch.old)
        (side (L.seen link.new) scratch.new) result }
{
    if !is_positive(reader.code()) {
        return refused(link, scratch, reader.take());
    }
    match ask(link, "DATA", "", "\r\n", scratch, &mut reader) {
        Ok(()) => after_data(link, body, scratch, reader),
        Err(why) => Tried::lost(why),
    }
}

/// The reply to DATA is read: the body.
fn after_data<L: Link>(
    link: &mut L,
    body: &str,
    scratch: &mut Scratch,
    mut reader: ReplyReader,
) -> Tried
    requires { HoldsReply reader }
    ensures opening { (L.seen link.new).opening ≡ (L.seen link.old).opening }
    ensures tries { (reply : List ℕ) → Holds reader reply → Tries (after_data body.now
        (code_of reply) (one_line_text reply)) (side (L.seen link.old) scratch.old)
        (side (L.seen link.new) scratch.new) result }
{
    if reader.code() != 354 {
        return refused(link, scratch, reader.take());
    }
    match ask_body(link, body, scratch, &mut reader) {
        Ok(()) => after_body(reader.take()),
        Err(why) => Tried::lost(why),
    }
}

/// The reply to the body is read, and decides.
fn after_body(reply: Reply) -> Tried
    requires { IsReplyText reply.code reply.text }
    ensures ends { (bytes : List ℕ)
        → after_body reply.code reply.text bytes ≡ ends (result.outcome ∷ []) (standing_of result.alive) bytes }
    ensures decided { IsDecided result.outcome }
    ensures delivered { (reply : Reply) → result.outcome ≡ Outcome.Delivered reply → result.alive ≡ true }
{
    let alive = reply.code != 421;
    match reply.code / 100 {
        2 => Tried {
            outcome: Outcome::Delivered(reply),
            alive: true,
        },
        4 => Tried {
            outcome: Outcome::Transient(reply),
            alive,
        },
        5 => Tried {
            outcome: Outcome::Permanent(reply),
            alive: true,
        },
        _ => Tried::lost(Lost::BadReply),
    }
}

/// A command before the body was not granted.
fn refused<L: Link>(link: &mut L, scratch: &mut Scratch, reply: Reply) -> Tried
    requires { IsReplyText reply.code reply.text }
    ensures opening { (L.seen link.new).opening ≡ (L.seen link.old).opening }
    ensures tries { Tries (refused reply.code reply.text)
        (side (L.seen link.old) scratch.old)
        (side (L.seen link.new) scratch.new) result }
{
    let code = reply.code;
    match code / 100 {
        4 => reset(link, scratch, code, Outcome::Transient(reply)),
        5 => reset(link, scratch, code, Outcome::Permanent(reply)),
        _ => Tried::lost(Lost::BadReply),
    }
}

/// The attempt is decided: RSET, so that another may follow. What comes of it changes no outcome.
fn reset<L: Link>(link: &mut L, scratch: &mut Scratch, code: u16, decided: Outcome) -> Tried
    requires decided { IsDecided decided }
    requires no_delivery { (reply : Reply) → decided ≡ Outcome.Delivered reply → ⊥ }
    ensures opening { (L.seen link.new).opening ≡ (L.seen link.old).opening }
    ensures kept { result.outcome ≡ decided }
    ensures tries { Tries (resets decided code)
        (side (L.seen link.old) scratch.old)
        (side (L.seen link.new) scratch.new) result }
{
    if code == 421 {
        return Tried {
            outcome: decided,
            alive: false,
        };
    }
    match ask_code(link, "RSET", "", "\r\n", scratch) {
        Ok(code) => Tried {
            outcome: decided,
            alive: is_positive(code),
        },
        Err(_) => Tried {
            outcome: decided,
            alive: false,
        },
    }
}
