//! The first words over a link: the receiver's greeting and EHLO.
ghost use Rattle.std.specs.Prelude.{◌≡◌, ℕ, List, []};
ghost use Rattle.smtp_dialogue.specs.Ready.{is_ready};
ghost use Rattle.smtp_dialogue.specs.Transcript.{ends, greeting, after_greeting, after_ehlo};
ghost use Rattle.smtp_dialogue.specs.Speaks.{side, Speaks};
ghost use Rattle.smtp_dialogue.specs.inside.Tries.{standing_of};

use crate::ask::ask_code;
use crate::delivery::is_positive;
use crate::listen::take_code;
use crate::scratch::Scratch;
use kumo_outside::Link;

/// What came of the greeting.
#[derive(Clone, Copy, Debug, PartialEq, Eq)]
pub enum Greeted {
    /// The link serves attempts.
    Ready,
    /// The receiver did not greet, or the link failed or ended: nothing more can be said over it.
    Refused,
}

/// Reads the greeting, and says EHLO with this name. It empties the scratch first, since the link is new.
pub fn greet<L: Link>(link: &mut L, ehlo: &str, scratch: &mut Scratch) -> Greeted
    ensures opening { (L.seen link.new).opening ≡ (L.seen link.old).opening }
    ensures spoken { Speaks (greeting ehlo.now)
        (side (L.seen link.old) [])
        (side (L.seen link.new) scratch.new)
        [] [] (is_ready result) }
{
    scratch.clear();
    match take_code(link, scratch) {
        Ok(code) => say_hello(link, ehlo, scratch, code),
        Err(_) => Greeted::Refused,
    }
}

/// The greeting is read: EHLO.
fn say_hello<L: Link>(link: &mut L, ehlo: &str, scratch: &mut Scratch, code: u16) -> Greeted
    ensures opening { (L.seen link.new).opening ≡ (L.seen link.old).opening }
    ensures spoken { (text : List ℕ) → Speaks (after_greeting ehlo.now code text)
        (side (L.seen link.old) scratch.old)
        (side (L.seen link.new) scratch.new)
        [] [] (is_ready result) }
{
    if !is_positive(code) {
        return Greeted::Refused;
    }
    match ask_code(link, "EHLO ", ehlo, "\r\n", scratch) {
        Ok(code) => ready_at(code),
        Err(_) => Greeted::Refused,
    }
}

/// The reply to EHLO is read.
fn ready_at(code: u16) -> Greeted
    ensures { (text bytes : List ℕ) → after_ehlo code text bytes ≡ ends [] (standing_of (is_ready result)) bytes }
{
    if is_positive(code) {
        Greeted::Ready
    } else {
        Greeted::Refused
    }
}
