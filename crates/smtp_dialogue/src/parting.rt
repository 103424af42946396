//! The last words over a link: QUIT.
ghost use Rattle.std.specs.Prelude.{◌≡◌, ℕ, List, [], false};
ghost use Rattle.smtp_dialogue.specs.Transcript.{parting};
ghost use Rattle.smtp_dialogue.specs.Speaks.{side, Speaks};

use crate::ask::ask_code;
use crate::scratch::Scratch;
use kumo_outside::Link;

/// Says QUIT and waits for the reply, which decides nothing.
pub fn farewell<L: Link>(link: &mut L, scratch: &mut Scratch)
    ensures opening { (L.seen link.new).opening ≡ (L.seen link.old).opening }
    ensures spoken { Speaks parting
        (side (L.seen link.old) scratch.old)
        (side (L.seen link.new) scratch.new)
        [] [] false }
{
    let _answer = ask_code(link, "QUIT", "", "\r\n", scratch);
}
