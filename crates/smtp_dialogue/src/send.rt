//! Sends whole pieces over a link.
ghost use Rattle.std.specs.Prelude.{◌≡◌, ◌++◌, ℕ, List, length, MatchResult};
ghost use Rattle.smtp_dialogue.specs.inside.Asking.{Sends, FailsToSend};

use kumo_base::Failed;
use kumo_outside::Link;

/// Sends all bytes. After `Failed` a prefix of them was sent, and not all.
pub(crate) fn send_all<L: Link>(link: &mut L, bytes: &[u8]) -> Result<(), Failed>
    ensures opening { (L.seen link.new).opening ≡ (L.seen link.old).opening }
    ensures sends { MatchResult result
        (λ _. Sends bytes.now (L.seen link.old) (L.seen link.new))
        (λ _. FailsToSend bytes.now (L.seen link.old) (L.seen link.new)) }
{
    let mut at = 0;
    while at < bytes.len() {
        let (_, rest) = bytes.split_at(at);
        at += link.send(rest)?;
    }
    Ok(())
}

/// Sends three pieces, as the verb of a command, its argument and the end of its line.
pub(crate) fn send_three<L: Link>(
    link: &mut L,
    first: &[u8],
    second: &[u8],
    third: &[u8],
) -> Result<(), Failed>
    ensures opening { (L.seen link.new).opening ≡ (L.seen link.old).opening }
    ensures sends { MatchResult result
        (λ _. Sends (first.now ++ second.now ++ third.now) (L.seen link.old) (L.seen link.new))
        (λ _. FailsToSend (first.now ++ second.now ++ third.now) (L.seen link.old) (L.seen link.new)) }
{
    send_all(link, first)?;
    send_all(link, second)?;
    send_all(link, third)
}
