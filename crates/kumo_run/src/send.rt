//! The sending of a mail text, before its log is written: the text is read, and its message is sent over a linker.
//!
//! `run.rt` calls `send_mail_text`, and tests call it with other replies. It keeps nothing; the linker that it used is added
//! to the caller's list, so that its session can be told. It answers the history of a run that went to its end, or the
//! `Refusal` that ended it: what is read is refused before a link is opened, and only `NotYetReply` and `Memory` may come
//! after one.
ghost use Rattle.std.specs.Prelude.{◌≡◌, [], ◌∷◌, IfOk, IfErr, IfSome, All};
ghost use Rattle.queue_name.specs.Message.{IsProperMessage};
ghost use Rattle.mail_input.specs.Inputs.{messages};
ghost use Rattle.kumo_run.specs.MailRead.{mail_read, mail_gives};
ghost use Rattle.kumo_run.specs.Run.{IsRun};
ghost use Rattle.kumo_run.specs.Deeds.{all_sessions, RanMail};
ghost use Rattle.kumo_run.specs.Causes.{RefusesMail};
ghost use Rattle.kumo_run.specs.inside.SendCauses.{StopsShort, IsMisread, refusal_of};

use crate::dispatcher::{DeliveryFault, deliver};
use crate::refusal::Refusal;
use crate::registry::Registry;
use history_core::History;
use kumo_base::Memory;
use kumo_outside::{ReadTextFault, TEXT_LIMIT, Texts, read_text};
use mail_input::{MailFault, read_mail};
use queue_name::Message;
use scripted_peer::{PeerReplies, ScriptedLinker};
use std::alloc::Global;

/// Reads the mail text of that name and sends its message to peers that reply so. The linker that was used is added to
/// `peers`. `perform` sends by this call, to peers that take each message.
pub fn send_mail_text<T: Texts>(
    alloc: Global,
    mail: &str,
    texts: &mut T,
    says: PeerReplies,
    peers: &mut Vec<ScriptedLinker>,
) -> Result<History, Refusal>
    requires { peers.old.items ≡ [] }
    ensures ok { IfOk result (λ h. RanMail ((T.seen texts.old).told mail.now) h (all_sessions peers.new.items)) }
    ensures err { IfErr result (λ why. RefusesMail (T.seen texts.old) (T.seen texts.new) mail.now
        (all_sessions peers.new.items) why) }
{
    match read_messages(alloc, texts, mail) {
        Ok(messages) => send(alloc, messages.as_slice(), says, peers),
        Err(refusal) => Err(refusal),
    }
}

/// Reads the messages of the mail text of that name.
fn read_messages<T: Texts>(
    alloc: Global,
    texts: &mut T,
    name: &str,
) -> Result<Vec<Message>, Refusal>
    ensures ok { IfSome ((T.seen texts.old).told name.now)
        (λ text. IfOk result (λ ms. mail_read text ≡ mail_gives (messages ms.items))) }
    ensures err { IfErr result (λ why. RefusesMail (T.seen texts.old) (T.seen texts.new) name.now [] why) }
    ensures proper { IfOk result (λ ms. All IsProperMessage ms.items) }
{
    match read_text(alloc, texts, name, TEXT_LIMIT) {
        Ok(text) => messages_in(alloc, text.as_slice()),
        Err(ReadTextFault::ReadFault) => Err(Refusal::ReadFault),
        Err(ReadTextFault::Memory) => Err(Refusal::Memory),
    }
}

/// The messages that a mail text gives, where it is not too long.
#[tactic(auto, unfolding(crate::specs::MailRead::mail_read))]
fn messages_in(alloc: Global, text: &[u8]) -> Result<Vec<Message>, Refusal>
    ensures ok { IfOk result (λ ms. mail_read text.now ≡ mail_gives (messages ms.items)) }
    ensures err { IfErr result (λ why. IsMisread why (mail_read text.now)) }
    ensures proper { IfOk result (λ ms. All IsProperMessage ms.items) }
{
    if text.len() > TEXT_LIMIT {
        return Err(Refusal::TextLimit);
    }
    match read_mail(alloc, text) {
        Ok(messages) => Ok(messages),
        Err(fault) => Err(refusal_of(fault)),
    }
}

/// The refusal that a fault of the mail text comes to.
fn refusal_of(fault: MailFault) -> Refusal
    ensures { result ≡ refusal_of fault }
{
    match fault {
        MailFault::At { line, why } => Refusal::Mail { line, why },
        MailFault::Memory => Refusal::Memory,
    }
}

/// Sends the messages to peers that reply so. More than one is not sent yet, nor one that is due after moment 0.
fn send(
    alloc: Global,
    messages: &[Message],
    says: PeerReplies,
    peers: &mut Vec<ScriptedLinker>,
) -> Result<History, Refusal>
    requires proper { All IsProperMessage messages.now }
    requires none { peers.old.items ≡ [] }
    ensures ok { IfOk result (λ h. IsRun messages.now h (all_sessions peers.new.items)) }
    ensures err { IfErr result (λ why. StopsShort why messages.now (all_sessions peers.new.items)) }
{
    match messages {
        [] => send_nothing(alloc),
        [message] => send_one(alloc, message, says, peers),
        _ => Err(Refusal::NotYetMail),
    }
}

/// The run of no message.
fn send_nothing(alloc: Global) -> Result<History, Refusal>
    ensures ok { IfOk result (λ h. IsRun [] h []) }
    ensures err { IfErr result (λ why. why ≡ Refusal.Memory) }
{
    match Registry::with_room(alloc, 1) {
        Ok(mut registry) => {
            registry.stop();
            Ok(registry.into_history())
        }
        Err(Memory) => Err(Refusal::Memory),
    }
}

/// The run of one message, where it is due at moment 0.
fn send_one(
    alloc: Global,
    message: &Message,
    says: PeerReplies,
    peers: &mut Vec<ScriptedLinker>,
) -> Result<History, Refusal>
    requires proper { IsProperMessage message.now }
    requires none { peers.old.items ≡ [] }
    ensures ok { IfOk result (λ h. IsRun (message.now ∷ []) h (all_sessions peers.new.items)) }
    ensures err { IfErr result (λ why. StopsShort why (message.now ∷ []) (all_sessions peers.new.items)) }
{
    if message.created > 0 {
        return Err(Refusal::NotYetMail);
    }
    send_due(alloc, message, says, peers)
}

/// The run of one message that is due at moment 0.
fn send_due(
    alloc: Global,
    message: &Message,
    says: PeerReplies,
    peers: &mut Vec<ScriptedLinker>,
) -> Result<History, Refusal>
    requires proper { IsProperMessage message.now }
    requires due { message.now.created ≡ 0 }
    requires none { peers.old.items ≡ [] }
    ensures ok { IfOk result (λ h. IsRun (message.now ∷ []) h (all_sessions peers.new.items)) }
    ensures err { IfErr result (λ why. StopsShort why (message.now ∷ []) (all_sessions peers.new.items)) }
{
    if peers.reserve(1).is_err() {
        return Err(Refusal::Memory);
    }
    let mut linker = ScriptedLinker::new(alloc, says);
    let delivered = deliver(alloc, message, &mut linker);
    peers.push_reserved(linker);
    match delivered {
        Ok(mut registry) => {
            registry.stop();
            Ok(registry.into_history())
        }
        Err(DeliveryFault::NotDelivered) => Err(Refusal::NotYetReply),
        // A scripted linker fails to open a link for want of memory alone.
        Err(DeliveryFault::NotOpened) => Err(Refusal::Memory),
        Err(DeliveryFault::Memory) => Err(Refusal::Memory),
    }
}
