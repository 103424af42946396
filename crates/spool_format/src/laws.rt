//! Laws of payloads. Each function does nothing: its contract is the law, and the check proves it.
ghost use Rattle.std.specs.Prelude.{◌≡◌, ◌<◌, ◌^◌, ℕ, List, Some, IfSome, length, IsTrue};
ghost use Rattle.std.specs.Str.{is_utf8};
ghost use Rattle.queue_name.specs.Message.{IsProperMessage};
ghost use Rattle.queue_name.specs.declared.message.Message.{Message};
ghost use Rattle.spool_format.specs.Held.{held_payload, held_in, IsInUtf8};
ghost use Rattle.spool_format.specs.Settled.{settled_payload, settled_in};
ghost use Rattle.spool_format.specs.Deferred.{IsProperDeferral, deferred_payload, deferred_in};
ghost use Rattle.spool_format.specs.declared.deferred.Deferral.{Deferral};

use kumo_base::Text;
use queue_name::Message;

/// The payload of a proper message is read, and gives that message.
pub fn written_message_is_read(message: &Message)
    ensures { IsProperMessage message.now → held_in (held_payload message.now) ≡ Some message.now }
{
    is_in_utf8(message);
}

/// The same of any value of a message whose texts are UTF-8, as those of each message that is in memory.
pub fn payload_of_message_is_read()
    ensures { (m : Message) → IsProperMessage m → IsInUtf8 m → held_in (held_payload m) ≡ Some m }
{}

/// A payload that holds a message is the payload of that message.
pub fn read_message_was_written(payload: &[u8])
    ensures { (m : Message) → held_in payload.now ≡ Some m → held_payload m ≡ payload.now }
{}

/// What is read keeps the rules of messages, its texts are UTF-8, and its payload is as long as what was read.
pub fn read_message_is_proper()
    ensures rules { (p : List ℕ) (m : Message) → held_in p ≡ Some m → IsProperMessage m }
    ensures texts { (p : List ℕ) (m : Message) → held_in p ≡ Some m → IsInUtf8 m }
    ensures long { (p : List ℕ) (m : Message) → held_in p ≡ Some m → length p ≡ length (held_payload m) }
{}

/// The payload of an id is read, and gives that id.
pub fn written_id_is_read()
    ensures { (id : ℕ) → id < 2 ^ 128 → settled_in (settled_payload id) ≡ Some id }
{}

/// A payload that settles an id is the payload of that id.
pub fn read_id_was_written(payload: &[u8])
    ensures { (id : ℕ) → settled_in payload.now ≡ Some id → settled_payload id ≡ payload.now }
{}

/// What is read is an id, and its payload is as long as what was read.
pub fn read_id_is_below_its_limit()
    ensures below { (p : List ℕ) (id : ℕ) → settled_in p ≡ Some id → id < 2 ^ 128 }
    ensures long { (p : List ℕ) (id : ℕ) → settled_in p ≡ Some id → length p ≡ length (settled_payload id) }
{}

/// The payload of a proper deferral is read, and gives that deferral.
pub fn written_deferral_is_read()
    ensures { (d : Deferral) → IsProperDeferral d → deferred_in (deferred_payload d) ≡ Some d }
{}

/// A payload that says a deferral is the payload of that deferral.
pub fn read_deferral_was_written(payload: &[u8])
    ensures { (d : Deferral) → deferred_in payload.now ≡ Some d → deferred_payload d ≡ payload.now }
{}

/// What is read is a proper deferral, and its payload is as long as what was read.
pub fn read_deferral_is_proper()
    ensures proper { (p : List ℕ) (d : Deferral) → deferred_in p ≡ Some d → IsProperDeferral d }
    ensures long { (p : List ℕ) (d : Deferral) → deferred_in p ≡ Some d → length p ≡ length (deferred_payload d) }
{}

/// How long the payloads are that hold no text.
pub fn lengths_are_as_stated()
    ensures settled { (id : ℕ) → length (settled_payload id) ≡ 16 }
    ensures deferred { (d : Deferral) → length (deferred_payload d) ≡ 28 }
{}

/// A message that is in memory has texts in UTF-8.
fn is_in_utf8(message: &Message)
    ensures { IsInUtf8 message.now }
{
    let _sender = message.sender.as_str();
    let _recipient = message.recipient.as_str();
    is_component_in_utf8(&message.name.campaign);
    is_component_in_utf8(&message.name.tenant);
    let _body = message.body.as_str();
}

/// So has a component, where it is there.
fn is_component_in_utf8(component: &Option<Text>)
    ensures { IfSome component.now (λ c. IsTrue (is_utf8 c)) }
{
    if let Some(text) = component {
        let _text = text.as_str();
    }
}
