//! One mail line: its object, and the message that this gives.
ghost use Rattle.std.specs.Prelude.{◌≡◌, ◌≤◌, ◌⊎◌, [], length, Option, Some, None, option_map, if◌then◌else◌, Ok, IfOk, IfErr, IsTrue};
ghost use Rattle.std.specs.Str.{is_utf8};
ghost use Rattle.serde_json.specs.View.{view};
ghost use Rattle.queue_name.specs.Address.{is_address, domain_of};
ghost use Rattle.queue_name.specs.QueueName.{is_name};
ghost use Rattle.queue_name.specs.Message.{IsProperMessage};
ghost use Rattle.mail_input.specs.Fields.{IsCauseOf, object_in, message_of, line_of};

use crate::MailWhy;
use crate::fault::LineFault;
use crate::fields::{body_in, created_in, id_in, recipient_in, sender_in};
use crate::name::name_in;
use kumo_base::{Text, utf8_in};
use queue_name::Message;
use serde_json::Value;
use std::alloc::Global;

/// The message that a line gives.
#[tactic(auto, unfolding(crate::specs::Fields::line_of))]
pub fn read_line(alloc: Global, line: &[u8]) -> Result<Message, LineFault>
    ensures ok { IfOk result (λ m. line_of line.now ≡ Ok m) }
    ensures err { IfErr result (λ e. IsCauseOf e (line_of line.now)) }
    ensures proper { IfOk result IsProperMessage }
{
    let object = object_in(alloc, line)?;
    message_of(alloc, &object)
}

/// The JSON object that a line is.
#[tactic(auto, unfolding(crate::specs::Fields::object_in))]
fn object_in(alloc: Global, line: &[u8]) -> Result<Value, LineFault>
    ensures ok { IfOk result (λ value. object_in line.now ≡ Ok (view value)) }
    ensures err { IfErr result (λ e. IsCauseOf e (object_in line.now)) }
{
    let Some(text) = utf8_in(line) else {
        return Err(LineFault::Refused(MailWhy::NotJson));
    };
    match Value::from_str(alloc, text) {
        Ok(value) => {
            if value.is_object() {
                Ok(value)
            } else {
                Err(LineFault::Refused(MailWhy::NotJson))
            }
        }
        Err(e) => {
            if e.is_memory() {
                Err(LineFault::Memory)
            } else {
                Err(LineFault::Refused(MailWhy::NotJson))
            }
        }
    }
}

/// The message that an object gives.
#[tactic(auto, unfolding(crate::specs::Fields::message_of))]
fn message_of(alloc: Global, value: &Value) -> Result<Message, LineFault>
    ensures ok { IfOk result (λ m. message_of (view value.now) ≡ Ok m) }
    ensures err { IfErr result (λ e. IsCauseOf e (message_of (view value.now))) }
    ensures proper { IfOk result IsProperMessage }
{
    let id = id_in(value)?;
    let created = created_in(value)?;
    let sender = sender_in(value)?;
    let recipient = recipient_in(value)?;
    let name = name_in(alloc, value, recipient)?;
    let body = body_in(value)?;
    Ok(Message {
        id,
        created,
        sender: Text::of(alloc, sender)?,
        recipient: Text::of(alloc, recipient)?,
        name,
        body: Text::of(alloc, body)?,
    })
}
