//! The mail line of a message: what `read_mail` reads as that message.
//!
//! `mail_line` is called once for each message that is printed. It keeps nothing. The line is made whole before any of it is
//! appended.
ghost use Rattle.std.specs.Prelude.{◌≡◌, ◌++◌, OnOk, OnErr, IfOk};
ghost use Rattle.serde_json.specs.View.{view};
ghost use Rattle.mail_input.specs.MailLine.{mail_object, mail_line_of};

use json_members::{id_text, put_given, put_number, put_text, value_line};
use kumo_base::{Memory, Text};
use queue_name::Message;
use serde_json::{Map, Value};
use std::alloc::Global;

/// Appends the mail line of a message, with its line feed: compact JSON with its keys in byte order, without a campaign or a
/// tenant that is absent. After `Memory` the text is as it was.
#[tactic(auto, using(crate::proofs::WrittenLemmas::has_float_of_mail), unfolding(crate::specs::MailLine::mail_line_of))]
pub fn mail_line(alloc: Global, message: &Message, out: &mut Text) -> Result<(), Memory>
    ensures ok { OnOk result (out.new ≡ out.old ++ mail_line_of message.now) }
    ensures err { OnErr result (out.new ≡ out.old) }
{
    let object = object_of(alloc, message)?;
    let line = value_line(alloc, &object)?;
    out.push_str(line.as_str())
}

/// The object of a message.
#[tactic(auto, unfolding(crate::specs::MailLine::mail_object))]
fn object_of(alloc: Global, message: &Message) -> Result<Value, Memory>
    ensures { IfOk result (λ value. view value ≡ mail_object message.now) }
{
    let id = id_text(alloc, message.id)?;
    let mut object = Map::new(alloc);
    put_text(&mut object, alloc, "body", message.body.as_str())?;
    put_number(&mut object, alloc, "created", message.created)?;
    put_text(&mut object, alloc, "id", id.as_str())?;
    put_text(&mut object, alloc, "recipient", message.recipient.as_str())?;
    put_text(&mut object, alloc, "sender", message.sender.as_str())?;
    put_given(&mut object, alloc, "campaign", &message.name.campaign)?;
    put_given(&mut object, alloc, "tenant", &message.name.tenant)?;
    Ok(Value::Object(object))
}
