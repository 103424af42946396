//! The payload that holds a message.
//!
//! A payload is read in two steps: its fields, each borrowed from it, and the message that they give. So a payload that is
//! not proper costs no copy of a body.
ghost use Rattle.std.specs.Prelude.{◌≡◌, ◌<◌, ◌^◌, ◌==◌, ◌&&◌, ◌||◌, nat_le, ◌++◌, [], length, option_map, unwrap_or, Some, IfOk, IfErr, OnOk, OnErr, IsTrue};
ghost use Rattle.queue_name.specs.Address.{is_address};
ghost use Rattle.queue_name.specs.NameText.{if_any};
ghost use Rattle.queue_name.specs.QueueName.{is_name};
ghost use Rattle.queue_name.specs.Message.{IsProperMessage};
ghost use Rattle.spool_format.specs.Fields.{text_field};
ghost use Rattle.spool_format.specs.Held.{held_payload, held_in, fields_in, if_proper, message_of, IsFaultOf};
ghost use Rattle.spool_format.specs.inside.Borrowed.{fields_of, IsNoName};

use crate::fault::FormatFault;
use crate::fields::{id_at, moment_at, text_at};
use kumo_base::{LAST_MOMENT, Memory, Text};
use queue_name::{BODY_LIMIT, Message, NameParts, QueueName, domain_of, is_address};
use std::alloc::Global;

/// The fields of a payload. They need not make a message.
#[derive(Clone, Copy)]
struct BorrowedFields<'p> {
    id: u128,
    created: u64,
    sender: &'p str,
    recipient: &'p str,
    campaign: &'p str,
    tenant: &'p str,
    body: &'p str,
}

/// Writes the bytes of a message in place of what the buffer had, so that one buffer serves for many messages. After
/// `Memory` the buffer is empty.
pub fn write_held(message: &Message, out: &mut Vec<u8>) -> Result<(), Memory>
    requires proper { IsProperMessage message.now }
    ensures ok { OnOk result (out.new.items ≡ held_payload message.now) }
    ensures err { OnErr result (out.new.items ≡ []) }
{
    out.clear();
    match put_message(message, out) {
        Ok(()) => Ok(()),
        Err(memory) => {
            out.clear();
            Err(memory)
        }
    }
}

/// How many bytes `write_held` writes of a message.
#[tactic(auto, unfolding(crate::specs::Held::held_payload, crate::specs::Fields::text_field))]
pub fn held_length(message: &Message) -> u64
    requires proper { IsProperMessage message.now }
    ensures { result ≡ length (held_payload message.now) }
{
    let campaign = or_empty(&message.name.campaign);
    let tenant = or_empty(&message.name.tenant);
    44 + message.sender.as_str().len() as u64
        + message.recipient.as_str().len() as u64
        + campaign.len() as u64
        + tenant.len() as u64
        + message.body.as_str().len() as u64
}

/// The message that a payload holds. `Malformed` comes where it holds none: a field is cut off or is no UTF-8, bytes stand
/// behind the last field, or the message breaks a rule of messages.
#[tactic(auto, unfolding(crate::specs::Held::held_in))]
pub fn read_held(alloc: Global, payload: &[u8]) -> Result<Message, FormatFault>
    ensures ok { IfOk result (λ m. held_in payload.now ≡ Some m) }
    ensures malformed { IfErr result (λ e. IsFaultOf e (held_in payload.now)) }
    ensures proper { IfOk result IsProperMessage }
{
    match fields_in(payload) {
        Some(fields) => message_of(alloc, &fields),
        None => Err(FormatFault::Malformed),
    }
}

/// Appends the bytes of a message. After `Memory` the buffer has some of them.
fn put_message(message: &Message, out: &mut Vec<u8>) -> Result<(), Memory>
    requires proper { IsProperMessage message.now }
    ensures { OnOk result (out.new.items ≡ out.old.items ++ held_payload message.now) }
{
    out.extend_from_slice(&message.id.to_be_bytes())?;
    out.extend_from_slice(&message.created.to_be_bytes())?;
    put_text(message.sender.as_str(), out)?;
    put_text(message.recipient.as_str(), out)?;
    put_text(or_empty(&message.name.campaign), out)?;
    put_text(or_empty(&message.name.tenant), out)?;
    put_text(message.body.as_str(), out)
}

/// Appends a text with its length before it. After `Memory` the buffer has some of it.
#[tactic(auto, unfolding(crate::specs::Fields::text_field))]
fn put_text(text: &str, out: &mut Vec<u8>) -> Result<(), Memory>
    requires short { length text.now < 2 ^ 32 }
    ensures { OnOk result (out.new.items ≡ out.old.items ++ text_field text.now) }
{
    out.extend_from_slice(&(text.len() as u32).to_be_bytes())?;
    out.extend_from_slice(text.as_bytes())?;
    Ok(())
}

/// The component, or the empty text where it is absent.
fn or_empty(component: &Option<Text>) -> &str
    ensures { result.now ≡ unwrap_or component.now [] }
{
    match component {
        Some(text) => text.as_str(),
        None => "",
    }
}

/// The component that a field gives: none where it is empty.
fn if_any(field: &str) -> Option<&str>
    ensures { option_map (λ s. s.now) result ≡ if_any field.now }
{
    if field.is_empty() { None } else { Some(field) }
}

/// The fields of a payload, where nothing is behind them.
#[tactic(auto, unfolding(crate::specs::Held::fields_in))]
fn fields_in(payload: &[u8]) -> Option<BorrowedFields<'_>>
    ensures { option_map fields_of result ≡ fields_in payload.now }
{
    let (id, rest) = id_at(payload)?;
    let (created, rest) = moment_at(rest)?;
    let (sender, rest) = text_at(rest)?;
    let (recipient, rest) = text_at(rest)?;
    let (campaign, rest) = text_at(rest)?;
    let (tenant, rest) = text_at(rest)?;
    let (body, rest) = text_at(rest)?;
    if !rest.is_empty() {
        return None;
    }
    Some(BorrowedFields {
        id,
        created,
        sender,
        recipient,
        campaign,
        tenant,
        body,
    })
}

/// The message that fields give.
fn message_of(alloc: Global, fields: &BorrowedFields<'_>) -> Result<Message, FormatFault>
    ensures ok { IfOk result (λ m. if_proper (message_of (fields_of fields.now)) ≡ Some m) }
    ensures malformed { IfErr result (λ e. IsFaultOf e (if_proper (message_of (fields_of fields.now)))) }
    ensures proper { IfOk result IsProperMessage }
{
    if !keep_rules(fields) {
        return Err(FormatFault::Malformed);
    }
    Ok(Message {
        id: fields.id,
        created: fields.created,
        sender: Text::of(alloc, fields.sender)?,
        recipient: Text::of(alloc, fields.recipient)?,
        name: name_of(alloc, fields)?,
        body: Text::of(alloc, fields.body)?,
    })
}

/// Whether the fields keep the rules of a message, but for its name.
fn keep_rules(fields: &BorrowedFields<'_>) -> bool
    ensures { result ≡ (nat_le fields.now.created LAST_MOMENT
        && (length fields.now.sender.now == 0 || is_address fields.now.sender.now)
        && is_address fields.now.recipient.now
        && nat_le (length fields.now.body.now) BODY_LIMIT) }
{
    fields.created <= LAST_MOMENT
        && (fields.sender.is_empty() || is_address(fields.sender))
        && is_address(fields.recipient)
        && fields.body.len() <= BODY_LIMIT
}

/// The name of the queue of the fields' message. `Malformed` comes where they make none.
fn name_of(alloc: Global, fields: &BorrowedFields<'_>) -> Result<QueueName, FormatFault>
    ensures ok { IfOk result (λ name. name ≡ (message_of (fields_of fields.now)).name) }
    ensures names { IfOk result (λ name. IsTrue (is_name name)) }
    ensures malformed { IfErr result (λ e. IsNoName e (is_name (message_of (fields_of fields.now)).name)) }
{
    let domain = domain_of(alloc, fields.recipient)?;
    let parts = NameParts {
        campaign: if_any(fields.campaign),
        tenant: if_any(fields.tenant),
        domain: domain.as_str(),
    };
    if !parts.is_name() {
        return Err(FormatFault::Malformed);
    }
    Ok(parts.to_name(alloc)?)
}
