//! The fields of a mail line. Each function reads one field from the line's object, or says why the line is refused.
//!
//! `line.rt` calls them in the order in which faults of one line are tried. Nothing is kept and no text is copied; a refusal
//! is the `MailWhy` of the field, and none of them takes memory.
ghost use Rattle.std.specs.Prelude.{◌≡◌, ◌≤◌, ◌⊎◌, [], length, option_map, Ok, Err, IfOk, IfErr, IsTrue};
ghost use Rattle.std.specs.Int.{w128, from_be_bytes};
ghost use Rattle.serde_json.specs.Find.{get};
ghost use Rattle.serde_json.specs.View.{view};
ghost use Rattle.uuid.specs.Text.{parsed};
ghost use Rattle.queue_name.specs.Address.{is_address};
ghost use Rattle.mail_input.specs.Fields.{text_at, id_in, moment_of, created_in, sender_in, recipient_in, optional_text, body_in};

use crate::MailWhy;
use kumo_base::LAST_MOMENT;
use queue_name::{BODY_LIMIT, is_address};
use serde_json::Value;
use uuid::Uuid;

/// The id, in any of the spellings of a UUID.
pub fn id_in(value: &Value) -> Result<u128, MailWhy>
    ensures ok { IfOk result (λ id. id_in (view value.now) ≡ Ok id) }
    ensures err { IfErr result (λ why. id_in (view value.now) ≡ Err why) }
{
    match id_of(text_at(value, "id")?) {
        Some(id) => Ok(id),
        None => Err(MailWhy::BadId),
    }
}

/// The moment when the message was made, in milliseconds since 1970.
pub fn created_in(value: &Value) -> Result<u64, MailWhy>
    ensures ok { IfOk result (λ moment. created_in (view value.now) ≡ Ok moment) }
    ensures err { IfErr result (λ why. created_in (view value.now) ≡ Err why) }
    ensures within { IfOk result (λ moment. moment ≤ LAST_MOMENT) }
{
    let Some(found) = value.get("created") else {
        return Err(MailWhy::Missing);
    };
    match moment_of(found) {
        Some(moment) => Ok(moment),
        None => Err(MailWhy::BadMoment),
    }
}

/// The envelope sender, an address or nothing.
pub fn sender_in(value: &Value) -> Result<&str, MailWhy>
    ensures ok { IfOk result (λ s. sender_in (view value.now) ≡ Ok s.now) }
    ensures err { IfErr result (λ why. sender_in (view value.now) ≡ Err why) }
    ensures kept { IfOk result (λ s. (s.now ≡ []) ⊎ IsTrue (is_address s.now)) }
{
    let text = text_at(value, "sender")?;
    if text.is_empty() || is_address(text) {
        Ok(text)
    } else {
        Err(MailWhy::BadAddress)
    }
}

/// The envelope recipient.
pub fn recipient_in(value: &Value) -> Result<&str, MailWhy>
    ensures ok { IfOk result (λ s. recipient_in (view value.now) ≡ Ok s.now) }
    ensures err { IfErr result (λ why. recipient_in (view value.now) ≡ Err why) }
    ensures kept { IfOk result (λ s. IsTrue (is_address s.now)) }
{
    let text = text_at(value, "recipient")?;
    if is_address(text) {
        Ok(text)
    } else {
        Err(MailWhy::BadAddress)
    }
}

/// A component of the queue's name, where the object names one. Whether it may stand in a name is not tried here.
pub fn component_at<'v>(value: &'v Value, key: &str) -> Result<Option<&'v str>, MailWhy>
    ensures ok { IfOk result (λ o. optional_text (get key.now (view value.now)) ≡ Ok (option_map (λ s. s.now) o)) }
    ensures err { IfErr result (λ why. optional_text (get key.now (view value.now)) ≡ Err why) }
{
    let Some(found) = value.get(key) else {
        return Ok(None);
    };
    match found.as_str() {
        Some(text) => Ok(Some(text)),
        None => Err(MailWhy::BadName),
    }
}

/// The message's header and body.
pub fn body_in(value: &Value) -> Result<&str, MailWhy>
    ensures ok { IfOk result (λ s. body_in (view value.now) ≡ Ok s.now) }
    ensures err { IfErr result (λ why. body_in (view value.now) ≡ Err why) }
    ensures kept { IfOk result (λ s. length s.now ≤ BODY_LIMIT) }
{
    let text = text_at(value, "body")?;
    if text.len() <= BODY_LIMIT {
        Ok(text)
    } else {
        Err(MailWhy::TooLong)
    }
}

/// The text at a key.
fn text_at<'v>(value: &'v Value, key: &str) -> Result<&'v str, MailWhy>
    ensures ok { IfOk result (λ s. text_at key.now (view value.now) ≡ Ok s.now) }
    ensures err { IfErr result (λ why. text_at key.now (view value.now) ≡ Err why) }
{
    let Some(found) = value.get(key) else {
        return Err(MailWhy::Missing);
    };
    match found.as_str() {
        Some(text) => Ok(text),
        None => Err(MailWhy::Missing),
    }
}

/// The number that a UUID spells.
fn id_of(text: &str) -> Option<u128>
    ensures { result ≡ option_map (from_be_bytes w128) (parsed text.now) }
{
    match Uuid::try_parse(text) {
        Ok(id) => Some(id.as_u128()),
        Err(_) => None,
    }
}

/// The moment that a value is.
fn moment_of(value: &Value) -> Option<u64>
    ensures { result ≡ moment_of (view value.now) }
{
    match value.as_u64() {
        Some(moment) => {
            if moment <= LAST_MOMENT {
                Some(moment)
            } else {
                None
            }
        }
        None => None,
    }
}
