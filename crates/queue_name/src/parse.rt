//! Reads the name of a queue from its spelling. Orders and mail lines name queues so.
//!
//! `QueueName::parse` looks for a byte that may not stand where it stands, cuts the text at its first `@` and `:`, and then
//! copies the parts. It keeps nothing. It answers the name, or the first `NameFault` in the order in which they are listed,
//! with the place of the byte.
ghost use Rattle.std.specs.Prelude.{◌≡◌, ◌==◌, ◌&&◌, ◌||◌, [], not, ℕ, List, Option, Some, None, Ok, Err, IfOk, IfErr, MatchOption, option_map, true, false, length};
ghost use Rattle.std.specs.List.{list_any, position, before_first, after_first};
ghost use Rattle.queue_name.specs.Address.{is_at};
ghost use Rattle.queue_name.specs.NameParts.{name_of};
ghost use Rattle.queue_name.specs.NameText.{is_bad, is_colon, is_exclamation, is_control, is_capital, bad_byte, if_any, components, components_around_at, has_empty, is_empty_component, name_in, IsNameFaultOf};

use crate::name::{NAME_LIMIT, QueueName};
use crate::parts::NameParts;
use kumo_base::{Memory, around_first};
use std::alloc::Global;

/// Why a text is not read as a name. Places count bytes from 0.
#[derive(Clone, Copy, Debug, PartialEq, Eq)]
pub enum NameFault {
    /// The text is longer than a spelling may be.
    Overlong,
    /// The first `!`, which would route the address on.
    Routing(usize),
    /// The first byte that may not stand where it stands.
    BadByte(usize),
    /// A component that has to be there is empty.
    Empty,
    /// There was no memory.
    Memory,
}

impl From<Memory> for NameFault {
    ghost use Rattle.queue_name.specs.declared.parse.NameFault.{NameFault};

    ghost from_gives = { λ _ fault. fault ≡ NameFault.Memory };

    fn from(_memory: Memory) -> NameFault {
        NameFault::Memory
    }
}

impl QueueName {
    /// The name that a text is the spelling of: `domain`, `tenant@domain`, `campaign:tenant@domain` or
    /// `campaign:@domain`. Of several causes the one that `NameFault` lists first is answered.
    #[tactic(auto, unfolding(crate::specs::NameText::name_in))]
    pub fn parse(alloc: Global, text: &str) -> Result<QueueName, NameFault>
        ensures ok { IfOk result (λ name. name_in text.now ≡ Ok name) }
        ensures err { IfErr result (λ fault. IsNameFaultOf fault text.now) }
    {
        if text.len() > NAME_LIMIT {
            return Err(NameFault::Overlong);
        }
        if let Some(at) = first_exclamation(text.as_bytes()) {
            return Err(NameFault::Routing(at));
        }
        if let Some(at) = bad_byte(text.as_bytes()) {
            return Err(NameFault::BadByte(at));
        }
        let found = components(text);
        if has_empty(&found) {
            return Err(NameFault::Empty);
        }
        Ok(found.to_name(alloc)?)
    }
}

/// The place of the first `!`.
fn first_exclamation(bytes: &[u8]) -> Option<usize>
    ensures { result ≡ position is_exclamation bytes.now }
{
    bytes.iter().position(|b| *b == b'!')
}

/// The place of the first byte that may not stand where it stands.
fn bad_byte(bytes: &[u8]) -> Option<usize>
    ensures { result ≡ bad_byte bytes.now }
{
    let without_at = !has_at(bytes);
    let mut seen_at = false;
    let mut seen_colon = false;
    let mut i = 0;
    while i < bytes.len() {
        let byte = bytes[i];
        let (_, after) = bytes.split_at(i + 1);
        if is_bad(byte, seen_at, seen_colon, without_at || seen_at, after) {
            return Some(i);
        }
        seen_at = seen_at || byte == b'@';
        seen_colon = seen_colon || byte == b':';
        i += 1;
    }
    None
}

/// Whether a byte may not stand behind what was seen and before what is after it.
fn is_bad(byte: u8, seen_at: bool, seen_colon: bool, in_domain: bool, after: &[u8]) -> bool
    ensures { result ≡ (is_control byte
        || (is_at byte && seen_at)
        || (is_colon byte && (seen_colon || not (list_any is_at after.now)))
        || (is_capital byte && in_domain)) }
{
    is_control(byte)
        || byte == b'@' && seen_at
        || byte == b':' && (seen_colon || !has_at(after))
        || is_capital(byte) && in_domain
}

/// Whether an `@` is among the bytes.
fn has_at(bytes: &[u8]) -> bool
    ensures { result ≡ list_any is_at bytes.now }
{
    bytes.iter().any(|b| *b == b'@')
}

/// Whether a byte is a control byte.
fn is_control(byte: u8) -> bool
    ensures { result ≡ is_control byte }
{
    !(32 <= byte) || byte == 127
}

/// Whether a byte is an ASCII capital.
fn is_capital(byte: u8) -> bool
    ensures { result ≡ is_capital byte }
{
    b'A' <= byte && byte <= b'Z'
}

/// The components of a text in which each byte may stand.
fn components(text: &str) -> NameParts<'_>
    ensures { components text.now ≡ name_of result }
{
    match around_first(text, '@') {
        Some((front, domain)) => components_around_at(front, domain),
        None => NameParts {
            campaign: None,
            tenant: None,
            domain: text,
        },
    }
}

/// The components, by what stands before and behind the `@`.
fn components_around_at<'a>(front: &'a str, domain: &'a str) -> NameParts<'a>
    ensures { components_around_at front.now domain.now (list_any is_colon front.now) ≡ name_of result }
{
    match around_first(front, ':') {
        Some((campaign, tenant)) => NameParts {
            campaign: Some(campaign),
            tenant: if_any(tenant),
            domain,
        },
        None => NameParts {
            campaign: None,
            tenant: Some(front),
            domain,
        },
    }
}

/// A component, where it is not empty.
fn if_any(text: &str) -> Option<&str>
    ensures { option_map (λ s. s.now) result ≡ if_any text.now }
{
    if text.is_empty() { None } else { Some(text) }
}

/// Whether a component that has to be there is empty.
fn has_empty(found: &NameParts<'_>) -> bool
    ensures { result ≡ has_empty (name_of found.now) }
{
    found.domain.is_empty() || is_empty(found.campaign) || is_empty(found.tenant)
}

/// Whether a component is there and empty.
fn is_empty(component: Option<&str>) -> bool
    ensures { result ≡ is_empty_component (option_map (λ s. s.now) component.entry) }
{
    match component {
        Some(text) => text.is_empty(),
        None => false,
    }
}
