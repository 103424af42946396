//! Addresses of envelopes, and the domains that they route by. Readers of mail and of orders test addresses here.
//!
//! Nothing is kept. `is_address` and `is_domain_of` take no memory; `domain_of` makes a text of its own and answers `Memory`
//! where there is none. A domain that holds a mark of a site's name routes nowhere, so that sites are told apart by their
//! names.
ghost use Rattle.std.specs.Prelude.{◌≡◌, ◌==◌, ◌&&◌, not, true, false, IfOk, MatchOption, IsTrue, None, bytes_eq};
ghost use Rattle.std.specs.List.{list_all, list_any, before_last, after_last};
ghost use Rattle.std.specs.Char.{to_ascii_lowercase};
ghost use Rattle.std.specs.Str.{str_to_ascii_lowercase};
ghost use Rattle.queue_name.specs.Address.{is_address, is_address_byte, is_at, is_no_mark, is_routed_domain, domain_of};
ghost use Rattle.queue_name.specs.QueueName.{is_component, is_name};

use crate::component::is_component;
use crate::message::ADDRESS_LIMIT;
use kumo_base::{Memory, Text};
use std::alloc::Global;

/// Whether a text may stand as an envelope address: a local part, `@` and a domain that routes, of visible ASCII.
#[tactic(auto, unfolding(crate::specs::Address::is_address))]
pub fn is_address(text: &str) -> bool
    ensures { result ≡ is_address text.now }
{
    if text.is_empty() || text.len() > ADDRESS_LIMIT || !is_visible(text.as_bytes()) {
        return false;
    }
    match around_at(text) {
        Some((local, domain)) => !local.is_empty() && is_routed(domain),
        None => false,
    }
}

/// The domain that an address routes by: what stands behind its last `@`, in lower case. By itself it is the name of
/// a queue.
pub fn domain_of(alloc: Global, address: &str) -> Result<Text, Memory>
    ensures value { IfOk result (λ d. d ≡ domain_of address.now) }
    ensures names { IsTrue (is_address address.now)
        → IfOk result (λ d. IsTrue (is_name (record { campaign = None; tenant = None; domain = d }))) }
{
    Ok(Text::of_string(behind_at(address).to_ascii_lowercase(alloc)?))
}

/// Whether a domain is the one that an address routes by.
pub(crate) fn is_domain_of(domain: &str, address: &str) -> bool
    ensures { result ≡ bytes_eq domain.now (domain_of address.now) }
{
    is_lower_case_of(domain.as_bytes(), behind_at(address).as_bytes())
}

/// Whether bytes are the other ones in lower case.
fn is_lower_case_of(lower: &[u8], bytes: &[u8]) -> bool
    ensures { result ≡ bytes_eq lower.now (str_to_ascii_lowercase bytes.now) }
{
    if lower.len() != bytes.len() {
        return false;
    }
    let mut i = 0;
    while i < lower.len() {
        if lower[i] != bytes[i].to_ascii_lowercase() {
            return false;
        }
        i += 1;
    }
    true
}

/// What stands behind the last `@`, or all where there is none.
fn behind_at(address: &str) -> &str
    ensures { result.now ≡ after_last is_at address.now }
{
    match around_at(address) {
        Some((_, domain)) => domain,
        None => address,
    }
}

/// What stands before and behind the last `@`.
fn around_at(address: &str) -> Option<(&str, &str)>
    ensures { MatchOption result ((list_any is_at address.now ≡ false) × (after_last is_at address.now ≡ address.now))
        (λ p. (list_any is_at address.now ≡ true)
        × (before_last is_at address.now ≡ p.0.now)
        × (after_last is_at address.now ≡ p.1.now)) }
{
    address.rsplit_once('@')
}

/// Whether each byte may stand in an address.
fn is_visible(bytes: &[u8]) -> bool
    ensures { result ≡ list_all is_address_byte bytes.now }
{
    bytes
        .iter()
        .all(|b| 33 <= *b && *b <= 126 && *b != b'<' && *b != b'>')
}

/// Whether a domain routes, once it is in lower case.
#[tactic(auto, using(crate::proofs::LowerCaseLemmas::routed_is))]
fn is_routed(domain: &str) -> bool
    ensures { result ≡ is_routed_domain (str_to_ascii_lowercase domain.now) }
{
    is_component(domain) && is_free_of_marks(domain.as_bytes())
}

/// Whether no byte is one of `>`, `|` and `=`, which stand in the names of sites.
fn is_free_of_marks(domain: &[u8]) -> bool
    ensures { result ≡ list_all (λ b. is_no_mark (to_ascii_lowercase b)) domain.now }
{
    domain.iter().all(|b| is_no_mark(b.to_ascii_lowercase()))
}

/// Whether a byte is none of `>`, `|` and `=`.
fn is_no_mark(byte: u8) -> bool
    ensures { result ≡ is_no_mark byte }
{
    byte != b'>' && byte != b'|' && byte != b'='
}
