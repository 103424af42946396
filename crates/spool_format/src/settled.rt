//! The payload that settles a message: the id alone.
ghost use Rattle.std.specs.Prelude.{◌≡◌};
ghost use Rattle.spool_format.specs.Settled.{settled_payload, settled_in};

use crate::fields::id_at;

/// The bytes that settle the message of this id.
#[tactic(auto, unfolding(crate::specs::Settled::settled_payload))]
pub fn write_settled(id: u128) -> [u8; 16]
    ensures { result ≡ settled_payload id }
{
    id.to_be_bytes()
}

/// The id that a payload settles, where it is proper.
#[tactic(auto, unfolding(crate::specs::Settled::settled_in))]
pub fn read_settled(payload: &[u8]) -> Option<u128>
    ensures { result ≡ settled_in payload.now }
{
    let (id, rest) = id_at(payload)?;
    if rest.is_empty() { Some(id) } else { None }
}
