//! The worker: it takes one message from its acceptance to its fate over one connection.
//!
//! Before each step on the link it takes a turn at the registry, which says what may be done. In the final layout it is
//! a crate of its own.
ghost use Rattle.std.specs.Prelude.{◌≡◌, ◌≤◌, [], false, IfOk, IfSome};
ghost use Rattle.kumo_run.specs.declared.dispatcher.TheConstants.{ENTRIES};
ghost use Rattle.kumo_base.specs.Causes.{Rose};
ghost use Rattle.queue_name.specs.Message.{IsProperMessage};
ghost use Rattle.policy_core.specs.Limits.{unspecified};
ghost use Rattle.policy_core.specs.PathTables.{path_text};
ghost use Rattle.smtp_reply.specs.ReplyText.{IsProperOutcome};
ghost use Rattle.smtp_dialogue.specs.Transcript.{parting};
ghost use Rattle.smtp_dialogue.specs.Speaks.{Speaks, side};
ghost use Rattle.kumo_run.specs.inside.OneDelivery.{after_promotion, after_opening, after_beginning};
ghost use Rattle.kumo_run.specs.inside.OneMessage.{IsFreshLink, Converses, Parts, Connects, Delivers};

use crate::registry::Registry;
use kumo_base::{Memory, Room, Text};
use kumo_outside::{Link, Linker};
use policy_core::{DEFAULT_EHLO, UNSPECIFIED};
use queue_name::Message;
use smtp_dialogue::{Greeted, Scratch, attempt, farewell, greet};
use smtp_reply::Outcome;
use std::alloc::Global;

/// The number of the first connection, and so far the only one.
const CONNECTION: u64 = 1;

/// The entries of a run of one message: it is accepted, promoted, its connection opened, its attempt begun and ended, the
/// connection closed, and the work stopped.
pub const ENTRIES: usize = 7;

/// Why a message was not delivered.
#[derive(Clone, Copy, Debug, PartialEq, Eq)]
pub enum DeliveryFault {
    /// No link was opened.
    NotOpened,
    /// The receiver did not take the message.
    NotDelivered,
    /// There was no memory.
    Memory,
}

impl From<Memory> for DeliveryFault {
    ghost use Rattle.kumo_run.specs.declared.dispatcher.DeliveryFault.{DeliveryFault};

    ghost from_gives = { λ _ fault. fault ≡ DeliveryFault.Memory };

    fn from(_memory: Memory) -> DeliveryFault {
        DeliveryFault::Memory
    }
}

/// Delivers one message that is due at moment 0 over one connection, and closes it. The history is that of the message up to the closing.
/// After `NotDelivered` the linker tells the session that says so. Memory is taken before the link is opened: after `Memory` it
/// tells no session more. The registry that is given has room for one entry more.
pub fn deliver<K: Linker>(
    alloc: Global,
    message: &Message,
    linker: &mut K,
) -> Result<Registry, DeliveryFault>
    requires proper { IsProperMessage message.now }
    requires due { message.now.created ≡ 0 }
    ensures told { IfSome (K.seen linker.old).sessions
        (λ before. Delivers message.now result (K.seen linker.new).sessions before) }
    ensures fault { result ≡ Err DeliveryFault.NotOpened → Rose (K.seen linker.old).faults (K.seen linker.new).faults }
    ensures room { IfOk result (λ registry. ENTRIES ≤ registry.capacity) }
{
    let mut registry = ready(alloc, message)?;
    let path = path_text(alloc, message.name.domain.as_str())?;
    let mut scratch = Scratch::new(alloc)?;
    let room = Room::new(alloc)?;
    registry.open(CONNECTION, path);
    connect(&mut registry, linker, message, &mut scratch, room)?;
    Ok(registry)
}

/// Opens a link to the message's domain, works on it, and gives it back.
fn connect<K: Linker>(
    registry: &mut Registry,
    linker: &mut K,
    message: &Message,
    scratch: &mut Scratch,
    room: Room,
) -> Result<(), DeliveryFault>
    requires history { registry.old.history ≡ after_opening message.now }
    requires entries { ENTRIES ≤ registry.old.capacity }
    requires room { room ≡ [] }
    ensures told { IfSome (K.seen linker.old).sessions
        (λ before. Connects message.now result registry.new.history (K.seen linker.new).sessions before) }
    ensures capacity { registry.new.capacity ≡ registry.old.capacity }
    ensures fault { result ≡ Err DeliveryFault.NotOpened → Rose (K.seen linker.old).faults (K.seen linker.new).faults }
{
    let mut link = match linker.open(message.name.domain.as_str(), UNSPECIFIED) {
        Ok(link) => link,
        Err(_) => return Err(DeliveryFault::NotOpened),
    };
    let worked = converse(registry, &mut link, message, scratch, room);
    linker.done(link);
    worked
}

/// A registry that took a message over which is due at moment 0, and made it ready, with room for the entries to come.
fn ready(alloc: Global, message: &Message) -> Result<Registry, Memory>
    requires proper { IsProperMessage message.now }
    requires due { message.now.created ≡ 0 }
    ensures history { IfOk result (λ registry. registry.history ≡ after_promotion message.now) }
    ensures room { IfOk result (λ registry. ENTRIES ≤ registry.capacity) }
{
    let source = Text::of(alloc, UNSPECIFIED)?;
    let mut registry = Registry::with_room(alloc, ENTRIES)?;
    registry.accept(message.copy(alloc)?);
    registry.promote(message.id, source);
    Ok(registry)
}

/// The text of the path to a domain, which is its own site.
fn path_text(alloc: Global, domain: &str) -> Result<Text, Memory>
    ensures { IfOk result (λ path. path ≡ path_text unspecified domain.now) }
{
    let mut path = Text::of(alloc, UNSPECIFIED)?;
    path.push_str("->")?;
    path.push_str(domain)?;
    Ok(path)
}

/// Greets, attempts the message and parts. Before the attempt and after it it takes a turn at the registry.
fn converse<L: Link>(
    registry: &mut Registry,
    link: &mut L,
    message: &Message,
    scratch: &mut Scratch,
    room: Room,
) -> Result<(), DeliveryFault>
    requires history { registry.old.history ≡ after_opening message.now }
    requires entries { ENTRIES ≤ registry.old.capacity }
    requires room { room ≡ [] }
    ensures opening { (L.seen link.new).opening ≡ (L.seen link.old).opening }
    ensures told { IsFreshLink (L.seen link.old) → Converses message.now (L.seen link.new) result registry.new.history }
    ensures capacity { registry.new.capacity ≡ registry.old.capacity }
    ensures fault { result ≡ Err DeliveryFault.NotOpened → ⊥ }
{
    match greet(link, DEFAULT_EHLO, scratch) {
        Greeted::Refused => return Err(DeliveryFault::NotDelivered),
        Greeted::Ready => (),
    }
    registry.begin(CONNECTION, message.id);
    let tried = attempt(
        link,
        message.sender.as_str(),
        message.recipient.as_str(),
        message.body.as_str(),
        scratch,
        room,
    );
    if !tried.alive {
        return Err(DeliveryFault::NotDelivered);
    }
    part(registry, link, message, scratch, tried.outcome)
}

/// Ends the attempt in the history, says QUIT over the link, and closes the connection, for which nothing is left.
fn part<L: Link>(
    registry: &mut Registry,
    link: &mut L,
    message: &Message,
    scratch: &mut Scratch,
    outcome: Outcome,
) -> Result<(), DeliveryFault>
    requires history { registry.old.history ≡ after_beginning message.now }
    requires entries { ENTRIES ≤ registry.old.capacity }
    requires outcome { IsProperOutcome outcome }
    ensures opening { (L.seen link.new).opening ≡ (L.seen link.old).opening }
    ensures capacity { registry.new.capacity ≡ registry.old.capacity }
    ensures spoken { Parts message.now outcome result registry.new.history
        (Speaks parting (side (L.seen link.old) scratch.old) (side (L.seen link.new) scratch.new) [] [] false) }
{
    match outcome {
        Outcome::Delivered(reply) => {
            registry.end_delivered(CONNECTION, message.id, reply);
            farewell(link, scratch);
            registry.close_empty(CONNECTION);
            Ok(())
        }
        Outcome::Transient(_) | Outcome::Permanent(_) | Outcome::Lost(_) => {
            farewell(link, scratch);
            Err(DeliveryFault::NotDelivered)
        }
    }
}
