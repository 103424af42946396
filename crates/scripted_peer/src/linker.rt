//! A linker whose links are to scripted peers.
//!
//! The worker opens its links here in place of a network. It keeps the session of each link, in the order of opening, and how
//! often each key was said over the links to a host, which the session of a later link to it tells. The place of both is made
//! when a link is opened, so that taking one back needs no memory. It fails only where there is none, and counts that as a
//! fault.
ghost use Rattle.std.specs.Prelude.{◌≡◌, ◌++◌, ◌∷◌, [], length, IfOk, OnOk, OnErr, Some, false};
ghost use Rattle.kumo_base.specs.Causes.{HasCause};
ghost use Rattle.kumo_outside.specs.Devices.{one_more};
ghost use Rattle.kumo_outside.specs.Sessions.{Opening, fresh, Opens};
ghost use Rattle.scripted_peer.specs.ScriptedPeer.{LinkerState, LinkState};

use crate::link::ScriptedLink;
use crate::replies::{KEY_COUNT, PeerReplies};
use kumo_base::{Bytes, Failed, Memory, Text};
use kumo_outside::{Linker, Session};
use std::alloc::Global;
use std::marker::Model;

/// How often each of a host's keys was said over the links that were given back.
#[derive(Drop)]
struct HostUses {
    host: Text,
    uses: [u32; KEY_COUNT],
}

/// A linker that opens a link to any host, and tells all that went over its links.
#[derive(Drop)]
pub struct ScriptedLinker {
    alloc: Global,
    replies: PeerReplies,
    sessions: Vec<Session>,
    known: Vec<HostUses>,
    faults: u64,
}

impl Model for ScriptedLinker {
    ghost Value = { LinkerState };

    ghost view = { λ k. record { sessions = k.sessions.items; faults = k.faults } };
}

impl ScriptedLinker {
    /// A linker whose peers say these replies. It has opened no link.
    pub fn new(alloc: Global, says: PeerReplies) -> ScriptedLinker
        ensures { result ≡ record { sessions = []; faults = 0 } }
    {
        ScriptedLinker {
            alloc,
            replies: says,
            sessions: Vec::new(alloc),
            known: Vec::new(alloc),
            faults: 0,
        }
    }

    /// What went over each link, in the order of opening.
    pub fn sessions(&self) -> &[Session]
        ensures { result.now ≡ self.now.sessions }
    {
        self.sessions.as_slice()
    }

    /// Opens a link and adds its session. After `Memory` the sessions are as they were.
    fn open_link(&mut self, host: &str, source: &str) -> Result<ScriptedLink, Memory>
        ensures ok { IfOk result (λ link. (link.opening.place ≡ length self.old.sessions)
            × (link.opening.host ≡ host.now) × (link.opening.source ≡ source.now)
            × (link ≡ record { opening = link.opening; sent = []; got = []; ended = false; faults = 0 })
            × (self.new.sessions ≡ self.old.sessions ++ fresh link.opening ∷ [])) }
        ensures err { OnErr result (self.new.sessions ≡ self.old.sessions) }
        ensures faults { self.new.faults ≡ self.old.faults }
    {
        let uses = uses_of(self.alloc, &mut self.known, host)?;
        let place = self.sessions.len();
        let session = opened_session(self.alloc, host, source, uses)?;
        let link = ScriptedLink::open(self.alloc, place, host, source, uses, self.replies)?;
        self.sessions.push(session)?;
        Ok(link)
    }
}

impl Linker for ScriptedLinker {
    type Link = ScriptedLink;

    ghost seen = { λ k. record { sessions = Some k.sessions; faults = k.faults } };

    fn open(&mut self, host: &str, source: &str) -> Result<ScriptedLink, Failed>
        ensures opened { IfOk result (λ link. Opens (Some self.old.sessions) (Some self.new.sessions) host.now source.now
            (record {
              opening = link.opening;
              sent = Some link.sent;
              got = Some link.got;
              ended = link.ended;
              faults = link.faults;
            })) }
        ensures failed { OnErr result (Some self.new.sessions ≡ Some self.old.sessions) }
        ensures cause { HasCause self.old.faults self.new.faults result }
        ensures uncounted { OnOk result (self.new.faults ≡ self.old.faults) }
        ensures counted { OnErr result (self.new.faults ≡ one_more self.old.faults) }
    {
        match self.open_link(host, source) {
            Ok(link) => Ok(link),
            Err(_) => {
                self.faults = self.faults.saturating_add(1);
                Err(Failed)
            }
        }
    }

    fn done(&mut self, link: ScriptedLink) {
        add_uses(&mut self.known, link.host(), link.uses());
        let place = link.place();
        self.sessions[place] = link.into_session();
    }
}

/// The session of a link that was just opened.
fn opened_session(
    alloc: Global,
    host: &str,
    source: &str,
    uses: [u32; KEY_COUNT],
) -> Result<Session, Memory>
    ensures { IfOk result (λ s. s ≡ record {
      host = host.now;
      source = source.now;
      sent = [];
      got = [];
      ended = false;
      faults = 0;
      uses = uses;
    }) }
{
    Ok(Session {
        host: Text::of(alloc, host)?,
        source: Text::of(alloc, source)?,
        sent: Bytes::new(alloc),
        got: Bytes::new(alloc),
        ended: false,
        faults: 0,
        uses,
    })
}

/// What is known of a host's keys. A host that is new gets its place, so that no memory is needed when a link comes back.
fn uses_of(
    alloc: Global,
    known: &mut Vec<HostUses>,
    host: &str,
) -> Result<[u32; KEY_COUNT], Memory> {
    for entry in known.iter() {
        if entry.host.is_same(host) {
            return Ok(entry.uses);
        }
    }
    let host = Text::of(alloc, host)?;
    let uses = [0; KEY_COUNT];
    known.push(HostUses { host, uses })?;
    Ok(uses)
}

/// Adds a link's uses to what is known of its host's keys.
fn add_uses(known: &mut Vec<HostUses>, host: &str, uses: [u32; KEY_COUNT]) {
    for entry in known.iter_mut() {
        if entry.host.is_same(host) {
            for (known_uses, more) in entry.uses.iter_mut().zip(uses) {
                *known_uses = known_uses.saturating_add(more);
            }
            return;
        }
    }
}
