//! A link to a scripted peer.
//!
//! A `ScriptedLinker` opens it, the dialogue sends and receives over it, and the linker takes it back. It keeps its peer and
//! how many of the bytes that the peer said were given, so that its session can be told at the end. It takes each piece
//! whole, is at its end where nothing is left to give, and fails only where the peer has no memory for a piece, which counts
//! a fault.
ghost use Rattle.std.specs.Prelude.{◌≡◌, ◌==◌, ◌<◌, ◌≤◌, [], length, take, IfOk, OnOk, OnErr, MatchResult, Some, false};
ghost use Rattle.kumo_base.specs.Causes.{HasCause};
ghost use Rattle.kumo_outside.specs.Devices.{one_more};
ghost use Rattle.kumo_outside.specs.Sessions.{Opening};
ghost use Rattle.kumo_outside.specs.Content.{told_with};
ghost use Rattle.scripted_peer.specs.ScriptedPeer.{LinkState};

use crate::peer::Peer;
use crate::replies::{KEY_COUNT, PeerReplies};
use kumo_base::{Bytes, Failed, Memory, Text};
use kumo_outside::{Link, Session};
use std::alloc::Global;
use std::marker::Model;

/// A link that a scripted linker opened. It takes each piece whole, and gives what its peer said; where nothing is left
/// to give it is at its end.
#[derive(Drop)]
pub struct ScriptedLink {
    place: usize,
    host: Text,
    source: Text,
    /// The uses of the host's keys that the linker knew at the opening.
    uses: [u32; KEY_COUNT],
    peer: Peer,
    /// How many of the bytes that the peer said the client got.
    given: usize,
    ended: bool,
    faults: u64,
}

impl Model for ScriptedLink {
    ghost Value = { LinkState };

    ghost view = { λ l. record {
      opening = record { place = l.place; host = l.host; source = l.source; uses = l.uses };
      sent = l.peer.heard.items;
      got = take l.given l.peer.said.items;
      ended = l.ended;
      faults = l.faults;
    } };

    ghost invariant = { λ l. l.given ≤ length l.peer.said.items };
}

impl ScriptedLink {
    /// A link to a peer that has said its greeting.
    pub fn open(
        alloc: Global,
        place: usize,
        host: &str,
        source: &str,
        uses: [u32; KEY_COUNT],
        replies: PeerReplies,
    ) -> Result<ScriptedLink, Memory>
        ensures { IfOk result (λ link. link ≡ record {
          opening = record { place = place; host = host.now; source = source.now; uses = uses };
          sent = [];
          got = [];
          ended = false;
          faults = 0;
        }) }
    {
        Ok(ScriptedLink {
            place,
            host: Text::of(alloc, host)?,
            source: Text::of(alloc, source)?,
            uses,
            peer: Peer::new(alloc, replies)?,
            given: 0,
            ended: false,
            faults: 0,
        })
    }

    /// The link's place among the sessions of its linker.
    pub fn place(&self) -> usize
        ensures { result ≡ self.now.opening.place }
    {
        self.place
    }

    /// The host that the link was opened to.
    pub fn host(&self) -> &str
        ensures { result.now ≡ self.now.opening.host }
    {
        self.host.as_str()
    }

    /// How often each key was said over this link.
    pub fn uses(&self) -> [u32; KEY_COUNT] {
        self.peer.uses()
    }

    /// What went over the link.
    pub fn into_session(self) -> Session
        ensures { result ≡ record {
          host = self.opening.host;
          source = self.opening.source;
          sent = self.sent;
          got = self.got;
          ended = self.ended;
          faults = self.faults;
          uses = self.opening.uses;
        } }
    {
        let ScriptedLink {
            place: _,
            host,
            source,
            uses,
            peer,
            given,
            ended,
            faults,
        } = self;
        let (heard, said) = peer.into_heard_and_said(given);
        Session {
            host,
            source,
            sent: Bytes::of(heard),
            got: Bytes::of(said),
            ended,
            faults,
            uses,
        }
    }
}

impl Link for ScriptedLink {
    ghost seen = { λ l. record {
      opening = l.opening;
      sent = Some l.sent;
      got = Some l.got;
      ended = l.ended;
      faults = l.faults;
    } };

    #[tactic(auto, unfolding(kumo_outside::specs::Content::told_with))]
    fn send(&mut self, piece: &[u8]) -> Result<usize, Failed>
        requires { 0 < length piece.now }
        ensures taken { IfOk result (λ n. (0 < n) × (n ≤ length piece.now)) }
        ensures sent { MatchResult result
            (λ n. Some self.new.sent ≡ told_with (Some self.old.sent) (take n piece.now))
            (λ _. Some self.new.sent ≡ Some self.old.sent) }
        ensures got { Some self.new.got ≡ Some self.old.got }
        ensures ended { self.new.ended ≡ false }
        ensures opening { self.new.opening ≡ self.old.opening }
        ensures cause { HasCause self.old.faults self.new.faults result }
        ensures uncounted { OnOk result (self.new.faults ≡ self.old.faults) }
        ensures counted { OnErr result (self.new.faults ≡ one_more self.old.faults) }
    {
        self.ended = false;
        match self.peer.hear(piece) {
            Ok(()) => Ok(piece.len()),
            Err(_) => {
                self.faults = self.faults.saturating_add(1);
                Err(Failed)
            }
        }
    }

    #[tactic(auto, unfolding(kumo_outside::specs::Content::told_with))]
    fn recv(&mut self, buffer: &mut [u8]) -> Result<usize, Failed>
        requires { 0 < length buffer.old }
        ensures bound { IfOk result (λ n. n ≤ length buffer.new) }
        ensures sent { Some self.new.sent ≡ Some self.old.sent }
        ensures got { MatchResult result
            (λ n. Some self.new.got ≡ told_with (Some self.old.got) (take n buffer.new))
            (λ _. Some self.new.got ≡ Some self.old.got) }
        ensures ended { MatchResult result (λ n. self.new.ended ≡ (n == 0)) (λ _. self.new.ended ≡ false) }
        ensures opening { self.new.opening ≡ self.old.opening }
        ensures cause { HasCause self.old.faults self.new.faults result }
        ensures uncounted { OnOk result (self.new.faults ≡ self.old.faults) }
        ensures counted { OnErr result (self.new.faults ≡ one_more self.old.faults) }
    {
        let (_, left) = self.peer.said().split_at(self.given);
        let count = left.len().min(buffer.len());
        let (piece, _) = left.split_at(count);
        buffer[..count].copy_from_slice(piece);
        self.given += count;
        self.ended = count == 0;
        Ok(count)
    }
}
