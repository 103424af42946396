//! Reads one reply in whatever pieces it comes.
//!
//! A reader is made over an empty room, is fed until it answers otherwise than `More`, and then gives the reply, or the
//! room back for the next one.
ghost use Rattle.std.specs.Prelude.{◌≡◌, ◌≤◌, ◌∷◌, ◌++◌, ◌↔◌, ℕ, List, [], length, IsTrue};
ghost use Rattle.smtp_reply.specs.Reading.{IsWhole, Reads, Feeds, answer_of};
ghost use Rattle.smtp_reply.specs.Replies.{code_of, reply_of};

use crate::one_line::OneLine;
use crate::place::{Digit, Next, Place};
use crate::reply::Reply;
use crate::said::Said;
use kumo_base::Room;

/// The most bytes of a reply.
pub const REPLY_LIMIT: usize = 4096;

/// What the bytes so far are.
#[derive(Clone, Copy, Debug, PartialEq, Eq)]
pub enum Heard {
    /// A whole reply.
    Whole,
    /// The front of a reply: more bytes are needed.
    More,
    /// No reply goes on with the byte at this offset in the reply.
    Bad(usize),
    /// So many bytes are no whole reply.
    TooLong,
}

/// What became of a piece.
#[derive(Clone, Copy, Debug, PartialEq, Eq)]
pub struct Fed {
    /// How many bytes of the piece belong to the reply; those behind them were not looked at.
    pub used: usize,
    /// What the bytes so far are.
    pub what: Heard,
}

/// A reply that is being read.
#[derive(Drop)]
pub struct ReplyReader {
    /// What was answered last.
    answered: Heard,
    /// How many bytes of the reply came.
    count: usize,
    /// Where the next byte stands.
    place: Place,
    /// The code and the text so far.
    said: Said,
}

impl ReplyReader {
    /// A reader of the next reply, whose text is written into the room.
    pub fn new(room: Room) -> ReplyReader
        requires empty { room ≡ [] }
        ensures { Reads result [] }
    {
        ReplyReader {
            answered: Heard::More,
            count: 0,
            place: Place::Code(Digit::First),
            said: Said::new(room),
        }
    }

    /// Reads a piece, up to the byte that decides the answer. Once the answer is not `More`, each further call answers
    /// the same and uses nothing.
    pub fn feed(&mut self, bytes: &[u8]) -> Fed
        ensures fed { (so_far : List ℕ) → Reads self.old so_far → Feeds so_far bytes.now result self.new }
        ensures within { result.used ≤ length bytes.now }
        ensures whole { (result.what ≡ Heard.Whole) ↔ IsWhole self.new }
    {
        for (used, byte) in bytes.iter().enumerate() {
            if !self.needs_more() {
                return Fed {
                    used,
                    what: self.answered,
                };
            }
            self.read_byte(*byte);
        }
        Fed {
            used: bytes.len(),
            what: self.answered,
        }
    }

    /// The code of the whole reply.
    pub fn code(&self) -> u16
        requires whole { IsWhole self.now }
        ensures { (bytes : List ℕ) → Reads self.now bytes → result ≡ code_of bytes }
    {
        self.said.code.number()
    }

    /// The whole reply.
    pub fn take(self) -> Reply
        requires whole { IsWhole self }
        ensures { (bytes : List ℕ) → Reads self bytes → result ≡ reply_of bytes }
    {
        let code = self.code();
        Reply {
            code,
            text: self.said.text.into_text(),
        }
    }

    /// The room, empty, for the next reply.
    pub fn back(self) -> Room
        ensures { result ≡ [] }
    {
        self.said.text.into_room()
    }

    /// Begins the next reply in the same room.
    pub fn restart(&mut self)
        ensures { Reads self.new [] }
    {
        self.answered = Heard::More;
        self.count = 0;
        self.place = Place::Code(Digit::First);
        self.said.clear();
    }

    /// Whether nothing decided the answer yet.
    fn needs_more(&self) -> bool
        ensures { IsTrue result ↔ (self.now.answered ≡ Heard.More) }
    {
        matches!(self.answered, Heard::More)
    }

    /// Reads the next byte.
    fn read_byte(&mut self, byte: u8)
        requires { self.old.answered ≡ Heard.More }
        ensures { (bytes : List ℕ) → Reads self.old bytes → Reads self.new (bytes ++ byte ∷ []) }
    {
        let next = self.said.read_byte(self.place, self.count, byte);
        self.answered = answer(next, self.count);
        self.place = next.place_behind(self.place);
        self.count = self.count.saturating_add(1);
    }
}

/// What the bytes are whose last byte, at this offset, made this of them.
fn answer(next: Next, at: usize) -> Heard
    ensures { result ≡ answer_of next at }
{
    match next {
        Next::Whole => Heard::Whole,
        Next::Bad => Heard::Bad(at),
        Next::Front(_) => {
            if at < REPLY_LIMIT - 1 {
                Heard::More
            } else {
                Heard::TooLong
            }
        }
    }
}
