//! The text of a reply on one line, cut to what is kept.
//!
//! `said.rt` writes the bytes of each line's text here as they come, and the reader hands the text out. It keeps a room that
//! was made before the reply came, so that no byte of a reply takes memory; what does not fit is dropped. It refuses nothing:
//! a byte that is not printable is kept as `?`.
ghost use Rattle.std.specs.Prelude.{◌≡◌, ◌≤◌, ◌<◌, ◌==◌, ◌||◌, ◌∷◌, ◌++◌, ℕ, List, [], length, take};
ghost use Rattle.smtp_reply.specs.Replies.{printable_of, shown_more, bytes_added, has_bytes};

use crate::place::LineText;
use kumo_base::{REPLY_TEXT_LIMIT, Room, Text};
use std::marker::Model;

/// A text that is written into a room; what does not fit is dropped.
#[derive(Drop)]
pub(crate) struct OneLine {
    room: Room,
    /// How many bytes the room has.
    count: usize,
}

impl Model for OneLine {
    ghost Value = { List ℕ };

    ghost view = { λ line. line.room };

    ghost invariant = { λ line. (line.count ≡ length line.room) × (line.count ≤ 512) };
}

impl OneLine {
    /// The empty text, in an empty room.
    pub(crate) fn new(room: Room) -> OneLine
        requires { room ≡ [] }
        ensures { result ≡ [] }
    {
        OneLine { room, count: 0 }
    }

    /// Appends an ASCII byte where there is room.
    #[tactic(auto, using(crate::proofs::CutLemmas::take_push, crate::proofs::CutLemmas::take_full))]
    pub(crate) fn put(&mut self, byte: u8)
        requires { byte < 128 }
        ensures { self.new ≡ take REPLY_TEXT_LIMIT (self.old ++ byte ∷ []) }
    {
        if self.count < REPLY_TEXT_LIMIT {
            self.room.push(byte);
            self.count += 1;
        }
    }

    /// Appends a byte of a line's text as it is shown, after a blank where the text begins with it.
    fn put_text(&mut self, began: bool, byte: u8)
        ensures { self.new ≡ take REPLY_TEXT_LIMIT (self.old ++ shown_more began (byte ∷ [])) }
    {
        if !began {
            self.put(b' ');
        }
        self.put(shown(byte));
    }

    /// Reads a byte of a line's text. A carriage return waits for the byte behind it.
    pub(crate) fn read_text(&mut self, line: LineText, byte: u8) -> LineText
        ensures text { self.new ≡ take REPLY_TEXT_LIMIT (self.old ++ shown_more line.began (bytes_added line.waits byte)) }
        ensures goes_on { result.goes_on ≡ line.goes_on }
        ensures began { result.began ≡ (line.began || has_bytes (bytes_added line.waits byte)) }
        ensures waits { result.waits ≡ (byte == 13) }
    {
        let _count = self.count; // read, so that its bound is known
        let mut began = line.began;
        if line.waits {
            self.put_text(began, b'\r');
            began = true;
        }
        if byte == b'\r' {
            return LineText {
                goes_on: line.goes_on,
                began,
                waits: true,
            };
        }
        self.put_text(began, byte);
        LineText {
            goes_on: line.goes_on,
            began: true,
            waits: false,
        }
    }

    /// The text that was written.
    pub(crate) fn into_text(self) -> Text
        ensures { result ≡ self }
    {
        let OneLine { room, .. } = self;
        room.into_text()
    }

    /// The room, empty.
    pub(crate) fn into_room(self) -> Room
        ensures { result ≡ [] }
    {
        let OneLine { mut room, .. } = self;
        room.clear();
        room
    }

    /// Empties the text.
    pub(crate) fn clear(&mut self)
        ensures { self.new ≡ [] }
    {
        self.room.clear();
        self.count = 0;
    }
}

/// The byte where it is printable, and else `?`.
fn shown(byte: u8) -> u8
    ensures value { result ≡ printable_of byte }
    ensures ascii { result < 128 }
{
    if b' ' <= byte && byte <= b'~' {
        byte
    } else {
        b'?'
    }
}
