//! What a reply said so far: its code and its text.
//!
//! The reader hands each byte of a reply to `read_byte`, which keeps the three digits of the first line and the text of all
//! lines (`one_line.rt`), and answers where the next byte stands (`place.rt`). A later line with another code is no reply.
//! Nothing takes memory.
ghost use Rattle.std.specs.Prelude.{◌≡◌, ◌≤◌, ◌<◌, ◌∷◌, ◌++◌, ℕ, List, [], length};
ghost use Rattle.smtp_reply.specs.Reading.{Stands, Makes, digits_in, digit_at, with_digit};
ghost use Rattle.smtp_reply.specs.Replies.{number_in};

use crate::one_line::OneLine;
use crate::place::{Digit, LineText, Next, Place, after_code, after_return};
use kumo_base::Room;

/// How many bytes a code has.
const CODE_LENGTH: usize = 3;

/// Three digits, as they came.
#[derive(Clone, Copy)]
pub(crate) struct Code {
    pub first: u8,
    pub second: u8,
    pub third: u8,
}

impl Code {
    /// The number that the digits write.
    pub(crate) fn number(&self) -> u16
        ensures { result ≡ number_in (digits_in self.now) }
    {
        u16::from(self.first.saturating_sub(b'0')) * 100
            + u16::from(self.second.saturating_sub(b'0')) * 10
            + u16::from(self.third.saturating_sub(b'0'))
    }

    /// The byte at a digit.
    fn at(&self, digit: Digit) -> u8
        ensures { result ≡ digit_at self.now digit }
    {
        match digit {
            Digit::First => self.first,
            Digit::Second => self.second,
            Digit::Third => self.third,
        }
    }

    /// Writes a digit.
    fn set(&mut self, digit: Digit, byte: u8)
        ensures { self.new ≡ with_digit self.old digit byte }
    {
        match digit {
            Digit::First => self.first = byte,
            Digit::Second => self.second = byte,
            Digit::Third => self.third = byte,
        }
    }
}

/// The code and the text of a reply so far.
#[derive(Drop)]
pub(crate) struct Said {
    pub code: Code,
    pub text: OneLine,
}

impl Said {
    /// Nothing yet, with an empty room for the text.
    pub(crate) fn new(room: Room) -> Said
        requires { room ≡ [] }
        ensures { result.text ≡ [] }
    {
        Said {
            code: Code {
                first: b'0',
                second: b'0',
                third: b'0',
            },
            text: OneLine::new(room),
        }
    }

    /// Forgets what was said.
    pub(crate) fn clear(&mut self)
        ensures { self.new.text ≡ [] }
    {
        self.text.clear();
    }

    /// Reads the next byte of a reply of which so many bytes came.
    pub(crate) fn read_byte(&mut self, place: Place, count: usize, byte: u8) -> Next
        ensures { (bytes : List ℕ) → length bytes ≡ count → Stands place self.old bytes
            → Makes result self.new (bytes ++ byte ∷ []) }
    {
        match place {
            Place::Code(digit) => {
                if count < CODE_LENGTH {
                    self.first_code(digit, byte)
                } else {
                    self.same_code(digit, byte)
                }
            }
            Place::AfterCode => after_code(byte),
            Place::AfterReturn => after_return(byte),
            Place::Text(line) => self.read_text(line, byte),
        }
    }

    /// Reads a digit of the first line's code.
    fn first_code(&mut self, digit: Digit, byte: u8) -> Next
        ensures { (bytes : List ℕ) → length bytes < CODE_LENGTH → Stands (Place.Code digit) self.old bytes
            → Makes result self.new (bytes ++ byte ∷ []) }
    {
        if !digit.may_be(byte) {
            return Next::Bad;
        }
        self.code.set(digit, byte);
        self.text.put(byte);
        Next::Front(digit.behind())
    }

    /// Reads a digit of a later line's code, which is the first line's.
    fn same_code(&self, digit: Digit, byte: u8) -> Next
        ensures { (bytes : List ℕ) → CODE_LENGTH ≤ length bytes → Stands (Place.Code digit) self.now bytes
            → Makes result self.now (bytes ++ byte ∷ []) }
    {
        if byte == self.code.at(digit) {
            Next::Front(digit.behind())
        } else {
            Next::Bad
        }
    }

    /// Reads a byte of a line's text, or the line feed behind it.
    fn read_text(&mut self, line: LineText, byte: u8) -> Next
        ensures { (bytes : List ℕ) → Stands (Place.Text line) self.old bytes
            → Makes result self.new (bytes ++ byte ∷ []) }
    {
        if byte != b'\n' {
            return Next::Front(Place::Text(self.text.read_text(line, byte)));
        }
        if line.goes_on {
            Next::Front(Place::Code(Digit::First))
        } else {
            Next::Whole
        }
    }
}
