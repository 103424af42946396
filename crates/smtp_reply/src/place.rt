//! Where in a line of a reply the next byte stands.
//!
//! The reader keeps one `Place` for the reply that it is in, and asks here what a byte makes of it: the next place, a whole
//! reply, or bytes with which no reply goes on. These are the steps of a machine whose meaning is the grammar on whole bytes.
//! Nothing takes memory.
ghost use Rattle.std.specs.Prelude.{◌≡◌, ◌∷◌, ◌++◌, ℕ, List, [], false};
ghost use Rattle.smtp_reply.specs.declared.said.Said.{Said};
ghost use Rattle.smtp_reply.specs.Reading.{Stands, Makes, after_digit, may_stand, next_place};

/// A digit of a code.
#[derive(Clone, Copy)]
pub(crate) enum Digit {
    First,
    Second,
    Third,
}

impl Digit {
    /// Whether a byte may stand there.
    pub(crate) fn may_be(self, byte: u8) -> bool
        ensures { result ≡ may_stand self byte }
    {
        let least = match self {
            Digit::First => b'2',
            Digit::Second | Digit::Third => b'0',
        };
        let greatest = match self {
            Digit::First => b'5',
            Digit::Second | Digit::Third => b'9',
        };
        least <= byte && byte <= greatest
    }

    /// The place behind it.
    pub(crate) fn behind(self) -> Place
        ensures { result ≡ after_digit self }
    {
        match self {
            Digit::First => Place::Code(Digit::Second),
            Digit::Second => Place::Code(Digit::Third),
            Digit::Third => Place::AfterCode,
        }
    }
}

/// The text of the line that is being read.
#[derive(Clone, Copy)]
pub(crate) struct LineText {
    /// Whether another line follows: `-` stands behind the code.
    pub goes_on: bool,
    /// Whether a byte of the text was kept.
    pub began: bool,
    /// Whether a carriage return waits: it belongs to the text unless LF follows.
    pub waits: bool,
}

/// Where the next byte stands.
#[derive(Clone, Copy)]
pub(crate) enum Place {
    /// At this digit of the line's code.
    Code(Digit),
    /// Behind the code.
    AfterCode,
    /// Behind the code and a carriage return.
    AfterReturn,
    /// In the text.
    Text(LineText),
}

/// What a byte makes of the front of a reply.
#[derive(Clone, Copy)]
pub(crate) enum Next {
    /// A whole reply.
    Whole,
    /// A longer front, whose next byte stands there.
    Front(Place),
    /// Bytes with which no reply goes on.
    Bad,
}

impl Next {
    /// The place of the next byte; it stays where no byte follows.
    pub(crate) fn place_behind(self, place: Place) -> Place
        ensures { result ≡ next_place self place }
    {
        match self {
            Next::Front(to) => to,
            Next::Whole | Next::Bad => place,
        }
    }
}

/// Reads the byte behind the code of a line.
pub(crate) fn after_code(byte: u8) -> Next
    ensures { (said : Said) (bytes : List ℕ) → Stands Place.AfterCode said bytes
        → Makes result said (bytes ++ byte ∷ []) }
{
    match byte {
        b'\n' => Next::Whole,
        b'\r' => Next::Front(Place::AfterReturn),
        b' ' => Next::Front(Place::Text(text_behind(false))),
        b'-' => Next::Front(Place::Text(text_behind(true))),
        _ => Next::Bad,
    }
}

/// A text of which nothing came.
fn text_behind(goes_on: bool) -> LineText
    ensures { result ≡ record { goes_on = goes_on; began = false; waits = false } }
{
    LineText {
        goes_on,
        began: false,
        waits: false,
    }
}

/// Reads the byte behind the code of a line and a carriage return.
pub(crate) fn after_return(byte: u8) -> Next
    ensures { (said : Said) (bytes : List ℕ) → Stands Place.AfterReturn said bytes
        → Makes result said (bytes ++ byte ∷ []) }
{
    if byte == b'\n' {
        Next::Whole
    } else {
        Next::Bad
    }
}
