//! A reply of a receiver, and what becomes of one attempt.
ghost use Rattle.std.specs.Prelude.{◌≡◌, ◌↔◌, ◌∷◌, [], bytes_eq, IsTrue};
ghost use Rattle.std.specs.List.{list_all};
ghost use Rattle.smtp_reply.specs.ReplyText.{IsProperOutcome, IsReplyOf, digits_of, is_printable, begins_with_code};

use kumo_base::{REPLY_TEXT_LIMIT, Text};

/// A whole reply (RFC 5321 section 4.2).
#[derive(Drop)]
pub struct Reply {
    /// The three digits, from 200 to 599.
    pub code: u16,
    /// The code and its text on one line, in printable ASCII, at most 512 bytes.
    pub text: Text,
}

/// Why an attempt had no reply that decides it.
#[derive(Clone, Copy, Debug, PartialEq, Eq)]
pub enum Lost {
    /// The link failed.
    LinkFault,
    /// The link ended before the reply was whole.
    Ended,
    /// What came is no reply, or none that may stand there.
    BadReply,
    /// The reply passed 4,096 bytes.
    TooLong,
}

/// What became of an attempt.
#[derive(Drop)]
pub enum Outcome {
    /// The receiver took the message (2yz).
    Delivered(Reply),
    /// The receiver refused it for now (4yz).
    Transient(Reply),
    /// The receiver refused it for good (5yz).
    Permanent(Reply),
    /// No reply decided it.
    Lost(Lost),
}

impl Outcome {
    /// Whether a reply is of the class that its outcome names (2yz, 4yz or 5yz) and its text is the code and then
    /// nothing, or a blank and at least one byte, in printable ASCII and at most 512 bytes.
    pub fn is_proper(&self) -> bool
        ensures { IsTrue result ↔ IsProperOutcome self.now }
    {
        match self {
            Outcome::Delivered(reply) => reply.is_of_class(2),
            Outcome::Transient(reply) => reply.is_of_class(4),
            Outcome::Permanent(reply) => reply.is_of_class(5),
            Outcome::Lost(_) => true,
        }
    }
}

impl Reply {
    /// Whether the code is of this class and the text keeps its rules.
    fn is_of_class(&self, class: u16) -> bool
        ensures { IsTrue result ↔ IsReplyOf class self.now }
    {
        self.code / 100 == class
            && begins_with_code(self.code, self.text.as_str().as_bytes())
            && is_all_printable(self.text.as_str().as_bytes())
            && self.text.as_str().len() <= REPLY_TEXT_LIMIT
    }
}

/// Whether a text is the three digits of the code and then nothing, or a blank and something.
fn begins_with_code(code: u16, text: &[u8]) -> bool
    ensures { result ≡ begins_with_code code text.now }
{
    match text {
        [first, second, third] => are_digits_of(code, *first, *second, *third),
        [first, second, third, blank, more @ ..] => {
            are_digits_of(code, *first, *second, *third) && *blank == b' ' && !more.is_empty()
        }
        _ => false,
    }
}

/// Whether three bytes are the digits of a code.
fn are_digits_of(code: u16, first: u8, second: u8, third: u8) -> bool
    ensures { result ≡ bytes_eq (first ∷ second ∷ third ∷ []) (digits_of code) }
{
    u16::from(first) == 48 + code / 100
        && u16::from(second) == 48 + code / 10 % 10
        && u16::from(third) == 48 + code % 10
}

/// Whether all bytes are printable ASCII.
fn is_all_printable(text: &[u8]) -> bool
    ensures { result ≡ list_all is_printable text.now }
{
    text.iter().all(|byte| b' ' <= *byte && *byte <= b'~')
}
