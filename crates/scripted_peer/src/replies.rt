//! The replies of a scripted peer, by the keys that they are said at.
ghost use Rattle.std.specs.Prelude.{◌≡◌, ◌<◌, codes};

/// How many keys there are.
pub const KEY_COUNT: usize = 8;

/// What a reply is said at.
#[derive(Clone, Copy, Debug, PartialEq, Eq)]
pub enum Key {
    /// The opening of the link.
    Greet,
    Ehlo,
    Mail,
    Rcpt,
    Data,
    /// The end of the message's data.
    Body,
    Rset,
    Quit,
}

impl Key {
    /// The key's place among the counts of uses.
    pub fn place(self) -> usize
        ensures { result < 8 }
    {
        match self {
            Key::Greet => 0,
            Key::Ehlo => 1,
            Key::Mail => 2,
            Key::Rcpt => 3,
            Key::Data => 4,
            Key::Body => 5,
            Key::Rset => 6,
            Key::Quit => 7,
        }
    }
}

/// A peer's reply at each key, without its line end.
#[derive(Clone, Copy, Debug)]
pub struct PeerReplies {
    pub greet: &'static str,
    pub ehlo: &'static str,
    pub mail: &'static str,
    pub rcpt: &'static str,
    pub data: &'static str,
    pub body: &'static str,
    pub rset: &'static str,
    pub quit: &'static str,
}

impl PeerReplies {
    /// The replies of a peer that takes each message.
    pub fn new() -> PeerReplies
        ensures greet { result.greet.now ≡ codes "220 ready" }
        ensures takes { (result.ehlo.now ≡ codes "250 ok") × (result.mail.now ≡ codes "250 ok")
            × (result.rcpt.now ≡ codes "250 ok") }
        ensures message { (result.data.now ≡ codes "354 go") × (result.body.now ≡ codes "250 ok") }
        ensures ends { (result.rset.now ≡ codes "250 ok") × (result.quit.now ≡ codes "221 bye") }
    {
        PeerReplies {
            greet: "220 ready",
            ehlo: "250 ok",
            mail: "250 ok",
            rcpt: "250 ok",
            data: "354 go",
            body: "250 ok",
            rset: "250 ok",
            quit: "221 bye",
        }
    }

    /// The reply at a key.
    pub fn at(self, key: Key) -> &'static str {
        match key {
            Key::Greet => self.greet,
            Key::Ehlo => self.ehlo,
            Key::Mail => self.mail,
            Key::Rcpt => self.rcpt,
            Key::Data => self.data,
            Key::Body => self.body,
            Key::Rset => self.rset,
            Key::Quit => self.quit,
        }
    }
}
