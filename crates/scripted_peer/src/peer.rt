//! What a scripted peer hears and says over one link.
//!
//! `link.rt` hands it the bytes that the client sends. It keeps all that it heard and all that it said, and acts on each line
//! as soon as it is whole: a command gets the reply of its key, the data of a message is passed over up to its last line.
//! Which replies it gives is tested and not proved; that it tells what went over the link is proved. The one refusal is
//! `Memory`.
ghost use Rattle.std.specs.Prelude.{◌≡◌, ◌<◌, ◌≤◌, ◌++◌, length, take, [], IfOk, IfSome, OnOk, OnErr};
ghost use Rattle.scripted_peer.specs.inside.Begins.{Begins};

use crate::replies::{KEY_COUNT, Key, PeerReplies};
use kumo_base::Memory;
use std::alloc::Global;

/// The reply to a command that the peer does not know.
const UNKNOWN: &str = "500 what";

/// The commands, by their first word in capitals.
const COMMANDS: [(&[u8], Key); 6] = [
    (b"EHLO", Key::Ehlo),
    (b"MAIL", Key::Mail),
    (b"RCPT", Key::Rcpt),
    (b"DATA", Key::Data),
    (b"RSET", Key::Rset),
    (b"QUIT", Key::Quit),
];

/// What a line makes the peer do.
#[derive(Clone, Copy)]
enum Step {
    Say(Key),
    Refuse,
    Listen,
}

/// How far a peer came.
#[derive(Clone, Copy)]
struct Progress {
    /// How many of the heard bytes belong to lines that the peer has acted on.
    answered: usize,
    /// Whether the lines that come are a message's data.
    in_data: bool,
    /// How often each key was said.
    uses: [u32; KEY_COUNT],
}

/// The receiver's end of one link.
#[derive(Drop)]
pub struct Peer {
    replies: PeerReplies,
    /// All that the client sent.
    heard: Vec<u8>,
    /// All that the peer said, of which the client may have got a part.
    said: Vec<u8>,
    progress: Progress,
    ghost within: { progress.answered ≤ length heard.items },
}

impl Peer {
    /// A peer that has said its greeting.
    pub fn new(alloc: Global, replies: PeerReplies) -> Result<Peer, Memory>
        ensures { IfOk result (λ peer. peer.heard.items ≡ []) }
    {
        let mut peer = Peer {
            replies,
            heard: Vec::new(alloc),
            said: Vec::new(alloc),
            progress: Progress {
                answered: 0,
                in_data: false,
                uses: [0; KEY_COUNT],
            },
        };
        peer.say(Key::Greet)?;
        Ok(peer)
    }

    /// What the peer said so far.
    pub fn said(&self) -> &[u8]
        ensures { result.now ≡ self.now.said.items }
    {
        self.said.as_slice()
    }

    /// How often each key was said.
    pub fn uses(&self) -> [u32; KEY_COUNT] {
        self.progress.uses
    }

    /// What the peer heard, and the first bytes of what it said.
    pub fn into_heard_and_said(self, count: usize) -> (Vec<u8>, Vec<u8>)
        ensures heard { result.0.items ≡ self.heard.items }
        ensures said { result.1.items ≡ take count self.said.items }
    {
        let Peer {
            replies: _,
            heard,
            mut said,
            progress: _,
        } = self;
        said.truncate(count);
        (heard, said)
    }

    /// Hears bytes and acts on the lines that are whole by them. After `Memory` the peer is as it was.
    pub fn hear(&mut self, piece: &[u8]) -> Result<(), Memory>
        ensures heard { OnOk result (self.new.heard.items ≡ self.old.heard.items ++ piece.now) }
        ensures said { Begins self.old.said.items self.new.said.items }
        ensures err { OnErr result ((self.new.heard.items ≡ self.old.heard.items)
            × (self.new.said.items ≡ self.old.said.items)) }
    {
        let before = self.progress;
        let heard = self.heard.len();
        let said = self.said.len();
        self.heard.extend_from_slice(piece)?;
        let answered = self.answer();
        if answered.is_err() {
            self.progress = before;
            self.heard.truncate(heard);
            self.said.truncate(said);
        }
        answered
    }

    /// Acts on each whole line that was heard. After `Memory` it may have acted on some of them.
    fn answer(&mut self) -> Result<(), Memory>
        ensures heard { self.new.heard.items ≡ self.old.heard.items }
        ensures said { Begins self.old.said.items self.new.said.items }
    {
        while let Some((line, answered)) = next_line(&self.heard, self.progress.answered) {
            let step = step_at(line, self.progress.in_data);
            self.progress.answered = answered;
            self.act(step)?;
        }
        Ok(())
    }

    fn act(&mut self, step: Step) -> Result<(), Memory>
        ensures heard { self.new.heard.items ≡ self.old.heard.items }
        ensures said { Begins self.old.said.items self.new.said.items }
        ensures answered { self.new.progress.answered ≡ self.old.progress.answered }
    {
        match step {
            Step::Say(key) => self.say(key),
            Step::Refuse => self.say_line(UNKNOWN),
            Step::Listen => Ok(()),
        }
    }

    /// Says the reply at a key, and counts its use.
    fn say(&mut self, key: Key) -> Result<(), Memory>
        ensures heard { self.new.heard.items ≡ self.old.heard.items }
        ensures said { Begins self.old.said.items self.new.said.items }
        ensures answered { self.new.progress.answered ≡ self.old.progress.answered }
    {
        let text = self.replies.at(key);
        self.say_line(text)?;
        let place = key.place();
        self.progress.uses[place] = self.progress.uses[place].saturating_add(1);
        self.progress.in_data = key == Key::Data && text.as_bytes().starts_with(b"354");
        Ok(())
    }

    fn say_line(&mut self, text: &str) -> Result<(), Memory>
        ensures heard { self.new.heard.items ≡ self.old.heard.items }
        ensures said { Begins self.old.said.items self.new.said.items }
        ensures answered { self.new.progress ≡ self.old.progress }
    {
        self.said.extend_from_slice(text.as_bytes())?;
        self.said.extend_from_slice(b"\r\n")?;
        Ok(())
    }
}

/// The first whole line from a place on, without its line end, and where the next begins.
fn next_line(heard: &[u8], from: usize) -> Option<(&[u8], usize)>
    requires { from ≤ length heard.now }
    ensures { IfSome result (λ found. (from < found.1) × (found.1 ≤ length heard.now)) }
{
    let (_, rest) = heard.split_at(from);
    match line_end(rest) {
        Some(end) => {
            let (line, _) = rest.split_at(end);
            Some((without_return(line), from + end + 1))
        }
        None => None,
    }
}

/// Where the first line feed stands.
fn line_end(bytes: &[u8]) -> Option<usize>
    ensures { IfSome result (λ end. end < length bytes.now) }
{
    bytes.iter().position(|b| *b == b'\n')
}

/// A line without the carriage return at its end.
fn without_return(line: &[u8]) -> &[u8] {
    match line.last() {
        Some(b'\r') => {
            let (front, _) = line.split_at(line.len() - 1);
            front
        }
        _ => line,
    }
}

/// What a line makes the peer do.
fn step_at(line: &[u8], in_data: bool) -> Step {
    if in_data {
        return if line == b".".as_slice() {
            Step::Say(Key::Body)
        } else {
            Step::Listen
        };
    }
    match key_of(first_word(line)) {
        Some(key) => Step::Say(key),
        None => Step::Refuse,
    }
}

/// What stands before the first blank.
fn first_word(line: &[u8]) -> &[u8] {
    match line.iter().position(|b| *b == b' ') {
        Some(end) => {
            let (word, _) = line.split_at(end);
            word
        }
        None => line,
    }
}

/// The key of a command's first word.
fn key_of(word: &[u8]) -> Option<Key> {
    for (command, key) in &COMMANDS {
        if word.eq_ignore_ascii_case(command) {
            return Some(*key);
        }
    }
    None
}
