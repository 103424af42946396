//! What scripted peers reply, and what their linker tells.
ghost use Rattle.std.specs.Prelude.{◌≡◌};

use kumo_outside::{Link, Linker};
use scripted_peer::{PeerReplies, ScriptedLink, ScriptedLinker};
use std::alloc::Global;
use std::test::Fail;

/// What a link gives, as far as one buffer goes.
fn heard(alloc: Global, link: &mut ScriptedLink) -> Result<Vec<u8>, Fail>
    ensures { link.new.opening ≡ link.old.opening }
{
    let mut buffer = [0; 64];
    let count = link.recv(&mut buffer)?;
    Ok(buffer[..count].to_vec(alloc)?)
}

/// Says the text, if it is not empty, and gives what is heard then.
fn answer(alloc: Global, link: &mut ScriptedLink, said: &str) -> Result<Vec<u8>, Fail>
    ensures { link.new.opening ≡ link.old.opening }
{
    if !said.is_empty() && link.send(said.as_bytes())? != said.len() {
        return Err(Fail::new("a text was not taken whole"));
    }
    heard(alloc, link)
}

/// What is said to a peer, and what it answers.
fn exchanges() -> [(&'static str, &'static str); 9] {
    [
        ("", "220 ready\r\n"),
        ("ehlo client.example\r\n", "250 ok\r\n"),
        ("MAIL FROM:<s@b.example>\r\n", "250 sender ok\r\n"),
        ("RCPT TO:<u@a.example>\r\nDATA\r\n", "250 ok\r\n354 go\r\n"),
        ("QUIT\r\n..\r\n", ""),
        (".\r", ""),
        ("\n", "250 2.0.0 kept\r\n"),
        ("VRFY u\n", "500 what\r\n"),
        ("QUIT\r\n", "221 bye\r\n"),
    ]
}

/// The place of the first exchange in which the peer answers otherwise, if there is one.
fn first_other_answer(alloc: Global, link: &mut ScriptedLink) -> Result<Option<usize>, Fail>
    ensures { link.new.opening ≡ link.old.opening }
{
    for (place, (said, wanted)) in exchanges().iter().enumerate() {
        if answer(alloc, link, said)?.as_slice() != wanted.as_bytes() {
            return Ok(Some(place));
        }
    }
    Ok(None)
}

/// A peer with replies of its own to MAIL and to a message.
fn own_replies() -> PeerReplies {
    let mut replies = PeerReplies::new();
    replies.mail = "250 sender ok";
    replies.body = "250 2.0.0 kept";
    replies
}

/// All that the exchanges say, and all that is answered.
const SAID: &str =
    "ehlo client.example\r\nMAIL FROM:<s@b.example>\r\nRCPT TO:<u@a.example>\r\nDATA\r\nQUIT\r\n..\r\n.\r\nVRFY u\nQUIT\r\n";

const ANSWERED: &str =
    "220 ready\r\n250 ok\r\n250 sender ok\r\n250 ok\r\n354 go\r\n250 2.0.0 kept\r\n500 what\r\n221 bye\r\n";

#[test]
fn plays_a_session(rt: HostRuntime) -> Result<(), Fail> {
    let mut linker = ScriptedLinker::new(rt.alloc(), own_replies());
    let mut link = linker.open("mx.example", "source")?;
    assert_eq!(rt; first_other_answer(rt.alloc(), &mut link)?, None);
    linker.done(link);
    let [session] = linker.sessions() else {
        return Err(Fail::new("not one session"));
    };
    assert_eq!(rt; session.host.as_str(), "mx.example");
    assert_eq!(rt; session.source.as_str(), "source");
    assert_eq!(rt; session.sent.as_slice(), SAID.as_bytes());
    assert_eq!(rt; session.got.as_slice(), ANSWERED.as_bytes());
    assert_eq!(rt; session.ended, false);
    assert_eq!(rt; session.uses, [0; 8]);
    Ok(())
}

/// Receives a whole buffer, the rest of a greeting, and the end.
fn hears_to_the_end(link: &mut ScriptedLink) -> Result<[usize; 3], Fail>
    ensures { link.new.opening ≡ link.old.opening }
{
    let mut buffer = [0; 6];
    let first = link.recv(&mut buffer)?;
    if buffer != *b"220 re" {
        return Err(Fail::new("another greeting"));
    }
    Ok([first, link.recv(&mut buffer)?, link.recv(&mut buffer)?])
}

#[test]
fn ends_where_nothing_is_left(rt: HostRuntime) -> Result<(), Fail> {
    let mut linker = ScriptedLinker::new(rt.alloc(), PeerReplies::new());
    let mut link = linker.open("a", "s")?;
    assert_eq!(rt; hears_to_the_end(&mut link)?, [6, 5, 0]);
    linker.done(link);
    let [session] = linker.sessions() else {
        return Err(Fail::new("not one session"));
    };
    assert_eq!(rt; session.ended, true);
    assert_eq!(rt; session.got.as_slice(), b"220 ready\r\n".as_slice());
    Ok(())
}
