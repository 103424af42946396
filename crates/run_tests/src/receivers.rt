//! Receivers that refuse.
use crate::transcript::{sent_over, shelf_with};
use kumo_run::{PeerReplies, Refusal, send_mail_text};
use std::alloc::Global;
use std::test::Fail;

const MAIL: &str =
    r#"{"id":"00000000-0000-0000-0000-000000000001","created":0,"sender":"s@b.example","recipient":"u@a.example","body":"hi"}"#;

/// Whether a receiver that replies so takes the message, and the bytes that it heard.
fn talk(alloc: Global, says: PeerReplies) -> Result<(bool, Vec<u8>), Fail> {
    let mut texts = shelf_with(alloc, "m", MAIL)?;
    let mut peers = Vec::new(alloc);
    let is_taken = match send_mail_text(alloc, "m", &mut texts, says, &mut peers) {
        Ok(_) => true,
        Err(Refusal::NotYetReply) => false,
        Err(_) => return Err(Fail::new("refused for another reason")),
    };
    Ok((is_taken, sent_over(alloc, peers.as_slice())?))
}

/// A receiver that will take mail from this sender later.
fn later() -> PeerReplies {
    PeerReplies {
        mail: "450 later",
        ..PeerReplies::new()
    }
}

/// A receiver that takes no mail.
fn closed() -> PeerReplies {
    PeerReplies {
        greet: "554-no\r\n554 never",
        ..PeerReplies::new()
    }
}

/// A receiver whose reply has two codes.
fn other_code() -> PeerReplies {
    PeerReplies {
        ehlo: "250-a\r\n251 b",
        ..PeerReplies::new()
    }
}

/// What receivers hear that do not take the message.
fn refusing() -> [(PeerReplies, &'static str); 3] {
    [
        (
            later(),
            "EHLO localhost\r\nMAIL FROM:<s@b.example>\r\nRSET\r\nQUIT\r\n",
        ),
        (closed(), ""),
        (other_code(), "EHLO localhost\r\n"),
    ]
}

#[test]
fn a_receiver_that_refuses(rt: HostRuntime) -> Result<(), Fail> {
    for (says, wanted) in refusing() {
        let (is_taken, heard) = talk(rt.alloc(), says)?;
        assert!(rt; !is_taken);
        assert_eq!(rt; heard.as_slice(), wanted.as_bytes());
    }
    Ok(())
}
