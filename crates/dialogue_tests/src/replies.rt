//! Replies read in pieces, against worked rows.
use kumo_base::Room;
use smtp_reply::{Heard, ReplyReader};
use std::alloc::Global;
use std::process::Abort;
use std::test::Fail;

/// The bytes of a text, of which a proof knows nothing.
fn bytes_of(text: &str) -> &[u8] {
    text.as_bytes()
}

/// What was made of bytes on one line: how many of them were used, the answer, and the reply where it is whole.
fn shown(alloc: Global, used: usize, what: Heard, code: u16, text: &str) -> Result<String, Fail> {
    Ok(format!(in alloc; "{used} {what:?} {code} {text}")?)
}

/// What a reader makes of bytes that come in pieces of this length.
fn heard_by(
    alloc: Global,
    mut reader: ReplyReader,
    bytes: &[u8],
    length: usize,
) -> Result<String, Fail> {
    let mut used: usize = 0;
    for piece in bytes.chunks(length.max(1)) {
        let fed = reader.feed(piece);
        used = used.saturating_add(fed.used);
        if fed.what != Heard::More {
            return decided(alloc, reader, used, fed.what);
        }
        if fed.used != piece.len() {
            return shown(alloc, used, fed.what, 0, "and the piece is not used up");
        }
    }
    shown(alloc, used, Heard::More, 0, "")
}

/// What a reader says once it is decided, if it answers the same to whatever follows and uses nothing of it.
fn decided(
    alloc: Global,
    mut reader: ReplyReader,
    used: usize,
    what: Heard,
) -> Result<String, Fail> {
    let again = reader.feed(bytes_of("250 x\r\n"));
    if let Heard::Whole = again.what {
        let code = reader.code();
        let reply = reader.take();
        if code != reply.code || again.used != 0 || again.what != what {
            return shown(alloc, used, what, code, "and then another");
        }
        return shown(alloc, used, what, code, reply.text.as_str());
    }
    if again.used != 0 || again.what != what {
        return shown(alloc, used, what, 0, "and then another");
    }
    shown(alloc, used, what, 0, "")
}

/// Reads bytes in pieces of 1, 2, 3 and all bytes.
fn must_be(rt: &impl Abort, alloc: Global, bytes: &[u8], wanted: &str) -> Result<(), Fail> {
    for length in [1, 2, 3, bytes.len()] {
        let reader = ReplyReader::new(Room::new(alloc)?);
        let found = heard_by(alloc, reader, bytes, length)?;
        assert_eq!(rt; found.as_str(), wanted, "in {bytes:?} by {length}");
    }
    Ok(())
}

/// Bytes, and what they are: how many are used, the answer, the code and the text.
fn reply_rows() -> [(&'static str, &'static str); 18] {
    [
        ("250\n", "4 Whole 250 250"),
        ("250\r\n", "5 Whole 250 250"),
        ("25x", "3 Bad(2) 0 "),
        ("250-a\r\n251", "10 Bad(9) 0 "),
        ("250-a\r\n250 b\r\n", "14 Whole 250 250 a b"),
        ("250\rx", "5 Bad(4) 0 "),
        ("2\n", "2 Bad(1) 0 "),
        ("250-\n250\n", "9 Whole 250 250"),
        ("250 \r\r\n", "7 Whole 250 250 ?"),
        ("250x", "4 Bad(3) 0 "),
        ("1", "1 Bad(0) 0 "),
        ("6", "1 Bad(0) 0 "),
        ("", "0 More 0 "),
        ("599 a\rb\tc\r\n250", "11 Whole 599 599 a?b?c"),
        ("421-\r\n421-\rx\r\n421 \n", "19 Whole 421 421 ?x"),
        ("250\r\r\n", "5 Bad(4) 0 "),
        ("250-a\n25\n", "9 Bad(8) 0 "),
        ("354 é\n", "7 Whole 354 354 ??"),
    ]
}

#[test]
fn replies_in_pieces(rt: HostRuntime) -> Result<(), Fail> {
    for (bytes, wanted) in reply_rows() {
        must_be(&rt, rt.alloc(), bytes.as_bytes(), wanted)?;
    }
    Ok(())
}
