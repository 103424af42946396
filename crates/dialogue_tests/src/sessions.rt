//! Sessions against their transcripts, whatever pieces the bytes come in.
use crate::script::{go_through, wire};
use std::alloc::Global;
use std::process::Abort;
use std::test::Fail;

/// Goes through one session, and compares what was sent and what came of it.
fn must_go(
    rt: &impl Abort,
    alloc: Global,
    replies: &str,
    body: &str,
    piece: usize,
    sent: &str,
    came: &str,
) -> Result<(), Fail> {
    let course = go_through(alloc, replies, body, piece)?;
    assert_eq!(rt; course.came.as_str(), came, "at {replies}");
    assert_eq!(rt; course.sent.as_str(), sent, "at {replies}");
    Ok(())
}

/// The replies, the body, what is sent, and what comes of it; `|` stands for a line's end.
fn session_rows() -> [(&'static str, &'static str, &'static str, &'static str); 10] {
    [
        (
            "220 a|250 b|250 c|250 d|354 e|250 2.0.0 ok|221 f|",
            ".hi",
            "EHLO me|MAIL FROM:<s@a>|RCPT TO:<r@b>|DATA|..hi|.|QUIT|",
            "delivered 250 2.0.0 ok, alive",
        ),
        (
            "220-a|220 b|250-c|250-d e|250 f|250-g|250 h|250 i\n354-j|354|250-2.0.0|250-|250 o\tk|221-l|221 m|",
            "a||b",
            "EHLO me|MAIL FROM:<s@a>|RCPT TO:<r@b>|DATA|a||b|.|QUIT|",
            "delivered 250 2.0.0 o?k, alive",
        ),
        (
            "220 a|250|250 c|250 d|354 e\n250|221 f|",
            "",
            "EHLO me|MAIL FROM:<s@a>|RCPT TO:<r@b>|DATA|.|QUIT|",
            "delivered 250, alive",
        ),
        (
            "220 a|250 b|250 c|250 d|354 e|550-5.7.1|550 n\to|221 f|",
            "a\nb",
            "EHLO me|MAIL FROM:<s@a>|RCPT TO:<r@b>|DATA|a|b|.|QUIT|",
            "permanent 550 5.7.1 n?o, alive",
        ),
        (
            "220 a|250 b|450-4.2.0|450 later|250-d|250 e|221 f|",
            "a",
            "EHLO me|MAIL FROM:<s@a>|RSET|QUIT|",
            "transient 450 4.2.0 later, alive",
        ),
        (
            "220 a|250 b|250-c|251 d|",
            "a",
            "EHLO me|MAIL FROM:<s@a>|",
            "lost bad, dead",
        ),
        (
            "220 a|250 b|250 c|25",
            "a",
            "EHLO me|MAIL FROM:<s@a>|RCPT TO:<r@b>|",
            "lost ended, dead",
        ),
        (
            "220 a|250 b|250 c|250-d|",
            "a",
            "EHLO me|MAIL FROM:<s@a>|RCPT TO:<r@b>|",
            "lost ended, dead",
        ),
        ("554-no|554 way|", "a", "", "refused"),
        ("220 a|250-b|550 c|", "a", "EHLO me|", "refused"),
    ]
}

#[test]
fn sessions_go_as_their_transcripts(rt: HostRuntime) -> Result<(), Fail> {
    let alloc = rt.alloc();
    for (replies, body, sent, came) in session_rows() {
        let replies = wire(alloc, replies, "")?;
        let body = wire(alloc, body, "")?;
        let sent = wire(alloc, sent, "")?;
        for piece in [1, 2, 3, 4096] {
            must_go(
                &rt,
                alloc,
                replies.as_str(),
                body.as_str(),
                piece,
                sent.as_str(),
                came,
            )?;
        }
    }
    Ok(())
}
