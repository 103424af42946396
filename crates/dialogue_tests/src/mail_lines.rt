//! Mail lines as they are written: with and without a campaign and a tenant, with escapes, and read once again.
use kumo_base::{Memory, Text};
use mail_input::{mail_line, read_mail};
use queue_name::{Message, QueueName};
use std::alloc::Global;
use std::test::Fail;

/// A message in a queue.
fn message(
    alloc: Global,
    id: u128,
    created: u64,
    recipient: &str,
    queue: &str,
    body: &str,
) -> Result<Message, Fail> {
    Ok(Message {
        id,
        created,
        sender: Text::of(alloc, "s@b.example")?,
        recipient: Text::of(alloc, recipient)?,
        name: QueueName::parse(alloc, queue)?,
        body: Text::of(alloc, body)?,
    })
}

/// A plain message, one with a campaign, a tenant and bytes that are escaped, and one with a tenant and no sender.
fn table(alloc: Global) -> Result<Vec<Message>, Fail> {
    let text = "one\r\n\"two\" \\ \u{1}\t\u{e9}";
    let mut third = message(alloc, 18, 60_000, "u@A.Example", "t@a.example", "")?;
    third.sender = Text::new(alloc);
    let mut messages = Vec::new(alloc);
    messages.push(message(alloc, 1, 0, "u@a.example", "a.example", "hi")?)?;
    messages.push(message(
        alloc,
        0x0123_4567_89AB_CDEF_FEDC_BA98_7654_3210,
        9_007_199_254_740_991,
        "v@a.example",
        "c:t@a.example",
        text,
    )?)?;
    messages.push(third)?;
    Ok(messages)
}

/// The lines of messages, one behind another.
fn lines_of(alloc: Global, messages: &[Message]) -> Result<Text, Memory> {
    let mut text = Text::new(alloc);
    for message in messages {
        mail_line(alloc, message, &mut text)?;
    }
    Ok(text)
}

const WANTED: &str =
    r#"{"body":"hi","created":0,"id":"00000000-0000-0000-0000-000000000001","recipient":"u@a.example","sender":"s@b.example"}
{"body":"one\r\n\"two\" \\ \u0001\té","campaign":"c","created":9007199254740991,"id":"01234567-89ab-cdef-fedc-ba9876543210","recipient":"v@a.example","sender":"s@b.example","tenant":"t"}
{"body":"","created":60000,"id":"00000000-0000-0000-0000-000000000012","recipient":"u@A.Example","sender":"","tenant":"t"}
"#;

#[test]
fn messages_have_their_lines(rt: HostRuntime) -> Result<(), Fail> {
    let messages = table(rt.alloc())?;
    assert_eq!(rt; lines_of(rt.alloc(), messages.as_slice())?.as_str(), WANTED);
    Ok(())
}

#[test]
fn written_lines_are_read(rt: HostRuntime) -> Result<(), Fail> {
    let messages = read_mail(rt.alloc(), WANTED.as_bytes())?;
    assert_eq!(rt; messages.len(), 3);
    assert_eq!(rt; lines_of(rt.alloc(), messages.as_slice())?.as_str(), WANTED);
    Ok(())
}
