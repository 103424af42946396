//! The devices in memory, of which chosen calls fail.
use kumo_base::{Bytes, Text};
use kumo_outside::{MemSink, MemTexts, Sink, Texts, put_all};
use std::alloc::Global;
use std::test::Fail;

/// The text `m`, of which the reads of these numbers fail.
fn shelf(alloc: Global, failing: Vec<u64>) -> Result<MemTexts, Fail> {
    let name = Text::of(alloc, "m")?;
    let bytes = Bytes::of(Vec::from_slice(alloc, b"abc")?);
    Ok(MemTexts::new(vec![in alloc; (name, bytes)]?, failing))
}

/// The answer of one read, and what then stands in the buffer.
fn shown_read(
    alloc: Global,
    texts: &mut MemTexts,
    name: &str,
    at: u64,
    buffer: &mut [u8; 2],
) -> Result<String, Fail> {
    let answer = texts.read(name, at, buffer);
    Ok(format!(in alloc; "{answer:?} {} {}", buffer[0], buffer[1])?)
}

/// The reads in their order, and what comes of each.
fn read_rows() -> [(&'static str, u64, &'static str); 5] {
    [
        ("m", 0, "Ok(2) 97 98"),
        ("m", 0, "Err(Failed) 97 98"),
        ("m", 2, "Ok(1) 99 98"),
        ("m", 3, "Ok(0) 99 98"),
        ("n", 0, "Err(Failed) 99 98"),
    ]
}

#[test]
fn chosen_reads_fail(rt: HostRuntime) -> Result<(), Fail> {
    let alloc = rt.alloc();
    let mut texts = shelf(alloc, vec![in alloc; 2]?)?;
    let mut buffer = [0; 2];
    for (name, at, wanted) in read_rows() {
        let found = shown_read(alloc, &mut texts, name, at, &mut buffer)?;
        assert_eq!(rt; found.as_str(), wanted, "{name} at {at}");
    }
    Ok(())
}

/// What comes of three puts into a sink, and what it then has.
fn shown_puts(alloc: Global, mut out: MemSink) -> Result<String, Fail> {
    let first = out.put(b"ab");
    let second = put_all(&mut out, b"cd");
    let third = put_all(&mut out, b"ef");
    let taken = std::str::from_utf8(out.bytes())?;
    Ok(format!(in alloc; "{first:?} {second:?} {third:?} {taken}")?)
}

#[test]
fn chosen_puts_fail(rt: HostRuntime) -> Result<(), Fail> {
    let alloc = rt.alloc();
    let out = MemSink::new(alloc, vec![in alloc; 2]?);
    assert_eq!(rt;
        shown_puts(alloc, out)?.as_str(),
        "Ok(2) Err(Failed) Ok(()) abef"
    );
    Ok(())
}
