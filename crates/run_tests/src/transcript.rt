//! Runs of the program over devices in memory, and the transcript that shows them.
//!
//! A transcript has a line `$ WORD WORD ..` for each run. Behind it stand the output, the status and whether a history was
//! handed out, and where bytes went over the links these bytes.
use kumo_base::{Bytes, Text};
use kumo_disk::MemDisk;
use kumo_outside::{MemSink, MemTexts, RegexSearch};
use kumo_run::{ScriptedLinker, perform};
use std::alloc::Global;
use std::str::from_utf8;
use std::test::Fail;

/// Which calls of the devices fail: puts of the sink, calls of the search.
#[derive(Clone, Copy)]
pub(crate) struct Failing<'a> {
    pub puts: &'a [u64],
    pub searches: &'a [u64],
}

/// No call fails.
pub(crate) const NONE_FAILS: Failing<'_> = Failing {
    puts: &[],
    searches: &[],
};

/// What a run leaves.
#[derive(Drop)]
struct Left {
    status: u8,
    output: Vec<u8>,
    /// The bytes sent over all links.
    sent: Vec<u8>,
    has_history: bool,
}

/// Runs each command of a transcript, and gives the transcript of these runs.
pub(crate) fn replayed(
    alloc: Global,
    transcript: &str,
    texts: &str,
    failing: &Failing<'_>,
) -> Result<String, Fail> {
    let mut out = String::new(alloc);
    for line in transcript.lines() {
        if line.starts_with('$') {
            out.push_str(line)?;
            push_left(&mut out, &run(alloc, line, texts, failing)?)?;
        }
    }
    Ok(out)
}

/// Pushes what a run left.
fn push_left(out: &mut String, left: &Left) -> Result<(), Fail> {
    out.push('\n')?;
    out.push_str(from_utf8(left.output.as_slice())?)?;
    write!(out, "status {}", left.status)?;
    if left.has_history {
        out.push_str(", a history")?;
    }
    out.push('\n')?;
    push_sent(out, left.sent.as_slice())
}

/// Pushes the bytes that were sent, where there are some.
fn push_sent(out: &mut String, sent: &[u8]) -> Result<(), Fail> {
    if !sent.is_empty() {
        write!(out, "sent {:?}\n", from_utf8(sent)?)?;
    }
    Ok(())
}

/// Runs the program on the words of a transcript's line, over the texts of these sections.
fn run(alloc: Global, line: &str, texts: &str, failing: &Failing<'_>) -> Result<Left, Fail> {
    let words = words_of(alloc, line)?;
    let mut texts = shelf_of(alloc, texts)?;
    let mut out = MemSink::new(alloc, Vec::from_slice(alloc, failing.puts)?);
    let search = RegexSearch::new(alloc, Vec::from_slice(alloc, failing.searches)?);
    let finished = perform(
        alloc,
        words.as_slice(),
        &mut texts,
        &mut out,
        MemDisk::new(alloc),
        (),
        search,
    );
    Ok(Left {
        status: finished.status,
        output: Vec::from_slice(alloc, out.bytes())?,
        sent: sent_over(alloc, finished.peers.as_slice())?,
        has_history: finished.history.is_some(),
    })
}

/// The words of a line, after its `$`.
fn words_of(alloc: Global, line: &str) -> Result<Vec<Text>, Fail> {
    let mut words = Vec::new(alloc);
    for word in line.split(' ') {
        if word != "$" {
            words.push(Text::of(alloc, word)?)?;
        }
    }
    Ok(words)
}

/// The texts of sections: behind a line end `== NAME`, and on the next lines the text, up to the line end before the next
/// section.
fn shelf_of(alloc: Global, sections: &str) -> Result<MemTexts, Fail> {
    let mut texts = Vec::new(alloc);
    for section in sections.split("\n== ") {
        if let Some((name, text)) = section.split_once('\n') {
            texts.push(named(alloc, name, text)?)?;
        }
    }
    Ok(MemTexts::new(texts, Vec::new(alloc)))
}

/// A text and its name.
fn named(alloc: Global, name: &str, text: &str) -> Result<(Text, Bytes), Fail> {
    let bytes = Vec::from_slice(alloc, text.as_bytes())?;
    Ok((Text::of(alloc, name)?, Bytes::of(bytes)))
}

/// A shelf with one text.
pub(crate) fn shelf_with(alloc: Global, name: &str, text: &str) -> Result<MemTexts, Fail> {
    let mut texts = Vec::new(alloc);
    texts.push(named(alloc, name, text)?)?;
    Ok(MemTexts::new(texts, Vec::new(alloc)))
}

/// The bytes sent over the links of these linkers, one link after the other.
pub(crate) fn sent_over(alloc: Global, linkers: &[ScriptedLinker]) -> Result<Vec<u8>, Fail> {
    let mut sent = Vec::new(alloc);
    for linker in linkers {
        for session in linker.sessions() {
            sent.extend_from_slice(session.sent.as_slice())?;
        }
    }
    Ok(sent)
}
