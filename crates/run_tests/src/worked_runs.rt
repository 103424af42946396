//! Runs over devices in memory: what a run hands out and sends, and runs of which a device fails.
//!
//! What the program prints for words, mail and policy files is shown by the cases of `tests/`, on the built program.
use crate::transcript::{Failing, NONE_FAILS, replayed};
use std::test::Fail;

/// The texts that the runs read, by their names.
const TEXTS: &str = r#"
== one
{"id":"00000000-0000-0000-0000-000000000001","created":0,"sender":"s@b.example","recipient":"u@a.example","body":"hi"}

== shaping
[["default".automation]]
regex = 'too busy'
action = "Suspend"
trigger = "Immediate"
duration = "30 mins"
"#;

const DELIVERED: &str = r#"$ send --mail one
{"at":0,"body":"hi","by":0,"created":0,"id":"00000000-0000-0000-0000-000000000001","kind":"Reception","queue":"a.example","recipient":"u@a.example","sender":"s@b.example"}
{"at":0,"by":0,"id":"00000000-0000-0000-0000-000000000001","kind":"Promoted","source":"unspecified"}
{"at":0,"by":0,"conn":1,"key":0,"kind":"Opened","path":"unspecified->a.example"}
{"at":0,"by":0,"conn":1,"id":"00000000-0000-0000-0000-000000000001","key":0,"kind":"Begun"}
{"at":0,"by":0,"conn":1,"id":"00000000-0000-0000-0000-000000000001","kind":"Delivery","reply":"250 ok"}
{"at":0,"by":0,"cause":"Empty","conn":1,"kind":"Closed"}
{"at":0,"by":0,"kind":"Stopped"}
status 0, a history
sent "EHLO localhost\r\nMAIL FROM:<s@b.example>\r\nRCPT TO:<u@a.example>\r\nDATA\r\nhi\r\n.\r\nQUIT\r\n"
"#;

#[test]
fn one_message_delivered(rt: HostRuntime) -> Result<(), Fail> {
    let found = replayed(rt.alloc(), DELIVERED, TEXTS, &NONE_FAILS)?;
    assert_eq!(rt; found.as_str(), DELIVERED);
    Ok(())
}

/// The first put fails: of a log, of a refusal's line, which stays what it is, and of a report.
const NOTHING_WRITTEN: &str = r#"$ send --mail one
status 6, a history
sent "EHLO localhost\r\nMAIL FROM:<s@b.example>\r\nRCPT TO:<u@a.example>\r\nDATA\r\nhi\r\n.\r\nQUIT\r\n"
$ fly
status 2
$ check
status 6
"#;

#[test]
fn a_sink_that_fails(rt: HostRuntime) -> Result<(), Fail> {
    let first_put = Failing {
        puts: &[1],
        searches: &[],
    };
    let found = replayed(rt.alloc(), NOTHING_WRITTEN, TEXTS, &first_put)?;
    assert_eq!(rt; found.as_str(), NOTHING_WRITTEN);
    Ok(())
}

/// The first search fails.
const NOT_SEARCHED: &str = "$ check --shaping shaping
error: search fault
status 16
";

#[test]
fn a_search_that_fails(rt: HostRuntime) -> Result<(), Fail> {
    let first_search = Failing {
        puts: &[],
        searches: &[1],
    };
    let found = replayed(rt.alloc(), NOT_SEARCHED, TEXTS, &first_search)?;
    assert_eq!(rt; found.as_str(), NOT_SEARCHED);
    Ok(())
}
