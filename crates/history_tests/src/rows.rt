//! Histories that operators know, as texts: the shaping file, the stops, the entries and the log of each.
//!
//! `reader.rt` tells how a history is written. Lines that begin with `! ` are of entries that may not follow at that place. The
//! logs stand as the format of the log's lines gives them, and not as the program prints them.
//!
//! Each history has a function of its own, which says nothing of its texts: so no proof but that function's own has the texts in
//! it, and the walk over all of them is proved in a moment.
mod limits;
mod orders;
mod retries;

use std::alloc::Global;
use std::test::Fail;

/// A history.
#[derive(Drop)]
pub(crate) struct Row {
    pub name: &'static str,
    /// The shaping file.
    pub shaping: &'static str,
    /// The moments at which the run stops, of which the last is its horizon.
    pub stops: &'static str,
    pub history: &'static str,
    pub log: &'static str,
}

/// The stops of a run that stops nowhere before the latest moment.
const LATEST: &str = "9007199254740991";

/// All of them.
pub(crate) fn rows(alloc: Global) -> Result<Vec<Row>, Fail> {
    let mut rows = Vec::new(alloc);
    rows.push(one_message_is_delivered())?;
    rows.push(empty_mail())?;
    rows.push(refused_recipient_bounces())?;
    rows.push(retries::retries_double_until_expiry())?;
    rows.push(retries::horizon_ends_the_work())?;
    rows.push(retries::second_run_recovers())?;
    rows.push(retries::refused_connections_delay())?;
    rows.push(limits::message_rate_spaces_attempts())?;
    rows.push(limits::lowered_connection_limit_sheds())?;
    rows.push(limits::ready_limit_and_one_delivery_a_connection())?;
    rows.push(limits::kept_connection_is_used_again())?;
    rows.push(limits::idle_connection_is_closed())?;
    rows.push(orders::suspension_holds())?;
    rows.push(orders::resume_frees())?;
    rows.push(orders::bounce_meets_a_message_in_flight())?;
    Ok(rows)
}

/// One message is delivered.
fn one_message_is_delivered() -> Row {
    Row {
        name: "one_message_is_delivered",
        shaping: "",
        stops: LATEST,
        history: ONE_MESSAGE,
        log: ONE_MESSAGE_LOG,
    }
}

const ONE_MESSAGE: &str = "0 0 accepted 1
! 0 0 opened 1 unspecified->a.example 0
! 0 0 promoted 2 unspecified
0 0 promoted 1 unspecified
! 0 0 begun 1 1 0
! 0 0 opened 1 unspecified->b.example 0
0 0 opened 1 unspecified->a.example 0
! 0 0 begun 1 2 0
! 0 0 begun 2 1 0
0 0 begun 1 1 0
! 0 0 closed 1 Empty
! 0 0 ended 1 1 delivered expired 250 ok
0 0 ended 1 1 delivered settled 250 ok
! 0 0 begun 1 1 0
! 0 0 stopped
0 0 closed 1 Empty
! 0 0 rested 604800001
0 0 stopped
! 0 0 accepted 2
";

const ONE_MESSAGE_LOG: &str =
    r#"{"at":0,"body":"hi","by":0,"created":0,"id":"00000000-0000-0000-0000-000000000001","kind":"Reception","queue":"a.example","recipient":"u@a.example","sender":"s@b.example"}
{"at":0,"by":0,"id":"00000000-0000-0000-0000-000000000001","kind":"Promoted","source":"unspecified"}
{"at":0,"by":0,"conn":1,"key":0,"kind":"Opened","path":"unspecified->a.example"}
{"at":0,"by":0,"conn":1,"id":"00000000-0000-0000-0000-000000000001","key":0,"kind":"Begun"}
{"at":0,"by":0,"conn":1,"id":"00000000-0000-0000-0000-000000000001","kind":"Delivery","reply":"250 ok"}
{"at":0,"by":0,"cause":"Empty","conn":1,"kind":"Closed"}
{"at":0,"by":0,"kind":"Stopped"}
"#;

/// Without a message the work ends at once.
fn empty_mail() -> Row {
    Row {
        name: "empty_mail",
        shaping: "",
        stops: LATEST,
        history: EMPTY_MAIL,
        log: EMPTY_MAIL_LOG,
    }
}

const EMPTY_MAIL: &str = "! 0 0 opened 1 unspecified->a.example 0
! 0 0 promoted 1 unspecified
! 0 0 closed 1 Empty
! 0 0 rested 9007199254740991
0 0 stopped
! 0 0 stopped
";

const EMPTY_MAIL_LOG: &str = r#"{"at":0,"by":0,"kind":"Stopped"}
"#;

/// A message is refused for good, and the next one is delivered over the same connection.
fn refused_recipient_bounces() -> Row {
    Row {
        name: "refused_recipient_bounces",
        shaping: "",
        stops: LATEST,
        history: REFUSED_RECIPIENT,
        log: REFUSED_RECIPIENT_LOG,
    }
}

const REFUSED_RECIPIENT: &str = "0 0 accepted 1
0 0 accepted 2
0 0 promoted 1 unspecified
0 0 promoted 2 unspecified
0 0 opened 1 unspecified->a.example 0
0 0 begun 1 1 0
! 0 0 begun 1 2 0
! 0 0 ended 1 2 permanent settled 550 no
! 0 0 ended 1 1 permanent 1200000 550 no
0 0 ended 1 1 permanent settled 550 no
! 0 0 begun 1 1 0
! 0 0 opened 2 unspecified->a.example 0
0 0 begun 1 2 0
0 0 ended 1 2 delivered settled 250 ok
0 0 closed 1 Empty
0 0 stopped
";

const REFUSED_RECIPIENT_LOG: &str =
    r#"{"at":0,"body":"hi","by":0,"created":0,"id":"00000000-0000-0000-0000-000000000001","kind":"Reception","queue":"a.example","recipient":"u@a.example","sender":"s@b.example"}
{"at":0,"body":"hi","by":0,"created":0,"id":"00000000-0000-0000-0000-000000000002","kind":"Reception","queue":"a.example","recipient":"u@a.example","sender":"s@b.example"}
{"at":0,"by":0,"id":"00000000-0000-0000-0000-000000000001","kind":"Promoted","source":"unspecified"}
{"at":0,"by":0,"id":"00000000-0000-0000-0000-000000000002","kind":"Promoted","source":"unspecified"}
{"at":0,"by":0,"conn":1,"key":0,"kind":"Opened","path":"unspecified->a.example"}
{"at":0,"by":0,"conn":1,"id":"00000000-0000-0000-0000-000000000001","key":0,"kind":"Begun"}
{"at":0,"by":0,"conn":1,"id":"00000000-0000-0000-0000-000000000001","kind":"Bounce","reply":"550 no"}
{"at":0,"by":0,"conn":1,"id":"00000000-0000-0000-0000-000000000002","key":0,"kind":"Begun"}
{"at":0,"by":0,"conn":1,"id":"00000000-0000-0000-0000-000000000002","kind":"Delivery","reply":"250 ok"}
{"at":0,"by":0,"cause":"Empty","conn":1,"kind":"Closed"}
{"at":0,"by":0,"kind":"Stopped"}
"#;
