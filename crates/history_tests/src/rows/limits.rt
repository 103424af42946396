//! Limits of paths: rates, connections, ready messages, and how long a connection is kept.
use crate::rows::{LATEST, Row};

/// Two attempts a second: two at once, then one each half second, each time over a new connection.
pub(crate) fn message_rate_spaces_attempts() -> Row {
    Row {
        name: "message_rate_spaces_attempts",
        shaping: MESSAGE_RATE_SHAPING,
        stops: LATEST,
        history: MESSAGE_RATE,
        log: MESSAGE_RATE_LOG,
    }
}

const MESSAGE_RATE_SHAPING: &str = r#"["default"]
max_message_rate = "2/s"
"#;

const MESSAGE_RATE: &str = "0 0 accepted 1
0 0 accepted 2
0 0 accepted 3
0 0 accepted 4
! 0 0 promoted 2 unspecified
0 0 promoted 1 unspecified
0 0 promoted 2 unspecified
0 0 promoted 3 unspecified
0 0 promoted 4 unspecified
0 0 opened 1 unspecified->a.example 0
! 0 0 begun 1 2 0
0 0 begun 1 1 0
0 0 ended 1 1 delivered settled 250 ok
0 0 begun 1 2 0
0 0 ended 1 2 delivered settled 250 ok
! 499 0 begun 1 3 0
0 0 closed 1 Throttled
! 0 0 rested 501
0 0 rested 500
! 499 0 opened 2 unspecified->a.example 0
! 500 0 opened 2 other->a.example 0
500 0 opened 2 unspecified->a.example 0
! 500 0 begun 1 3 0
! 500 0 begun 2 4 0
500 0 begun 2 3 0
500 0 ended 2 3 delivered settled 250 ok
! 999 0 begun 2 4 0
500 0 closed 2 Throttled
500 0 rested 1000
! 999 0 opened 3 unspecified->a.example 0
1000 0 opened 3 unspecified->a.example 0
1000 0 begun 3 4 0
1000 0 ended 3 4 delivered settled 250 ok
1000 0 closed 3 Throttled
1000 0 stopped
";

const MESSAGE_RATE_LOG: &str =
    r#"{"at":0,"body":"hi","by":0,"created":0,"id":"00000000-0000-0000-0000-000000000001","kind":"Reception","queue":"a.example","recipient":"u@a.example","sender":"s@b.example"}
{"at":0,"body":"hi","by":0,"created":0,"id":"00000000-0000-0000-0000-000000000002","kind":"Reception","queue":"a.example","recipient":"u@a.example","sender":"s@b.example"}
{"at":0,"body":"hi","by":0,"created":0,"id":"00000000-0000-0000-0000-000000000003","kind":"Reception","queue":"a.example","recipient":"u@a.example","sender":"s@b.example"}
{"at":0,"body":"hi","by":0,"created":0,"id":"00000000-0000-0000-0000-000000000004","kind":"Reception","queue":"a.example","recipient":"u@a.example","sender":"s@b.example"}
{"at":0,"by":0,"id":"00000000-0000-0000-0000-000000000001","kind":"Promoted","source":"unspecified"}
{"at":0,"by":0,"id":"00000000-0000-0000-0000-000000000002","kind":"Promoted","source":"unspecified"}
{"at":0,"by":0,"id":"00000000-0000-0000-0000-000000000003","kind":"Promoted","source":"unspecified"}
{"at":0,"by":0,"id":"00000000-0000-0000-0000-000000000004","kind":"Promoted","source":"unspecified"}
{"at":0,"by":0,"conn":1,"key":0,"kind":"Opened","path":"unspecified->a.example"}
{"at":0,"by":0,"conn":1,"id":"00000000-0000-0000-0000-000000000001","key":0,"kind":"Begun"}
{"at":0,"by":0,"conn":1,"id":"00000000-0000-0000-0000-000000000001","kind":"Delivery","reply":"250 ok"}
{"at":0,"by":0,"conn":1,"id":"00000000-0000-0000-0000-000000000002","key":0,"kind":"Begun"}
{"at":0,"by":0,"conn":1,"id":"00000000-0000-0000-0000-000000000002","kind":"Delivery","reply":"250 ok"}
{"at":0,"by":0,"cause":"Throttled","conn":1,"kind":"Closed"}
{"at":0,"by":0,"kind":"Rested","until":500}
{"at":500,"by":0,"conn":2,"key":0,"kind":"Opened","path":"unspecified->a.example"}
{"at":500,"by":0,"conn":2,"id":"00000000-0000-0000-0000-000000000003","key":0,"kind":"Begun"}
{"at":500,"by":0,"conn":2,"id":"00000000-0000-0000-0000-000000000003","kind":"Delivery","reply":"250 ok"}
{"at":500,"by":0,"cause":"Throttled","conn":2,"kind":"Closed"}
{"at":500,"by":0,"kind":"Rested","until":1000}
{"at":1000,"by":0,"conn":3,"key":0,"kind":"Opened","path":"unspecified->a.example"}
{"at":1000,"by":0,"conn":3,"id":"00000000-0000-0000-0000-000000000004","key":0,"kind":"Begun"}
{"at":1000,"by":0,"conn":3,"id":"00000000-0000-0000-0000-000000000004","kind":"Delivery","reply":"250 ok"}
{"at":1000,"by":0,"cause":"Throttled","conn":3,"kind":"Closed"}
{"at":1000,"by":0,"kind":"Stopped"}
"#;

/// While two connections are open, each of a pass of its own, a reply lowers the limit to one.
pub(crate) fn lowered_connection_limit_sheds() -> Row {
    Row {
        name: "lowered_connection_limit_sheds",
        shaping: LOWERED_LIMIT_SHAPING,
        stops: LATEST,
        history: LOWERED_LIMIT,
        log: LOWERED_LIMIT_LOG,
    }
}

const LOWERED_LIMIT_SHAPING: &str = r#"["default"]
connection_limit = 2
[["default".automation]]
regex = 'slow down'
action = {SetConfig={name="connection_limit", value=1}}
duration = "1hr"
"#;

const LOWERED_LIMIT: &str = "0 0 accepted 1
0 0 accepted 2
0 0 accepted 3
0 0 promoted 1 unspecified
0 0 promoted 2 unspecified
0 0 promoted 3 unspecified
0 0 opened 1 unspecified->a.example 0
! 0 0 opened 2 unspecified->a.example 0
0 1 opened 2 unspecified->a.example 0
! 0 2 opened 3 unspecified->a.example 0
! 0 1 begun 1 1 0
0 0 begun 1 1 0
! 0 1 begun 2 3 0
0 1 begun 2 2 0
! 0 1 begun 2 3 0
0 0 ended 1 1 transient 1200000 451 slow down
! 0 0 begun 1 3 0
! 0 1 closed 1 Shed
0 0 closed 1 Shed
! 0 0 opened 3 unspecified->a.example 0
0 1 ended 2 2 delivered settled 250 ok
! 0 0 begun 2 3 0
0 1 begun 2 3 0
";

const LOWERED_LIMIT_LOG: &str =
    r#"{"at":0,"body":"hi","by":0,"created":0,"id":"00000000-0000-0000-0000-000000000001","kind":"Reception","queue":"a.example","recipient":"u@a.example","sender":"s@b.example"}
{"at":0,"body":"hi","by":0,"created":0,"id":"00000000-0000-0000-0000-000000000002","kind":"Reception","queue":"a.example","recipient":"u@a.example","sender":"s@b.example"}
{"at":0,"body":"hi","by":0,"created":0,"id":"00000000-0000-0000-0000-000000000003","kind":"Reception","queue":"a.example","recipient":"u@a.example","sender":"s@b.example"}
{"at":0,"by":0,"id":"00000000-0000-0000-0000-000000000001","kind":"Promoted","source":"unspecified"}
{"at":0,"by":0,"id":"00000000-0000-0000-0000-000000000002","kind":"Promoted","source":"unspecified"}
{"at":0,"by":0,"id":"00000000-0000-0000-0000-000000000003","kind":"Promoted","source":"unspecified"}
{"at":0,"by":0,"conn":1,"key":0,"kind":"Opened","path":"unspecified->a.example"}
{"at":0,"by":1,"conn":2,"key":0,"kind":"Opened","path":"unspecified->a.example"}
{"at":0,"by":0,"conn":1,"id":"00000000-0000-0000-0000-000000000001","key":0,"kind":"Begun"}
{"at":0,"by":1,"conn":2,"id":"00000000-0000-0000-0000-000000000002","key":0,"kind":"Begun"}
{"at":0,"by":0,"conn":1,"due":1200000,"id":"00000000-0000-0000-0000-000000000001","kind":"TransientFailure","reply":"451 slow down"}
{"at":0,"by":0,"cause":"Shed","conn":1,"kind":"Closed"}
{"at":0,"by":1,"conn":2,"id":"00000000-0000-0000-0000-000000000002","kind":"Delivery","reply":"250 ok"}
{"at":0,"by":1,"conn":2,"id":"00000000-0000-0000-0000-000000000003","key":0,"kind":"Begun"}
"#;

/// One ready message at a time, and one delivery a connection.
pub(crate) fn ready_limit_and_one_delivery_a_connection() -> Row {
    Row {
        name: "ready_limit_and_one_delivery_a_connection",
        shaping: READY_LIMIT_SHAPING,
        stops: LATEST,
        history: READY_LIMIT,
        log: READY_LIMIT_LOG,
    }
}

const READY_LIMIT_SHAPING: &str = r#"["default"]
max_ready = 1
max_deliveries_per_connection = 1
"#;

const READY_LIMIT: &str = "0 0 accepted 1
0 0 accepted 2
0 0 accepted 3
! 0 0 promoted 2 unspecified
0 0 promoted 1 unspecified
! 0 0 promoted 2 unspecified
0 0 opened 1 unspecified->a.example 0
! 0 0 begun 1 2 0
0 0 begun 1 1 0
0 0 ended 1 1 delivered settled 250 ok
! 0 0 begun 1 2 0
0 0 closed 1 Spent
! 0 0 opened 2 unspecified->a.example 0
0 0 promoted 2 unspecified
! 0 0 promoted 3 unspecified
0 0 opened 2 unspecified->a.example 0
! 0 0 begun 1 2 0
0 0 begun 2 2 0
0 0 ended 2 2 delivered settled 250 ok
0 0 closed 2 Spent
0 0 promoted 3 unspecified
0 0 opened 3 unspecified->a.example 0
0 0 begun 3 3 0
0 0 ended 3 3 delivered settled 250 ok
0 0 closed 3 Spent
0 0 stopped
";

const READY_LIMIT_LOG: &str =
    r#"{"at":0,"body":"hi","by":0,"created":0,"id":"00000000-0000-0000-0000-000000000001","kind":"Reception","queue":"a.example","recipient":"u@a.example","sender":"s@b.example"}
{"at":0,"body":"hi","by":0,"created":0,"id":"00000000-0000-0000-0000-000000000002","kind":"Reception","queue":"a.example","recipient":"u@a.example","sender":"s@b.example"}
{"at":0,"body":"hi","by":0,"created":0,"id":"00000000-0000-0000-0000-000000000003","kind":"Reception","queue":"a.example","recipient":"u@a.example","sender":"s@b.example"}
{"at":0,"by":0,"id":"00000000-0000-0000-0000-000000000001","kind":"Promoted","source":"unspecified"}
{"at":0,"by":0,"conn":1,"key":0,"kind":"Opened","path":"unspecified->a.example"}
{"at":0,"by":0,"conn":1,"id":"00000000-0000-0000-0000-000000000001","key":0,"kind":"Begun"}
{"at":0,"by":0,"conn":1,"id":"00000000-0000-0000-0000-000000000001","kind":"Delivery","reply":"250 ok"}
{"at":0,"by":0,"cause":"Spent","conn":1,"kind":"Closed"}
{"at":0,"by":0,"id":"00000000-0000-0000-0000-000000000002","kind":"Promoted","source":"unspecified"}
{"at":0,"by":0,"conn":2,"key":0,"kind":"Opened","path":"unspecified->a.example"}
{"at":0,"by":0,"conn":2,"id":"00000000-0000-0000-0000-000000000002","key":0,"kind":"Begun"}
{"at":0,"by":0,"conn":2,"id":"00000000-0000-0000-0000-000000000002","kind":"Delivery","reply":"250 ok"}
{"at":0,"by":0,"cause":"Spent","conn":2,"kind":"Closed"}
{"at":0,"by":0,"id":"00000000-0000-0000-0000-000000000003","kind":"Promoted","source":"unspecified"}
{"at":0,"by":0,"conn":3,"key":0,"kind":"Opened","path":"unspecified->a.example"}
{"at":0,"by":0,"conn":3,"id":"00000000-0000-0000-0000-000000000003","key":0,"kind":"Begun"}
{"at":0,"by":0,"conn":3,"id":"00000000-0000-0000-0000-000000000003","kind":"Delivery","reply":"250 ok"}
{"at":0,"by":0,"cause":"Spent","conn":3,"kind":"Closed"}
{"at":0,"by":0,"kind":"Stopped"}
"#;

/// A connection is kept until the rate admits the next message.
pub(crate) fn kept_connection_is_used_again() -> Row {
    Row {
        name: "kept_connection_is_used_again",
        shaping: KEPT_CONNECTION_SHAPING,
        stops: LATEST,
        history: KEPT_CONNECTION,
        log: KEPT_CONNECTION_LOG,
    }
}

const KEPT_CONNECTION_SHAPING: &str = r#"["default"]
max_message_rate = "1/s"
idle_timeout = "60s"
"#;

const KEPT_CONNECTION: &str = "0 0 accepted 1
0 0 accepted 2
0 0 promoted 1 unspecified
0 0 promoted 2 unspecified
0 0 opened 1 unspecified->a.example 0
0 0 begun 1 1 0
0 0 ended 1 1 delivered settled 250 ok
! 0 0 closed 1 Idle
! 0 0 rested 60000
0 0 rested 1000
! 999 0 begun 1 2 0
! 1000 0 opened 2 unspecified->a.example 0
! 1000 0 begun 2 2 0
1000 0 begun 1 2 0
1000 0 ended 1 2 delivered settled 250 ok
! 1000 0 stopped
1000 0 closed 1 Throttled
1000 0 stopped
";

const KEPT_CONNECTION_LOG: &str =
    r#"{"at":0,"body":"hi","by":0,"created":0,"id":"00000000-0000-0000-0000-000000000001","kind":"Reception","queue":"a.example","recipient":"u@a.example","sender":"s@b.example"}
{"at":0,"body":"hi","by":0,"created":0,"id":"00000000-0000-0000-0000-000000000002","kind":"Reception","queue":"a.example","recipient":"u@a.example","sender":"s@b.example"}
{"at":0,"by":0,"id":"00000000-0000-0000-0000-000000000001","kind":"Promoted","source":"unspecified"}
{"at":0,"by":0,"id":"00000000-0000-0000-0000-000000000002","kind":"Promoted","source":"unspecified"}
{"at":0,"by":0,"conn":1,"key":0,"kind":"Opened","path":"unspecified->a.example"}
{"at":0,"by":0,"conn":1,"id":"00000000-0000-0000-0000-000000000001","key":0,"kind":"Begun"}
{"at":0,"by":0,"conn":1,"id":"00000000-0000-0000-0000-000000000001","kind":"Delivery","reply":"250 ok"}
{"at":0,"by":0,"kind":"Rested","until":1000}
{"at":1000,"by":0,"conn":1,"id":"00000000-0000-0000-0000-000000000002","key":0,"kind":"Begun"}
{"at":1000,"by":0,"conn":1,"id":"00000000-0000-0000-0000-000000000002","kind":"Delivery","reply":"250 ok"}
{"at":1000,"by":0,"cause":"Throttled","conn":1,"kind":"Closed"}
{"at":1000,"by":0,"kind":"Stopped"}
"#;

/// A connection is kept, and closed when its idle timeout is over.
pub(crate) fn idle_connection_is_closed() -> Row {
    Row {
        name: "idle_connection_is_closed",
        shaping: IDLE_CONNECTION_SHAPING,
        stops: LATEST,
        history: IDLE_CONNECTION,
        log: IDLE_CONNECTION_LOG,
    }
}

const IDLE_CONNECTION_SHAPING: &str = r#"["default"]
max_message_rate = "1/s"
idle_timeout = "500ms"
"#;

const IDLE_CONNECTION: &str = "0 0 accepted 1
0 0 accepted 2
0 0 promoted 1 unspecified
0 0 promoted 2 unspecified
0 0 opened 1 unspecified->a.example 0
0 0 begun 1 1 0
0 0 ended 1 1 delivered settled 250 ok
! 0 0 rested 1000
0 0 rested 500
! 499 0 rested 1000
! 499 0 closed 1 Idle
! 500 0 closed 2 Idle
500 0 closed 1 Idle
500 0 rested 1000
! 999 0 opened 2 unspecified->a.example 0
1000 0 opened 2 unspecified->a.example 0
! 1000 0 begun 1 2 0
1000 0 begun 2 2 0
1000 0 ended 2 2 delivered settled 250 ok
! 1000 0 closed 2 Idle
1000 0 closed 2 Throttled
1000 0 stopped
";

const IDLE_CONNECTION_LOG: &str =
    r#"{"at":0,"body":"hi","by":0,"created":0,"id":"00000000-0000-0000-0000-000000000001","kind":"Reception","queue":"a.example","recipient":"u@a.example","sender":"s@b.example"}
{"at":0,"body":"hi","by":0,"created":0,"id":"00000000-0000-0000-0000-000000000002","kind":"Reception","queue":"a.example","recipient":"u@a.example","sender":"s@b.example"}
{"at":0,"by":0,"id":"00000000-0000-0000-0000-000000000001","kind":"Promoted","source":"unspecified"}
{"at":0,"by":0,"id":"00000000-0000-0000-0000-000000000002","kind":"Promoted","source":"unspecified"}
{"at":0,"by":0,"conn":1,"key":0,"kind":"Opened","path":"unspecified->a.example"}
{"at":0,"by":0,"conn":1,"id":"00000000-0000-0000-0000-000000000001","key":0,"kind":"Begun"}
{"at":0,"by":0,"conn":1,"id":"00000000-0000-0000-0000-000000000001","kind":"Delivery","reply":"250 ok"}
{"at":0,"by":0,"kind":"Rested","until":500}
{"at":500,"by":0,"cause":"Idle","conn":1,"kind":"Closed"}
{"at":500,"by":0,"kind":"Rested","until":1000}
{"at":1000,"by":0,"conn":2,"key":0,"kind":"Opened","path":"unspecified->a.example"}
{"at":1000,"by":0,"conn":2,"id":"00000000-0000-0000-0000-000000000002","key":0,"kind":"Begun"}
{"at":1000,"by":0,"conn":2,"id":"00000000-0000-0000-0000-000000000002","kind":"Delivery","reply":"250 ok"}
{"at":1000,"by":0,"cause":"Throttled","conn":2,"kind":"Closed"}
{"at":1000,"by":0,"kind":"Stopped"}
"#;
