//! Orders of an administrator.
use crate::rows::{LATEST, Row};

/// A suspension holds a message for five minutes.
pub(crate) fn suspension_holds() -> Row {
    Row {
        name: "suspension_holds",
        shaping: "",
        stops: "0 9007199254740991",
        history: SUSPENSION,
        log: SUSPENSION_LOG,
    }
}

const SUSPENSION: &str = "0 0 accepted 1
! 0 0 ordered 2 suspend a.example 300000 r
0 0 ordered 1 suspend a.example 300000 r
! 0 0 promoted 1 unspecified
! 0 0 rested 299999
0 0 rested 300000
! 299999 0 promoted 1 unspecified
! 300000 0 promoted 1 other
! 300000 0 resumed 1
300000 0 promoted 1 unspecified
300000 0 opened 1 unspecified->a.example 0
300000 0 begun 1 1 0
300000 0 ended 1 1 delivered settled 250 ok
300000 0 closed 1 Empty
300000 0 stopped
";

const SUSPENSION_LOG: &str =
    r#"{"at":0,"body":"hi","by":0,"created":0,"id":"00000000-0000-0000-0000-000000000001","kind":"Reception","queue":"a.example","recipient":"u@a.example","sender":"s@b.example"}
{"at":0,"by":0,"domain":"a.example","duration":300000,"kind":"Ordered","order":1,"reason":"r","what":"Suspend"}
{"at":0,"by":0,"kind":"Rested","until":300000}
{"at":300000,"by":0,"id":"00000000-0000-0000-0000-000000000001","kind":"Promoted","source":"unspecified"}
{"at":300000,"by":0,"conn":1,"key":0,"kind":"Opened","path":"unspecified->a.example"}
{"at":300000,"by":0,"conn":1,"id":"00000000-0000-0000-0000-000000000001","key":0,"kind":"Begun"}
{"at":300000,"by":0,"conn":1,"id":"00000000-0000-0000-0000-000000000001","kind":"Delivery","reply":"250 ok"}
{"at":300000,"by":0,"cause":"Empty","conn":1,"kind":"Closed"}
{"at":300000,"by":0,"kind":"Stopped"}
"#;

/// A suspension that is resumed holds no longer.
pub(crate) fn resume_frees() -> Row {
    Row {
        name: "resume_frees",
        shaping: "",
        stops: "0 100000 9007199254740991",
        history: RESUME,
        log: RESUME_LOG,
    }
}

const RESUME: &str = "0 0 accepted 1
0 0 ordered 1 suspend a.example 300000 r
! 0 0 rested 300000
0 0 rested 100000
! 99999 0 promoted 1 unspecified
! 100000 0 promoted 1 unspecified
! 100000 0 resumed 2
100000 0 resumed 1
! 100000 0 resumed 1
100000 0 promoted 1 unspecified
! 100000 0 opened 1 unspecified->b.example 0
100000 0 opened 1 unspecified->a.example 0
100000 0 begun 1 1 0
100000 0 ended 1 1 delivered settled 250 ok
100000 0 closed 1 Empty
100000 0 stopped
";

const RESUME_LOG: &str =
    r#"{"at":0,"body":"hi","by":0,"created":0,"id":"00000000-0000-0000-0000-000000000001","kind":"Reception","queue":"a.example","recipient":"u@a.example","sender":"s@b.example"}
{"at":0,"by":0,"domain":"a.example","duration":300000,"kind":"Ordered","order":1,"reason":"r","what":"Suspend"}
{"at":0,"by":0,"kind":"Rested","until":100000}
{"at":100000,"by":0,"kind":"Resumed","order":1}
{"at":100000,"by":0,"id":"00000000-0000-0000-0000-000000000001","kind":"Promoted","source":"unspecified"}
{"at":100000,"by":0,"conn":1,"key":0,"kind":"Opened","path":"unspecified->a.example"}
{"at":100000,"by":0,"conn":1,"id":"00000000-0000-0000-0000-000000000001","key":0,"kind":"Begun"}
{"at":100000,"by":0,"conn":1,"id":"00000000-0000-0000-0000-000000000001","kind":"Delivery","reply":"250 ok"}
{"at":100000,"by":0,"cause":"Empty","conn":1,"kind":"Closed"}
{"at":100000,"by":0,"kind":"Stopped"}
"#;

/// A bounce comes while one message is attempted and another waits. The attempt goes on to its reply.
pub(crate) fn bounce_meets_a_message_in_flight() -> Row {
    Row {
        name: "bounce_meets_a_message_in_flight",
        shaping: "",
        stops: LATEST,
        history: BOUNCE_IN_FLIGHT,
        log: BOUNCE_IN_FLIGHT_LOG,
    }
}

const BOUNCE_IN_FLIGHT: &str = "0 0 accepted 1
0 0 accepted 2
0 0 promoted 1 unspecified
0 0 promoted 2 unspecified
0 0 opened 1 unspecified->a.example 0
0 0 begun 1 1 0
! 0 0 resolved 2 bounced 1
0 0 ordered 1 bounce * 300000 r
! 0 0 resolved 1 bounced 1
! 0 0 resolved 2 bounced 2
! 0 0 resolved 2 expired
0 0 resolved 2 bounced 1
0 0 ended 1 1 transient 1200000 450 no
! 0 0 begun 1 2 0
! 0 0 begun 1 1 0
0 0 closed 1 Empty
! 0 0 stopped
0 0 resolved 1 bounced 1
! 0 0 resolved 1 bounced 1
0 0 stopped
";

const BOUNCE_IN_FLIGHT_LOG: &str =
    r#"{"at":0,"body":"hi","by":0,"created":0,"id":"00000000-0000-0000-0000-000000000001","kind":"Reception","queue":"a.example","recipient":"u@a.example","sender":"s@b.example"}
{"at":0,"body":"hi","by":0,"created":0,"id":"00000000-0000-0000-0000-000000000002","kind":"Reception","queue":"a.example","recipient":"u@a.example","sender":"s@b.example"}
{"at":0,"by":0,"id":"00000000-0000-0000-0000-000000000001","kind":"Promoted","source":"unspecified"}
{"at":0,"by":0,"id":"00000000-0000-0000-0000-000000000002","kind":"Promoted","source":"unspecified"}
{"at":0,"by":0,"conn":1,"key":0,"kind":"Opened","path":"unspecified->a.example"}
{"at":0,"by":0,"conn":1,"id":"00000000-0000-0000-0000-000000000001","key":0,"kind":"Begun"}
{"at":0,"by":0,"duration":300000,"kind":"Ordered","order":1,"reason":"r","what":"Bounce"}
{"at":0,"by":0,"id":"00000000-0000-0000-0000-000000000002","kind":"AdminBounce","order":1}
{"at":0,"by":0,"conn":1,"due":1200000,"id":"00000000-0000-0000-0000-000000000001","kind":"TransientFailure","reply":"450 no"}
{"at":0,"by":0,"cause":"Empty","conn":1,"kind":"Closed"}
{"at":0,"by":0,"id":"00000000-0000-0000-0000-000000000001","kind":"AdminBounce","order":1}
{"at":0,"by":0,"kind":"Stopped"}
"#;
