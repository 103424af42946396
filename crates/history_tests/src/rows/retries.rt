//! Retries: waits that double, a horizon before the next attempt, the run after it, and refused connections.
use crate::rows::{LATEST, Row};

/// A message is put off at each attempt. The waits double from 20 minutes on; the ninth attempt is the last, since the next would
/// come after 7 days.
pub(crate) fn retries_double_until_expiry() -> Row {
    Row {
        name: "retries_double_until_expiry",
        shaping: "",
        stops: LATEST,
        history: DOUBLING_RETRIES,
        log: DOUBLING_RETRIES_LOG,
    }
}

const DOUBLING_RETRIES: &str = "0 0 accepted 1
0 0 promoted 1 unspecified
0 0 opened 1 unspecified->a.example 0
0 0 begun 1 1 0
! 0 0 ended 1 1 transient 1199999 451 later
! 0 0 ended 1 1 transient expired 451 later
0 0 ended 1 1 transient 1200000 451 later
0 0 closed 1 Empty
0 0 rested 1200000
! 1199999 0 promoted 1 unspecified
1200000 0 promoted 1 unspecified
1200000 0 opened 2 unspecified->a.example 0
! 1200000 0 begun 1 1 0
1200000 0 begun 2 1 0
! 1200000 0 ended 2 1 transient 2400000 451 later
! 1200000 0 ended 1 1 transient 3600000 451 later
1200000 0 ended 2 1 transient 3600000 451 later
1200000 0 closed 2 Empty
1200000 0 rested 3600000
! 3599999 0 promoted 1 unspecified
3600000 0 promoted 1 unspecified
3600000 0 opened 3 unspecified->a.example 0
3600000 0 begun 3 1 0
3600000 0 ended 3 1 transient 8400000 451 later
3600000 0 closed 3 Empty
3600000 0 rested 8400000
! 8399999 0 promoted 1 unspecified
8400000 0 promoted 1 unspecified
8400000 0 opened 4 unspecified->a.example 0
8400000 0 begun 4 1 0
8400000 0 ended 4 1 transient 18000000 451 later
8400000 0 closed 4 Empty
8400000 0 rested 18000000
! 17999999 0 promoted 1 unspecified
18000000 0 promoted 1 unspecified
18000000 0 opened 5 unspecified->a.example 0
18000000 0 begun 5 1 0
18000000 0 ended 5 1 transient 37200000 451 later
18000000 0 closed 5 Empty
18000000 0 rested 37200000
! 37199999 0 promoted 1 unspecified
37200000 0 promoted 1 unspecified
37200000 0 opened 6 unspecified->a.example 0
37200000 0 begun 6 1 0
37200000 0 ended 6 1 transient 75600000 451 later
37200000 0 closed 6 Empty
37200000 0 rested 75600000
! 75599999 0 promoted 1 unspecified
75600000 0 promoted 1 unspecified
75600000 0 opened 7 unspecified->a.example 0
75600000 0 begun 7 1 0
75600000 0 ended 7 1 transient 152400000 451 later
75600000 0 closed 7 Empty
75600000 0 rested 152400000
! 152399999 0 promoted 1 unspecified
152400000 0 promoted 1 unspecified
152400000 0 opened 8 unspecified->a.example 0
152400000 0 begun 8 1 0
152400000 0 ended 8 1 transient 306000000 451 later
152400000 0 closed 8 Empty
152400000 0 rested 306000000
! 305999999 0 promoted 1 unspecified
306000000 0 promoted 1 unspecified
306000000 0 opened 9 unspecified->a.example 0
306000000 0 begun 9 1 0
! 306000000 0 ended 9 1 transient 613200000 451 later
306000000 0 ended 9 1 transient expired 451 later
306000000 0 closed 9 Empty
! 306000000 0 promoted 1 unspecified
306000000 0 stopped
";

const DOUBLING_RETRIES_LOG: &str =
    r#"{"at":0,"body":"hi","by":0,"created":0,"id":"00000000-0000-0000-0000-000000000001","kind":"Reception","queue":"a.example","recipient":"u@a.example","sender":"s@b.example"}
{"at":0,"by":0,"id":"00000000-0000-0000-0000-000000000001","kind":"Promoted","source":"unspecified"}
{"at":0,"by":0,"conn":1,"key":0,"kind":"Opened","path":"unspecified->a.example"}
{"at":0,"by":0,"conn":1,"id":"00000000-0000-0000-0000-000000000001","key":0,"kind":"Begun"}
{"at":0,"by":0,"conn":1,"due":1200000,"id":"00000000-0000-0000-0000-000000000001","kind":"TransientFailure","reply":"451 later"}
{"at":0,"by":0,"cause":"Empty","conn":1,"kind":"Closed"}
{"at":0,"by":0,"kind":"Rested","until":1200000}
{"at":1200000,"by":0,"id":"00000000-0000-0000-0000-000000000001","kind":"Promoted","source":"unspecified"}
{"at":1200000,"by":0,"conn":2,"key":0,"kind":"Opened","path":"unspecified->a.example"}
{"at":1200000,"by":0,"conn":2,"id":"00000000-0000-0000-0000-000000000001","key":0,"kind":"Begun"}
{"at":1200000,"by":0,"conn":2,"due":3600000,"id":"00000000-0000-0000-0000-000000000001","kind":"TransientFailure","reply":"451 later"}
{"at":1200000,"by":0,"cause":"Empty","conn":2,"kind":"Closed"}
{"at":1200000,"by":0,"kind":"Rested","until":3600000}
{"at":3600000,"by":0,"id":"00000000-0000-0000-0000-000000000001","kind":"Promoted","source":"unspecified"}
{"at":3600000,"by":0,"conn":3,"key":0,"kind":"Opened","path":"unspecified->a.example"}
{"at":3600000,"by":0,"conn":3,"id":"00000000-0000-0000-0000-000000000001","key":0,"kind":"Begun"}
{"at":3600000,"by":0,"conn":3,"due":8400000,"id":"00000000-0000-0000-0000-000000000001","kind":"TransientFailure","reply":"451 later"}
{"at":3600000,"by":0,"cause":"Empty","conn":3,"kind":"Closed"}
{"at":3600000,"by":0,"kind":"Rested","until":8400000}
{"at":8400000,"by":0,"id":"00000000-0000-0000-0000-000000000001","kind":"Promoted","source":"unspecified"}
{"at":8400000,"by":0,"conn":4,"key":0,"kind":"Opened","path":"unspecified->a.example"}
{"at":8400000,"by":0,"conn":4,"id":"00000000-0000-0000-0000-000000000001","key":0,"kind":"Begun"}
{"at":8400000,"by":0,"conn":4,"due":18000000,"id":"00000000-0000-0000-0000-000000000001","kind":"TransientFailure","reply":"451 later"}
{"at":8400000,"by":0,"cause":"Empty","conn":4,"kind":"Closed"}
{"at":8400000,"by":0,"kind":"Rested","until":18000000}
{"at":18000000,"by":0,"id":"00000000-0000-0000-0000-000000000001","kind":"Promoted","source":"unspecified"}
{"at":18000000,"by":0,"conn":5,"key":0,"kind":"Opened","path":"unspecified->a.example"}
{"at":18000000,"by":0,"conn":5,"id":"00000000-0000-0000-0000-000000000001","key":0,"kind":"Begun"}
{"at":18000000,"by":0,"conn":5,"due":37200000,"id":"00000000-0000-0000-0000-000000000001","kind":"TransientFailure","reply":"451 later"}
{"at":18000000,"by":0,"cause":"Empty","conn":5,"kind":"Closed"}
{"at":18000000,"by":0,"kind":"Rested","until":37200000}
{"at":37200000,"by":0,"id":"00000000-0000-0000-0000-000000000001","kind":"Promoted","source":"unspecified"}
{"at":37200000,"by":0,"conn":6,"key":0,"kind":"Opened","path":"unspecified->a.example"}
{"at":37200000,"by":0,"conn":6,"id":"00000000-0000-0000-0000-000000000001","key":0,"kind":"Begun"}
{"at":37200000,"by":0,"conn":6,"due":75600000,"id":"00000000-0000-0000-0000-000000000001","kind":"TransientFailure","reply":"451 later"}
{"at":37200000,"by":0,"cause":"Empty","conn":6,"kind":"Closed"}
{"at":37200000,"by":0,"kind":"Rested","until":75600000}
{"at":75600000,"by":0,"id":"00000000-0000-0000-0000-000000000001","kind":"Promoted","source":"unspecified"}
{"at":75600000,"by":0,"conn":7,"key":0,"kind":"Opened","path":"unspecified->a.example"}
{"at":75600000,"by":0,"conn":7,"id":"00000000-0000-0000-0000-000000000001","key":0,"kind":"Begun"}
{"at":75600000,"by":0,"conn":7,"due":152400000,"id":"00000000-0000-0000-0000-000000000001","kind":"TransientFailure","reply":"451 later"}
{"at":75600000,"by":0,"cause":"Empty","conn":7,"kind":"Closed"}
{"at":75600000,"by":0,"kind":"Rested","until":152400000}
{"at":152400000,"by":0,"id":"00000000-0000-0000-0000-000000000001","kind":"Promoted","source":"unspecified"}
{"at":152400000,"by":0,"conn":8,"key":0,"kind":"Opened","path":"unspecified->a.example"}
{"at":152400000,"by":0,"conn":8,"id":"00000000-0000-0000-0000-000000000001","key":0,"kind":"Begun"}
{"at":152400000,"by":0,"conn":8,"due":306000000,"id":"00000000-0000-0000-0000-000000000001","kind":"TransientFailure","reply":"451 later"}
{"at":152400000,"by":0,"cause":"Empty","conn":8,"kind":"Closed"}
{"at":152400000,"by":0,"kind":"Rested","until":306000000}
{"at":306000000,"by":0,"id":"00000000-0000-0000-0000-000000000001","kind":"Promoted","source":"unspecified"}
{"at":306000000,"by":0,"conn":9,"key":0,"kind":"Opened","path":"unspecified->a.example"}
{"at":306000000,"by":0,"conn":9,"id":"00000000-0000-0000-0000-000000000001","key":0,"kind":"Begun"}
{"at":306000000,"by":0,"conn":9,"id":"00000000-0000-0000-0000-000000000001","kind":"Expiration","reply":"451 later"}
{"at":306000000,"by":0,"cause":"Empty","conn":9,"kind":"Closed"}
{"at":306000000,"by":0,"kind":"Stopped"}
"#;

/// The work ends at its horizon while a message waits for its second attempt.
pub(crate) fn horizon_ends_the_work() -> Row {
    Row {
        name: "horizon_ends_the_work",
        shaping: "",
        stops: "60000",
        history: HORIZON,
        log: HORIZON_LOG,
    }
}

const HORIZON: &str = "0 0 accepted 1
0 0 promoted 1 unspecified
0 0 opened 1 unspecified->a.example 0
0 0 begun 1 1 0
! 0 0 ended 2 1 transient 1200000 451 later
0 0 ended 1 1 transient 1200000 451 later
0 0 closed 1 Empty
! 0 0 rested 1200000
0 0 rested 60000
! 59999 0 stopped
! 60000 0 promoted 1 unspecified
60000 0 stopped
";

const HORIZON_LOG: &str =
    r#"{"at":0,"body":"hi","by":0,"created":0,"id":"00000000-0000-0000-0000-000000000001","kind":"Reception","queue":"a.example","recipient":"u@a.example","sender":"s@b.example"}
{"at":0,"by":0,"id":"00000000-0000-0000-0000-000000000001","kind":"Promoted","source":"unspecified"}
{"at":0,"by":0,"conn":1,"key":0,"kind":"Opened","path":"unspecified->a.example"}
{"at":0,"by":0,"conn":1,"id":"00000000-0000-0000-0000-000000000001","key":0,"kind":"Begun"}
{"at":0,"by":0,"conn":1,"due":1200000,"id":"00000000-0000-0000-0000-000000000001","kind":"TransientFailure","reply":"451 later"}
{"at":0,"by":0,"cause":"Empty","conn":1,"kind":"Closed"}
{"at":0,"by":0,"kind":"Rested","until":60000}
{"at":60000,"by":0,"kind":"Stopped"}
"#;

/// A later run over the spool of `horizon_ends_the_work`, to which the same message is handed in. It waits as it would have.
pub(crate) fn second_run_recovers() -> Row {
    Row {
        name: "second_run_recovers",
        shaping: "",
        stops: LATEST,
        history: SECOND_RUN,
        log: SECOND_RUN_LOG,
    }
}

const SECOND_RUN: &str = "! 60000 1 recovered 1 1 1200000
! 60000 0 recovered 1 0 1200000
60000 0 recovered 1 1 1200000
! 60000 0 recovered 1 1 1200000
! 60000 0 accepted 1
! 60000 0 known 2
60000 0 known 1
! 60000 0 known 1
! 60000 0 promoted 1 unspecified
60000 0 rested 1200000
! 1199999 0 promoted 1 unspecified
1200000 0 promoted 1 unspecified
1200000 0 opened 1 unspecified->a.example 0
1200000 0 begun 1 1 0
1200000 0 ended 1 1 delivered settled 250 ok
1200000 0 closed 1 Empty
1200000 0 stopped
";

const SECOND_RUN_LOG: &str =
    r#"{"at":60000,"body":"hi","by":0,"created":0,"due":1200000,"failures":1,"id":"00000000-0000-0000-0000-000000000001","kind":"Recovered","queue":"a.example","recipient":"u@a.example","sender":"s@b.example"}
{"at":60000,"by":0,"id":"00000000-0000-0000-0000-000000000001","kind":"Known"}
{"at":60000,"by":0,"kind":"Rested","until":1200000}
{"at":1200000,"by":0,"id":"00000000-0000-0000-0000-000000000001","kind":"Promoted","source":"unspecified"}
{"at":1200000,"by":0,"conn":1,"key":0,"kind":"Opened","path":"unspecified->a.example"}
{"at":1200000,"by":0,"conn":1,"id":"00000000-0000-0000-0000-000000000001","key":0,"kind":"Begun"}
{"at":1200000,"by":0,"conn":1,"id":"00000000-0000-0000-0000-000000000001","kind":"Delivery","reply":"250 ok"}
{"at":1200000,"by":0,"cause":"Empty","conn":1,"kind":"Closed"}
{"at":1200000,"by":0,"kind":"Stopped"}
"#;

/// Two refused connections delay a message.
pub(crate) fn refused_connections_delay() -> Row {
    Row {
        name: "refused_connections_delay",
        shaping: REFUSED_CONNECTIONS_SHAPING,
        stops: "60000",
        history: REFUSED_CONNECTIONS,
        log: REFUSED_CONNECTIONS_LOG,
    }
}

const REFUSED_CONNECTIONS_SHAPING: &str = r#"["default"]
consecutive_connection_failures_before_delay = 2
"#;

const REFUSED_CONNECTIONS: &str = "0 0 accepted 1
0 0 promoted 1 unspecified
0 0 opened 1 unspecified->a.example 0
! 0 0 closed 2 Refused
0 0 closed 1 Refused
! 0 0 delayed 1 1200000
0 0 opened 2 unspecified->a.example 0
! 0 0 delayed 1 1200000
0 0 closed 2 Refused
! 0 0 opened 3 unspecified->a.example 0
! 0 0 delayed 2 1200000
! 0 0 delayed 1 2400000
0 0 delayed 1 1200000
! 0 0 promoted 1 unspecified
! 0 0 rested 1200000
0 0 rested 60000
! 59999 0 stopped
60000 0 stopped
";

const REFUSED_CONNECTIONS_LOG: &str =
    r#"{"at":0,"body":"hi","by":0,"created":0,"id":"00000000-0000-0000-0000-000000000001","kind":"Reception","queue":"a.example","recipient":"u@a.example","sender":"s@b.example"}
{"at":0,"by":0,"id":"00000000-0000-0000-0000-000000000001","kind":"Promoted","source":"unspecified"}
{"at":0,"by":0,"conn":1,"key":0,"kind":"Opened","path":"unspecified->a.example"}
{"at":0,"by":0,"cause":"Refused","conn":1,"kind":"Closed"}
{"at":0,"by":0,"conn":2,"key":0,"kind":"Opened","path":"unspecified->a.example"}
{"at":0,"by":0,"cause":"Refused","conn":2,"kind":"Closed"}
{"at":0,"by":0,"due":1200000,"id":"00000000-0000-0000-0000-000000000001","kind":"Delayed"}
{"at":0,"by":0,"kind":"Rested","until":60000}
{"at":60000,"by":0,"kind":"Stopped"}
"#;
