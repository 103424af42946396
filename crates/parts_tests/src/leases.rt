//! The limits of a path: throttles of two keys, a lowered limit, and many calls against a plain list of the calls made.
use crate::numbers::Numbers;
use kumo_base::LAST_MOMENT;
use path_lease::{Leave, Path};
use policy_core::InForce;
use std::alloc::Global;
use std::process::Abort;
use std::test::Fail;
use throttle_spec::ThrottleSpec;

/// The options of a path with these limits, and with a rate of messages under a key, the same for connections.
fn options(
    connection_limit: u32,
    deliveries: u32,
    rate: Option<&str>,
    key: u32,
) -> Result<InForce, Fail> {
    let rate = match rate {
        Some(text) => Some(ThrottleSpec::parse(text)?),
        None => None,
    };
    Ok(InForce {
        connection_limit,
        message_rate: rate,
        message_key: key,
        connection_rate: rate,
        connection_key: key,
        deliveries,
        ready_limit: 1024,
        failures_before_delay: 100,
        idle_timeout: Some(2000),
    })
}

/// Opens a connection where the path allows it, and says whether it did.
fn is_opened(path: &mut Path, t: u64, conn: u64, now: &InForce) -> Result<bool, Fail> {
    path.reserve()?;
    let allowed = path.may_open(t, now);
    if allowed {
        path.open(t, conn, now);
    }
    Ok(allowed)
}

/// Begins an attempt where the path allows it. The answer is none where the connection is not open, or busy.
fn begun(path: &mut Path, t: u64, conn: u64, now: &InForce) -> Result<Option<Leave>, Fail> {
    path.reserve()?;
    if !path.is_idle(conn) {
        return Ok(None);
    }
    let leave = path.may_begin(t, conn, now);
    if let Leave::Yes = leave {
        path.begin(t, conn, now);
    }
    Ok(Some(leave))
}

/// Ends the attempt on a connection, and says whether there was one.
fn is_ended(path: &mut Path, t: u64, conn: u64) -> bool {
    let busy = path.is_busy(conn);
    if busy {
        path.end(t, conn);
    }
    busy
}

/// Closes a connection where it is open and not busy, and says whether it was.
fn is_closed(path: &mut Path, conn: u64, refused: bool) -> bool {
    let idle = path.is_idle(conn);
    if idle {
        path.close(conn, refused);
    }
    idle
}

/// Begins an attempt and ends it at once, and says what the answer was.
fn tried(path: &mut Path, t: u64, conn: u64, now: &InForce) -> Result<Option<Leave>, Fail> {
    let leave = begun(path, t, conn, now)?;
    let _ended = is_ended(path, t, conn);
    Ok(leave)
}

/// What is asked of a path for a connection, and the answer.
#[derive(Clone, Copy)]
enum Asked {
    Opens(u64, bool),
    /// An attempt that ends at once.
    Tries(u64, Leave),
    /// Refused, after so many refusals in a row with this one.
    Closes(u64, u32),
    /// The next admitted moment.
    Next(u64),
}

fn expect_answer(
    rt: &impl Abort,
    path: &mut Path,
    t: u64,
    now: &InForce,
    asked: Asked,
) -> Result<(), Fail> {
    match asked {
        Asked::Opens(conn, wanted) => assert_eq!(rt; is_opened(path, t, conn, now)?, wanted, "{t}"),
        Asked::Tries(conn, wanted) => assert_eq!(rt;
            tried(path, t, conn, now)?,
            Some(wanted),
            "{t}"
        ),
        Asked::Closes(conn, wanted) => {
            assert!(rt; is_closed(path, conn, true), "{t}");
            assert_eq!(rt; path.refusals(), wanted, "{t}");
        }
        Asked::Next(wanted) => assert_eq!(rt; path.next_admitted(t, now), wanted, "{t}"),
    }
    Ok(())
}

/// Asks a new path one question after another, each with the options in force of a number.
fn expect_answers(
    rt: &impl Abort,
    alloc: Global,
    options: &[InForce],
    rows: &[(u64, usize, Asked)],
) -> Result<(), Fail> {
    let mut path = Path::new(alloc);
    for (t, number, asked) in rows {
        if let Some(now) = options.get(*number) {
            expect_answer(rt, &mut path, *t, now, *asked)?;
        }
    }
    Ok(())
}

#[test]
fn throttles_of_two_keys(rt: HostRuntime) -> Result<(), Fail> {
    let options = [
        options(10, 10, Some("1/s"), 0)?,
        options(10, 10, Some("1/s"), 3)?,
    ];
    let rows = [
        (0, 0, Asked::Opens(1, true)),
        (999, 0, Asked::Opens(2, false)),
        (999, 1, Asked::Opens(2, true)),
        (999, 0, Asked::Tries(2, Leave::Yes)),
        (999, 0, Asked::Tries(2, Leave::Throttled(1999))),
        (999, 1, Asked::Tries(2, Leave::Yes)),
        (1500, 1, Asked::Tries(2, Leave::Throttled(1999))),
        (1998, 0, Asked::Tries(2, Leave::Throttled(1999))),
        (1999, 0, Asked::Tries(2, Leave::Yes)),
        (1999, 1, Asked::Tries(2, Leave::Yes)),
        (1999, 0, Asked::Next(2999)),
        (2999, 0, Asked::Next(LAST_MOMENT)),
    ];
    expect_answers(&rt, rt.alloc(), &options, &rows)
}

#[test]
fn lowered_limit_sheds(rt: HostRuntime) -> Result<(), Fail> {
    let options = [options(2, 10, None, 0)?, options(1, 10, None, 0)?];
    let rows = [
        (0, 0, Asked::Opens(1, true)),
        (0, 0, Asked::Opens(2, true)),
        (0, 0, Asked::Opens(3, false)),
        (0, 1, Asked::Tries(1, Leave::Shed)),
        (0, 1, Asked::Closes(2, 1)),
        (0, 1, Asked::Opens(3, false)),
        (5, 1, Asked::Tries(1, Leave::Yes)),
        (2004, 1, Asked::Tries(1, Leave::Yes)),
        (4004, 1, Asked::Tries(1, Leave::Stale)),
        (4004, 1, Asked::Closes(1, 2)),
    ];
    expect_answers(&rt, rt.alloc(), &options, &rows)
}

/// A call that was made.
#[derive(Clone, Copy)]
enum Made {
    Opened { t: u64, conn: u64, key: u32 },
    Begun { t: u64, conn: u64, key: u32 },
    Ended { t: u64, conn: u64 },
    Closed { conn: u64, refused: bool },
}

/// How a connection stands by the calls made.
#[derive(Clone, Copy)]
struct Standing {
    open: bool,
    busy: bool,
    used: u32,
    idle: u64,
}

fn standing_of(list: &[Made], number: u64) -> Standing {
    let mut standing = Standing {
        open: false,
        busy: false,
        used: 0,
        idle: 0,
    };
    for made in list {
        match *made {
            Made::Opened { t, conn, .. } if conn == number => {
                standing.open = true;
                standing.idle = t;
            }
            Made::Begun { conn, .. } if conn == number => {
                standing.busy = true;
                standing.used = standing.used.wrapping_add(1);
            }
            Made::Ended { t, conn } if conn == number => {
                standing.busy = false;
                standing.idle = t;
            }
            Made::Closed { conn, .. } if conn == number => standing.open = false,
            _ => {}
        }
    }
    standing
}

/// How many connections are open, and how many were refused in a row.
fn counts(list: &[Made]) -> (usize, u32) {
    let mut open = 0_usize;
    let mut refusals = 0_u32;
    for made in list {
        match made {
            Made::Opened { .. } => open = open.wrapping_add(1),
            Made::Closed { refused, .. } => {
                open = open.wrapping_sub(1);
                refusals = if *refused {
                    refusals.wrapping_add(1)
                } else {
                    0
                };
            }
            _ => {}
        }
    }
    (open, refusals)
}

/// What a rate counts.
#[derive(Clone, Copy)]
enum Counted {
    Openings,
    Beginnings,
}

/// The moment of a call that a rate counts under a key.
fn counted_at(made: &Made, counted: Counted, key: u32) -> Option<u64> {
    match (*made, counted) {
        (Made::Opened { t, key: under, .. }, Counted::Openings) if under == key => Some(t),
        (Made::Begun { t, key: under, .. }, Counted::Beginnings) if under == key => Some(t),
        _ => None,
    }
}

/// Whether one more at a moment keeps a throttle, by the calls made: from each counted one to it there is time enough.
fn is_admitted(list: &[Made], counted: Counted, now: &InForce, t: u64) -> bool {
    let (rate, key) = match counted {
        Counted::Openings => (now.connection_rate, now.connection_key),
        Counted::Beginnings => (now.message_rate, now.message_key),
    };
    let Some(spec) = rate else {
        return true;
    };
    let mut needed = u128::from(spec.period());
    let allowance = u128::from(spec.burst()).wrapping_mul(u128::from(spec.period()));
    for made in list.iter().rev() {
        if let Some(at) = counted_at(made, counted, key) {
            needed = needed.wrapping_add(u128::from(spec.period()));
            let passed = u128::from(t.wrapping_sub(at)).wrapping_mul(u128::from(spec.quantity()));
            if needed > passed.wrapping_add(allowance) {
                return false;
            }
        }
    }
    true
}

/// What stands against a beginning, by the calls made.
#[derive(Clone, Copy)]
struct Reasons {
    stale: bool,
    spent: bool,
    shed: bool,
    throttled: bool,
}

fn reasons_of(list: &[Made], t: u64, number: u64, now: &InForce) -> Reasons {
    let standing = standing_of(list, number);
    let (open, _) = counts(list);
    Reasons {
        stale: is_past(now.idle_timeout, standing.idle, t),
        spent: standing.used >= now.deliveries,
        shed: open > now.connection_limit as usize,
        throttled: !is_admitted(list, Counted::Beginnings, now, t),
    }
}

fn is_past(timeout: Option<u64>, idle: u64, t: u64) -> bool {
    match timeout {
        Some(timeout) => t >= idle.saturating_add(timeout),
        None => false,
    }
}

/// Whether a moment is the first from which on a beginning is admitted.
fn is_first_admitted(list: &[Made], now: &InForce, u: u64) -> bool {
    is_admitted(list, Counted::Beginnings, now, u)
        && !is_admitted(list, Counted::Beginnings, now, u.wrapping_sub(1))
}

/// The first reason against a beginning, by a word.
fn word(reasons: Reasons) -> &'static str {
    if reasons.stale {
        "stale"
    } else if reasons.spent {
        "spent"
    } else if reasons.shed {
        "shed"
    } else if reasons.throttled {
        "throttled"
    } else {
        "yes"
    }
}

/// Whether a leave has this word, and its moment is the first that is admitted.
fn is_leave(list: &[Made], now: &InForce, leave: Leave, word: &str) -> bool {
    match leave {
        Leave::Stale => word == "stale",
        Leave::Spent => word == "spent",
        Leave::Shed => word == "shed",
        Leave::Throttled(u) => word == "throttled" && is_first_admitted(list, now, u),
        Leave::Yes => word == "yes",
    }
}

/// The connections that are open by the calls made.
fn open_ones(alloc: Global, list: &[Made]) -> Result<Vec<u64>, Fail> {
    let mut open = Vec::new(alloc);
    for made in list {
        match *made {
            Made::Opened { conn, .. } => open.push(conn)?,
            Made::Closed { conn, .. } => open.retain(|other| *other != conn),
            _ => {}
        }
    }
    Ok(open)
}

/// One of the connections, most often one that is open. Connections are numbered from 1 in the order of their openings.
fn picked(alloc: Global, numbers: &mut Numbers, list: &[Made], opened: u32) -> Result<u64, Fail> {
    let open = open_ones(alloc, list)?;
    let any = u64::from(numbers.below(opened.saturating_add(1))).wrapping_add(1);
    let one = open.get(numbers.below(6) as usize).copied();
    Ok(one.unwrap_or(any))
}

/// Opens one more connection on both, the path and the plain list, where it is allowed.
fn open_one(
    rt: &impl Abort,
    path: &mut Path,
    list: &mut Vec<Made>,
    t: u64,
    conn: u64,
    now: &InForce,
) -> Result<(), Fail> {
    let (open, _) = counts(list);
    let allowed = open < now.connection_limit as usize
        && is_admitted(list, Counted::Openings, now, t)
        && is_admitted(list, Counted::Beginnings, now, t);
    assert_eq!(rt; is_opened(path, t, conn, now)?, allowed);
    if allowed {
        let key = now.connection_key;
        list.push(Made::Opened { t, conn, key })?;
    }
    Ok(())
}

/// Begins an attempt on both, where it is allowed.
fn begin_one(
    rt: &impl Abort,
    path: &mut Path,
    list: &mut Vec<Made>,
    t: u64,
    conn: u64,
    now: &InForce,
) -> Result<(), Fail> {
    let before = standing_of(list, conn);
    let Some(leave) = begun(path, t, conn, now)? else {
        assert!(rt; !before.open || before.busy);
        return Ok(());
    };
    assert!(rt; before.open && !before.busy);
    assert!(rt; is_leave(list, now, leave, word(reasons_of(list, t, conn, now))));
    if let Leave::Yes = leave {
        let key = now.message_key;
        list.push(Made::Begun { t, conn, key })?;
    }
    Ok(())
}

/// Ends an attempt on both, where there is one.
fn end_one(
    rt: &impl Abort,
    path: &mut Path,
    list: &mut Vec<Made>,
    t: u64,
    conn: u64,
) -> Result<(), Fail> {
    let before = standing_of(list, conn);
    let busy = before.open && before.busy;
    assert_eq!(rt; is_ended(path, t, conn), busy);
    if busy {
        list.push(Made::Ended { t, conn })?;
    }
    Ok(())
}

/// Closes a connection on both, where it is open and not busy.
fn close_one(
    rt: &impl Abort,
    path: &mut Path,
    list: &mut Vec<Made>,
    conn: u64,
    refused: bool,
) -> Result<(), Fail> {
    let before = standing_of(list, conn);
    let idle = before.open && !before.busy;
    assert_eq!(rt; is_closed(path, conn, refused), idle);
    if idle {
        list.push(Made::Closed { conn, refused })?;
    }
    Ok(())
}

/// How many connections were opened.
fn opened_count(list: &[Made]) -> u32 {
    let mut opened = 0_u32;
    for made in list {
        if let Made::Opened { .. } = made {
            opened = opened.wrapping_add(1);
        }
    }
    opened
}

/// One made call on both, at a moment.
fn make_call(
    rt: &impl Abort,
    alloc: Global,
    numbers: &mut Numbers,
    path: &mut Path,
    list: &mut Vec<Made>,
    t: u64,
    now: &InForce,
) -> Result<(), Fail> {
    let opened = opened_count(list);
    let conn = picked(alloc, numbers, list, opened)?;
    match numbers.below(5) {
        0 => open_one(rt, path, list, t, u64::from(opened).wrapping_add(1), now),
        1 | 2 => begin_one(rt, path, list, t, conn, now),
        3 => end_one(rt, path, list, t, conn),
        _ => close_one(rt, path, list, conn, numbers.below(3) == 0),
    }
}

/// The counts of both are the same.
fn expect_counts(rt: &impl Abort, path: &Path, list: &[Made]) {
    let (open, refusals) = counts(list);
    assert_eq!(rt; path.open_connections(), open);
    assert_eq!(rt; path.refusals(), refusals);
}

/// Makes calls on a path and a plain list, each with one of the options in force, and says how many were made.
fn make_calls(rt: &impl Abort, alloc: Global, options: &[InForce]) -> Result<usize, Fail> {
    let mut path = Path::new(alloc);
    let mut list = Vec::new(alloc);
    let mut numbers = Numbers::from_seed(4);
    let mut t = 0_u64;
    for _ in 0..2000 {
        t = t.saturating_add(u64::from(numbers.below(120)));
        if let Some(now) = options.get(numbers.below(4) as usize) {
            make_call(rt, alloc, &mut numbers, &mut path, &mut list, t, now)?;
        }
        expect_counts(rt, &path, &list);
    }
    Ok(list.len())
}

#[test]
fn made_calls_of_a_path(rt: HostRuntime) -> Result<(), Fail> {
    let options = [
        options(4, 20, Some("20/s"), 0)?,
        options(2, 10, Some("5/s,max_burst=1"), 3)?,
        options(6, 20, None, 7)?,
        options(3, 5, Some("20/s"), 0)?,
    ];
    assert!(rt; make_calls(&rt, rt.alloc(), &options)? > 500);
    Ok(())
}
