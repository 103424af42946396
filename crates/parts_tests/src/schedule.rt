//! Waits after failures, and many calls on a schedule against a plain list.
use crate::numbers::Numbers;
use kumo_base::{LAST_MOMENT, Text};
use policy_core::Settings;
use scheduled_queue::{Schedule, delay_after};
use std::process::Abort;
use std::test::Fail;

const MINUTE: u64 = 60_000;

const HOUR: u64 = 3_600_000;

#[test]
fn waits_double_up_to_a_bound(rt: HostRuntime) -> Result<(), Fail> {
    let waits = [
        (None, 1, 20 * MINUTE),
        (None, 2, 40 * MINUTE),
        (None, 3, 80 * MINUTE),
        (None, 32, 1_200_000 << 31),
        (None, 33, 1_200_000 << 32),
        (None, 34, LAST_MOMENT),
        (None, u32::MAX, LAST_MOMENT),
        (Some(2 * HOUR), 3, 80 * MINUTE),
        (Some(2 * HOUR), 4, 2 * HOUR),
        (Some(2 * HOUR), u32::MAX, 2 * HOUR),
    ];
    for (max_retry_interval, n, wanted) in waits {
        let settings = Settings {
            max_age: 0,
            retry_interval: 20 * MINUTE,
            max_retry_interval,
            pool: Text::of(rt.alloc(), "unspecified")?,
        };
        assert_eq!(rt; delay_after(&settings, n), wanted, "{n}");
    }
    Ok(())
}

/// A message of the plain list: when it is due, and its number.
type Waiting = (u64, u32);

/// Puts a message into the schedule where it is not there, and says whether it was put there.
fn is_put(schedule: &mut Schedule, due: u64, number: u32) -> Result<bool, Fail> {
    schedule.reserve(1)?;
    if schedule.contains(number) {
        return Ok(false);
    }
    schedule.put(due, number);
    Ok(true)
}

/// The least of those due at a moment or before it.
fn plain_first(list: &[Waiting], t: u64) -> Option<u32> {
    let mut first: Option<Waiting> = None;
    for waiting in list {
        if waiting.0 <= t && first.is_none_or(|least| *waiting < least) {
            first = Some(*waiting);
        }
    }
    Some(first?.1)
}

/// The least due moment after another.
fn plain_next(list: &[Waiting], t: u64) -> Option<u64> {
    list.iter()
        .map(|waiting| waiting.0)
        .filter(|due| *due > t)
        .min()
}

/// One made call on both, the schedule and the plain list.
fn make_call(
    rt: &impl Abort,
    numbers: &mut Numbers,
    schedule: &mut Schedule,
    list: &mut Vec<Waiting>,
) -> Result<(), Fail> {
    let number = numbers.below(80);
    let due = u64::from(numbers.below(12)) << numbers.below(50);
    let stands = list.iter().any(|waiting| waiting.1 == number);
    match numbers.below(4) {
        0 | 1 => {
            assert_eq!(rt; is_put(schedule, due, number)?, !stands);
            if !stands {
                list.push((due.min(LAST_MOMENT), number))?;
            }
        }
        2 => {
            assert_eq!(rt; schedule.remove(number), stands);
            list.retain(|waiting| waiting.1 != number);
        }
        _ => {
            assert_eq!(rt;
                schedule.first_due(due),
                plain_first(list, due.min(LAST_MOMENT))
            );
            assert_eq!(rt;
                schedule.next_due(due),
                plain_next(list, due.min(LAST_MOMENT))
            );
        }
    }
    Ok(())
}

#[test]
fn made_calls_of_a_schedule(rt: HostRuntime) -> Result<(), Fail> {
    let mut schedule = Schedule::new(rt.alloc());
    let mut list = Vec::new(rt.alloc());
    let mut numbers = Numbers::from_seed(2);
    for _ in 0..2000 {
        make_call(&rt, &mut numbers, &mut schedule, &mut list)?;
    }
    Ok(())
}
