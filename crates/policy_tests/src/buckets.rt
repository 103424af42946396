//! Throttles and buckets: what a text reads as, the moments that a bucket admits, and moments that keep a throttle.
use kumo_base::LAST_MOMENT;
use std::process::Abort;
use std::test::Fail;
use throttle_spec::{Bucket, ThrottleSpec, conforms};

/// What is asked of a bucket, with a moment and the answer.
#[derive(Clone, Copy)]
enum Asked {
    /// Takes the moment where it is admitted, and says whether it is.
    Offer(u64, bool),
    /// Whether the moment is admitted.
    Admits(u64, bool),
    /// The next admitted moment.
    Next(u64, u64),
}

/// Takes a moment where it is admitted, and says whether it was.
fn offer(bucket: &mut Bucket, t: u64) -> bool {
    let admitted = bucket.admits(t);
    if admitted {
        bucket.take(t);
    }
    admitted
}

fn admits(bucket: &Bucket, t: u64) -> bool {
    bucket.admits(t)
}

fn next(bucket: &Bucket, t: u64) -> u64 {
    bucket.next(t)
}

/// What a throttle is: quantity, period in ms, and burst.
fn shown(spec: &ThrottleSpec) -> (u64, u64, u64) {
    (spec.quantity(), spec.period(), spec.burst())
}

#[test]
fn throttles_are_read(rt: HostRuntime) -> Result<(), Fail> {
    let spec = throttle_of("local:1_000/hour,max_burst=7")?;
    assert_eq!(rt; shown(&spec), (1000, 3_600_000, 7));
    Ok(())
}

/// The throttle that a text writes.
fn throttle_of(text: &str) -> Result<ThrottleSpec, Fail> {
    Ok(ThrottleSpec::parse(text)?)
}

/// Asks a new bucket of a throttle one question after another.
fn expect_answers(rt: &impl Abort, text: &str, script: &[Asked]) -> Result<(), Fail> {
    let spec = throttle_of(text)?;
    let mut bucket = Bucket::new(spec);
    for asked in script {
        match *asked {
            Asked::Offer(t, wanted) => assert_eq!(rt; offer(&mut bucket, t), wanted, "{text} {t}"),
            Asked::Admits(t, wanted) => assert_eq!(rt; admits(&bucket, t), wanted, "{text} {t}"),
            Asked::Next(t, wanted) => assert_eq!(rt; next(&bucket, t), wanted, "{text} {t}"),
        }
    }
    assert_eq!(rt; bucket.spec(), spec);
    Ok(())
}

#[test]
fn one_comes_at_a_time(rt: HostRuntime) -> Result<(), Fail> {
    let script = [
        Asked::Offer(0, true),
        Asked::Admits(1_199_999, false),
        Asked::Next(0, 1_200_000),
        Asked::Offer(1_200_000, true),
        Asked::Offer(2_400_000, true),
    ];
    expect_answers(&rt, "3/hr,max_burst=1", &script)
}

#[test]
fn two_come_in_a_second(rt: HostRuntime) -> Result<(), Fail> {
    let script = [
        Asked::Next(7, 7),
        Asked::Offer(0, true),
        Asked::Offer(0, true),
        Asked::Admits(0, false),
        Asked::Admits(499, false),
        Asked::Next(0, 500),
        Asked::Next(499, 500),
        Asked::Next(501, 501),
        Asked::Offer(500, true),
        Asked::Next(0, 1000),
    ];
    expect_answers(&rt, "2/s", &script)
}

#[test]
fn no_moment_is_after_the_last(rt: HostRuntime) -> Result<(), Fail> {
    let script = [
        Asked::Offer(u64::MAX, true),
        Asked::Admits(LAST_MOMENT, false),
        Asked::Admits(0, false),
        Asked::Next(0, LAST_MOMENT),
        Asked::Next(u64::MAX, LAST_MOMENT),
    ];
    expect_answers(&rt, "1/day", &script)
}

/// Whether moments keep the throttle that a text writes.
fn conform(text: &str, moments: &[u64]) -> Result<bool, Fail> {
    Ok(conforms(&throttle_of(text)?, moments))
}

#[test]
fn moments_keep_a_throttle(rt: HostRuntime) -> Result<(), Fail> {
    assert!(rt; conform("2/s", &[0, 0, 500, 1000])?);
    assert!(rt; !conform("2/s", &[0, 0, 500, 999, 1000])?);
    Ok(())
}
