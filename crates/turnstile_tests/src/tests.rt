//! Threads that mark one ledger, whose passes meet, and what stands in it then.
ghost use Rattle.std.specs.Prelude.{◌≡◌, ◌+◌, ◌<◌};
ghost use Rattle.turnstile.specs.Passes.{view, stile_of, id_of, KeepsPlace};
ghost use Rattle.turnstile.specs.Views.{joined};
ghost use Rattle.turnstile_tests.specs.inside.Alone.{IsReady, IsAlone, BothReady, BothAlone, KeepsBoth, AllReady, KeepsAll, IsSecond, AreSeconds, both_joined};

use crate::ledger::{Ledger, mark_turn};
use std::process::Abort;
use std::sync::Wait;
use std::test::Fail;
use std::thread::{Threads, join_mut};
use turnstile::{NoSeat, Pass, Turnstile};

type Pair = (Pass, Pass);

type Four = (Pair, Pair);

/// Turns that add the marks from 1 to `count`.
fn turns<R: Wait>(rt: &R, stile: &Turnstile<Ledger>, pass: &mut Pass, count: u32) -> bool
    requires { IsReady (id_of stile.now) pass.old }
    ensures { KeepsPlace pass.old pass.new }
{
    let mut done = true;
    for i in 0..count {
        done = mark_turn(rt, stile, pass, i + 1) && done;
    }
    done
}

/// Turns of two passes, each in a thread.
fn pair_turns<R: Threads + Wait + Sync>(
    rt: &R,
    stile: &Turnstile<Ledger>,
    pair: &mut Pair,
    count: u32,
) -> bool
    requires { BothReady (id_of stile.now) pair.old }
    ensures { KeepsBoth pair.old pair.new }
{
    let (one, two) = pair;
    let (left, right) = join_mut(
        rt,
        &mut || turns(rt, stile, one, count),
        &mut || turns(rt, stile, two, count),
    );
    left && right
}

/// Turns of four passes, each in a thread.
fn four_turns<R: Threads + Wait + Sync>(
    rt: &R,
    stile: &Turnstile<Ledger>,
    four: &mut Four,
    count: u32,
) -> bool
    requires { AllReady (id_of stile.now) four.old }
    ensures { KeepsAll four.old four.new }
{
    let (one, two) = four;
    let (left, right) = join_mut(
        rt,
        &mut || -> bool
            requires { BothReady (id_of stile.now) one.now }
        { pair_turns(rt, stile, one, count) },
        &mut || -> bool
            requires { BothReady (id_of stile.now) two.now }
        { pair_turns(rt, stile, two, count) },
    );
    left && right
}

/// Turns of eight passes, each in a thread.
fn eight_turns<R: Threads + Wait + Sync>(
    rt: &R,
    stile: &Turnstile<Ledger>,
    one: &mut Four,
    two: &mut Four,
    count: u32,
) -> bool
    requires one { AllReady (id_of stile.now) one.old }
    requires two { AllReady (id_of stile.now) two.old }
    ensures one { KeepsAll one.old one.new }
    ensures two { KeepsAll two.old two.new }
{
    let (left, right) = join_mut(
        rt,
        &mut || -> bool
            requires { AllReady (id_of stile.now) one.now }
        { four_turns(rt, stile, one, count) },
        &mut || -> bool
            requires { AllReady (id_of stile.now) two.now }
        { four_turns(rt, stile, two, count) },
    );
    left && right
}

/// The next pass, whose number the test knows.
fn next_pass<R: Abort>(rt: &R, stile: &Turnstile<Ledger>, first: &mut Pass, number: u32) -> Pass
    requires first { IsAlone (id_of stile.now) 0 first.old }
    requires given { (view first.old).given ≡ number }
    ensures first { IsAlone (id_of stile.now) 0 first.new }
    ensures given { (view first.new).given ≡ number + 1 }
    ensures alone { IsAlone (id_of stile.now) number result }
{
    let Ok(pass) = stile.split(first) else {
        panic!(rt; "a seat")
    };
    pass
}

/// The next two passes.
fn next_pair<R: Abort>(rt: &R, stile: &Turnstile<Ledger>, first: &mut Pass, number: u32) -> Pair
    requires first { IsAlone (id_of stile.now) 0 first.old }
    requires given { (view first.old).given ≡ number }
    requires small { number < 100 }
    ensures first { IsAlone (id_of stile.now) 0 first.new }
    ensures given { (view first.new).given ≡ number + 2 }
    ensures alone { BothAlone (id_of stile.now) number result }
{
    let one = next_pass(rt, stile, first, number);
    let two = next_pass(rt, stile, first, number + 1);
    (one, two)
}

/// One pass of two: the first meets the second.
fn meet_pair(stile: &Turnstile<Ledger>, pair: Pair) -> Pass
    requires ready { BothReady (id_of stile.now) pair }
    requires second { IsSecond pair.1 }
    ensures ready { IsReady (id_of stile.now) result }
    ensures joined { view result ≡ both_joined pair }
{
    let (mut one, two) = pair;
    stile.meet(&mut one, two);
    one
}

/// One pass of four: each first meets its second, and then the two meet that are left.
fn meet_four(stile: &Turnstile<Ledger>, four: Four) -> Pass
    requires ready { AllReady (id_of stile.now) four }
    requires second { AreSeconds four }
    ensures ready { IsReady (id_of stile.now) result }
    ensures joined { view result ≡ joined (both_joined four.0) (both_joined four.1) }
{
    let (one, two) = four;
    let one = meet_pair(stile, one);
    let two = meet_pair(stile, two);
    meet_pair(stile, (one, two))
}

/// Whether the marks of a pass are those from 1 to `count`, in order.
fn in_order(ledger: &Ledger, by: u32, count: u32) -> bool {
    let mut next = 1u32;
    for mark in &ledger.marks {
        if mark.by == by {
            if mark.number != next {
                return false;
            }
            next = next.saturating_add(1);
        }
    }
    next == count.saturating_add(1)
}

#[test]
fn two_threads_mark_one_ledger(rt: HostRuntime) -> Result<(), Fail> {
    let ledger = Ledger {
        marks: Vec::new(rt.alloc()),
    };
    let Ok((stile, mut first)) = Turnstile::new(rt.alloc(), ledger, 2) else {
        panic!(rt; "memory")
    };
    let second = next_pass(&rt, &stile, &mut first, 1);
    assert_eq!(rt; second.number(), 1);
    assert_eq!(rt; stile.split(&mut first).err(), Some(NoSeat));
    let mut pair = (first, second);
    assert!(rt; pair_turns(&rt, &stile, &mut pair, 1000));
    let first = meet_pair(&stile, pair);
    let ledger = stile.close(first);
    assert_eq!(rt; ledger.marks.len(), 2000);
    assert!(rt; in_order(&ledger, 0, 1000) && in_order(&ledger, 1, 1000));
    Ok(())
}

/// Eight passes mark one ledger, each in a thread, and meet in a chain: 0 meets 4, which met 6, which met 7.
#[test]
fn eight_passes_meet_in_a_chain(rt: HostRuntime) -> Result<(), Fail> {
    let ledger = Ledger {
        marks: Vec::new(rt.alloc()),
    };
    let Ok((stile, mut pass0)) = Turnstile::new(rt.alloc(), ledger, 8) else {
        panic!(rt; "memory")
    };
    let pass1 = next_pass(&rt, &stile, &mut pass0, 1);
    let twos = next_pair(&rt, &stile, &mut pass0, 2);
    let fours = next_pair(&rt, &stile, &mut pass0, 4);
    let sixes = next_pair(&rt, &stile, &mut pass0, 6);
    let mut low = ((pass0, pass1), twos);
    let mut high = (fours, sixes);
    assert!(rt; eight_turns(&rt, &stile, &mut low, &mut high, 200));
    let low = meet_four(&stile, low);
    let high = meet_four(&stile, high);
    let first = meet_pair(&stile, (low, high));
    let ledger = stile.close(first);
    assert_eq!(rt; ledger.marks.len(), 1600);
    for by in 0..8 {
        assert!(rt; in_order(&ledger, by, 200));
    }
    Ok(())
}
