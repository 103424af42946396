//! A queue of ready messages: the first free one, and many calls against a plain list.
use crate::numbers::Numbers;
use ready_queue::Ready;
use std::alloc::Global;
use std::process::Abort;
use std::test::Fail;

/// Puts a message behind all others where it is not in the queue, and says whether it was put there.
fn is_pushed(ready: &mut Ready, number: u32) -> Result<bool, Fail> {
    ready.reserve(1)?;
    if ready.contains(number) {
        return Ok(false);
    }
    ready.push(number);
    Ok(true)
}

/// A queue of these messages.
fn queue_of(alloc: Global, numbers: &[u32]) -> Result<Ready, Fail> {
    let mut ready = Ready::new(alloc);
    for number in numbers {
        is_pushed(&mut ready, *number)?;
    }
    Ok(ready)
}

/// The first message that is not one of these.
fn first_but(ready: &Ready, held: &[u32]) -> Option<u32> {
    ready.first_free(&|number| held.contains(&number))
}

#[test]
fn first_free_between_held_ones(rt: HostRuntime) -> Result<(), Fail> {
    let mut ready = queue_of(rt.alloc(), &[7, 3, 9, 5])?;
    assert_eq!(rt; first_but(&ready, &[]), Some(7));
    assert_eq!(rt; first_but(&ready, &[7, 3, 5]), Some(9));
    assert_eq!(rt; first_but(&ready, &[7, 3, 9, 5]), None);
    assert!(rt; ready.remove(9));
    assert!(rt; !ready.remove(9));
    assert_eq!(rt; first_but(&ready, &[7, 3]), Some(5));
    assert!(rt; is_pushed(&mut ready, 9)?);
    assert!(rt; !is_pushed(&mut ready, 9)?);
    assert_eq!(rt; first_but(&ready, &[7, 3, 5]), Some(9));
    assert_eq!(rt; ready.len(), 4);
    Ok(())
}

/// Whether a message of the made calls is held.
fn is_held(number: u32, mark: u32) -> bool {
    number % 4 == mark
}

/// The first of a plain list that is not held.
fn plain_first(list: &[u32], mark: u32) -> Option<u32> {
    list.iter().copied().find(|number| !is_held(*number, mark))
}

/// One made call on both, the queue and the plain list.
fn make_call(
    rt: &impl Abort,
    numbers: &mut Numbers,
    ready: &mut Ready,
    list: &mut Vec<u32>,
) -> Result<(), Fail> {
    let number = numbers.below(60);
    let place = list.iter().position(|other| *other == number);
    match numbers.below(3) {
        0 => {
            assert_eq!(rt; is_pushed(ready, number)?, place.is_none());
            if place.is_none() {
                list.push(number)?;
            }
        }
        1 => {
            assert_eq!(rt; ready.remove(number), place.is_some());
            list.retain(|other| *other != number);
        }
        _ => {
            let mark = number % 4;
            let first = ready.first_free(&|number| is_held(number, mark));
            assert_eq!(rt; first, plain_first(list, mark));
        }
    }
    assert_eq!(rt; ready.len(), list.len());
    Ok(())
}

#[test]
fn made_calls_of_a_queue(rt: HostRuntime) -> Result<(), Fail> {
    let mut ready = Ready::new(rt.alloc());
    let mut list = Vec::new(rt.alloc());
    let mut numbers = Numbers::from_seed(1);
    for _ in 0..2000 {
        make_call(&rt, &mut numbers, &mut ready, &mut list)?;
    }
    Ok(())
}
