//! The ends of the orders that were not taken back, from the earliest to the latest, so that those that are live at a moment
//! stand behind all that are over then.
ghost use Rattle.std.specs.Prelude.{◌≡◌, ◌<◌, ◌≤◌, true, min, is_some, Some, All, Contains, IfSome, length, slice_get};
ghost use Rattle.std.specs.List.{AllWithin};
ghost use Rattle.std.specs.Option.{option_map_or};
ghost use Rattle.std.specs.List.Sorted.{IsNonDecreasingBy};
ghost use Rattle.suspensions.specs.Orders.{live, next_end, has_live};
ghost use Rattle.suspensions.specs.Index.{IsIndex, AreNumbered, IsNumberIn, rank};
ghost use Rattle.suspensions.specs.inside.Ends.{IsNumber, IsEndOf};
ghost use Rattle.suspensions.specs.inside.Least.{is_given};
ghost use Rattle.suspensions.specs.inside.Question as spec;

use crate::given::{Given, end_of};
use crate::question::{Question, is_met};

/// When an order ends, in milliseconds since 1970, and its number.
#[derive(Clone, Copy)]
pub(crate) struct Ending {
    pub(crate) end: u64,
    pub(crate) number: u32,
}

/// How many orders are over at a moment.
pub(crate) fn count_over(ends: &[Ending], t: u64) -> usize
    requires ordered { IsNonDecreasingBy rank ends.now }
    requires numbers { All IsNumber ends.now }
    ensures bound { result ≤ length ends.now }
    ensures over { AllWithin (λ ending. ending.end ≤ t) ends.now 0 result }
    ensures later { AllWithin (λ ending. t < ending.end) ends.now result (length ends.now) }
{
    ends.partition_point(|ending| ending.end <= t)
}

/// Where an end stands.
pub(crate) fn place_of(ends: &[Ending], ending: Ending) -> usize
    requires ordered { IsNonDecreasingBy rank ends.now }
    requires numbers { All IsNumber ends.now }
    requires held { Contains ends.now ending }
    ensures bound { result < length ends.now }
    ensures held { slice_get ends.now result ≡ Some ending }
{
    ends.partition_point(|other| {
        other.end < ending.end || (other.end == ending.end && other.number < ending.number)
    })
}

/// The number of the first live order of which the answer is yes.
pub(crate) fn first_live(
    book: &[Given],
    ends: &[Ending],
    t: u64,
    question: Question<'_>,
) -> Option<u32>
    requires { IsIndex book.now ends.now }
    ensures { result ≡ spec.first_met question.entry (live book.now t) }
{
    let mut first = None;
    for ending in &ends[count_over(ends, t)..] {
        if is_meant(book, *ending, t, question) {
            first = Some(lesser(first, ending.number));
        }
    }
    first
}

/// Whether the order of an end was given by a moment, and the answer is yes.
fn is_meant(book: &[Given], ending: Ending, t: u64, question: Question<'_>) -> bool
    requires { IsNumberIn book.now ending }
    ensures { result ≡ is_given t (λ given. spec.is_met question.entry given.order) book.now ending }
{
    let given = &book[ending.number as usize - 1];
    given.at <= t && is_met(question, &given.order)
}

/// The lesser of two numbers.
fn lesser(first: Option<u32>, number: u32) -> u32
    ensures { result ≡ option_map_or (min number) first number }
{
    match first {
        Some(first) if first < number => first,
        _ => number,
    }
}

/// The least end of live orders.
pub(crate) fn next_end(book: &[Given], ends: &[Ending], t: u64) -> Option<u64>
    requires { IsIndex book.now ends.now }
    ensures next { result ≡ next_end book.now t }
    ensures later { IfSome result (λ end. t < end) }
{
    for ending in &ends[count_over(ends, t)..] {
        if was_given(book, *ending, t) {
            return Some(ending.end);
        }
    }
    None
}

/// Whether the order of an end was given by a moment.
fn was_given(book: &[Given], ending: Ending, t: u64) -> bool
    requires { IsNumberIn book.now ending }
    ensures { result ≡ is_given t (λ given. true) book.now ending }
{
    book[ending.number as usize - 1].at <= t
}

/// The end of the live order of a number, where there is one.
pub(crate) fn live_end(book: &[Given], t: u64, number: u32) -> Option<Ending>
    requires { AreNumbered book.now }
    ensures known { is_some result ≡ has_live book.now t number }
    ensures ending { IfSome result (IsEndOf book.now number) }
{
    let index = (number as usize).checked_sub(1)?;
    let given = book.get(index)?;
    if !given.is_live(t) {
        return None;
    }
    Some(Ending {
        end: end_of(given.at, &given.order),
        number,
    })
}
