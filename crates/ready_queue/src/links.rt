//! The links between the numbers that stand next to each other in a queue.
ghost use Rattle.std.specs.Prelude.{◌≡◌, ℕ, if◌then◌else◌, is_some, nat_eq};
ghost use Rattle.indexmap.specs.IndexMap.{get, index_map_len, spare};
ghost use Rattle.ready_queue.specs.inside.Joins.{with_next, with_previous};

use indexmap::IndexMap;

/// The numbers before and behind a number, in the order of promotion.
#[derive(Clone, Copy)]
pub(crate) struct Link {
    pub previous: Option<u32>,
    pub next: Option<u32>,
}

/// Puts `next` behind `previous`, or first where nothing is before it.
pub(crate) fn link_next(
    links: &mut IndexMap<u32, Link>,
    first: &mut Option<u32>,
    previous: Option<u32>,
    next: Option<u32>,
)
    ensures links { (n : ℕ) → get nat_eq links.new n ≡ with_next previous next n (get nat_eq links.old n) }
    ensures first { first.new ≡ if is_some previous then first.old else next }
    ensures len { index_map_len links.new ≡ index_map_len links.old }
    ensures spare { spare links.new ≡ spare links.old }
{
    match previous {
        Some(number) => {
            if let Some(link) = links.get_mut(&number) {
                link.next = next;
            }
        }
        None => *first = next,
    }
}

/// Puts `previous` before `next`, or last where nothing is behind it.
pub(crate) fn link_previous(
    links: &mut IndexMap<u32, Link>,
    last: &mut Option<u32>,
    next: Option<u32>,
    previous: Option<u32>,
)
    ensures links { (n : ℕ) → get nat_eq links.new n ≡ with_previous next previous n (get nat_eq links.old n) }
    ensures last { last.new ≡ if is_some next then last.old else previous }
    ensures len { index_map_len links.new ≡ index_map_len links.old }
    ensures spare { spare links.new ≡ spare links.old }
{
    match next {
        Some(number) => {
            if let Some(link) = links.get_mut(&number) {
                link.previous = previous;
            }
        }
        None => *last = previous,
    }
}
