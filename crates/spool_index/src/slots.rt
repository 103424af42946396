//! The slots in which messages stand, in the order of holding, and the index that says in which one an id stands.
//!
//! A settled message leaves its slot blank. Once the blank slots outnumber the others they are taken out, and the index
//! numbers the slots that are left anew.
ghost use Rattle.std.specs.Prelude.{◌≡◌, ◌<◌, ◌^◌, None, Some, IfSome, length, slice_index_or, true, option_map};
ghost use Rattle.indexmap.specs.IndexMap.{index_map_len};
ghost use Rattle.spool_index.specs.Places.{are_distinct, compacted_size, find, without};
ghost use Rattle.spool_index.specs.Slots.{kept, slots_laid_out, Knows, IsIndex};

use crate::place::{Place, compacted_cost};
use indexmap::IndexMap;

/// The message of an id, and the number of its slot.
pub(crate) fn held(
    slots: &[Option<Place>],
    index: &IndexMap<u128, usize>,
    id: u128,
) -> Option<(usize, Place)>
    requires { IsIndex index.now slots.now }
    ensures found { option_map (λ held. held.1) result ≡ find id (kept slots.now) }
    ensures slot { IfSome result (λ held. slice_index_or slots.now held.0 None ≡ Some held.1 × (held.1.id ≡ id)) }
{
    let slot = *index.get(&id)?;
    let place = slots[slot]?;
    Some((slot, place))
}

/// Leaves the slot of a message blank.
pub(crate) fn vacate(
    slots: &mut Vec<Option<Place>>,
    index: &mut IndexMap<u128, usize>,
    slot: usize,
    place: Place,
)
    requires right { IsIndex index.old slots.old.items }
    requires held { slice_index_or slots.old.items slot None ≡ Some place }
    ensures right { IsIndex index.new slots.new.items }
    ensures kept { kept slots.new.items ≡ without place.id (kept slots.old.items) }
{
    let _slot = index.swap_remove(&place.id);
    slots[slot] = None;
    if slots.len() / 2 > index.len() {
        pack(slots, index);
    }
}

/// Takes the blank slots out.
fn pack(slots: &mut Vec<Option<Place>>, index: &mut IndexMap<u128, usize>)
    requires { IsIndex index.old slots.old.items }
    ensures kept { kept slots.new.items ≡ kept slots.old.items }
    ensures index { IsIndex index.new slots.new.items }
{
    slots.retain(|slot| slot.is_some());
    number(slots, index);
}

/// Notes the number of each slot that is not blank.
fn number(slots: &[Option<Place>], index: &mut IndexMap<u128, usize>)
    requires knows { Knows index.old slots.now }
    requires count { index_map_len index.old ≡ length (kept slots.now) }
    requires distinct { are_distinct (kept slots.now) ≡ true }
    ensures { IsIndex index.new slots.now }
{
    for (number, slot) in slots.iter().enumerate() {
        if let Some(place) = slot {
            let _noted = index.insert(place.id, number);
        }
    }
}

/// Each message stands where a file that is written anew has its payload.
pub(crate) fn lay_out(slots: &mut [Option<Place>])
    requires { compacted_size (kept slots.old) < 2 ^ 64 }
    ensures { slots.new ≡ slots_laid_out 16 slots.old }
{
    let mut offset: u64 = 16;
    for number in 0..slots.len() {
        if let Some(place) = slots[number] {
            slots[number] = Some(Place {
                at: offset + 6,
                ..place
            });
            offset += compacted_cost(place);
        }
    }
}
