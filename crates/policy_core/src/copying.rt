//! Equal copies of optional texts and of lists, for the `copy` calls of this crate.
ghost use Rattle.std.specs.Prelude.{◌≡◌, IfOk};

use kumo_base::{Items, Memory, Text};
use std::alloc::Global;

/// A value of which an equal one can be made.
pub(crate) trait TryCopy {
    /// An equal value.
    fn try_copy(&self, alloc: Global) -> Result<Self, Memory>
        ensures { IfOk result (λ copy. copy ≡ self.now) };
}

impl TryCopy for Text {
    fn try_copy(&self, alloc: Global) -> Result<Text, Memory> {
        self.copy(alloc)
    }
}

/// A list of equal items in the same order.
pub(crate) fn copy_items<T: TryCopy + Drop>(
    alloc: Global,
    items: &Items<T>,
) -> Result<Items<T>, Memory>
    ensures { IfOk result (λ copy. copy ≡ items.now) }
{
    let mut copy = Vec::new(alloc);
    for item in items.as_slice() {
        copy.push(item.try_copy(alloc)?)?;
    }
    Ok(Items::of(copy))
}

/// An equal text, where it is there.
pub(crate) fn copy_optional(alloc: Global, text: &Option<Text>) -> Result<Option<Text>, Memory>
    ensures { IfOk result (λ copy. copy ≡ text.now) }
{
    match text {
        Some(text) => Ok(Some(text.copy(alloc)?)),
        None => Ok(None),
    }
}
