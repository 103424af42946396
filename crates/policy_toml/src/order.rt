//! Lists in byte order of names.
ghost use Rattle.std.specs.Prelude.{◌≡◌, ◌≤◌, length, OnOk, OnErr};
ghost use Rattle.policy_toml.specs.Order.{with_named, place_by_name};

use kumo_base::Memory;
use policy_core::{DomainQueues, DomainShape, Pool, Source};

/// What stands in a list by its name.
pub trait Named {
    ghost use Rattle.std.specs.Prelude.{ℕ, List};

    ghost name_of: { Self → List ℕ };

    /// The name.
    fn name(&self) -> &str
        ensures { result.now ≡ name_of self.now };
}

impl Named for Source {
    ghost name_of = { λ s. s.name };

    fn name(&self) -> &str {
        self.name.as_str()
    }
}

impl Named for Pool {
    ghost name_of = { λ p. p.name };

    fn name(&self) -> &str {
        self.name.as_str()
    }
}

impl Named for DomainQueues {
    ghost name_of = { λ d. d.domain };

    fn name(&self) -> &str {
        self.domain.as_str()
    }
}

impl Named for DomainShape {
    ghost name_of = { λ d. d.domain };

    fn name(&self) -> &str {
        self.domain.as_str()
    }
}

/// Puts an item behind the last whose name does not come after its own. That is fast where the items come in their order.
/// After `Memory` the list is as it was.
#[tactic(auto, unfolding(crate::specs::Order::with_named))]
pub fn put_by_name<T: Named + Drop>(items: &mut Vec<T>, item: T) -> Result<(), Memory>
    ensures ok { OnOk result (items.new.items ≡ with_named T.name_of item items.old.items) }
    ensures err { OnErr result (items.new.items ≡ items.old.items) }
{
    let place = place_by_name(items.as_slice(), item.name());
    items.insert(place, item)?;
    Ok(())
}

/// How many items there are up to and with the last whose name does not come after a name.
fn place_by_name<T: Named>(items: &[T], name: &str) -> usize
    ensures within { result ≤ length items.now }
    ensures place { result ≡ place_by_name T.name_of name.now items.now }
{
    let mut place = items.len();
    while place > 0 && name < items[place - 1].name() {
        place -= 1;
    }
    place
}
