//! Lists in byte order of names.
ghost use Rattle.std.specs.Prelude.{◌≡◌, ◌≤◌, length, OnOk, OnErr};
ghost use Rattle.sources_policy.specs.SourcesFile.{put_if_new, has_name, count_before};

use kumo_base::Memory;
use policy_toml::Named;

/// Puts an item at its place by name, unless there is one of its name. After `Memory` the list is as it was.
pub(crate) fn put_if_new<T: Named + Drop>(items: &mut Vec<T>, item: T) -> Result<(), Memory>
    ensures ok { OnOk result (items.new.items ≡ put_if_new T.name_of item items.old.items) }
    ensures err { OnErr result (items.new.items ≡ items.old.items) }
{
    if has_name(items.as_slice(), item.name()) {
        return Ok(());
    }
    let at = count_before(items.as_slice(), item.name());
    items.insert(at, item)?;
    Ok(())
}

/// Whether one of the items has this name.
fn has_name<T: Named>(items: &[T], name: &str) -> bool
    ensures { result ≡ has_name T.name_of name.now items.now }
{
    for item in items {
        if item.name() == name {
            return true;
        }
    }
    false
}

/// How many items at the front have names before this one.
fn count_before<T: Named>(items: &[T], name: &str) -> usize
    ensures count { result ≡ count_before T.name_of name.now items.now }
    ensures within { result ≤ length items.now }
{
    let mut count = 0;
    while count < items.len() && items[count].name() < name {
        count += 1;
    }
    count
}
