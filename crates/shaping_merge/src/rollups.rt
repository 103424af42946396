//! Which domains share their sites, for many look-ups.
ghost use Rattle.std.specs.Prelude.{◌≡◌, ℕ, List, is_none, IfOk, OnOk};
ghost use Rattle.std.specs.BTreeMap.{get_by_text};
ghost use Rattle.shaping_merge.specs.inside.Rollups.{rollup_at, with_shape};

use kumo_base::Memory;
use policy_core::DomainShape;
use std::alloc::Global;
use std::collections::BTreeMap;

/// Adds what a table says, unless there was one of the same domain. Whether there was none.
pub(crate) fn add_rollup(
    alloc: Global,
    rollups: &mut BTreeMap<String, bool>,
    shape: &DomainShape,
) -> Result<bool, Memory>
    ensures answer { IfOk result (λ new. new ≡ is_none (get_by_text rollups.old shape.now.domain)) }
    ensures rollups { OnOk result ((name : List ℕ) → get_by_text rollups.new name
        ≡ with_shape (get_by_text rollups.old name) shape.now name) }
{
    let new = rollups.get(shape.domain.as_str()).is_none();
    let domain = String::from_str(alloc, shape.domain.as_str())?;
    rollups.entry(domain)?.or_insert(shape.rollup);
    Ok(new)
}

/// Whether a domain shares its site with others of the same hosts.
pub(crate) fn rollup_in(rollups: &BTreeMap<String, bool>, domain: &str) -> bool
    ensures { result ≡ rollup_at (get_by_text rollups.now domain.now) }
{
    match rollups.get(domain) {
        Some(rollup) => *rollup,
        None => true,
    }
}
