//! Domains that are equal in lower case.
//!
//! A reader says by `DomainTables` which members of a table are the tables of domains, and `note_twice` notes those of them
//! whose domain has one already. Nothing is kept.
ghost use Rattle.std.specs.Prelude.{◌≡◌, ℕ, List, true, OnOk};
ghost use Rattle.std.specs.BTreeSet.{contains_text};
ghost use Rattle.toml.specs.View.{table_view, view};
ghost use Rattle.policy_toml.specs.Places.{first_of};
ghost use Rattle.policy_toml.specs.Domains.{none_met, met_with, faults_if_met, faults_of_twice};

use crate::fault::{FirstFault, WHOLE_TABLE};
use kumo_base::Memory;
use policy_fault::{Why, joined};
use std::alloc::Global;
use std::collections::BTreeSet;
use toml::{Table, Value};

/// Which members of a table are the tables of domains.
pub trait DomainTables {
    ghost use Rattle.std.specs.Prelude.{ℕ, List, Bool};
    ghost use Rattle.toml.specs.Data.{Data};
    ghost use Rattle.toml.specs.View.{view};

    ghost is_domain: { List ℕ → Data → Bool };

    /// Whether the member of this key and value is the table of a domain.
    fn is_domain_table(key: &str, value: &Value) -> bool
        ensures { result ≡ is_domain key.now (view value.now) };
}

/// The domains among the members of the table at `place` that are equal in lower case to one before them.
#[tactic(auto, using(crate::proofs::DomainLemmas::twice_step))]
pub fn note_twice<T: DomainTables>(
    alloc: Global,
    faults: &mut FirstFault,
    place: &str,
    table: &Table,
) -> Result<(), Memory>
    ensures { OnOk result (faults.new ≡ first_of faults.old
        (faults_of_twice T.is_domain place.now none_met (table_view table.now))) }
{
    let mut met: BTreeSet<String> = BTreeSet::new(alloc);
    for (key, value) in table.iter() {
        note_if_met::<T>(alloc, faults, &mut met, place, key.as_str(), value)?;
    }
    Ok(())
}

/// A member of the table at `place`: a domain that is equal in lower case to one of those that were met, to whose names its
/// own is added.
#[tactic(auto, unfolding(crate::specs::Domains::faults_if_met, crate::specs::Domains::met_with))]
fn note_if_met<T: DomainTables>(
    alloc: Global,
    faults: &mut FirstFault,
    met: &mut BTreeSet<String>,
    place: &str,
    key: &str,
    value: &Value,
) -> Result<(), Memory>
    ensures faults { OnOk result (faults.new ≡ first_of faults.old
        (faults_if_met (T.is_domain key.now (view value.now)) (contains_text met.old) place.now key.now)) }
    ensures met { OnOk result ((name : List ℕ) → contains_text met.new name
        ≡ met_with (T.is_domain key.now (view value.now)) (contains_text met.old) key.now name) }
{
    if T::is_domain_table(key, value) {
        note_domain(alloc, faults, met, place, key)?;
    }
    Ok(())
}

/// The table of a domain, at a key of the table `place`: it is a fault where a table of the same domain was met, in
/// lower case. The domain's name is added to those that were met.
#[tactic(auto, unfolding(crate::specs::Domains::faults_if_met, crate::specs::Domains::met_with))]
fn note_domain(
    alloc: Global,
    faults: &mut FirstFault,
    met: &mut BTreeSet<String>,
    place: &str,
    key: &str,
) -> Result<(), Memory>
    ensures faults { OnOk result (faults.new ≡ first_of faults.old
        (faults_if_met true (contains_text met.old) place.now key.now)) }
    ensures met { OnOk result ((name : List ℕ) → contains_text met.new name
        ≡ met_with true (contains_text met.old) key.now name) }
{
    if !met.insert(key.to_ascii_lowercase(alloc)?)? {
        let table = joined(alloc, place, key)?;
        faults.note(alloc, table.as_str(), WHOLE_TABLE, Why::Twice)?;
    }
    Ok(())
}
