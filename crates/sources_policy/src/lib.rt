//! Reads the sources file: the sources that mail leaves by, and the pools that share it among them (KumoMTA's manual, the
//! sources helper).
//!
//! `faults.rt` goes through the document for faults, `ignored.rt` for keys without effect; `sources.rt` makes the data.
#![tactic(auto)]

ghost use Rattle.std.specs.Prelude.{◌≡◌, IfOk, IfErr, Ok, IsTrue};
ghost use Rattle.policy_fault.specs.declared.fault.PolicyFile.TheVariants as file;
ghost use Rattle.policy_core.specs.Limits.{unspecified};
ghost use Rattle.policy_core.specs.Policy.{has_pool, are_entrants_sources, are_sources_named};
ghost use Rattle.policy_toml.specs.Reports.{IsRefusal};
ghost use Rattle.sources_policy.specs.SourcesFile.{sources_file};

mod faults;
mod ignored;
pub mod laws;
mod order;
mod sources;
mod values;

use crate::faults::faults_in;
use crate::ignored::ignored_in;
use crate::sources::sources_in;
use policy_core::Sources;
use policy_fault::{Ignored, PolicyFault, PolicyFile};
use policy_toml::open_document;
use std::alloc::Global;

/// The sources and pools of a file and the keys that have no effect, from the bytes of a sources file (TOML). The source and
/// the pool `unspecified` are always there; lists are in byte order of names. Each entrant of a pool is one of the sources.
///
/// A refusal other than `Memory` is the first fault by the keys of its table joined by `.`, then by its key, then by its word:
/// - `NotToml`: the bytes are no TOML in UTF-8.
/// - `BadType`: a value of another kind than its key wants, or a table where none may be, or no table where one has to be.
/// - `BadName`: a name that no source or pool may have, with the key `-`; or an `ehlo_domain` that is not printable.
/// - `BadWeight`: a weight that is not from 0 to 1,000.
/// - `TooMany`: more than 200 entrants. The key is `-`.
/// - `UnknownSource`: an entrant of which the file has no table. The key is `-`.
#[tactic(auto, unfolding(crate::specs::SourcesFile::sources_file), using(crate::proofs::FitLemmas::fits))]
pub fn read_sources(alloc: Global, text: &[u8]) -> Result<(Sources, Vec<Ignored>), PolicyFault>
    ensures ok { IfOk result (λ r. sources_file text.now ≡ Ok (record { sources = r.0; ignored = r.1.items })) }
    ensures err { IfErr result (λ fault. IsRefusal file.Sources fault (sources_file text.now)) }
    ensures base { IfOk result (λ r. IsTrue (has_pool r.0 unspecified)) }
    ensures entrants { IfOk result (λ r. IsTrue (are_entrants_sources r.0)) }
    ensures source_names { IfOk result (λ r. IsTrue (are_sources_named r.0)) }
{
    let document = open_document(alloc, PolicyFile::Sources, text)?;
    let faults = faults_in(alloc, &document)?;
    if let Some(fault) = faults.into_fault() {
        return Err(fault.reported(alloc, PolicyFile::Sources));
    }
    let sources = sources_in(alloc, &document)?;
    let ignored = ignored_in(alloc, &document)?;
    Ok((sources, ignored))
}
