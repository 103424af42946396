//! Reads the queues file, and finds the settings of a queue's name in it (KumoMTA's manual, the queues helper).
//!
//! `faults.rt` goes through the document for faults, and `ignored.rt` for keys without effect; `queues.rt` makes the data, and
//! `settings.rt` lays the layers of a name over one another.
#![tactic(auto)]

ghost use Rattle.std.specs.Prelude.{◌≡◌, Ok, IfOk, IfErr};
ghost use Rattle.policy_fault.specs.declared.fault.PolicyFile.TheVariants as file;
ghost use Rattle.policy_toml.specs.Reports.{IsRefusal};
ghost use Rattle.queues_policy.specs.QueuesFile.{queues_file};

mod faults;
mod ignored;
mod queues;
mod settings;
mod values;

use policy_core::Queues;
use policy_fault::{Ignored, PolicyFault, PolicyFile};
use policy_toml::open_document;
pub use settings::{RetrySettings, ages_of, pool_name_of, settings_for};
use std::alloc::Global;

/// The layers of all queues and the keys that have no effect, from the bytes of a queues file (TOML). Durations are in
/// milliseconds, and domains in lower case and in byte order.
///
/// A refusal other than `Memory` is the first fault by the keys of its table joined by `.`, then by its key, then by its word:
/// - `NotToml`: the bytes are no TOML in UTF-8.
/// - `BadType`: a value of another kind than its key wants, or no table where one has to be.
/// - `BadName`: a tenant, domain or campaign that no name of a queue may have. The key is `-`.
/// - `BadDuration`: a text or number that is no duration.
/// - `Zero`: a `retry_interval` or `max_retry_interval` of no length.
/// - `Twice`: a domain equal in lower case to one before it in byte order. The key is `-`.
#[tactic(auto, unfolding(crate::specs::QueuesFile::queues_file))]
pub fn read_queues(alloc: Global, text: &[u8]) -> Result<(Queues, Vec<Ignored>), PolicyFault>
    ensures ok { IfOk result (λ r. queues_file text.now ≡ Ok (record { queues = r.0; ignored = r.1.items })) }
    ensures err { IfErr result (λ fault. IsRefusal file.Queues fault (queues_file text.now)) }
{
    let document = open_document(alloc, PolicyFile::Queues, text)?;
    let faults = faults::faults_in(alloc, &document)?;
    if let Some(fault) = faults.into_fault() {
        return Err(fault.reported(alloc, PolicyFile::Queues));
    }
    let queues = queues::queues_in(alloc, &document)?;
    let ignored = ignored::ignored_in(alloc, &document)?;
    Ok((queues, ignored))
}
