//! Reading policy texts and putting them together.
//!
//! `load_policy` is what `check` and `explain` rest on: it has each text read (`stages.rt`) in the order sources, queues,
//! shaping, MX table, hands what it gives to the next step, and assembles the policy. It keeps nothing but what it answers:
//! the policy and the keys without effect, or the first fault (`LoadFault`), each of which has its cause in the contract.
ghost use Rattle.std.specs.Prelude.{◌≡◌, ◌≤◌, ◌∷◌, ◌++◌, [], None, IsTrue, IfOk, IfErr};
ghost use Rattle.kumo_base.specs.Limits.{latest_moment};
ghost use Rattle.policy_core.specs.Policy.{has_pool, are_entrants_sources, are_sources_named, unknown_pool};
ghost use Rattle.policy_core.specs.Mx.{are_hosts_named};
ghost use Rattle.policy_core.specs.Limits.{unspecified};
ghost use Rattle.command_words.specs.SeenCommands.{seen_names};
ghost use Rattle.policy_texts.specs.Policies.{Loads, Stops, HasCauseIn, counts_of};
ghost use Rattle.policy_texts.specs.inside.Stages.{StopsAtPools, no_counts};

use crate::stages::{take_mx, take_queues, take_shaping, take_sources};
use command_words::PolicyNames;
use kumo_base::LAST_MOMENT;
use kumo_outside::{Search, Texts};
use policy_core::{MxTable, Policy, Queues, Shaping, Sources};
use policy_fault::{Ignored, PolicyFault, PolicyPlace};
use std::alloc::{AllocError, AllocFailed, Global};

/// A policy, and the keys of its texts that have no effect: those of sources, then of queues, then of shaping.
#[derive(Drop)]
pub struct PolicyTexts {
    pub policy: Policy,
    pub ignored: Vec<Ignored>,
}

/// Why policy texts give no policy.
#[derive(Drop)]
pub enum LoadFault {
    /// This place of a text is the first that is at fault.
    Refused(PolicyPlace),
    /// A text has more bytes than are read.
    Limit,
    /// A text could not be read.
    ReadFault,
    /// The search engine failed on a pattern of the shaping text.
    SearchFault,
    /// There was no memory.
    Memory,
}

impl From<AllocError> for LoadFault {
    ghost use Rattle.policy_texts.specs.declared.load.LoadFault.{LoadFault};

    ghost from_gives = { λ _ fault. fault ≡ LoadFault.Memory };

    fn from(_error: AllocError) -> LoadFault {
        LoadFault::Memory
    }
}

impl<T: Drop> From<AllocFailed<T>> for LoadFault {
    ghost use Rattle.policy_texts.specs.declared.load.LoadFault.{LoadFault};

    ghost from_gives = { λ _ fault. fault ≡ LoadFault.Memory };

    fn from(_failed: AllocFailed<T>) -> LoadFault {
        LoadFault::Memory
    }
}

impl From<PolicyFault> for LoadFault {
    ghost use Rattle.policy_texts.specs.Policies.{load_fault_of};

    ghost from_gives = { λ refusal fault. fault ≡ load_fault_of refusal };

    fn from(refusal: PolicyFault) -> LoadFault {
        match refusal {
            PolicyFault::At(place) => LoadFault::Refused(place),
            PolicyFault::Search => LoadFault::SearchFault,
            PolicyFault::Memory => LoadFault::Memory,
        }
    }
}

/// The policy of the texts of these names, whose one stop is `LAST_MOMENT`. A text that has no name is empty.
///
/// The texts are read in the order sources, queues, shaping, mail exchangers, each whole before the next, and then put
/// together; the first fault is the answer:
/// - `ReadFault` where a read failed; the count of faults of the texts rose.
/// - `Limit` where a text has more than `TEXT_LIMIT` bytes.
/// - `Refused` where a text is refused by its reader, or, behind all of them, where a layer of queues names a pool that is not
///   there.
/// - `SearchFault` where the engine failed on a pattern; its count of faults rose.
/// - `Memory` at any time.
pub fn load_policy<T: Texts, S: Search>(
    alloc: Global,
    texts: &mut T,
    names: &PolicyNames<'_>,
    search: &mut S,
) -> Result<PolicyTexts, LoadFault>
    ensures ok { IfOk result (λ loaded. Loads (T.seen texts.old).told (seen_names names.now)
        loaded.policy loaded.ignored.items) }
    ensures err { IfErr result (λ fault. HasCauseIn (Stops (T.seen texts.old).told (seen_names names.now))
        (counts_of (T.seen texts.old) (T.seen texts.new) (S.seen search.old) (S.seen search.new)) fault) }
    ensures told { (T.seen texts.new).told ≡ (T.seen texts.old).told }
    ensures texts { (T.seen texts.old).faults ≤ (T.seen texts.new).faults }
    ensures search { (S.seen search.old).faults ≤ (S.seen search.new).faults }
{
    let (sources, of_sources) = take_sources(alloc, texts, names.sources)?;
    let (queues, of_queues) = take_queues(alloc, texts, names.queues)?;
    let (shaping, of_shaping) = take_shaping(alloc, texts, names.shaping, search)?;
    let mx = take_mx(alloc, texts, names.mx)?;
    let ignored = in_order(of_sources, of_queues, of_shaping)?;
    let policy = assembled(alloc, sources, queues, shaping, mx)?;
    Ok(PolicyTexts { policy, ignored })
}

/// The keys without effect of sources, then those of queues, then those of shaping.
fn in_order(
    mut of_sources: Vec<Ignored>,
    mut of_queues: Vec<Ignored>,
    mut of_shaping: Vec<Ignored>,
) -> Result<Vec<Ignored>, AllocError>
    ensures { IfOk result (λ all. all.items ≡ of_sources.items ++ of_queues.items ++ of_shaping.items) }
{
    of_sources.append(&mut of_queues)?;
    of_sources.append(&mut of_shaping)?;
    Ok(of_sources)
}

/// The policy of these parts, whose one stop is `LAST_MOMENT`.
fn assembled(
    alloc: Global,
    sources: Sources,
    queues: Queues,
    shaping: Shaping,
    mx: MxTable,
) -> Result<Policy, LoadFault>
    requires base { IsTrue (has_pool sources unspecified) }
    requires entrants { IsTrue (are_entrants_sources sources) }
    requires source_names { IsTrue (are_sources_named sources) }
    requires hosts { IsTrue (are_hosts_named mx) }
    ensures ok { IfOk result (λ policy.
        policy ≡ record { sources = sources; queues = queues; shaping = shaping; mx = mx; stops = latest_moment ∷ [] }) }
    ensures known { IfOk result (λ policy. unknown_pool sources queues ≡ None) }
    ensures err { IfErr result (λ fault. HasCauseIn (StopsAtPools sources queues) no_counts fault) }
{
    let stops = vec![in alloc; LAST_MOMENT]?;
    Ok(Policy::assemble(alloc, sources, queues, shaping, mx, stops)?)
}
