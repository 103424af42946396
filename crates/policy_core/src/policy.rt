//! A policy: the sources, the queues, the shaping and the mail exchangers of one run, which fit together.
//!
//! The readers of policy texts make the parts, and `Policy::assemble` puts them together. Nothing of a policy changes
//! while mail is sent by it, so what its type keeps is known wherever there is one.
ghost use Rattle.std.specs.Prelude.{◌≡◌, IsTrue, IfOk, IfErr, OnOk, None};
ghost use Rattle.policy_core.specs.Policy.{are_stops, has_base_pool, are_entrants_sources, are_sources_named, unknown_pool, IsUnknownPool};
ghost use Rattle.policy_core.specs.Mx.{are_hosts_named};

use crate::mx::MxTable;
use crate::pools::unknown_pool;
use crate::queues::Queues;
use crate::shaping::Shaping;
use crate::sources::Sources;
use kumo_base::{Items, Text};
use policy_fault::{PolicyFault, PolicyFile, PolicyPlace, Why};
use std::alloc::Global;
use std::marker::Model;

/// A policy. Of its parts together the type keeps:
///
/// - the pool of every queue's settings is in `sources`, whatever the queue's name;
/// - each entrant of a pool names a source;
/// - the names of sources and of hosts keep the rules of `is_source_name` and `is_host_name`;
/// - there is a stop, each stop is later than the one before it, and the last is at most `LAST_MOMENT`.
#[derive(Drop)]
pub struct Policy {
    pub sources: Sources,
    pub queues: Queues,
    pub shaping: Shaping,
    pub mx: MxTable,
    /// The moments at which a run stops, in milliseconds since 1970; the last is its horizon.
    pub stops: Items<u64>,
}

impl Model for Policy {
    ghost use Rattle.policy_core.specs.Policy.{Policy, IsPolicy};

    ghost Value = { Policy };

    ghost view = { λ p. record { sources = p.sources; queues = p.queues; shaping = p.shaping; mx = p.mx; stops = p.stops } };

    ghost invariant = { λ p. IsPolicy
        (record { sources = p.sources; queues = p.queues; shaping = p.shaping; mx = p.mx; stops = p.stops }) };
}

impl Policy {
    /// The policy of these parts. It is refused where a layer of queues names a pool that is not there: as UnknownPool at the
    /// key `egress_pool` of its table in the queues file, of several the first table in byte order. After a refusal, and
    /// after `Memory`, the parts are gone.
    pub fn assemble(
        alloc: Global,
        sources: Sources,
        queues: Queues,
        shaping: Shaping,
        mx: MxTable,
        stops: Vec<u64>,
    ) -> Result<Policy, PolicyFault>
        requires stops { IsTrue (are_stops stops.items) }
        requires base { IsTrue (has_base_pool sources queues) }
        requires entrants { IsTrue (are_entrants_sources sources) }
        requires source_names { IsTrue (are_sources_named sources) }
        requires hosts { IsTrue (are_hosts_named mx) }
        ensures ok { IfOk result (λ policy. policy
            ≡ record { sources = sources; queues = queues; shaping = shaping; mx = mx; stops = stops.items }) }
        ensures known { IfOk result (λ policy. unknown_pool sources queues ≡ None) }
        ensures err { IfErr result (λ fault. IsUnknownPool fault (unknown_pool sources queues)) }
    {
        check_pools(alloc, &sources, &queues)?;
        Ok(Policy {
            sources,
            queues,
            shaping,
            mx,
            stops: Items::of(stops),
        })
    }
}

/// Refuses queues of which a layer names a pool that is not there.
fn check_pools(alloc: Global, sources: &Sources, queues: &Queues) -> Result<(), PolicyFault>
    ensures ok { OnOk result (unknown_pool sources.now queues.now ≡ None) }
    ensures err { IfErr result (λ fault. IsUnknownPool fault (unknown_pool sources.now queues.now)) }
{
    let Some(table) = unknown_pool(alloc, sources, queues)? else {
        return Ok(());
    };
    Err(PolicyFault::At(PolicyPlace {
        file: PolicyFile::Queues,
        table,
        key: Text::of(alloc, "egress_pool")?,
        why: Why::UnknownPool,
    }))
}
