//! The sources that mail leaves by, and the pools that share a queue's mail among them (KumoMTA's egress sources and egress
//! pools).
//!
//! The reader of a sources file makes these lists, and the turner of a pool takes its weights from them. They are plain data;
//! that every entrant has a source is kept by `Policy`. Copies are equal; the one refusal is `Memory`.
ghost use Rattle.std.specs.Prelude.{◌≡◌, IfOk};

use crate::copying::{TryCopy, copy_items};
use kumo_base::{Items, Memory, Text};
use std::alloc::Global;

/// A source of connections.
#[derive(Drop)]
pub struct Source {
    pub name: Text,
    /// The argument of EHLO on its connections (RFC 5321 section 4.1.1.1).
    pub ehlo: Text,
}

/// The share of a source in a pool.
#[derive(Drop)]
pub struct Entrant {
    /// The source's name.
    pub source: Text,
    /// In how many rounds of the rotation the source has a turn. With 0 it has none.
    pub weight: u32,
}

/// A pool: sources that take turns.
#[derive(Drop)]
pub struct Pool {
    pub name: Text,
    /// In byte order of the sources' names where a reader made the pool. There may be none.
    pub entrants: Items<Entrant>,
}

/// All sources and pools. Where a reader made the lists, they are in byte order of names, each name once, and
/// `unspecified` is in both.
#[derive(Drop)]
pub struct Sources {
    pub sources: Items<Source>,
    pub pools: Items<Pool>,
}

impl Source {
    /// An equal source.
    pub fn copy(&self, alloc: Global) -> Result<Source, Memory>
        ensures { IfOk result (λ copy. copy ≡ self.now) }
    {
        Ok(Source {
            name: self.name.copy(alloc)?,
            ehlo: self.ehlo.copy(alloc)?,
        })
    }
}

impl TryCopy for Source {
    fn try_copy(&self, alloc: Global) -> Result<Source, Memory> {
        self.copy(alloc)
    }
}

impl Entrant {
    /// An equal entrant.
    pub fn copy(&self, alloc: Global) -> Result<Entrant, Memory>
        ensures { IfOk result (λ copy. copy ≡ self.now) }
    {
        Ok(Entrant {
            source: self.source.copy(alloc)?,
            weight: self.weight,
        })
    }
}

impl TryCopy for Entrant {
    fn try_copy(&self, alloc: Global) -> Result<Entrant, Memory> {
        self.copy(alloc)
    }
}

impl Pool {
    /// An equal pool.
    pub fn copy(&self, alloc: Global) -> Result<Pool, Memory>
        ensures { IfOk result (λ copy. copy ≡ self.now) }
    {
        Ok(Pool {
            name: self.name.copy(alloc)?,
            entrants: copy_items(alloc, &self.entrants)?,
        })
    }
}

impl TryCopy for Pool {
    fn try_copy(&self, alloc: Global) -> Result<Pool, Memory> {
        self.copy(alloc)
    }
}

impl Sources {
    /// Equal sources and pools.
    pub fn copy(&self, alloc: Global) -> Result<Sources, Memory>
        ensures { IfOk result (λ copy. copy ≡ self.now) }
    {
        Ok(Sources {
            sources: copy_items(alloc, &self.sources)?,
            pools: copy_items(alloc, &self.pools)?,
        })
    }
}
