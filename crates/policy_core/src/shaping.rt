//! What a shaping file says: the options and rules of paths by receiver, and by source within a receiver (KumoMTA's shaping
//! helper).
//!
//! The reader of a shaping file makes these lists, and `shaping_merge` lays the tables of a path over one another. They are
//! plain data: of equal names in a hand-made list the first counts. Copies are equal; the one refusal is `Memory`.
ghost use Rattle.std.specs.Prelude.{◌≡◌, IfOk};

use crate::copying::{TryCopy, copy_items};
use crate::options::Options;
use crate::rules::Rule;
use kumo_base::{Items, Memory, Text};
use std::alloc::Global;

/// What a table says for one source alone. It has no such tables within.
#[derive(Drop)]
pub struct SourceTable {
    /// The source's name.
    pub source: Text,
    pub options: Options,
    /// In the order of the file.
    pub rules: Items<Rule>,
}

/// What a table says: for every source, and for some sources alone.
#[derive(Drop)]
pub struct ShapeTable {
    pub options: Options,
    /// In the order of the file.
    pub rules: Items<Rule>,
    /// Where a reader made it, in byte order of the sources' names, each once; of equal names the first counts.
    pub sources: Items<SourceTable>,
}

/// What is said for a domain.
#[derive(Drop)]
pub struct DomainShape {
    /// In lower case.
    pub domain: Text,
    /// Whether the domain's mail shares its paths with that of all domains of the same mail exchangers (`mx_rollup`).
    pub rollup: bool,
    pub table: ShapeTable,
}

/// How a provider knows its sites. The texts are in lower case, as the names that they are compared with.
#[derive(Drop)]
pub enum Match {
    /// Every host of the site ends with this text.
    MxSuffix(Text),
    /// Some domain of the site ends with this text.
    DomainSuffix(Text),
}

/// What is said for all sites of a provider.
#[derive(Drop)]
pub struct Provider {
    pub name: Text,
    /// A site is the provider's where one of these says so.
    pub matches: Items<Match>,
    pub table: ShapeTable,
}

/// All that a shaping file says. Where a reader made the lists, they are in byte order of names, each name once; in
/// others the first of equal names counts.
#[derive(Drop)]
pub struct Shaping {
    /// For all paths (`default`).
    pub base: ShapeTable,
    /// For the sites of providers, over `base`.
    pub providers: Items<Provider>,
    /// For domains, over both.
    pub domains: Items<DomainShape>,
}

impl SourceTable {
    /// An equal table of the same source.
    pub fn copy(&self, alloc: Global) -> Result<SourceTable, Memory>
        ensures { IfOk result (λ copy. copy ≡ self.now) }
    {
        Ok(SourceTable {
            source: self.source.copy(alloc)?,
            options: self.options,
            rules: copy_items(alloc, &self.rules)?,
        })
    }
}

impl TryCopy for SourceTable {
    fn try_copy(&self, alloc: Global) -> Result<SourceTable, Memory> {
        self.copy(alloc)
    }
}

impl ShapeTable {
    /// An equal table.
    pub fn copy(&self, alloc: Global) -> Result<ShapeTable, Memory>
        ensures { IfOk result (λ copy. copy ≡ self.now) }
    {
        Ok(ShapeTable {
            options: self.options,
            rules: copy_items(alloc, &self.rules)?,
            sources: copy_items(alloc, &self.sources)?,
        })
    }
}

impl DomainShape {
    /// Equal shaping of the same domain.
    pub fn copy(&self, alloc: Global) -> Result<DomainShape, Memory>
        ensures { IfOk result (λ copy. copy ≡ self.now) }
    {
        Ok(DomainShape {
            domain: self.domain.copy(alloc)?,
            rollup: self.rollup,
            table: self.table.copy(alloc)?,
        })
    }
}

impl TryCopy for DomainShape {
    fn try_copy(&self, alloc: Global) -> Result<DomainShape, Memory> {
        self.copy(alloc)
    }
}

impl Match {
    /// An equal match.
    pub fn copy(&self, alloc: Global) -> Result<Match, Memory>
        ensures { IfOk result (λ copy. copy ≡ self.now) }
    {
        match self {
            Match::MxSuffix(suffix) => Ok(Match::MxSuffix(suffix.copy(alloc)?)),
            Match::DomainSuffix(suffix) => Ok(Match::DomainSuffix(suffix.copy(alloc)?)),
        }
    }
}

impl TryCopy for Match {
    fn try_copy(&self, alloc: Global) -> Result<Match, Memory> {
        self.copy(alloc)
    }
}

impl Provider {
    /// An equal provider.
    pub fn copy(&self, alloc: Global) -> Result<Provider, Memory>
        ensures { IfOk result (λ copy. copy ≡ self.now) }
    {
        Ok(Provider {
            name: self.name.copy(alloc)?,
            matches: copy_items(alloc, &self.matches)?,
            table: self.table.copy(alloc)?,
        })
    }
}

impl TryCopy for Provider {
    fn try_copy(&self, alloc: Global) -> Result<Provider, Memory> {
        self.copy(alloc)
    }
}

impl Shaping {
    /// Equal shaping.
    pub fn copy(&self, alloc: Global) -> Result<Shaping, Memory>
        ensures { IfOk result (λ copy. copy ≡ self.now) }
    {
        Ok(Shaping {
            base: self.base.copy(alloc)?,
            providers: copy_items(alloc, &self.providers)?,
            domains: copy_items(alloc, &self.domains)?,
        })
    }
}
