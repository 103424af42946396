//! A path: a source and a site. A message has one for each source that it may leave by.
ghost use Rattle.std.specs.Prelude.{◌≡◌, IfOk};
ghost use Rattle.history_core.specs.History.{is_same_path};

use kumo_base::{Memory, Text};
use policy_core::Site;
use std::alloc::Global;

/// A way out: connections from a source to the mail exchangers of a site.
#[derive(Drop)]
pub struct Path {
    /// The source's name.
    pub source: Text,
    pub site: Site,
}

/// A message that was promoted.
#[derive(Drop)]
pub struct Promoted {
    /// The place of the entry in the history, from 0.
    pub place: u64,
    pub id: u128,
    /// The path that it was promoted to.
    pub path: Path,
}

impl Path {
    /// An equal path.
    pub fn copy(&self, alloc: Global) -> Result<Path, Memory>
        ensures { IfOk result (λ copy. copy ≡ self.now) }
    {
        Ok(Path {
            source: self.source.copy(alloc)?,
            site: self.site.copy(alloc)?,
        })
    }

    /// Whether two paths have the same source and the same site.
    pub fn is_same(&self, other: &Path) -> bool
        ensures { result ≡ is_same_path self.now other.now }
    {
        self.source.is_same(other.source.as_str()) && self.site.is_same(&other.site)
    }
}
