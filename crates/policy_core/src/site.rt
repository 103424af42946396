//! Sites, and what the shaping tables of a path come to.
ghost use Rattle.std.specs.Prelude.{◌≡◌, IfOk};
ghost use Rattle.policy_core.specs.Site.{are_same_texts, is_same_site};

use crate::copying::copy_items;
use crate::options::Options;
use crate::rules::Rule;
use kumo_base::{Items, Memory, Text};
use std::alloc::Global;

/// The mail exchangers that a domain's mail goes to, shared by all domains that roll up to the same ones.
#[derive(Drop)]
pub struct Site {
    pub name: Text,
    /// In byte order where a policy gave them, each once, and one at least.
    pub hosts: Items<Text>,
}

/// What the tables for a path come to, before any rule fires.
#[derive(Drop)]
pub struct PathBase {
    pub options: Options,
    /// The rules of all these tables, in the order of the tables.
    pub rules: Items<Rule>,
}

impl Site {
    /// An equal site.
    pub fn copy(&self, alloc: Global) -> Result<Site, Memory>
        ensures { IfOk result (λ copy. copy ≡ self.now) }
    {
        Ok(Site {
            name: self.name.copy(alloc)?,
            hosts: copy_items(alloc, &self.hosts)?,
        })
    }

    /// Whether two sites have the same name and the same hosts.
    pub fn is_same(&self, other: &Site) -> bool
        ensures { result ≡ is_same_site self.now other.now }
    {
        self.name.is_same(other.name.as_str())
            && are_same_texts(self.hosts.as_slice(), other.hosts.as_slice())
    }
}

/// Whether two lists have the same texts in the same order.
pub fn are_same_texts(texts: &[Text], others: &[Text]) -> bool
    ensures { result ≡ are_same_texts texts.now others.now }
{
    if texts.len() != others.len() {
        return false;
    }
    for place in 0..texts.len() {
        if !texts[place].is_same(others[place].as_str()) {
            return false;
        }
    }
    true
}

impl PathBase {
    /// Equal options and rules.
    pub fn copy(&self, alloc: Global) -> Result<PathBase, Memory>
        ensures { IfOk result (λ copy. copy ≡ self.now) }
    {
        Ok(PathBase {
            options: self.options,
            rules: copy_items(alloc, &self.rules)?,
        })
    }
}
