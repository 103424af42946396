//! The mail exchangers of domains.
ghost use Rattle.std.specs.Prelude.{◌≡◌, IfOk, option_map};
ghost use Rattle.policy_core.specs.Mx.{hosts_in};

use crate::copying::{TryCopy, copy_items};
use kumo_base::{Items, Memory, Text};
use std::alloc::Global;
use std::marker::Model;

/// The hosts that a domain's mail goes to.
#[derive(Drop)]
pub struct MxRow {
    /// In lower case.
    pub domain: Text,
    /// In lower case.
    pub hosts: Items<Text>,
}

/// The rows of domains in byte order, each domain once; in each row one host or more, in byte order, each once.
#[derive(Drop)]
pub struct MxTable {
    pub rows: Items<MxRow>,
}

impl Model for MxTable {
    ghost use Rattle.std.specs.Prelude.{List, IsTrue};
    ghost use Rattle.policy_core.specs.Mx.{is_mx_table};
    ghost use Rattle.policy_core.specs.declared.mx.MxRow.{MxRow};

    ghost Value = { List MxRow };

    ghost view = { λ t. t.rows };

    ghost invariant = { λ t. IsTrue (is_mx_table t.rows) };
}

impl MxRow {
    /// An equal row.
    pub fn copy(&self, alloc: Global) -> Result<MxRow, Memory>
        ensures { IfOk result (λ copy. copy ≡ self.now) }
    {
        Ok(MxRow {
            domain: self.domain.copy(alloc)?,
            hosts: copy_items(alloc, &self.hosts)?,
        })
    }
}

impl TryCopy for MxRow {
    fn try_copy(&self, alloc: Global) -> Result<MxRow, Memory> {
        self.copy(alloc)
    }
}

impl MxTable {
    /// The hosts of a domain in byte order, where it has a row. Rows are in lower case, and the domain is looked for as it
    /// is given.
    pub fn hosts(&self, domain: &str) -> Option<&[Text]>
        ensures { option_map (λ hosts. hosts.now) result ≡ hosts_in self.now domain.now }
    {
        let rows = self.rows.as_slice();
        match rows.binary_search_by(|row| row.domain.as_str().cmp(domain)) {
            Ok(place) => Some(rows[place].hosts.as_slice()),
            Err(_) => None,
        }
    }

    /// An equal table.
    pub fn copy(&self, alloc: Global) -> Result<MxTable, Memory>
        ensures { IfOk result (λ copy. copy ≡ self.now) }
    {
        Ok(MxTable {
            rows: copy_items(alloc, &self.rows)?,
        })
    }
}
