//! A domain and the hosts that lines give it, before they are put in order.
ghost use Rattle.std.specs.Prelude.{◌≡◌, ◌<◌, ◌++◌, ℕ, List, length, map, IfOk, OnOk, IsTrue, bytes_eq, string_bytes, vec_len};
ghost use Rattle.std.specs.List.{list_any};
ghost use Rattle.std.specs.Ordering.{nat_cmp};
ghost use Rattle.std.specs.Cmp.Lexicographic.{slice_cmp};
ghost use Rattle.policy_core.specs.Mx.{has_hosts};
ghost use Rattle.mx_table.specs.MxText.{row};

use kumo_base::{Items, Memory, Text};
use policy_core::MxRow;
use std::alloc::Global;
use std::cmp::Ordering;
use std::marker::Model;

/// A domain and at least one host, as often and in the order as lines give them.
#[derive(Drop)]
pub struct Row {
    domain: String,
    hosts: Vec<String>,
}

impl Model for Row {
    ghost use Rattle.std.specs.Prelude.{◌<◌, map, length, string_bytes};
    ghost use Rattle.policy_core.specs.declared.mx.MxRow.{MxRow};

    ghost Value = { MxRow };

    ghost view = { λ r. record { domain = string_bytes r.domain; hosts = map string_bytes r.hosts.items } };

    ghost invariant = { λ r. 0 < length r.hosts.items };
}

impl Row {
    /// The row of a domain and its hosts.
    pub fn of(domain: String, hosts: Vec<String>) -> Row
        requires { 0 < vec_len hosts }
        ensures { result ≡ row (string_bytes domain) (map string_bytes hosts.items) }
    {
        Row { domain, hosts }
    }

    /// How the domains of two rows compare byte by byte.
    pub fn compare(&self, other: &Row) -> Ordering
        ensures { result ≡ slice_cmp nat_cmp self.now.domain other.now.domain }
    {
        self.domain.as_str().cmp(other.domain.as_str())
    }

    /// Whether two rows have the same domain.
    pub fn has_domain_of(&self, other: &Row) -> bool
        ensures { result ≡ bytes_eq self.now.domain other.now.domain }
    {
        self.domain.as_str() == other.domain.as_str()
    }

    /// Takes over the hosts of another row.
    pub fn take_hosts(&mut self, other: Row) -> Result<(), Memory>
        ensures { OnOk result (self.new ≡ row self.old.domain (self.old.hosts ++ other.hosts)) }
    {
        let mut hosts = other.hosts;
        self.hosts.append(&mut hosts)?;
        Ok(())
    }

    /// The row as a table has it: the hosts in byte order, each once.
    pub fn in_table(self, alloc: Global) -> Result<MxRow, Memory>
        ensures domain { IfOk result (λ done. done.domain ≡ self.domain) }
        ensures order { IfOk result (λ done. IsTrue (has_hosts done.hosts)) }
        ensures hosts { IfOk result (λ done. (host : List ℕ) → list_any (bytes_eq host) done.hosts
            ≡ list_any (bytes_eq host) self.hosts) }
    {
        let mut hosts = self.hosts;
        hosts.sort_unstable();
        hosts.dedup();
        Ok(MxRow {
            domain: Text::of_string(self.domain),
            hosts: Items::of(texts(alloc, hosts)?),
        })
    }
}

/// Strings as texts.
fn texts(alloc: Global, strings: Vec<String>) -> Result<Vec<Text>, Memory>
    ensures { IfOk result (λ texts. texts.items ≡ map string_bytes strings.items) }
{
    Ok(strings.into_iter().map(Text::of_string).collect(alloc)?)
}
