//! Rows to a table: in order, those of one domain merged.
ghost use Rattle.std.specs.Prelude.{◌≡◌, IfOk, IsTrue, true};
ghost use Rattle.std.specs.List.{list_all};
ghost use Rattle.std.specs.List.Sorted.{IsPermutation, IsSortedBy};
ghost use Rattle.policy_core.specs.Mx.{has_hosts};
ghost use Rattle.mx_table.specs.MxText.{Joins};
ghost use Rattle.mx_table.specs.inside.Merged.{by_domain, domains, merged_rows};

use crate::row::Row;
use kumo_base::{Items, Memory};
use policy_core::{MxRow, MxTable};
use std::alloc::Global;
use std::mem;

/// The table that joins rows.
pub fn table_of(alloc: Global, rows: Vec<Row>) -> Result<MxTable, Memory>
    ensures { IfOk result (λ table. Joins table rows.items) }
{
    let merged = merged_rows(alloc, in_order(rows))?;
    Ok(MxTable {
        rows: Items::of(finished(alloc, merged)?),
    })
}

/// Rows in the order of their domains.
fn in_order(mut rows: Vec<Row>) -> Vec<Row>
    ensures permutation { IsPermutation rows.items result.items }
    ensures sorted { IsSortedBy by_domain result.items }
{
    rows.sort_unstable_by(|a, b| a.compare(b));
    rows
}

/// Rows with neighbours of one domain merged.
fn merged_rows(alloc: Global, rows: Vec<Row>) -> Result<Vec<Row>, Memory>
    ensures { IfOk result (λ done. done.items ≡ merged_rows rows.items) }
{
    let mut done = Vec::new(alloc);
    let mut rest = rows.into_iter();
    let Some(mut last) = rest.next() else {
        return Ok(done);
    };
    for row in rest {
        if last.has_domain_of(&row) {
            last.take_hosts(row)?;
        } else {
            done.push(mem::replace(&mut last, row))?;
        }
    }
    done.push(last)?;
    Ok(done)
}

/// Rows as a table has them.
fn finished(alloc: Global, rows: Vec<Row>) -> Result<Vec<MxRow>, Memory>
    ensures domains { IfOk result (λ done. domains done.items ≡ domains rows.items) }
    ensures order { IfOk result (λ done. IsTrue (list_all (λ r. has_hosts r.hosts) done.items)) }
    ensures joins { IfOk result (λ done. Joins done.items rows.items) }
{
    let mut done = Vec::new(alloc);
    for row in rows {
        done.push(row.in_table(alloc)?)?;
    }
    Ok(done)
}
