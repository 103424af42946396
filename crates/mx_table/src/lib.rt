//! Reads an MX table: which hosts the mail of domains goes to. It stands for the MX records that a sender would look up
//! (RFC 5321 section 5.1), without preferences: the hosts of a domain are equal, and are kept in byte order.
//!
//! The text is UTF-8. A line is a domain and one host or more, with blanks or tabs between them and, where one likes, before
//! and behind them; it ends at LF or CR LF. A line without words counts for nothing, nor does one whose first byte is `#`.
//! The lines of one domain are joined, and a host that is said twice counts once.
//!
//!     # the exchangers of one.example
//!     one.example    mx1.big.example mx2.big.example
//!
//! Names are taken in lower case (ASCII), and one `.` at the end of a name is dropped.
//!
//! `line.rt` reads one line to a `Row`, `row.rt` has what is done with rows, `table.rt` puts them in order and joins them, and
//! `fault.rt` reports a refused line.
#![tactic(auto)]

ghost use Rattle.std.specs.Prelude.{◌≡◌, ◌<◌, ◌^◌, ◌++◌, ◌∷◌, [], length, Ok, IfOk, IfErr, OnOk, IsTrue};
ghost use Rattle.std.specs.Str.{is_utf8};
ghost use Rattle.policy_core.specs.Mx.{are_hosts_named};
ghost use Rattle.kumo_base.specs.Lines.{numbered_lines};
ghost use Rattle.mx_table.specs.MxText.{rows_in, rows_from, IsMxOf, IsMxRefusal};

mod fault;
pub mod laws;
mod line;
mod row;
mod table;

use crate::fault::RowFault;
use crate::row::Row;
use kumo_base::{Lines, Memory};
use policy_core::MxTable;
use policy_fault::{PolicyFault, Why};
use std::alloc::Global;

/// The table that a text is: for each domain of its lines the hosts that they give it.
///
/// A refusal other than `Memory` names the first line that is refused, counted from 1 over all lines, as the table `line N`
/// of the file `mx` with the key `-`:
/// - `NotText`: the text is no UTF-8. It comes before all others, at line 1.
/// - `NoHost`: a line that has a domain alone. It comes before `BadName` on its line.
/// - `BadName`: a domain or a host that is not 1 to 255 bytes of visible ASCII, or has one of `|`, `=`, `:`, `@`, `!` and `>`.
///
/// `Search` never comes.
#[tactic(auto, unfolding(crate::specs::MxText::rows_in), using(crate::proofs::NamedLemmas::named_table))]
pub fn read_mx(alloc: Global, text: &[u8]) -> Result<MxTable, PolicyFault>
    requires { length text.now < 2 ^ 63 }
    ensures ok { IfOk result (λ table. IsMxOf table (rows_in text.now)) }
    ensures err { IfErr result (λ fault. IsMxRefusal fault (rows_in text.now)) }
    ensures named { IfOk result (λ table. IsTrue (are_hosts_named table)) }
{
    if !is_text(text) {
        return Err(fault::report(alloc, 1, Why::NotText));
    }
    let rows = rows_of(alloc, text)?;
    Ok(table::table_of(alloc, rows)?)
}

/// Whether bytes are UTF-8.
fn is_text(bytes: &[u8]) -> bool
    ensures { result ≡ is_utf8 bytes.now }
{
    std::str::from_utf8(bytes).is_ok()
}

/// The rows that the lines of a text are.
fn rows_of(alloc: Global, text: &[u8]) -> Result<Vec<Row>, PolicyFault>
    requires { length text.now < 2 ^ 63 }
    ensures ok { IfOk result (λ rows. rows_from [] (numbered_lines text.now) ≡ Ok rows.items) }
    ensures err { IfErr result (λ fault. IsMxRefusal fault (rows_from [] (numbered_lines text.now))) }
{
    let mut rows = Vec::new(alloc);
    let mut lines = Lines::of(text);
    while let Some((number, line)) = lines.next_line() {
        match line::row_of(alloc, line) {
            Ok(Some(row)) => push(&mut rows, row)?,
            Ok(None) => {}
            Err(RowFault::Refused(why)) => return Err(fault::report(alloc, number, why)),
            Err(RowFault::Memory) => return Err(PolicyFault::Memory),
        }
    }
    Ok(rows)
}

/// Appends to a list.
fn push<T: Drop>(list: &mut Vec<T>, item: T) -> Result<(), Memory>
    ensures { OnOk result (list.new.items ≡ list.old.items ++ item ∷ []) }
{
    list.push(item)?;
    Ok(())
}
