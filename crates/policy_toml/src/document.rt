//! The document of a policy file and its tables.
//!
//! The three readers of TOML files open their document here and look into its tables by these functions, so that what counts
//! as a table, as a value at a key and as the name of a table is said once. Nothing is kept. A text that is no TOML in UTF-8
//! is refused as a whole, by `NotToml` at `-`; else the one refusal is `Memory`.
ghost use Rattle.std.specs.Prelude.{◌≡◌, [], IfOk, IfErr, Some, option_map};
ghost use Rattle.toml.specs.Data.{get_member, as_table};
ghost use Rattle.toml.specs.View.{table_view, view};
ghost use Rattle.policy_fault.specs.declared.fault.Why.TheVariants.{NotToml};
ghost use Rattle.policy_toml.specs.Places.{fault, whole_table};
ghost use Rattle.policy_toml.specs.Reports.{IsReportedFault, IsUnopened};
ghost use Rattle.policy_toml.specs.Values.{document_in};
ghost use Rattle.policy_toml.specs.Walks.{is_table, table_at};
ghost use Rattle.policy_toml.specs.inside.Unread.{IsUnread};

use crate::fault::{Fault, WHOLE_TABLE};
use kumo_base::{Memory, Text, utf8_in};
use policy_fault::{PolicyFault, PolicyFile, Why};
use std::alloc::Global;
use toml::{Table, Value};

/// Why a text gives no document.
#[derive(Clone, Copy)]
enum Unread {
    /// It is no TOML in UTF-8.
    NotToml,
    /// There was no memory.
    Memory,
}

/// The document that the bytes are, as TOML 1.1 in UTF-8.
#[tactic(auto, unfolding(crate::specs::Values::document_in))]
fn read_document(alloc: Global, bytes: &[u8]) -> Result<Table, Unread>
    ensures ok { IfOk result (λ t. document_in bytes.now ≡ Some (table_view t)) }
    ensures err { IfErr result (λ why. IsUnread why (document_in bytes.now)) }
{
    let Some(text) = utf8_in(bytes) else {
        return Err(Unread::NotToml);
    };
    match toml::table_from_str(alloc, text) {
        Ok(table) => Ok(table),
        Err(error) => {
            if error.is_memory() {
                Err(Unread::Memory)
            } else {
                Err(Unread::NotToml)
            }
        }
    }
}

/// The document of a policy file. A text that is no TOML is refused as a whole, with `-` for table and key.
pub fn open_document(alloc: Global, file: PolicyFile, bytes: &[u8]) -> Result<Table, PolicyFault>
    ensures ok { IfOk result (λ t. document_in bytes.now ≡ Some (table_view t)) }
    ensures err { IfErr result (λ refusal. IsUnopened file refusal (document_in bytes.now)) }
{
    match read_document(alloc, bytes) {
        Ok(document) => Ok(document),
        Err(Unread::NotToml) => Err(refused_whole(alloc, file)),
        Err(Unread::Memory) => Err(PolicyFault::Memory),
    }
}

/// The refusal of a text that is no TOML.
fn refused_whole(alloc: Global, file: PolicyFile) -> PolicyFault
    ensures { IsReportedFault file (fault [] whole_table NotToml) result }
{
    let key = match Text::of(alloc, WHOLE_TABLE) {
        Ok(key) => key,
        Err(Memory) => return PolicyFault::Memory,
    };
    let fault = Fault {
        table: Text::new(alloc),
        number: 0,
        key,
        item: 0,
        why: Why::NotToml,
    };
    fault.reported(alloc, file)
}

/// The value at a key.
pub fn entry<'t>(table: &'t Table, key: &str) -> Option<&'t Value>
    ensures { option_map (λ v. view v.now) result ≡ get_member key.now (table_view table.now) }
{
    table.get(key)
}

/// The table at a key. `None` where the key is not there or has another value.
pub fn table_at<'t>(table: &'t Table, key: &str) -> Option<&'t Table>
    ensures { option_map (λ t. table_view t.now) result ≡ table_at key.now (table_view table.now) }
{
    match entry(table, key) {
        Some(value) => value.as_table(),
        None => None,
    }
}

/// Whether a value is a table.
pub fn is_table(value: &Value) -> bool
    ensures { result ≡ is_table (view value.now) }
{
    value.as_table().is_some()
}
