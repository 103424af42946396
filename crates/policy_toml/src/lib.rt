//! What the readers of the TOML policy files share: the document, the places of faults and which of them is reported, keys
//! without effect, and what stands at a key.
//!
//! A reader goes through the whole document and hands every fault to one `FirstFault`, which keeps the first by place; so
//! the order of its walk does not matter. Where none was met it makes its data from the document.
#![tactic(auto)]

mod document;
mod domains;
mod fault;
mod ignored;
pub mod laws;
mod order;
mod values;

pub use document::{entry, is_table, open_document, table_at};
pub use domains::{DomainTables, note_twice};
pub use fault::{Fault, FirstFault, WHOLE_TABLE, numbered};
pub use ignored::note_ignored;
pub use order::{Named, put_by_name};
pub use values::{duration_at, text_at};
