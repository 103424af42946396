//! The faults of a file, of which one is reported.
//!
//! A reader goes over its whole document with one `FirstFault` and notes every fault in it; `FirstFault` keeps the one that
//! comes first by place, so that the order of the reader's steps does not matter. Where none was noted the reader makes its
//! data, and else `reported` gives the fault the form that is printed. `Memory` leaves the kept fault as it was.
ghost use Rattle.std.specs.Prelude.{◌≡◌, ◌∷◌, ◌==◌, ℕ, List, [], Option, Some, None, IfOk, OnOk, OnErr};
ghost use Rattle.std.specs.Ordering.{is_lt};
ghost use Rattle.policy_toml.specs.Places.{first_of, fault, fault_cmp, fault_in, name_of_table, name_in_report, numbered};
ghost use Rattle.policy_toml.specs.Reports.{IsReportedFault};
ghost use Rattle.policy_toml.specs.Walks.{faults_unless_table};
ghost use Rattle.toml.specs.Data.{get_member};
ghost use Rattle.toml.specs.View.{table_view};

use crate::document::{entry, is_table};
use itoa::Buffer;
use kumo_base::{Memory, Text};
use policy_fault::{PolicyFault, PolicyFile, PolicyPlace, Why};
use std::alloc::Global;
use std::marker::Model;
use toml::Table;

/// The key of a fault of a table as a whole, and the name of the top level in reports.
pub const WHOLE_TABLE: &str = "-";

/// A fault at its place.
#[derive(Drop)]
pub struct Fault {
    /// The keys of the table joined by `.`; empty at the top level.
    pub table: Text,
    /// Where the table is one of a list, its number there, from 1; else 0.
    pub number: u64,
    /// The key in the table, or `-` where the table as a whole is at fault.
    pub key: Text,
    /// Where an item of a list at the key is at fault, its number there, from 1; else 0.
    pub item: u64,
    /// What is wrong there.
    pub why: Why,
}

/// Of the faults met so far, the first by its place in the file.
#[derive(Drop)]
pub struct FirstFault {
    found: Option<Fault>,
}

impl Model for FirstFault {
    ghost use Rattle.std.specs.Prelude.{Option};
    ghost use Rattle.policy_toml.specs.declared.fault.Fault.{Fault};

    ghost Value = { Option Fault };

    ghost view = { λ f. f.found };
}

impl FirstFault {
    /// No fault was met.
    pub fn new() -> FirstFault
        ensures { result ≡ None }
    {
        FirstFault { found: None }
    }

    /// A fault was met at a key of a table that is in no list. After `Memory` the one that was kept is kept.
    pub fn note(&mut self, alloc: Global, table: &str, key: &str, why: Why) -> Result<(), Memory>
        ensures ok { OnOk result (self.new ≡ first_of self.old (fault table.now key.now why ∷ [])) }
        ensures err { OnErr result (self.new ≡ self.old) }
    {
        self.note_in(alloc, table, 0, key, 0, why)
    }

    /// A fault was met in a table of this number in a list, at an item of this number in the value at a key. Both count
    /// from 1; 0 says that there is no list. After `Memory` the one that was kept is kept.
    pub fn note_in(
        &mut self,
        alloc: Global,
        table: &str,
        number: u64,
        key: &str,
        item: u64,
        why: Why,
    ) -> Result<(), Memory>
        ensures ok { OnOk result (self.new ≡ first_of self.old (fault_in table.now number key.now item why ∷ [])) }
        ensures err { OnErr result (self.new ≡ self.old) }
    {
        if let Some(best) = &self.found {
            if !is_before(table, number, key, item, why, best) {
                return Ok(());
            }
        }
        let fault = Fault {
            table: Text::of(alloc, table)?,
            number,
            key: Text::of(alloc, key)?,
            item,
            why,
        };
        self.found = Some(fault);
        Ok(())
    }

    /// A value at the top level of a document that is to be a table. After `Memory` the fault that was kept is kept.
    pub fn note_unless_table(
        &mut self,
        alloc: Global,
        document: &Table,
        key: &str,
    ) -> Result<(), Memory>
        ensures ok { OnOk result (self.new ≡ first_of self.old
            (faults_unless_table [] key.now (get_member key.now (table_view document.now)))) }
        ensures err { OnErr result (self.new ≡ self.old) }
    {
        if let Some(value) = entry(document, key) {
            if !is_table(value) {
                self.note(alloc, "", key, Why::BadType)?;
            }
        }
        Ok(())
    }

    /// The first by place of the faults that were met, `None` where there was none.
    pub fn into_fault(self) -> Option<Fault>
        ensures { result ≡ self }
    {
        let FirstFault { found } = self;
        found
    }
}

impl Fault {
    /// The fault as it is reported, of this file. The top level is named `-`, and a table in a list has its number behind
    /// the name, as `default.automation.2`.
    pub fn reported(self, alloc: Global, file: PolicyFile) -> PolicyFault
        ensures { IsReportedFault file self result }
    {
        let Fault {
            table,
            number,
            key,
            why,
            ..
        } = self;
        match name_in_report(alloc, table, number) {
            Ok(table) => PolicyFault::At(PolicyPlace {
                file,
                table,
                key,
                why,
            }),
            Err(Memory) => PolicyFault::Memory,
        }
    }
}

/// The name of a table in a report.
fn name_in_report(alloc: Global, table: Text, number: u64) -> Result<Text, Memory>
    ensures { IfOk result (λ text. text ≡ name_in_report table number) }
{
    if number == 0 {
        name_of_table(alloc, table)
    } else {
        numbered(alloc, table.as_str(), number)
    }
}

/// The name of a table of this number in a list, as `default.automation.2`.
pub fn numbered(alloc: Global, table: &str, number: u64) -> Result<Text, Memory>
    ensures { IfOk result (λ text. text ≡ numbered table.now number) }
{
    let mut digits = Buffer::new();
    let mut text = Text::of(alloc, table)?;
    text.push_str(".")?;
    text.push_str(digits.format(number))?;
    Ok(text)
}

/// The name of a table that is in no list.
fn name_of_table(alloc: Global, table: Text) -> Result<Text, Memory>
    ensures { IfOk result (λ text. text ≡ name_of_table table) }
{
    if table.as_str().is_empty() {
        Text::of(alloc, WHOLE_TABLE)
    } else {
        Ok(table)
    }
}

/// Whether a fault at this place comes before another.
fn is_before(table: &str, number: u64, key: &str, item: u64, why: Why, other: &Fault) -> bool
    ensures { result ≡ is_lt (fault_cmp (fault_in table.now number key.now item why) other.now) }
{
    let by_table = table.cmp(other.table.as_str());
    let by_number = number.cmp(&other.number);
    let by_key = key.cmp(other.key.as_str());
    let by_item = item.cmp(&other.item);
    let by_why = why.cmp(&other.why);
    by_table
        .then(by_number.then(by_key.then(by_item.then(by_why))))
        .is_lt()
}
