//! Reads the shaping file: the options, rates and rules of paths, by receiver (KumoMTA's manual, the shaping helper).
//!
//! `tables.rt` lists the tables of the file once, with their places. Then each pass goes over that list: `faults.rt` with
//! `domains.rt`, `match_faults.rt` and `rule_faults.rt` for faults, of which the first by place is reported, `patterns.rt`
//! with `text_places.rt` for the patterns, `ignored.rt` for keys without effect. Where there is no fault `shaping.rt` makes
//! the data from the document, with the rules of `rules.rt`. `option_values.rt` and `rule_values.rt` say what single values
//! give.
#![tactic(auto)]

ghost use Rattle.std.specs.Prelude.{◌≡◌, Ok, Some, None, IfOk, IfErr, OnOk, map};
ghost use Rattle.toml.specs.View.{table_view};
ghost use Rattle.policy_toml.specs.Places.{first_of};
ghost use Rattle.policy_toml.specs.Reports.{reading};
ghost use Rattle.shaping_policy.specs.Faults.{faults_in};
ghost use Rattle.shaping_policy.specs.Refusals.{IsShapingRefusal, HasReadCause};
ghost use Rattle.shaping_policy.specs.ShapingFile.{shaping_file, file_of};
ghost use Rattle.shaping_policy.specs.Tables.{tables_in, rules_in};
ghost use Rattle.shaping_policy.specs.inside.Seen.{seen_table, seen_rule};

mod domains;
mod faults;
mod ignored;
pub mod laws;
mod match_faults;
mod option_values;
mod patterns;
mod rule_faults;
mod rule_values;
mod rules;
mod shaping;
mod tables;
mod text_places;

use kumo_outside::{Search, SearchFault};
pub use patterns::{PATTERN_COUNT_LIMIT, PATTERN_LIMIT};
use policy_core::Shaping;
use policy_fault::{Ignored, PolicyFault, PolicyFile};
use policy_toml::open_document;
use std::alloc::Global;
use tables::{FileTable, RuleTable};
use toml::Table;

/// What a shaping file says of paths, and its keys that have no effect, from the bytes of the file (TOML). It reads:
/// - The table `default`, for all paths; `provider`, with a table for each provider; at any other key of the top level the
///   table of a domain. Each of these may have a table `sources`, with a table for each source.
/// - In all these tables the options: `connection_limit`, `max_deliveries_per_connection`, `max_ready` and
///   `consecutive_connection_failures_before_delay`, numbers from 1 to 1,000,000 as such or as text, behind `local:` or
///   not; `max_message_rate` and `max_connection_rate`, rates as `100/min`; `idle_timeout`, a duration of at least a
///   millisecond, as a text with units or a number of seconds; and `automation`, a list of tables of rules.
/// - In the table of a provider also `match`: a table of one suffix, `MXSuffix` or `DomainSuffix`, or a list of them. In
///   that of a domain also `mx_rollup`, a truth value, true where it is not there.
/// - In the table of a rule: `regex`, a search pattern of at most `PATTERN_LIMIT` bytes or a list of them, at most
///   `PATTERN_COUNT_LIMIT` in the file; `action`, which is `Suspend`, `SuspendTenant`, `SuspendCampaign` or
///   `{SetConfig={name=.., value=..}}`, or a list of these; `trigger`, which is `Immediate`, as where there is none, or
///   `{Threshold="3/hr"}`; `duration`, a text with units or a number of seconds.
///
/// Domains and suffixes are given in lower case, domains, providers and sources in byte order of their names, and
/// durations in milliseconds. A table of several actions gives a rule for each. A rule that sets an option which has no
/// effect here stands in the data and does nothing; its key `action` is listed, once for its table.
///
/// A refusal of the text is the first fault by the keys of its table joined by `.`, then, for a table of a rule, by its
/// number in the list, which is named as in `default.automation.2`, then by its key, then by the number of the item where a
/// list stands there, then by its word:
/// - `NotToml`: the bytes are no TOML in UTF-8. Table and key are `-`.
/// - `BadType`: a value of another kind than its key wants, no table where one has to be, or an empty list at `regex` or
///   `action`.
/// - `BadName`: a domain, provider or source of a name that none may have. The key is `-`.
/// - `Twice`: a domain equal in lower case to one before it in byte order. The key is `-`.
/// - `BadDuration`: a `duration` that is not there, or a text or number that is no duration.
/// - `BadOption`, `BadThrottle`: a number, text or duration that the option may not have. The key is that of the option, or
///   `action` where a rule sets it.
/// - `BadPattern`: a `regex` that is not there, no pattern, too long, or one too many.
/// - `BadTrigger`: a `trigger` that is a text or table and no trigger.
/// - `BadAction`: an `action` that is not there, or is none.
/// - `BadMatch`: a `match` that is not there, an empty list, or no match.
///
/// `Search` is the answer where the engine failed on a pattern and counted a fault, and `Memory` where there was no memory;
/// of the text these say nothing. After every answer the engine may be asked again, and its count of faults has not fallen.
#[tactic(auto, unfolding(crate::specs::ShapingFile::shaping_file, crate::specs::ShapingFile::ignored_in))]
pub fn read_shaping<S: Search>(
    alloc: Global,
    text: &[u8],
    search: &mut S,
) -> Result<(Shaping, Vec<Ignored>), PolicyFault>
    ensures ok { IfOk result (λ r. shaping_file text.now ≡ Ok (record { shaping = r.0; ignored = r.1.items })) }
    ensures err { IfErr result (λ fault. IsShapingRefusal fault (shaping_file text.now)) }
    ensures cause { HasReadCause (S.seen search.old).faults (S.seen search.new).faults result }
{
    let document = open_document(alloc, PolicyFile::Shaping, text)?;
    let tables = tables::tables_in(alloc, &document)?;
    let rules = tables::rules_in(alloc, tables.as_slice())?;
    check_faults(
        alloc,
        &document,
        tables.as_slice(),
        rules.as_slice(),
        search,
    )?;
    let shaping = shaping::shaping_in(alloc, &document)?;
    let ignored = ignored::ignored_in(alloc, tables.as_slice(), rules.as_slice())?;
    Ok((shaping, ignored))
}

/// Refuses a document of these tables and rules that has a fault.
#[tactic(auto, using(policy_toml::proofs::Faults::first_of_append), unfolding(crate::specs::Faults::faults_in))]
fn check_faults<S: Search>(
    alloc: Global,
    document: &Table,
    tables: &[FileTable<'_>],
    rules: &[RuleTable<'_>],
    search: &mut S,
) -> Result<(), PolicyFault>
    requires tables { map seen_table tables.now ≡ tables_in (table_view document.now) }
    requires rules { map seen_rule rules.now ≡ rules_in (tables_in (table_view document.now)) }
    ensures ok { OnOk result (first_of None (faults_in (table_view document.now)) ≡ None) }
    ensures err { IfErr result (λ fault. IsShapingRefusal fault
        (reading faults_in file_of (Some (table_view document.now)))) }
    ensures cause { HasReadCause (S.seen search.old).faults (S.seen search.new).faults result }
{
    let mut faults = faults::plain_faults(alloc, document, tables, rules)?;
    match patterns::note_patterns(alloc, &mut faults, rules, search) {
        Ok(()) => {}
        Err(SearchFault::Search) => return Err(PolicyFault::Search),
        Err(SearchFault::Memory) => return Err(PolicyFault::Memory),
    }
    match faults.into_fault() {
        Some(fault) => Err(fault.reported(alloc, PolicyFile::Shaping)),
        None => Ok(()),
    }
}
