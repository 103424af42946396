//! What the tables for a path come to: its options and its rules, before any rule fires.
//!
//! `path_base` is asked for a path by `explain` today and by the registry later, which has to keep the answer. `Merge` keeps
//! the layers laid so far; the order is that of `tables_for`, and of an option the last that sets it counts. The one refusal
//! is `Memory`.
ghost use Rattle.std.specs.Prelude.{◌≡◌, ◌∷◌, ◌++◌, [], IfOk, OnOk, map, find, bytes_eq, option_map};
ghost use Rattle.std.specs.List.{flat_map};
ghost use Rattle.policy_core.specs.PathOptions.{no_options};
ghost use Rattle.policy_core.specs.PathTables.{base_of, table_layer, source_layers};
ghost use Rattle.shaping_merge.specs.inside.Laying.{laid_over};

use crate::tables::tables_for;
use kumo_base::{Items, Memory};
use policy_core::{Options, PathBase, Policy, Rule, ShapeTable, Site, SourceTable, overlay};
use std::alloc::Global;
use std::marker::Model;

/// Layers laid over each other.
#[derive(Drop)]
struct Merge {
    options: Options,
    rules: Vec<Rule>,
}

/// The options and rules of a path, which is a site and a source, before any rule fires: the table for all paths, under those
/// of the site's providers by name, under those of the site's domains by name, and over these what each of these tables says
/// for the source alone, in the same order. Of an option the last that sets it counts; rules stand one behind another.
///
/// A provider's table counts where one of its suffixes of hosts ends every host of the site, or one of its suffixes of domains
/// ends some domain of the site.
pub fn path_base(
    alloc: Global,
    policy: &Policy,
    site: &Site,
    source: &str,
) -> Result<PathBase, Memory>
    ensures { IfOk result (λ base. base ≡ base_of policy.now site.now source.now) }
{
    let tables = tables_for(alloc, policy, site)?;
    let mut merge = Merge::new(alloc);
    merge.add_tables(alloc, tables.as_slice())?;
    merge.add_source_tables(alloc, tables.as_slice(), source)?;
    Ok(merge.into_base())
}

impl Model for Merge {
    ghost use Rattle.policy_core.specs.declared.site.PathBase.{PathBase};

    ghost Value = { PathBase };

    ghost view = { λ m. record { options = m.options; rules = m.rules.items } };
}

impl Merge {
    /// No layer.
    fn new(alloc: Global) -> Merge
        ensures { result ≡ record { options = no_options; rules = [] } }
    {
        Merge {
            options: Options::new(),
            rules: Vec::new(alloc),
        }
    }

    /// What the layers come to.
    fn into_base(self) -> PathBase
        ensures { result ≡ self }
    {
        PathBase {
            options: self.options,
            rules: Items::of(self.rules),
        }
    }

    /// Lays tables over what there is, each over those before it.
    fn add_tables(&mut self, alloc: Global, tables: &[&ShapeTable]) -> Result<(), Memory>
        ensures { OnOk result (self.new ≡ laid_over self.old (map table_layer (map (λ table. table.now) tables.now))) }
    {
        for table in tables {
            self.add(alloc, &table.options, table.rules.as_slice())?;
        }
        Ok(())
    }

    /// Lays over what there is what tables say for a source alone, each over those before it.
    fn add_source_tables(
        &mut self,
        alloc: Global,
        tables: &[&ShapeTable],
        source: &str,
    ) -> Result<(), Memory>
        ensures { OnOk result (self.new ≡ laid_over self.old
            (flat_map (source_layers source.now) (map (λ table. table.now) tables.now))) }
    {
        for table in tables {
            self.add_source_table(alloc, table, source)?;
        }
        Ok(())
    }

    /// Lays over what there is what a table says for a source alone.
    #[tactic(auto, using(crate::proofs::LayingLemmas::laid_none))]
    fn add_source_table(
        &mut self,
        alloc: Global,
        table: &ShapeTable,
        source: &str,
    ) -> Result<(), Memory>
        ensures { OnOk result (self.new ≡ laid_over self.old (source_layers source.now table.now)) }
    {
        if let Some(found) = source_table(table.sources.as_slice(), source) {
            self.add(alloc, &found.options, found.rules.as_slice())?;
        }
        Ok(())
    }

    /// Lays a layer over what there is.
    #[tactic(auto, unfolding(crate::specs::inside::Laying::laid_over))]
    fn add(&mut self, alloc: Global, options: &Options, rules: &[Rule]) -> Result<(), Memory>
        ensures { OnOk result (self.new ≡ laid_over self.old (record { options = options.now; rules = rules.now } ∷ [])) }
    {
        overlay(&mut self.options, options);
        add_rules(alloc, &mut self.rules, rules)
    }
}

/// Adds equal rules.
fn add_rules(alloc: Global, rules: &mut Vec<Rule>, more: &[Rule]) -> Result<(), Memory>
    ensures { OnOk result (rules.new.items ≡ rules.old.items ++ more.now) }
{
    for rule in more {
        rules.push(rule.copy(alloc)?)?;
    }
    Ok(())
}

/// The first table for a source.
fn source_table<'p>(tables: &'p [SourceTable], source: &str) -> Option<&'p SourceTable>
    ensures { option_map (λ s. s.now) result ≡ find (λ s. bytes_eq s.source source.now) tables.now }
{
    tables.iter().find(|s| s.source.is_same(source))
}
