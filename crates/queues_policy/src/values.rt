//! The settings that stand in the tables of a queues file.
//!
//! The walks over the document (`faults.rt`, `ignored.rt`, `queues.rt`) ask here which key is a setting and what its value
//! gives, so that the three agree. Nothing is kept. A value that is refused gives the word of what is wrong with it.
ghost use Rattle.std.specs.Prelude.{◌≡◌, IfOk, option_map, codes};
ghost use Rattle.toml.specs.View.{table_view, view};
ghost use Rattle.policy_toml.specs.Values.{text_in, duration_at};
ghost use Rattle.policy_toml.specs.Walks.{value_at, members_at};
ghost use Rattle.toml.specs.Data.{no_members};
ghost use Rattle.queues_policy.specs.QueuesFile.{is_interval_key, is_setting, is_default, interval_at, layer_of};

use kumo_base::{Memory, Text};
use policy_core::Layer;
use policy_fault::Why;
use policy_toml::{DomainTables, duration_at, entry, is_table, text_at};
use std::alloc::Global;
use toml::{Table, Value};

/// Whether a key holds an interval.
fn is_interval_key(key: &str) -> bool
    ensures { result ≡ is_interval_key key.now }
{
    key == "retry_interval" || key == "max_retry_interval"
}

/// Whether a key holds a setting of a layer.
pub(crate) fn is_setting(key: &str) -> bool
    ensures { result ≡ is_setting key.now }
{
    key == "egress_pool" || key == "max_age" || is_interval_key(key)
}

/// Whether a key of the table `queue` holds the layer for all messages. Another capitalization is a domain.
pub(crate) fn is_default(key: &str) -> bool
    ensures { result ≡ is_default key.now }
{
    key == "default"
}

/// The tables of domains among the members of the table `queue`.
pub(crate) struct QueueTables;

impl DomainTables for QueueTables {
    ghost use Rattle.queues_policy.specs.QueuesFile.{is_domain_table};

    ghost is_domain = { is_domain_table };

    fn is_domain_table(key: &str, value: &Value) -> bool {
        !is_default(key) && is_table(value)
    }
}

/// The milliseconds of an interval.
pub(crate) fn interval_at(value: &Value) -> Result<u64, Why>
    ensures { result ≡ interval_at (view value.now) }
{
    match duration_at(value) {
        Ok(milliseconds) => {
            if milliseconds == 0 {
                Err(Why::Zero)
            } else {
                Ok(milliseconds)
            }
        }
        Err(why) => Err(why),
    }
}

/// The layer that a table without faults gives.
#[tactic(auto, unfolding(crate::specs::QueuesFile::layer_of))]
pub(crate) fn layer_of(alloc: Global, table: &Table) -> Result<Layer, Memory>
    ensures { IfOk result (λ layer. layer ≡ layer_of (table_view table.now)) }
{
    Ok(Layer {
        max_age: duration_of(table, "max_age"),
        retry_interval: interval_of(table, "retry_interval"),
        max_retry_interval: interval_of(table, "max_retry_interval"),
        pool: pool_of(alloc, table)?,
    })
}

/// A layer that sets nothing.
#[tactic(auto, unfolding(crate::specs::QueuesFile::layer_of))]
pub(crate) fn empty_layer() -> Layer
    ensures { result ≡ layer_of no_members }
{
    Layer {
        max_age: None,
        retry_interval: None,
        max_retry_interval: None,
        pool: None,
    }
}

/// The duration at a key.
fn duration_of(table: &Table, key: &str) -> Option<u64>
    ensures { result ≡ value_at duration_at key.now (table_view table.now) }
{
    match entry(table, key) {
        Some(value) => match duration_at(value) {
            Ok(milliseconds) => Some(milliseconds),
            Err(_) => None,
        },
        None => None,
    }
}

/// The interval at a key.
fn interval_of(table: &Table, key: &str) -> Option<u64>
    ensures { result ≡ value_at interval_at key.now (table_view table.now) }
{
    match entry(table, key) {
        Some(value) => match interval_at(value) {
            Ok(milliseconds) => Some(milliseconds),
            Err(_) => None,
        },
        None => None,
    }
}

/// The name of the pool.
fn pool_of(alloc: Global, table: &Table) -> Result<Option<Text>, Memory>
    ensures { IfOk result (λ pool. pool ≡ value_at text_in (codes "egress_pool") (table_view table.now)) }
{
    match entry(table, "egress_pool") {
        Some(value) => match text_at(value) {
            Ok(name) => Ok(Some(Text::of(alloc, name)?)),
            Err(_) => Ok(None),
        },
        None => Ok(None),
    }
}
