//! The tables of domains of a shaping file.
use policy_toml::{DomainTables, is_table};
use toml::Value;

/// The tables of domains at the top of the document.
pub(crate) struct ShapeTables;

impl DomainTables for ShapeTables {
    ghost use Rattle.shaping_policy.specs.Faults.{is_domain_table};

    ghost is_domain = { is_domain_table };

    #[tactic(auto, unfolding(crate::specs::Faults::is_domain_table))]
    fn is_domain_table(key: &str, value: &Value) -> bool {
        key != "default" && key != "provider" && is_table(value)
    }
}
