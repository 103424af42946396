//! What applies on a path: the site of a domain, the tables of a shaping file that are for a site and a source, laid over one
//! another, and the text that says so (KumoMTA's manual, the shaping helper and make_egress_path).
//!
//! `sites.rt` finds the site of a domain, and `site_names.rt` compares the name of one without making it. `merge.rt` lays
//! over one another what `tables.rt` finds for a path: `shapes.rt` goes once over the tables of domains, of which a policy can
//! have many, and `rollups.rt` has what these say of sites; `domains.rt` says which domains are at a site, and `providers.rt`
//! finds its providers by these. `explain.rt` writes the text. What all of this comes to is defined in policy_core.
#![tactic(auto)]

mod domains;
mod explain;
mod merge;
mod providers;
mod rollups;
mod shapes;
mod site_names;
mod sites;
mod tables;

pub use domains::is_at_site;
pub use explain::{explain_text, push_line};
pub use merge::path_base;
pub use policy_core::{PathBase, Site};
pub use sites::site;
