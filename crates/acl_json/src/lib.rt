//! Reads web ACLs and rule groups.
#![tactic(auto)]

mod body_limit;
mod defaults;
mod heads;
mod immunity;
mod labels;
mod namespaces;
mod rule;
mod rules;
mod web_acl;

pub use statement_json::Encoding;
pub use web_acl::{acl_among, acl_of, group_among, group_of, read_acl};
