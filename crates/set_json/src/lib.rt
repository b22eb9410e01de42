//! Reads bundles: a web ACL with the rule groups and sets that it refers to.
#![tactic(auto)]

mod bundle;
mod encoding;
mod groups;
mod ip_set;
mod lists;
mod managed_capacity;
mod missing;
mod regex_set;
mod unwrapped;

pub use bundle::read_bundle;
