//! Rule groups and the capacities of managed ones.

use crate::rule::Rule;
use waf_base::{Items, Text};

/// A rule group (API type `RuleGroup`), its rules by ascending priority.
#[derive(Debug, Drop)]
pub struct Group {
    pub arn: Text,
    pub name: Text,
    /// What stands before the names of the labels that its rules add.
    pub namespace: Text,
    /// Web ACL capacity units.
    pub capacity: u32,
    pub rules: Items<Rule>,
}

/// The capacity of a managed rule group, in web ACL capacity units, for one version or for every one.
#[derive(Debug, Drop)]
pub struct ManagedCapacity {
    pub vendor: Text,
    pub name: Text,
    pub version: Option<Text>,
    pub capacity: u32,
}
