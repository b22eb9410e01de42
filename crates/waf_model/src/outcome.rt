//! What an evaluation ends in, and what a web ACL costs.

use crate::action::Decision;
use waf_base::{Items, Text};

/// The decision on a request, what ended the evaluation, and the labels that were added, each once and ascending by
/// bytes.
#[derive(Debug, Drop)]
pub struct Outcome {
    pub decision: Decision,
    pub ender: Ender,
    pub labels: Items<Text>,
}

/// What ended an evaluation.
#[derive(Debug, Drop)]
pub enum Ender {
    /// The default action.
    Default,
    /// A rule of the web ACL.
    Rule {
        priority: u32,
        name: Text,
    },
    /// A rule of a group that a rule of the web ACL refers to.
    Inner {
        priority: u32,
        name: Text,
        inner_priority: u32,
        inner_name: Text,
    },
}

/// Web ACL capacity units, as far as they are known, and how many costs are unknown.
#[derive(Clone, Copy, Debug, PartialEq, Eq)]
pub struct Capacity {
    pub known: u64,
    pub unknown: u32,
}
