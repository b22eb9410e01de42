//! A web ACL (API type `WebACL`).

use crate::action::Decision;
use crate::rule::TopRule;
use waf_base::{Items, Text};

/// A web ACL, its rules by ascending priority.
#[derive(Debug, Drop)]
pub struct Acl {
    pub name: Text,
    /// What stands before the names of the labels that its rules add.
    pub namespace: Text,
    pub default: Decision,
    /// The immunity time after a CAPTCHA where a rule has none of its own, in seconds.
    pub captcha: u32,
    /// The immunity time after a challenge where a rule has none of its own, in seconds.
    pub challenge: u32,
    /// How many bytes of a body are inspected.
    pub body_limit: u32,
    pub rules: Items<TopRule>,
}
