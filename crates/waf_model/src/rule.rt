//! Rules of web ACLs and of rule groups (API type `Rule`).

use crate::action::Action;
use crate::statement::Statement;
use waf_base::{Items, Text};

/// A rule of a web ACL.
#[derive(Debug, Drop)]
pub struct TopRule {
    pub name: Text,
    pub priority: u32,
    /// Its index in the file.
    pub place: u32,
    pub body: Top,
}

/// What a rule of a web ACL is: a plain rule, a reference to a rule group, or a managed rule group.
#[derive(Debug, Drop)]
pub enum Top {
    Plain(Rule),
    Group(GroupUse),
    Managed(ManagedUse),
}

/// A rule with an action.
#[derive(Debug, Drop)]
pub struct Rule {
    pub name: Text,
    pub priority: u32,
    /// Its index in the file.
    pub place: u32,
    pub statement: Statement,
    pub action: Action,
    /// The labels that it adds where it matches, without their namespace.
    pub labels: Items<Text>,
    /// Its own immunity time after a CAPTCHA, in seconds.
    pub captcha: Option<u32>,
    /// Its own immunity time after a challenge, in seconds.
    pub challenge: Option<u32>,
}

/// A reference to a rule group (API type `RuleGroupReferenceStatement`).
#[derive(Debug, Drop)]
pub struct GroupUse {
    pub arn: Text,
    pub overrides: Items<Override>,
    pub excluded: Items<Text>,
    /// Whether the group only counts.
    pub count: bool,
}

/// Another action for the rule of that name (API type `RuleActionOverride`).
#[derive(Debug, Drop)]
pub struct Override {
    pub name: Text,
    pub action: Action,
}

/// A managed rule group (API type `ManagedRuleGroupStatement`).
#[derive(Debug, Drop)]
pub struct ManagedUse {
    /// The key of its answer.
    pub key: Text,
    pub vendor: Text,
    pub name: Text,
    pub version: Option<Text>,
    pub scope_down: Option<Statement>,
    /// Whether the group only counts.
    pub count: bool,
}
