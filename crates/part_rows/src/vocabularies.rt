//! Rows of vocabularies: the label matches of two bundles.

use crate::answers::counted;
use label_scope::vocabulary;
use std::alloc::Global;
use text_rows::{Kind, unknown};
use waf_model::{
    Acl, Action, Boxed, Bundle, Decision, Group, Items, LabelScope, ManagedUse, Memory, Rule,
    Statement, Text, Top, TopRule,
};

/// Vocabularies. Given are the namespace of both web ACLs, that of the rule group of each bundle, to which nothing refers,
/// and label matches: `SIDE PLACE SCOPE KEY`. A side is `old` or `new`. At the place `rule` the match is the statement of a
/// rule of the web ACL, at `nested` a part of parts of it, at `managed` what a managed rule group is scoped down to, and at
/// `group` the statement of a rule of the rule group. Wanted are how many labels there are, and the labels.
pub(crate) struct Vocabularies;

/// The rules of the web ACL and of the rule group of one side.
#[derive(Drop)]
struct Rules {
    tops: Items<TopRule>,
    inner: Items<Rule>,
}

impl Rules {
    /// No rules.
    fn new(alloc: Global) -> Rules {
        Rules {
            tops: Items::new(alloc),
            inner: Items::new(alloc),
        }
    }

    /// The bundle of these rules, with these namespaces of its web ACL and its rule group.
    fn bundle(self, alloc: Global, namespace: &Text, inner: &Text) -> Result<Bundle, Memory> {
        let group = Group {
            arn: Text::new(alloc),
            name: Text::new(alloc),
            namespace: Text::of(alloc, inner.bytes())?,
            capacity: 0,
            rules: self.inner,
        };
        let mut groups = Items::new(alloc);
        groups.push(group)?;
        Ok(Bundle {
            acl: acl(alloc, Text::of(alloc, namespace.bytes())?, self.tops),
            groups,
            ip_sets: Items::new(alloc),
            regex_sets: Items::new(alloc),
            managed: Items::new(alloc),
        })
    }
}

/// A web ACL of that namespace and these rules; the rest of it doesn't matter here.
fn acl(alloc: Global, namespace: Text, rules: Items<TopRule>) -> Acl {
    Acl {
        name: Text::new(alloc),
        namespace,
        default: Decision::Allow,
        captcha: 300,
        challenge: 300,
        body_limit: 8192,
        rules,
    }
}

/// A rule of that statement.
fn rule(alloc: Global, statement: Statement) -> Rule {
    Rule {
        name: Text::new(alloc),
        priority: 0,
        place: 0,
        statement,
        action: Action::Count,
        labels: Items::new(alloc),
        captcha: None,
        challenge: None,
    }
}

/// A managed rule group that is scoped down to that statement.
fn managed(alloc: Global, statement: Statement) -> ManagedUse {
    ManagedUse {
        key: Text::new(alloc),
        vendor: Text::new(alloc),
        name: Text::new(alloc),
        version: None,
        scope_down: Some(statement),
        count: true,
    }
}

/// A rule of the web ACL.
fn top(alloc: Global, body: Top) -> TopRule {
    TopRule {
        name: Text::new(alloc),
        priority: 0,
        place: 0,
        body,
    }
}

/// The statement alone in a list.
fn alone(alloc: Global, statement: Statement) -> Result<Items<Statement>, Memory> {
    let mut parts = Items::new(alloc);
    parts.push(statement)?;
    Ok(parts)
}

/// A rate-based statement that is scoped down to a conjunction of a disjunction of the statement's negation.
fn nested(alloc: Global, statement: Statement) -> Result<Statement, Memory> {
    let negation = Statement::Not(Boxed::new(alloc, statement)?);
    let either = Statement::Or(alone(alloc, negation)?);
    let both = Statement::And(alone(alloc, either)?);
    Ok(Statement::Rate {
        key: Text::new(alloc),
        custom_keys: 0,
        scope_down: Some(Boxed::new(alloc, both)?),
    })
}

/// The scope of that name (API field `Scope` of `LabelMatchStatement`).
fn scope_of(name: &[u8]) -> Option<LabelScope> {
    match name {
        b"LABEL" => Some(LabelScope::Label),
        b"NAMESPACE" => Some(LabelScope::Namespace),
        _ => None,
    }
}

/// The bundle that has a label match.
#[derive(Clone, Copy, Debug, PartialEq, Eq)]
enum Side {
    Old,
    New,
}

fn side_of(name: &[u8]) -> Option<Side> {
    match name {
        b"old" => Some(Side::Old),
        b"new" => Some(Side::New),
        _ => None,
    }
}

/// Where a label match stands in its bundle.
#[derive(Clone, Copy, Debug, PartialEq, Eq)]
enum Place {
    Rule,
    Nested,
    Managed,
    Group,
}

fn place_of(name: &[u8]) -> Option<Place> {
    match name {
        b"rule" => Some(Place::Rule),
        b"nested" => Some(Place::Nested),
        b"managed" => Some(Place::Managed),
        b"group" => Some(Place::Group),
        _ => None,
    }
}

/// Adds a rule of the web ACL.
fn add_top(alloc: Global, rules: &mut Rules, body: Top) -> Result<(), Memory> {
    rules.tops.push(top(alloc, body))?;
    Ok(())
}

/// Adds a label match at that place.
fn add(alloc: Global, rules: &mut Rules, place: Place, statement: Statement) -> Result<(), Memory> {
    match place {
        Place::Rule => add_top(alloc, rules, Top::Plain(rule(alloc, statement))),
        Place::Nested => {
            let statement = nested(alloc, statement)?;
            add_top(alloc, rules, Top::Plain(rule(alloc, statement)))
        }
        Place::Managed => add_top(alloc, rules, Top::Managed(managed(alloc, statement))),
        Place::Group => {
            rules.inner.push(rule(alloc, statement))?;
            Ok(())
        }
    }
}

/// The label match of that scope and key.
fn label_match(alloc: Global, scope: LabelScope, key: &[u8]) -> Result<Statement, Memory> {
    let key = Text::of(alloc, key)?;
    Ok(Statement::Label { scope, key })
}

/// Adds what a field says, by its words; answers whether it said something.
fn tell(alloc: Global, old: &mut Rules, new: &mut Rules, words: &[&[u8]]) -> Result<bool, Memory> {
    let [side, place, scope, key] = words else {
        return Ok(false);
    };
    let (Some(side), Some(place), Some(scope)) = (side_of(side), place_of(place), scope_of(scope))
    else {
        return Ok(false);
    };
    let statement = label_match(alloc, scope, key)?;
    match side {
        Side::Old => add(alloc, old, place, statement)?,
        Side::New => add(alloc, new, place, statement)?,
    }
    Ok(true)
}

/// Adds what all fields say; answers whether each said something.
fn tell_all(
    alloc: Global,
    old: &mut Rules,
    new: &mut Rules,
    fields: &[Text],
) -> Result<bool, Memory> {
    for field in fields {
        let words: Vec<&[u8]> = field.bytes().split(|byte| *byte == b' ').collect(alloc)?;
        if !tell(alloc, old, new, words.as_slice())? {
            return Ok(false);
        }
    }
    Ok(true)
}

impl Kind for Vocabularies {
    fn answer(&self, alloc: Global, given: &[Text]) -> Result<Vec<Text>, Memory> {
        let [namespace, inner, fields @ ..] = given else {
            return unknown(alloc);
        };
        let mut old = Rules::new(alloc);
        let mut new = Rules::new(alloc);
        if !tell_all(alloc, &mut old, &mut new, fields)? {
            return unknown(alloc);
        }
        let old = old.bundle(alloc, namespace, inner)?;
        let new = new.bundle(alloc, namespace, inner)?;
        let labels = vocabulary(alloc, &old, &new)?;
        counted(alloc, labels.as_slice())
    }
}
