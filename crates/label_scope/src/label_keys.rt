//! The keys of the label match statements of two web ACLs.

ghost use Rattle.label_scope.specs.Vocabulary.{label_keys as label_keys_of, with_keys};
ghost use Rattle.std.specs.List.{flat_map};
ghost use Rattle.std.specs.Option.{option_map_or};
ghost use Rattle.std.specs.Prelude.{◌≡◌, [], ◌∷◌, ◌++◌, IfOk, OnOk, map, option_map, unwrap_or};
ghost use Rattle.waf_model.specs.LabelAgreement.{label_tests, label_tests_in, label_tests_of_group, label_tests_of_top};
ghost use Rattle.waf_model.specs.LabelMatch.{full_key};

use crate::key_match::qualified_key;
use std::alloc::Global;
use waf_model::{Acl, Boxed, Bundle, Group, Items, LabelScope, Memory, Statement, Text, Top};

/// The key of a label match statement, behind its namespace unless it is a whole one, and the scope of the statement.
#[derive(Debug, Drop)]
pub(crate) struct LabelKey {
    pub(crate) scope: LabelScope,
    pub(crate) key: Text,
}

/// The label keys of both bundles, of all their rule groups. It fails only for want of memory.
#[tactic(auto, using(crate::proofs::KeyLists::all_keys))]
pub(crate) fn keys_of(alloc: Global, old: &Bundle, new: &Bundle) -> Result<Items<LabelKey>, Memory>
    ensures { IfOk result (λ keys. keys ≡ label_keys_of old.now new.now) }
{
    let mut keys = Items::new(alloc);
    add_bundle(alloc, &mut keys, old)?;
    add_bundle(alloc, &mut keys, new)?;
    Ok(keys)
}

// Adds those of the web ACL and of all rule groups of the bundle.
fn add_bundle(alloc: Global, keys: &mut Items<LabelKey>, bundle: &Bundle) -> Result<(), Memory>
    ensures { OnOk result (keys.new ≡ with_keys keys.old (label_tests bundle.now)) }
{
    add_acl(alloc, keys, &bundle.acl)?;
    add_groups(alloc, keys, bundle.groups.as_slice())
}

// Adds those of the rules of the web ACL.
fn add_acl(alloc: Global, keys: &mut Items<LabelKey>, acl: &Acl) -> Result<(), Memory>
    ensures { OnOk result (keys.new
        ≡ with_keys keys.old (flat_map (λ top. label_tests_of_top acl.now.namespace top.body) acl.now.rules)) }
{
    for rule in acl.rules.as_slice() {
        add_top(alloc, keys, &acl.namespace, &rule.body)?;
    }
    Ok(())
}

// Adds those of a rule of the web ACL.
fn add_top(
    alloc: Global,
    keys: &mut Items<LabelKey>,
    namespace: &Text,
    top: &Top,
) -> Result<(), Memory>
    ensures { OnOk result (keys.new ≡ with_keys keys.old (label_tests_of_top namespace.now top.now)) }
{
    match top {
        Top::Plain(rule) => add_statement(alloc, keys, namespace, &rule.statement),
        Top::Group(_) => Ok(()),
        Top::Managed(use_of) => add_optional(alloc, keys, namespace, &use_of.scope_down),
    }
}

// Adds those of a scope-down statement of a managed rule group, if there is one.
fn add_optional(
    alloc: Global,
    keys: &mut Items<LabelKey>,
    namespace: &Text,
    statement: &Option<Statement>,
) -> Result<(), Memory>
    ensures { OnOk result (keys.new
        ≡ with_keys keys.old (option_map_or (label_tests_in namespace.now) statement.now [])) }
{
    match statement {
        Some(statement) => add_statement(alloc, keys, namespace, statement),
        None => Ok(()),
    }
}

// Adds those of the rule groups.
fn add_groups(alloc: Global, keys: &mut Items<LabelKey>, groups: &[Group]) -> Result<(), Memory>
    ensures { OnOk result (keys.new ≡ with_keys keys.old (flat_map label_tests_of_group groups.now)) }
{
    for group in groups {
        add_group(alloc, keys, group)?;
    }
    Ok(())
}

// Adds those of the rules of a rule group.
fn add_group(alloc: Global, keys: &mut Items<LabelKey>, group: &Group) -> Result<(), Memory>
    ensures { OnOk result (keys.new ≡ with_keys keys.old (label_tests_of_group group.now)) }
{
    for rule in group.rules.as_slice() {
        add_statement(alloc, keys, &group.namespace, &rule.statement)?;
    }
    Ok(())
}

// Adds those of the statement and its parts.
#[cycle(keys)]
fn add_statement(
    alloc: Global,
    keys: &mut Items<LabelKey>,
    namespace: &Text,
    statement: &Statement,
) -> Result<(), Memory>
    ensures { OnOk result (keys.new ≡ with_keys keys.old (label_tests_in namespace.now statement.now)) }
{
    match statement {
        Statement::Label { scope, key } => add_key(alloc, keys, namespace, *scope, key),
        Statement::And(parts) => add_parts(alloc, keys, namespace, parts.as_slice()),
        Statement::Or(parts) => add_parts(alloc, keys, namespace, parts.as_slice()),
        Statement::Not(part) => add_statement(alloc, keys, namespace, part.get()),
        Statement::Rate { scope_down, .. } => add_scope_down(alloc, keys, namespace, scope_down),
        _ => Ok(()),
    }
}

// Adds those of the parts of a statement.
#[cycle(keys)]
fn add_parts(
    alloc: Global,
    keys: &mut Items<LabelKey>,
    namespace: &Text,
    parts: &[Statement],
) -> Result<(), Memory>
    ensures { OnOk result (keys.new
        ≡ with_keys keys.old (flat_map (λ part. part) (map (label_tests_in namespace.now) parts.now))) }
{
    for part in parts {
        add_statement(alloc, keys, namespace, part)?;
    }
    Ok(())
}

// Adds those of the scope-down statement of a rate-based statement, if there is one.
#[cycle(keys)]
fn add_scope_down(
    alloc: Global,
    keys: &mut Items<LabelKey>,
    namespace: &Text,
    scope_down: &Option<Boxed<Statement>>,
) -> Result<(), Memory>
    ensures { OnOk result (keys.new
        ≡ with_keys keys.old (unwrap_or (option_map (label_tests_in namespace.now) scope_down.now) [])) }
{
    match scope_down {
        Some(statement) => add_statement(alloc, keys, namespace, statement.get()),
        None => Ok(()),
    }
}

// Adds the key of a label match statement.
fn add_key(
    alloc: Global,
    keys: &mut Items<LabelKey>,
    namespace: &Text,
    scope: LabelScope,
    key: &Text,
) -> Result<(), Memory>
    ensures { OnOk result (keys.new
        ≡ keys.old ++ record { scope = scope; key = full_key key.now namespace.now } ∷ []) }
{
    let key = qualified_key(alloc, key, namespace)?;
    keys.push(LabelKey { scope, key })?;
    Ok(())
}
