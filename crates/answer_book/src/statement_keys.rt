//! The keys of statements whose truth is an answer.

ghost use Rattle.answer_book.specs.Keys.{keys_in, put_all, statement_keys as keys_of_bundle, statement_keys_of_top, text_order};
ghost use Rattle.std.specs.List.{flat_map};
ghost use Rattle.std.specs.Option.{option_map_or};
ghost use Rattle.std.specs.Prelude.{◌≡◌, [], ◌∷◌, OnOk, map, option_map, unwrap_or};
ghost use Rattle.waf_model.specs.References.{group_of};

use crate::text_set::TextSet;
use group_override::referred_group;
use waf_model::{Boxed, Bundle, Group, Memory, Rule, Statement, Text, Top};

/// Adds the keys of the web ACL and of the groups that it refers to. It fails only for want of memory.
pub(crate) fn add_statement_keys(found: &mut TextSet, bundle: &Bundle) -> Result<(), Memory>
    ensures { OnOk result (found.new ≡ put_all text_order found.old (keys_of_bundle bundle.now)) }
{
    for rule in bundle.acl.rules.as_slice() {
        add_top(found, bundle, &rule.body)?;
    }
    Ok(())
}

// Adds those of a rule of the web ACL.
fn add_top(found: &mut TextSet, bundle: &Bundle, top: &Top) -> Result<(), Memory>
    ensures { OnOk result (found.new ≡ put_all text_order found.old (statement_keys_of_top bundle.now top.now)) }
{
    match top {
        Top::Plain(rule) => add_statement(found, &rule.statement),
        Top::Group(use_of) => add_group(
            found,
            referred_group(bundle.groups.as_slice(), &use_of.arn),
        ),
        Top::Managed(use_of) => add_optional(found, &use_of.scope_down),
    }
}

// Adds those of the rules of a group, if there is one.
fn add_group(found: &mut TextSet, group: Option<&Group>) -> Result<(), Memory>
    ensures { OnOk result (found.new ≡ put_all text_order found.old (option_map_or (λ group. flat_map (λ rule. keys_in rule.statement) group.rules) (option_map (λ group. group.now) group.entry) [])) }
{
    match group {
        Some(group) => add_rules(found, group.rules.as_slice()),
        None => Ok(()),
    }
}

// Adds those of the rules.
fn add_rules(found: &mut TextSet, rules: &[Rule]) -> Result<(), Memory>
    ensures { OnOk result (found.new ≡ put_all text_order found.old (flat_map (λ rule. keys_in rule.statement) rules.now)) }
{
    for rule in rules {
        add_statement(found, &rule.statement)?;
    }
    Ok(())
}

// Adds those of a scope-down statement of a managed rule group, if there is one.
fn add_optional(found: &mut TextSet, statement: &Option<Statement>) -> Result<(), Memory>
    ensures { OnOk result (found.new ≡ put_all text_order found.old (option_map_or keys_in statement.now [])) }
{
    match statement {
        Some(statement) => add_statement(found, statement),
        None => Ok(()),
    }
}

// Adds those of the statement and its parts.
#[cycle(keys)]
fn add_statement(found: &mut TextSet, statement: &Statement) -> Result<(), Memory>
    ensures { OnOk result (found.new ≡ put_all text_order found.old (keys_in statement.now)) }
{
    match statement {
        Statement::And(parts) => add_parts(found, parts.as_slice()),
        Statement::Or(parts) => add_parts(found, parts.as_slice()),
        Statement::Not(part) => add_statement(found, part.get()),
        Statement::Rate {
            key,
            scope_down,
            ..
        } => add_rate(found, key, scope_down),
        Statement::Opaque { key, .. } => found.add(key),
        _ => Ok(()),
    }
}

// Adds those of the parts of a statement.
#[cycle(keys)]
fn add_parts(found: &mut TextSet, parts: &[Statement]) -> Result<(), Memory>
    ensures { OnOk result (found.new ≡ put_all text_order found.old (flat_map (λ part. part) (map keys_in parts.now))) }
{
    for part in parts {
        add_statement(found, part)?;
    }
    Ok(())
}

// Adds the key of a rate-based statement, and those of its scope-down statement, if there is one.
#[cycle(keys)]
fn add_rate(
    found: &mut TextSet,
    key: &Text,
    scope_down: &Option<Boxed<Statement>>,
) -> Result<(), Memory>
    ensures { OnOk result (found.new ≡ put_all text_order found.old (key.now ∷ unwrap_or (option_map keys_in scope_down.now) [])) }
{
    found.add(key)?;
    match scope_down {
        Some(statement) => add_statement(found, statement.get()),
        None => Ok(()),
    }
}
