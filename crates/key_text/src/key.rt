//! The keys. A value that holds a number that isn't whole has none: of such a value the calls here tell nothing.

ghost use Rattle.key_text.specs.Edited.{rate_members};
ghost use Rattle.key_text.specs.Keys.{IsTextOf, rate_statement, unscoped, with_search, with_value};
ghost use Rattle.serde_json.specs.Data.{string};
ghost use Rattle.serde_json.specs.View.{view};
ghost use Rattle.std.specs.Prelude.{◌≡◌, IfOk, codes};

use crate::member::{SCOPE_DOWN, push_member, text_with, text_without};
use crate::quotation::{byte_quotation, quotation, text_of};
use serde_json::Value;
use std::alloc::Global;
use waf_model::{Memory, Text};

/// The key of an opaque statement: the whole of it as it was read. A byte match whose search string is given as plain
/// text has `search_key` instead. It fails only for want of memory.
pub fn statement_key(alloc: Global, statement: &Value) -> Result<Text, Memory>
    ensures { IfOk result (λ key. IsTextOf key (view statement.now)) }
{
    text_of(alloc, statement)
}

/// The key of an opaque byte match, whose value is `found`: the statement with the text `search`, which is its search
/// string in base64. It fails only for want of memory.
pub fn search_key(
    alloc: Global,
    search: &str,
    found: &Value,
    statement: &Value,
) -> Result<Text, Memory>
    ensures { IfOk result (λ key. IsTextOf key (with_search search.now (view found.now) (view statement.now))) }
{
    let found = searching(alloc, search, found)?;
    text_with(alloc, statement, "ByteMatchStatement", &found)
}

// The value of a byte match with that search string.
fn searching(alloc: Global, search: &str, found: &Value) -> Result<Text, Memory>
    ensures { IfOk result (λ text. IsTextOf text (with_value (codes "SearchString") (string search.now) (view found.now))) }
{
    let search = quotation(alloc, search)?;
    text_with(alloc, found, "SearchString", &search)
}

/// The key of a managed group: the statement of that kind, whose value is `found`, without the statement that it is
/// scoped down to, be that null. It fails only for want of memory.
pub fn unscoped_key(
    alloc: Global,
    kind: &str,
    found: &Value,
    statement: &Value,
) -> Result<Text, Memory>
    ensures { IfOk result (λ key. IsTextOf key (unscoped kind.now (view found.now) (view statement.now))) }
{
    let found = text_without(alloc, found, SCOPE_DOWN)?;
    text_with(alloc, statement, kind, &found)
}

/// The key of a rate-based statement, whose value is `found`: the name of the rule's group, empty for a rule of a web
/// ACL, the rule's name, and the statement without the one that it is scoped down to. It fails only for want of memory.
#[tactic(auto, using(crate::proofs::Texts::rate_written))]
pub fn rate_key(
    alloc: Global,
    group: &Text,
    rule: &Text,
    found: &Value,
    statement: &Value,
) -> Result<Text, Memory>
    ensures { IfOk result (λ key. IsTextOf key
        (rate_statement group.now rule.now (unscoped (codes "RateBasedStatement") (view found.now) (view statement.now)))) }
{
    let group = byte_quotation(alloc, group)?;
    let rule = byte_quotation(alloc, rule)?;
    let statement = unscoped_key(alloc, "RateBasedStatement", found, statement)?;
    let key = rate_text(alloc, &group, &rule, &statement)?;
    Ok(key)
}

// The text of the three members of a rate-based statement's key, which are written so.
fn rate_text(alloc: Global, group: &Text, rule: &Text, statement: &Text) -> Result<Text, Memory>
    ensures { IfOk result (λ key. key ≡ rate_members group.now rule.now statement.now) }
{
    let mut key = Text::of(alloc, b"{")?;
    let later = push_member(alloc, &mut key, false, "Group", Some(group))?;
    let later = push_member(alloc, &mut key, later, "Rule", Some(rule))?;
    let _ = push_member(alloc, &mut key, later, "Statement", Some(statement))?;
    key.push(b"}")?;
    Ok(key)
}
