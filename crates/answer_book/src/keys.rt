//! The keys of a bundle: what it leaves to answers from outside.

ghost use Rattle.answer_book.specs.Keys.{Ascend, group_keys as group_keys_in, group_keys_of_top, put_all, statement_keys as statement_keys_in, text_order, token_keys as token_keys_in, token_order};
ghost use Rattle.std.specs.List.Sorted.{IsStrictlySortedBy};
ghost use Rattle.std.specs.Prelude.{◌≡◌, IfOk, OnOk};

use crate::statement_keys::add_statement_keys;
use crate::text_set::TextSet;
use crate::token_keys::add_token_keys;
use std::alloc::Global;
use std::collections::BTreeSet;
use waf_model::{Bundle, Items, Memory, Text, TokenKey, Top};

/// The keys of the questions that a bundle leaves open, each list ascending and each key once: of opaque and rate-based
/// statements and of managed rule groups by bytes, of tokens by kind, a CAPTCHA before a challenge, and then by time.
#[derive(Debug, Drop)]
pub struct Keys {
    pub statements: Items<Text>,
    pub groups: Items<Text>,
    pub tokens: Items<TokenKey>,
}

/// The keys of the web ACL and of the groups that it refers to: those of all statements, of the managed rule groups, and
/// of the tokens of every effective CAPTCHA or challenge action; for each managed rule group both tokens with the web
/// ACL's times. It fails only for want of memory.
pub fn keys_of(alloc: Global, bundle: &Bundle) -> Result<Keys, Memory>
    ensures statements { IfOk result (λ keys. Ascend text_order (statement_keys_in bundle.now) keys.statements) }
    ensures groups { IfOk result (λ keys. Ascend text_order (group_keys_in bundle.now) keys.groups) }
    ensures tokens { IfOk result (λ keys. Ascend token_order (token_keys_in bundle.now) keys.tokens) }
{
    let statements = statement_keys(alloc, bundle)?;
    let groups = group_keys(alloc, bundle)?;
    let tokens = token_keys(alloc, bundle)?;
    Ok(Keys {
        statements,
        groups,
        tokens,
    })
}

// The keys of statements.
fn statement_keys(alloc: Global, bundle: &Bundle) -> Result<Items<Text>, Memory>
    ensures { IfOk result (Ascend text_order (statement_keys_in bundle.now)) }
{
    let mut found = TextSet::new(alloc);
    add_statement_keys(&mut found, bundle)?;
    let keys = found.in_order()?;
    Ok(keys)
}

// The keys of managed rule groups.
fn group_keys(alloc: Global, bundle: &Bundle) -> Result<Items<Text>, Memory>
    ensures { IfOk result (Ascend text_order (group_keys_in bundle.now)) }
{
    let mut found = TextSet::new(alloc);
    add_group_keys(&mut found, bundle)?;
    let keys = found.in_order()?;
    Ok(keys)
}

// Adds the keys of managed rule groups.
fn add_group_keys(found: &mut TextSet, bundle: &Bundle) -> Result<(), Memory>
    ensures { OnOk result (found.new ≡ put_all text_order found.old (group_keys_in bundle.now)) }
{
    for rule in bundle.acl.rules.as_slice() {
        add_group_key(found, &rule.body)?;
    }
    Ok(())
}

// Adds the key of a managed rule group.
fn add_group_key(found: &mut TextSet, top: &Top) -> Result<(), Memory>
    ensures { OnOk result (found.new ≡ put_all text_order found.old (group_keys_of_top top.now)) }
{
    match top {
        Top::Managed(use_of) => found.add(&use_of.key),
        _ => Ok(()),
    }
}

// The tokens.
fn token_keys(alloc: Global, bundle: &Bundle) -> Result<Items<TokenKey>, Memory>
    ensures { IfOk result (Ascend token_order (token_keys_in bundle.now)) }
{
    let mut found = BTreeSet::new(alloc);
    add_token_keys(&mut found, bundle)?;
    let keys = tokens_in_order(alloc, &found)?;
    Ok(keys)
}

// The tokens of a set, in order.
fn tokens_in_order(alloc: Global, found: &BTreeSet<TokenKey>) -> Result<Items<TokenKey>, Memory>
    ensures keys { IfOk result (λ keys. keys ≡ found.now.keys) }
    ensures ascend { IsStrictlySortedBy token_order found.now.keys }
{
    let mut keys = Items::new(alloc);
    for key in found.iter() {
        keys.push(*key)?;
    }
    Ok(keys)
}
