//! Which web ACLs are reviewed yet.

ghost use Rattle.std.specs.Prelude.{◌≡◌, ◌≤◌, ◌↔◌, IfOk, ◌&&◌, ◌==◌, None, Some, codes, fold, length, option_map};
ghost use Rattle.parting_build.specs.FirstInFile.{earlier, path_of_rule as rule_path};
ghost use Rattle.parting_build.specs.Plain.{HasPathRules, allows_or_blocks as allows_or_blocks_test, is_path_match as path_match_test, is_path_rule as path_rule_test, most_rules, placed, plain_form_of, unplain_rule};
ghost use Rattle.waf_model.specs.declared.bundle.Bundle.{Bundle as BundleData};

use crate::whole_path::is_whole_path;
use std::alloc::Global;
use waf_model::{Action, Bundle, Memory, Rule, Statement, Text, Top, TopRule};

/// The most rules of a web ACL that is reviewed.
const MOST_RULES: usize = 1000;

/// Why `review` can't take the web ACL yet: `$.WebACL.Rules` where it has more than 1,000 rules; or else the path of the
/// first rule, in the order of the file, that isn't plain, isn't Allow or Block, has labels, or whose statement isn't a byte
/// match EXACTLY on `UriPath` with NONE alone. None where `review` takes it. It fails only for want of memory.
pub fn plain_form(alloc: Global, bundle: &Bundle) -> Result<Option<Text>, Memory>
    ensures { IfOk result (λ path. path ≡ plain_form_of bundle.now) }
{
    let rules = bundle.acl.rules.as_slice();
    if rules.len() > MOST_RULES {
        return path_of_rules(alloc);
    }
    path_at(alloc, first_unplain(rules))
}

/// The path of the list of rules.
fn path_of_rules(alloc: Global) -> Result<Option<Text>, Memory>
    ensures { IfOk result (λ path. path ≡ Some (codes "$.WebACL.Rules")) }
{
    Ok(Some(Text::of(alloc, b"$.WebACL.Rules")?))
}

/// The path of the rule at the place, if there is one.
fn path_at(alloc: Global, place: Option<u32>) -> Result<Option<Text>, Memory>
    ensures { IfOk result (λ path. path ≡ option_map rule_path place) }
{
    match place {
        None => Ok(None),
        Some(place) => Ok(Some(path_of_rule(alloc, place)?)),
    }
}

/// The path of the rule of the web ACL at that place in the file.
fn path_of_rule(alloc: Global, place: u32) -> Result<Text, Memory>
    ensures { IfOk result (λ path. path ≡ rule_path place) }
{
    let mut path = Text::of(alloc, b"$.WebACL.Rules")?;
    path.push(b"[")?;
    path.push_number(alloc, u64::from(place))?;
    path.push(b"]")?;
    Ok(path)
}

/// The least place of a rule that isn't of the form.
fn first_unplain(rules: &[TopRule]) -> Option<u32>
    ensures { option_map placed result ≡ fold (λ first rule. earlier first rule.place (unplain_rule rule)) None rules.now }
{
    let mut first = None;
    for rule in rules {
        first = lesser(first, rule);
    }
    first
}

/// The place of the rule where it isn't of the form and stands before that place.
fn lesser(first: Option<u32>, rule: &TopRule) -> Option<u32>
    ensures { option_map placed result ≡ earlier (option_map placed first) rule.now.place (unplain_rule rule.now) }
{
    if is_path_rule(&rule.body) {
        first
    } else {
        lesser_of(first, rule.place)
    }
}

/// The lesser of the places.
fn lesser_of(first: Option<u32>, place: u32) -> Option<u32>
    ensures { option_map placed result ≡ earlier (option_map placed first) place (Some (rule_path place)) }
{
    match first {
        None => Some(place),
        Some(first) => {
            if place < first {
                Some(place)
            } else {
                Some(first)
            }
        }
    }
}

/// Whether the rule is plain, allows or blocks, has no labels and matches the whole path.
fn is_path_rule(body: &Top) -> bool
    ensures { result ≡ path_rule_test body.now }
{
    match body {
        Top::Plain(rule) => is_plain(rule),
        _ => false,
    }
}

/// The same of a plain rule.
fn is_plain(rule: &Rule) -> bool
    ensures { result ≡ (path_match_test rule.now.statement && (allows_or_blocks_test rule.now.action && length rule.now.labels == 0)) }
{
    is_path_match(&rule.statement)
        && allows_or_blocks(rule.action)
        && rule.labels.as_slice().is_empty()
}

/// Whether the statement is a match of the whole path.
fn is_path_match(statement: &Statement) -> bool
    ensures { result ≡ path_match_test statement.now }
{
    match statement {
        Statement::ByteMatch {
            field,
            transforms,
            position,
            ..
        } => is_whole_path(field, transforms.as_slice(), *position),
        _ => false,
    }
}

/// Whether the action is Allow or Block.
fn allows_or_blocks(action: Action) -> bool
    ensures { result ≡ allows_or_blocks_test action }
{
    matches!(action, Action::Allow | Action::Block { .. })
}

/// A web ACL is taken just where it has at most 1,000 rules and each is a match of the whole path that allows or blocks.
pub fn plain_form_is_path_rules()
    ensures { (bundle : BundleData) → (plain_form_of bundle ≡ None) ↔ (HasPathRules bundle × (length bundle.acl.rules ≤ most_rules)) }
{}
