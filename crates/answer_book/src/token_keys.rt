//! The tokens that actions and managed rule groups ask for.

ghost use Rattle.answer_book.specs.Keys.{managed_token_keys, put_all, token_keys as keys_of_bundle, token_keys_of, token_keys_of_top, token_order};
ghost use Rattle.std.specs.BTreeSet.{insert_key};
ghost use Rattle.std.specs.List.{flat_map};
ghost use Rattle.std.specs.Option.{option_map_or};
ghost use Rattle.std.specs.Prelude.{◌≡◌, [], OnOk, option_map, unwrap_or};
ghost use Rattle.waf_model.specs.EffectiveActions.{effective_action as action_of_rule};

use group_override::{effective_action, referred_group};
use std::collections::BTreeSet;
use waf_model::{
    Acl, Action, Bundle, Group, GroupUse, Memory, Rule, Text, TokenKey, TokenKind, Top,
};

/// Adds the tokens of the web ACL and of the groups that it refers to. It fails only for want of memory.
pub(crate) fn add_token_keys(found: &mut BTreeSet<TokenKey>, bundle: &Bundle) -> Result<(), Memory>
    ensures { OnOk result (found.new.keys ≡ put_all token_order found.old.keys (keys_of_bundle bundle.now)) }
{
    for rule in bundle.acl.rules.as_slice() {
        add_top(found, bundle, &rule.body)?;
    }
    Ok(())
}

// Adds those of a rule of the web ACL.
fn add_top(found: &mut BTreeSet<TokenKey>, bundle: &Bundle, top: &Top) -> Result<(), Memory>
    ensures { OnOk result (found.new.keys ≡ put_all token_order found.old.keys (token_keys_of_top bundle.now top.now)) }
{
    match top {
        Top::Plain(rule) => add_rule(found, &bundle.acl, rule.action, rule),
        Top::Group(use_of) => add_group(
            found,
            &bundle.acl,
            use_of,
            referred_group(bundle.groups.as_slice(), &use_of.arn),
        ),
        Top::Managed(_) => add_managed(found, &bundle.acl),
    }
}

// Adds those of the rules of a group, if there is one.
fn add_group(
    found: &mut BTreeSet<TokenKey>,
    acl: &Acl,
    use_of: &GroupUse,
    group: Option<&Group>,
) -> Result<(), Memory>
    ensures { OnOk result (found.new.keys ≡ put_all token_order found.old.keys (option_map_or (λ group. flat_map (λ rule. token_keys_of acl.now (action_of_rule use_of.now rule) rule) group.rules) (option_map (λ group. group.now) group.entry) [])) }
{
    match group {
        Some(group) => add_rules(found, acl, use_of, group.rules.as_slice()),
        None => Ok(()),
    }
}

// Adds those of the rules of a group, by their effective actions.
fn add_rules(
    found: &mut BTreeSet<TokenKey>,
    acl: &Acl,
    use_of: &GroupUse,
    rules: &[Rule],
) -> Result<(), Memory>
    ensures { OnOk result (found.new.keys ≡ put_all token_order found.old.keys (flat_map (λ rule. token_keys_of acl.now (action_of_rule use_of.now rule) rule) rules.now)) }
{
    for rule in rules {
        add_rule(found, acl, effective_action(use_of, rule), rule)?;
    }
    Ok(())
}

// Adds that of a rule with that action, if it asks for one.
fn add_rule(
    found: &mut BTreeSet<TokenKey>,
    acl: &Acl,
    action: Action,
    rule: &Rule,
) -> Result<(), Memory>
    ensures { OnOk result (found.new.keys ≡ put_all token_order found.old.keys (token_keys_of acl.now action rule.now)) }
{
    match action {
        Action::Captcha => add(
            found,
            TokenKind::Captcha,
            rule.captcha.unwrap_or(acl.captcha),
        ),
        Action::Challenge => add(
            found,
            TokenKind::Challenge,
            rule.challenge.unwrap_or(acl.challenge),
        ),
        _ => Ok(()),
    }
}

// Adds both that a managed rule group may ask for.
fn add_managed(found: &mut BTreeSet<TokenKey>, acl: &Acl) -> Result<(), Memory>
    ensures { OnOk result (found.new.keys ≡ put_all token_order found.old.keys (managed_token_keys acl.now)) }
{
    add(found, TokenKind::Captcha, acl.captcha)?;
    add(found, TokenKind::Challenge, acl.challenge)
}

// Adds the token of that kind and time.
fn add(found: &mut BTreeSet<TokenKey>, kind: TokenKind, immunity: u32) -> Result<(), Memory>
    ensures { OnOk result (found.new.keys ≡ insert_key token_order found.old.keys (record { kind = kind; immunity = immunity })) }
{
    found.insert(TokenKey { kind, immunity })?;
    Ok(())
}
