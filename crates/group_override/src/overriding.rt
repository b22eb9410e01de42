//! Overrides come before exclusions, and these before a rule's own action.

ghost use Rattle.std.specs.Prelude.{◌≡◌, IfOk, map, find, if◌then◌else◌};
ghost use Rattle.std.specs.List.{list_any};
ghost use Rattle.std.specs.Option.{option_copied};
ghost use Rattle.std.specs.Str.{bytes_eq};
ghost use Rattle.waf_model.specs.EffectiveActions.{effective_action as action_of_rule};
ghost use Rattle.waf_model.specs.declared.action.Action.TheVariants as actions;

use std::alloc::Global;
use waf_model::{Action, Group, GroupUse, Items, Memory, Override, Rule, Text};

/// The effective action of each of the group's rules, in the order of the rules. It fails only for want of memory.
pub fn effective(alloc: Global, use_of: &GroupUse, group: &Group) -> Result<Items<Action>, Memory>
    ensures { IfOk result (λ actions. actions ≡ map (action_of_rule use_of.now) group.now.rules) }
{
    let mut actions = Vec::new(alloc);
    for rule in group.rules.as_slice() {
        actions.push(effective_action(use_of, rule))?;
    }
    Ok(Items::from_vec(actions))
}

/// The action of the first override with the rule's name; without one, Count where the rule is excluded, and else its
/// own (API fields `RuleActionOverrides` and `ExcludedRules`).
pub fn effective_action(use_of: &GroupUse, rule: &Rule) -> Action
    ensures { result ≡ action_of_rule use_of.now rule.now }
{
    match override_of(use_of.overrides.as_slice(), &rule.name) {
        Some(other) => other.action,
        None => unless_excluded_by(use_of.excluded.as_slice(), rule),
    }
}

/// The first override with that name.
fn override_of<'a>(overrides: &'a [Override], name: &Text) -> Option<&'a Override>
    ensures { option_copied result ≡ find (λ override. bytes_eq override.name name.now) overrides.now }
{
    overrides
        .iter()
        .find(|other| other.name.bytes() == name.bytes())
}

/// Count where one of these names is the rule's, and else its own action.
fn unless_excluded_by(excluded: &[Text], rule: &Rule) -> Action
    ensures { result ≡ (if list_any (λ name. bytes_eq name rule.now.name) excluded.now then actions.Count else rule.now.action) }
{
    if is_named(excluded, &rule.name) {
        Action::Count
    } else {
        rule.action
    }
}

/// Whether one of the names is that one.
fn is_named(names: &[Text], name: &Text) -> bool
    ensures { result ≡ list_any (λ one. bytes_eq one name.now) names.now }
{
    names.iter().any(|one| one.bytes() == name.bytes())
}
