//! The walk over the steps of a rule of the web ACL.

ghost use Rattle.std.specs.Prelude.{◌≡◌, [], ◌∷◌, None, Some, IfOk, IfSome, false, map, option_map, true};
ghost use Rattle.std.specs.Option.{option_map_or};
ghost use Rattle.acl_eval.specs.Preparation.{AreReadyGroups, IsReadyGroup, IsReadyRule, IsReadyScope, IsReadyTop};
ghost use Rattle.acl_eval.specs.Walk.{IsWalk};
ghost use Rattle.waf_model.specs.Steps.{group_step, managed_step, plain_step, steps_of};
ghost use Rattle.waf_model.specs.declared.outcome.Ender.TheVariants as enders;

use crate::case::{Case, End};
use crate::ready_group::{ReadyGroup, referred_ready};
use crate::ready_rule::ReadyRule;
use crate::ready_top::{ReadyBody, ReadyTop};
use crate::trying::{tried_managed, tried_rule};
use group_override::effective_action;
use label_scope::Labels;
use match_eval::Ready;
use std::alloc::Global;
use waf_model::{Decision, Ender, GroupUse, ManagedUse, Memory, Rule, Text, TopRule};

/// Walks over the steps of the rule: adds the labels of those that fire, and tells what ended the evaluation. The groups are
/// those of the bundle.
pub(crate) fn walked_top(
    alloc: Global,
    case: Case<'_>,
    groups: &[ReadyGroup<'_>],
    ready: &ReadyTop<'_>,
    labels: &mut Labels,
) -> Result<Option<End>, Memory>
    ensures { AreReadyGroups case.entry.bundle.now case.entry.bundle.now.groups groups.now → IsReadyTop case.entry.bundle.now ready.now
        → IfOk result (IsWalk case.entry.bundle.now case.entry.request.now case.entry.answers.now ready.now.top.now.place (steps_of case.entry.bundle.now ready.now.top.now ready.now.top.now.body) labels.old labels.new) }
{
    let top = ready.top;
    match &ready.body {
        ReadyBody::Plain(rule) => walked_plain(alloc, case, top, rule, labels),
        ReadyBody::Group(use_of) => {
            let group = referred_ready(groups, &use_of.arn);
            walked_group(alloc, case, top, use_of, group, labels)
        }
        ReadyBody::Managed { use_of, scope_down } => {
            walked_managed(alloc, case, top, use_of, scope_down, labels)
        }
    }
}

/// A plain rule is one step.
fn walked_plain(
    alloc: Global,
    case: Case<'_>,
    top: &TopRule,
    ready: &ReadyRule<'_>,
    labels: &mut Labels,
) -> Result<Option<End>, Memory>
    ensures { IsReadyRule case.entry.bundle.now ready.now
        → IfOk result (IsWalk case.entry.bundle.now case.entry.request.now case.entry.answers.now top.now.place (plain_step case.entry.bundle.now top.now ready.now.rule.now ∷ []) labels.old labels.new) }
{
    let namespace = &case.bundle.acl.namespace;
    match tried_rule(alloc, case, namespace, ready.rule.action, ready, labels)? {
        None => Ok(None),
        Some(decision) => ended_at(alloc, top, decision),
    }
}

/// The rule of the web ACL ended the evaluation.
fn ended_at(alloc: Global, top: &TopRule, decision: Decision) -> Result<Option<End>, Memory>
    ensures { IfOk result (λ end. end ≡ Some (record { decision = decision; ender = enders.Rule top.now.priority top.now.name })) }
{
    Ok(Some(End {
        decision,
        ender: Ender::Rule {
            priority: top.priority,
            name: Text::of(alloc, top.name.bytes())?,
        },
    }))
}

/// A reference to a rule group has a step for each rule of the group, if the bundle has it.
fn walked_group(
    alloc: Global,
    case: Case<'_>,
    top: &TopRule,
    use_of: &GroupUse,
    group: Option<&ReadyGroup<'_>>,
    labels: &mut Labels,
) -> Result<Option<End>, Memory>
    ensures { IfSome (option_map (λ ready. ready.now) group.entry) (IsReadyGroup case.entry.bundle.now)
        → IfOk result (IsWalk case.entry.bundle.now case.entry.request.now case.entry.answers.now top.now.place (option_map_or (λ ready. map (group_step top.now use_of.now ready.group.now) ready.group.now.rules) (option_map (λ ready. ready.now) group.entry) []) labels.old labels.new) }
{
    match group {
        None => Ok(None),
        Some(group) => walked_rules(alloc, case, top, use_of, group, labels),
    }
}

/// Walks over the rules of the group, up to the first that ends: behind it no rule of the group is tried.
fn walked_rules(
    alloc: Global,
    case: Case<'_>,
    top: &TopRule,
    use_of: &GroupUse,
    group: &ReadyGroup<'_>,
    labels: &mut Labels,
) -> Result<Option<End>, Memory>
    ensures { IsReadyGroup case.entry.bundle.now group.now
        → IfOk result (IsWalk case.entry.bundle.now case.entry.request.now case.entry.answers.now top.now.place (map (group_step top.now use_of.now group.now.group.now) group.now.group.now.rules) labels.old labels.new) }
{
    let namespace = &group.group.namespace;
    for ready in group.rules.as_slice() {
        let rule = ready.rule;
        let action = effective_action(use_of, rule);
        match tried_rule(alloc, case, namespace, action, ready, labels)? {
            None => {}
            Some(decision) => return ended_inside(alloc, top, use_of, rule, decision),
        }
    }
    Ok(None)
}

/// A rule of a group ended the evaluation: of the whole, unless the group counts only.
fn ended_inside(
    alloc: Global,
    top: &TopRule,
    use_of: &GroupUse,
    rule: &Rule,
    decision: Decision,
) -> Result<Option<End>, Memory>
    ensures counts { IfOk result (λ end. use_of.now.count ≡ true → end ≡ None) }
    ensures ends { IfOk result (λ end. use_of.now.count ≡ false → end ≡ Some (record { decision = decision; ender = enders.Inner top.now.priority top.now.name rule.now.priority rule.now.name })) }
{
    if use_of.count {
        return Ok(None);
    }
    Ok(Some(End {
        decision,
        ender: Ender::Inner {
            priority: top.priority,
            name: Text::of(alloc, top.name.bytes())?,
            inner_priority: rule.priority,
            inner_name: Text::of(alloc, rule.name.bytes())?,
        },
    }))
}

/// A managed rule group is one step, which ends the evaluation unless the group counts only.
fn walked_managed(
    alloc: Global,
    case: Case<'_>,
    top: &TopRule,
    use_of: &ManagedUse,
    scope_down: &Option<Ready<'_>>,
    labels: &mut Labels,
) -> Result<Option<End>, Memory>
    ensures { IsReadyScope case.entry.bundle.now use_of.now.scope_down scope_down.now
        → IfOk result (IsWalk case.entry.bundle.now case.entry.request.now case.entry.answers.now top.now.place (managed_step case.entry.bundle.now top.now use_of.now ∷ []) labels.old labels.new) }
{
    match tried_managed(alloc, case, use_of, scope_down, labels)? {
        None => Ok(None),
        Some(decision) => {
            if use_of.count {
                return Ok(None);
            }
            ended_at(alloc, top, decision)
        }
    }
}
