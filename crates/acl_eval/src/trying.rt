//! One step of an evaluation: a rule or a managed rule group is tried.

ghost use Rattle.std.specs.Prelude.{◌≡◌, ◌++◌, ◌↔◌, IfOk, IsTrue, OnOk, Option, map};
ghost use Rattle.acl_eval.specs.Preparation.{IsReadyRule, IsReadyScope};
ghost use Rattle.acl_eval.specs.Trying.{IsTried, with_labels};
ghost use Rattle.waf_model.specs.Firing.{HoldsIfThere};
ghost use Rattle.waf_model.specs.LabelMatch.{IsAmong};
ghost use Rattle.waf_model.specs.Steps.{managed, tried_rule as tried_rule_of};
ghost use Rattle.waf_model.specs.declared.statement.Statement.{Statement};

use crate::case::Case;
use crate::ends::{action_of, end_of};
use crate::ready_rule::ReadyRule;
use answer_book::group_answer;
use label_scope::{Labels, qualify};
use match_eval::Ready;
use std::alloc::Global;
use waf_model::{Action, Context, Decision, ManagedUse, Memory, Text};

/// Tries the rule, with its effective action, in that label namespace: where its prepared statement holds, its labels are
/// added, and its action may end the evaluation.
pub(crate) fn tried_rule(
    alloc: Global,
    case: Case<'_>,
    namespace: &Text,
    action: Action,
    ready: &ReadyRule<'_>,
    labels: &mut Labels,
) -> Result<Option<Decision>, Memory>
    ensures { IsReadyRule case.entry.bundle.now ready.now → IfOk result (IsTried case.entry.bundle.now case.entry.request.now case.entry.answers.now namespace.now (tried_rule_of namespace.now action ready.now.rule.now) labels.old labels.new) }
{
    let context = Context {
        bundle: case.bundle,
        namespace,
    };
    if !ready
        .statement
        .holds(alloc, case.request, case.answers, labels, &context)?
    {
        return Ok(None);
    }
    let rule = ready.rule;
    let added = rule.labels.as_slice();
    add_qualified(alloc, labels, namespace, added)?;
    Ok(end_of(case, rule.captcha, rule.challenge, action))
}

/// Adds the labels behind the namespace.
fn add_qualified(
    alloc: Global,
    labels: &mut Labels,
    namespace: &Text,
    added: &[Text],
) -> Result<(), Memory>
    ensures { OnOk result (labels.new ≡ with_labels labels.old (map (λ label. namespace.now ++ label) added.now)) }
{
    for label in added {
        labels.add(qualify(alloc, namespace, label)?)?;
    }
    Ok(())
}

/// Tries the managed rule group: where a request is in its scope, the labels of its answer are added, and its verdict may
/// end the evaluation.
pub(crate) fn tried_managed(
    alloc: Global,
    case: Case<'_>,
    use_of: &ManagedUse,
    scope_down: &Option<Ready<'_>>,
    labels: &mut Labels,
) -> Result<Option<Decision>, Memory>
    ensures { IsReadyScope case.entry.bundle.now use_of.now.scope_down scope_down.now → IfOk result (IsTried case.entry.bundle.now case.entry.request.now case.entry.answers.now case.entry.bundle.now.acl.namespace (managed use_of.now) labels.old labels.new) }
{
    if !is_in_scope(alloc, case, scope_down, labels)? {
        return Ok(None);
    }
    match group_answer(case.answers, &use_of.key) {
        None => Ok(None),
        Some(answer) => {
            add_all(alloc, labels, answer.labels.as_slice())?;
            Ok(end_of(case, None, None, action_of(answer.verdict)))
        }
    }
}

/// Whether the prepared statement that a managed rule group is scoped down to holds, if there is one.
fn is_in_scope(
    alloc: Global,
    case: Case<'_>,
    scope_down: &Option<Ready<'_>>,
    labels: &Labels,
) -> Result<bool, Memory>
    ensures { (scope : Option Statement) → IsReadyScope case.entry.bundle.now scope scope_down.now → IfOk result (λ inside. IsTrue inside ↔ HoldsIfThere case.entry.bundle.now scope case.entry.request.now case.entry.answers.now (IsAmong labels.now) case.entry.bundle.now.acl.namespace) }
{
    let context = Context {
        bundle: case.bundle,
        namespace: &case.bundle.acl.namespace,
    };
    match scope_down {
        None => Ok(true),
        Some(ready) => ready.holds(alloc, case.request, case.answers, labels, &context),
    }
}

/// Adds the labels as they are.
fn add_all(alloc: Global, labels: &mut Labels, added: &[Text]) -> Result<(), Memory>
    ensures { OnOk result (labels.new ≡ with_labels labels.old added.now) }
{
    for label in added {
        labels.add(Text::of(alloc, label.bytes())?)?;
    }
    Ok(())
}
