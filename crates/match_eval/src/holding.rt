//! Whether a prepared statement holds.

ghost use Rattle.match_eval.specs.Ready.{condition_of};
ghost use Rattle.match_eval.specs.Tree.{IsMetIn};
ghost use Rattle.std.specs.Prelude.{◌↔◌, IfOk, IsTrue, map};
ghost use Rattle.waf_model.specs.Holds.{all_of, answered, any_of, both, opposite};

use crate::address_test::address_holds;
use crate::field_test::field_holds;
use crate::label_test::label_match_holds;
use crate::prepared::Prepared;
use answer_book::statement_answer;
use label_scope::Labels;
use std::alloc::Global;
use waf_model::{Answers, Context, Memory, Request, Text};

/// Whether the condition of the prepared statement is met. It fails only for want of memory.
#[cycle(meet)]
pub(crate) fn is_met(
    alloc: Global,
    prepared: &Prepared<'_>,
    request: &Request,
    answers: &Answers,
    seen: &Labels,
    context: &Context<'_>,
) -> Result<bool, Memory>
    ensures { IfOk result (λ met. IsTrue met ↔ IsMetIn request.now answers.now seen.now context.now (condition_of prepared.now)) }
{
    let limit = context.bundle.acl.body_limit;
    match prepared {
        Prepared::Tested {
            asked,
            field,
            transforms,
        } => field_holds(alloc, asked, field, transforms, request, limit),
        Prepared::Addressed { cover, forwarded } => {
            address_holds(alloc, cover, forwarded, request)
        }
        Prepared::Labelled { scope, key } => {
            Ok(label_match_holds(*scope, key, seen, context.namespace))
        }
        Prepared::Answered(key) => Ok(statement_answer(answers, key)),
        Prepared::All(parts) => all_met(alloc, parts.as_slice(), request, answers, seen, context),
        Prepared::Any(parts) => any_met(alloc, parts.as_slice(), request, answers, seen, context),
        Prepared::Not(part) => is_unmet(alloc, part.get(), request, answers, seen, context),
        Prepared::Scoped(scope, key) => {
            is_met_in_scope(alloc, scope.get(), key, request, answers, seen, context)
        }
    }
}

/// Whether each of the conditions is met. It fails only for want of memory.
#[cycle(meet)]
fn all_met(
    alloc: Global,
    parts: &[Prepared<'_>],
    request: &Request,
    answers: &Answers,
    seen: &Labels,
    context: &Context<'_>,
) -> Result<bool, Memory>
    ensures { IfOk result (λ all. IsTrue all ↔ IsMetIn request.now answers.now seen.now context.now (all_of (map condition_of parts.now))) }
{
    for part in parts {
        if !is_met(alloc, part, request, answers, seen, context)? {
            return Ok(false);
        }
    }
    Ok(true)
}

/// Whether one of the conditions is met. It fails only for want of memory.
#[cycle(meet)]
fn any_met(
    alloc: Global,
    parts: &[Prepared<'_>],
    request: &Request,
    answers: &Answers,
    seen: &Labels,
    context: &Context<'_>,
) -> Result<bool, Memory>
    ensures { IfOk result (λ some. IsTrue some ↔ IsMetIn request.now answers.now seen.now context.now (any_of (map condition_of parts.now))) }
{
    for part in parts {
        if is_met(alloc, part, request, answers, seen, context)? {
            return Ok(true);
        }
    }
    Ok(false)
}

/// Whether the condition isn't met. It fails only for want of memory.
#[cycle(meet)]
fn is_unmet(
    alloc: Global,
    part: &Prepared<'_>,
    request: &Request,
    answers: &Answers,
    seen: &Labels,
    context: &Context<'_>,
) -> Result<bool, Memory>
    ensures { IfOk result (λ unmet. IsTrue unmet ↔ IsMetIn request.now answers.now seen.now context.now (opposite (condition_of part.now))) }
{
    let met = is_met(alloc, part, request, answers, seen, context)?;
    Ok(!met)
}

/// Whether the condition is met, and then the answer to the key says so. It fails only for want of memory.
#[cycle(meet)]
fn is_met_in_scope(
    alloc: Global,
    scope: &Prepared<'_>,
    key: &Text,
    request: &Request,
    answers: &Answers,
    seen: &Labels,
    context: &Context<'_>,
) -> Result<bool, Memory>
    ensures { IfOk result (λ met. IsTrue met ↔ IsMetIn request.now answers.now seen.now context.now (both (condition_of scope.now) (answered key.now))) }
{
    let in_scope = is_met(alloc, scope, request, answers, seen, context)?;
    Ok(in_scope && statement_answer(answers, key))
}
