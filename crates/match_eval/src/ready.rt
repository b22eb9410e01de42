//! Whether a statement holds, of one request or of many.

ghost use Rattle.match_eval.specs.Sets.{AreSetsOf, IsReadyFor};
ghost use Rattle.std.specs.Prelude.{◌↔◌, IfOk, IsTrue};
ghost use Rattle.waf_model.specs.Holds.{Holds};
ghost use Rattle.waf_model.specs.LabelMatch.{IsAmong};
ghost use Rattle.waf_model.specs.declared.bundle.Bundle.{Bundle};
ghost use Rattle.waf_model.specs.declared.statement.Statement.{Statement};

use crate::holding::is_met;
use crate::prepared::Prepared;
use crate::preparing::prepare;
use crate::sets::Sets;
use label_scope::Labels;
use std::alloc::Global;
use waf_model::{Answers, Context, Memory, Request, Statement};

/// A statement of a bundle, prepared for any number of requests: a pattern of its own is prepared once for it, a set once
/// for the bundle.
#[derive(Drop)]
pub struct Ready<'a> {
    pub(crate) prepared: Prepared<'a>,
}

impl<'a> Ready<'a> {
    /// The statement, prepared over the sets of its bundle. It fails only for want of memory.
    pub fn of<'b>(
        alloc: Global,
        statement: &'a Statement,
        sets: &'a Sets<'b>,
    ) -> Result<Ready<'a>, Memory>
        ensures { IfOk result (λ ready. (bundle : Bundle) → AreSetsOf bundle sets.now → IsReadyFor bundle statement.now ready) }
    {
        let prepared = prepare(alloc, statement, sets)?;
        Ok(Ready { prepared })
    }

    /// Whether the statement holds of the request, under the answers, where these labels were added before (AWS WAF
    /// Developer Guide, "Rule statements"). A body is looked at up to the limit of the web ACL, in bytes. It fails only
    /// for want of memory.
    pub fn holds(
        &self,
        alloc: Global,
        request: &Request,
        answers: &Answers,
        seen: &Labels,
        context: &Context<'_>,
    ) -> Result<bool, Memory>
        ensures { (statement : Statement) → IsReadyFor context.now.bundle.now statement self.now → IfOk result (λ holds. IsTrue holds ↔
            Holds context.now.bundle.now statement request.now answers.now (IsAmong seen.now) context.now.namespace.now context.now.bundle.now.acl.body_limit) }
    {
        is_met(alloc, &self.prepared, request, answers, seen, context)
    }
}

/// Whether the statement holds of the request, as `Ready::holds` answers it, where nothing was prepared before: the sets
/// of the bundle are prepared for this one answer. It fails only for want of memory.
pub fn holds(
    alloc: Global,
    statement: &Statement,
    request: &Request,
    answers: &Answers,
    seen: &Labels,
    context: &Context<'_>,
) -> Result<bool, Memory>
    ensures { IfOk result (λ holds. IsTrue holds ↔ Holds context.now.bundle.now statement.now request.now answers.now (IsAmong seen.now) context.now.namespace.now context.now.bundle.now.acl.body_limit) }
{
    let sets = Sets::of(alloc, context.bundle)?;
    let ready = Ready::of(alloc, statement, &sets)?;
    let held = ready.holds(alloc, request, answers, seen, context)?;
    Ok(held)
}
