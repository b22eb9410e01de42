//! Two revisions of a web ACL beside each other.

ghost use Rattle.std.specs.Prelude.{◌<◌, IfErr, IfOk, length};
ghost use Rattle.acl_eval.specs.Preparation.{IsPreparedFor};
ghost use Rattle.impact_replay.specs.Comparison.{AreRevisions, IsChangeOf, IsCompared, IsDecision, IsLineCompared};
ghost use Rattle.impact_replay.specs.Lines.{IsLineFault};
ghost use Rattle.waf_model.specs.WholeBundle.{IsWhole};
ghost use Rattle.waf_model.specs.declared.bundle.Bundle.{Bundle};

use crate::impact::Change;
use crate::line_request::line_request;
use crate::replay_fault::ReplayFault;
use acl_eval::{Prepared, one_outcome};
use std::alloc::Global;
use waf_model::{Answers, Decision, Memory, Request};

/// Two revisions of a web ACL, each prepared with sets of its own, and the answers that both are evaluated under.
#[derive(Drop)]
pub(crate) struct Revisions<'o, 'n, 'a> {
    pub(crate) old: Prepared<'o>,
    pub(crate) new: Prepared<'n>,
    pub(crate) answers: &'a Answers,
}

/// What the web ACL decides of the request under the answers. It fails only for want of memory.
fn decision_of(
    alloc: Global,
    prepared: &Prepared<'_>,
    request: &Request,
    answers: &Answers,
) -> Result<Decision, Memory>
    ensures { (bundle : Bundle) → IsPreparedFor bundle prepared.now → IsWhole bundle → IfOk result (IsDecision bundle request.now answers.now) }
{
    one_outcome();
    let outcome = prepared.evaluate(alloc, request, answers)?;
    Ok(outcome.decision)
}

/// The change at that line, if the two decisions differ.
fn change_of(line: u64, old: Decision, new: Decision) -> Option<Change>
    ensures { IsChangeOf line old new result }
{
    if old == new {
        return None;
    }
    Some(Change { line, old, new })
}

impl<'o, 'n, 'a> Revisions<'o, 'n, 'a> {
    /// What the two decide otherwise of the request of the line of that number, if they do. It fails only for want of
    /// memory.
    fn change_on(
        &self,
        alloc: Global,
        line: u64,
        request: &Request,
    ) -> Result<Option<Change>, Memory>
        ensures { (old new : Bundle) → AreRevisions old new self.now → IfOk result (IsCompared old new self.now.answers.now line request.now) }
    {
        let old = decision_of(alloc, &self.old, request, self.answers)?;
        let new = decision_of(alloc, &self.new, request, self.answers)?;
        Ok(change_of(line, old, new))
    }

    /// Reads the line of that number, which isn't empty, as a request, and tells what the two decide otherwise of it, if
    /// they do.
    pub(crate) fn change_in(
        &self,
        alloc: Global,
        number: u64,
        line: &[u8],
    ) -> Result<Option<Change>, ReplayFault>
        requires { 0 < length line.now }
        ensures change { IfOk result (IsLineCompared self.now number line.now) }
        ensures fault { IfErr result (IsLineFault number line.now) }
    {
        let request = line_request(alloc, number, line)?;
        let change = self.change_on(alloc, number, &request)?;
        Ok(change)
    }
}
