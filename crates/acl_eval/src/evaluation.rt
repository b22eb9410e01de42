//! The evaluation of a web ACL.

ghost use Rattle.std.specs.Prelude.{IfOk};
ghost use Rattle.waf_model.specs.Outcome.{IsOutcome};
ghost use Rattle.waf_model.specs.WholeBundle.{IsWhole};

use crate::prepared::Prepared;
use match_eval::Sets;
use std::alloc::Global;
use waf_model::{Answers, Bundle, Memory, Outcome, Request};

/// The outcome of the bundle's web ACL on one request, under the answers. Where there are more requests, `Prepared` prepares
/// the web ACL once for all of them. It fails only for want of memory.
pub fn evaluate(
    alloc: Global,
    bundle: &Bundle,
    request: &Request,
    answers: &Answers,
) -> Result<Outcome, Memory>
    requires whole { IsWhole bundle.now }
    ensures { IfOk result (IsOutcome bundle.now request.now answers.now) }
{
    let sets = Sets::of(alloc, bundle)?;
    let prepared = Prepared::of(alloc, bundle, &sets)?;
    let outcome = prepared.evaluate(alloc, request, answers)?;
    Ok(outcome)
}
