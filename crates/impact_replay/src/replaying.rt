//! The replay of a log.

ghost use Rattle.std.specs.Prelude.{◌<◌, IfErr, IfOk, OnOk};
ghost use Rattle.impact_replay.specs.Comparison.{AreRevisions, IsLineReplayed};
ghost use Rattle.impact_replay.specs.Lines.{IsLineFault};
ghost use Rattle.impact_replay.specs.Replayed.{IsLogFault, IsReplayed};
ghost use Rattle.waf_model.specs.WholeBundle.{IsWhole};
ghost use Rattle.waf_model.specs.declared.bundle.Bundle.{Bundle};

use crate::first_line::first_line;
use crate::impact::Impact;
use crate::replay_fault::ReplayFault;
use crate::revisions::Revisions;
use acl_eval::{Prepared, Sets};
use std::alloc::Global;
use waf_model::{Answers, Bundle};

/// Which requests of the log the two revisions decide otherwise, the answers being the same for both. The lines of the
/// log are the pieces between its newline bytes, numbered from 1; each that isn't empty is read as a request, a line of
/// the log of AWS WAF among them. It fails with the first line that is read as no request and its first fault, whatever
/// was found before it, or for want of memory. Each revision is prepared once, and the log is read once, line by line.
pub fn replay(
    alloc: Global,
    old: &Bundle,
    new: &Bundle,
    log: &[u8],
    answers: &Answers,
) -> Result<Impact, ReplayFault>
    requires old_whole { IsWhole old.now }
    requires new_whole { IsWhole new.now }
    ensures impact { IfOk result (IsReplayed old.now new.now log.now answers.now) }
    ensures fault { IfErr result (IsLogFault log.now) }
{
    let old_sets = Sets::of(alloc, old)?;
    let new_sets = Sets::of(alloc, new)?;
    let revisions = Revisions {
        old: Prepared::of(alloc, old, &old_sets)?,
        new: Prepared::of(alloc, new, &new_sets)?,
        answers,
    };
    let impact = replayed(alloc, &revisions, log)?;
    Ok(impact)
}

/// Which requests of the log the prepared revisions decide otherwise.
#[tactic(auto, using(crate::proofs::Lines::replayed_none, crate::proofs::Lines::replayed_more, crate::proofs::Lines::counted_few))]
pub(crate) fn replayed(
    alloc: Global,
    revisions: &Revisions<'_, '_, '_>,
    log: &[u8],
) -> Result<Impact, ReplayFault>
    ensures impact { IfOk result (λ impact. (old new : Bundle) → AreRevisions old new revisions.now → IsReplayed old new log.now revisions.now.answers.now impact) }
    ensures fault { IfErr result (IsLogFault log.now) }
{
    let mut impact = Impact::none(alloc);
    let mut number: u64 = 0;
    let mut rest = Some(log);
    while let Some(text) = rest {
        let first = first_line(text);
        number += 1;
        replay_line(alloc, revisions, number, first.line, &mut impact)?;
        rest = first.behind;
    }
    Ok(impact)
}

/// Adds what the line of that number shows, unless it is empty.
fn replay_line(
    alloc: Global,
    revisions: &Revisions<'_, '_, '_>,
    number: u64,
    line: &[u8],
    impact: &mut Impact,
) -> Result<(), ReplayFault>
    requires { impact.old.lines < number }
    ensures impact { OnOk result (IsLineReplayed revisions.now number line.now impact.old impact.new) }
    ensures fault { IfErr result (IsLineFault number line.now) }
{
    if line.is_empty() {
        return Ok(());
    }
    let change = revisions.change_in(alloc, number, line)?;
    impact.add(change)?;
    Ok(())
}
