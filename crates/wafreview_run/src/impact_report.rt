//! The work of `impact` on the bytes of its files.

ghost use Rattle.std.specs.Prelude.{◌≡◌, Err, IfOk, Ok, option_map};
ghost use Rattle.impact_replay.specs.LogReading.{log_reading};
ghost use Rattle.impact_replay.specs.Replayed.{IsReplayed};
ghost use Rattle.set_json.specs.Bundles.{bundle_reading};
ghost use Rattle.waf_model.specs.WholeBundle.{IsWhole};
ghost use Rattle.waf_model.specs.declared.read_fault.ReadFault.TheVariants as read_faults;
ghost use Rattle.wafreview_run.specs.Due.{given_reading};
ghost use Rattle.wafreview_run.specs.ImpactDue.{ImpactDue, ReplayDue};
ghost use Rattle.wafreview_run.specs.ImpactText.{changed_code, impact_text};

use crate::impact_text::write_impact;
use crate::letting_go::let_go;
use crate::refusal::{refusal, refused, refused_at};
use crate::report::Report;
use crate::reports::{given_answers, none_answered};
use crate::role::Role;
use impact_replay::{Impact, ReplayFault, replay};
use set_json::read_bundle;
use std::alloc::Global;
use waf_model::{Answers, Bundle, Memory, ReadFault};

/// The report of an impact.
fn told(alloc: Global, impact: &Impact) -> Result<Report, Memory>
    ensures { IfOk result (λ report. (report.code ≡ changed_code impact.now.changed) × (report.text ≡ impact_text impact.now)) }
{
    let text = write_impact(alloc, impact)?;
    let code = if impact.changed.as_slice().is_empty() {
        0
    } else {
        1
    };
    Ok(Report { code, text })
}

/// What is due for two revisions and a log under the answers.
fn replayed(
    alloc: Global,
    old: &Bundle,
    new: &Bundle,
    log: &[u8],
    answers: &Answers,
) -> Result<Report, Memory>
    requires old_whole { IsWhole old.now }
    requires new_whole { IsWhole new.now }
    ensures { IfOk result (λ report. ReplayDue old.now new.now (log_reading log.now) (Ok answers.now) report.code report.text) }
{
    match replay(alloc, old, new, log, answers) {
        Ok(impact) => {
            let report = told(alloc, &impact);
            let_go(impact);
            report
        }
        Err(ReplayFault::Line { number, fault }) => refused_at(alloc, number, fault),
        Err(ReplayFault::Memory) => Err(Memory),
    }
}

/// What is due where the answers have that fault: a fault of the log comes before it.
fn answers_refused(
    alloc: Global,
    old: &Bundle,
    new: &Bundle,
    log: &[u8],
    fault: &ReadFault,
) -> Result<Report, Memory>
    requires old_whole { IsWhole old.now }
    requires new_whole { IsWhole new.now }
    ensures { IfOk result (λ report. ReplayDue old.now new.now (log_reading log.now) (Err fault.now) report.code report.text) }
{
    let unanswered = none_answered(alloc);
    let impact = replay(alloc, old, new, log, &unanswered);
    let_go(unanswered);
    match impact {
        Ok(impact) => {
            let_go(impact);
            refused(alloc, Role::Answers, fault)
        }
        Err(ReplayFault::Line { number, fault }) => refused_at(alloc, number, fault),
        Err(ReplayFault::Memory) => Err(Memory),
    }
}

/// What is due for two revisions and the bytes of a log and of answers.
fn compared(
    alloc: Global,
    old: &Bundle,
    new: &Bundle,
    log: &[u8],
    answers: Option<&[u8]>,
) -> Result<Report, Memory>
    requires old_whole { IsWhole old.now }
    requires new_whole { IsWhole new.now }
    ensures { IfOk result (λ report. ReplayDue old.now new.now (log_reading log.now) (given_reading (option_map (λ bytes. bytes.now) answers.entry)) report.code report.text) }
{
    match given_answers(alloc, answers) {
        Ok(answers) => {
            let report = replayed(alloc, old, new, log, &answers);
            let_go(answers);
            report
        }
        Err(ReadFault::Memory) => Err(Memory),
        Err(fault) => {
            let report = answers_refused(alloc, old, new, log, &fault);
            let_go(fault);
            report
        }
    }
}

/// What is due for a bundle and the bytes of its next revision, of a log and of answers.
fn compared_with(
    alloc: Global,
    old: &Bundle,
    new: &[u8],
    log: &[u8],
    answers: Option<&[u8]>,
) -> Result<Report, Memory>
    requires whole { IsWhole old.now }
    ensures { IfOk result (λ report. ImpactDue (Ok old.now) (bundle_reading new.now) (log_reading log.now) (given_reading (option_map (λ bytes. bytes.now) answers.entry)) report.code report.text) }
{
    let new = match read_bundle(alloc, new) {
        Ok(bundle) => bundle,
        Err(fault) => return refusal(alloc, Role::New, fault),
    };
    let report = compared(alloc, old, &new, log, answers);
    let_go(new);
    report
}

/// What is due for `impact` on the bytes of two bundles, of a log and of answers, where a file of them is named.
pub(crate) fn impact_report(
    alloc: Global,
    old: &[u8],
    new: &[u8],
    log: &[u8],
    answers: Option<&[u8]>,
) -> Result<Report, Memory>
    ensures { IfOk result (λ report. ImpactDue (bundle_reading old.now) (bundle_reading new.now) (log_reading log.now) (given_reading (option_map (λ bytes. bytes.now) answers.entry)) report.code report.text) }
{
    let old = match read_bundle(alloc, old) {
        Ok(bundle) => bundle,
        Err(fault) => return refusal(alloc, Role::Old, fault),
    };
    let report = compared_with(alloc, &old, new, log, answers);
    let_go(old);
    report
}
