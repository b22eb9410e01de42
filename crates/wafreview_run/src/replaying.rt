//! The answer to `impact`.

ghost use Rattle.std.specs.Prelude.{None, Some, option_map};
ghost use Rattle.impact_replay.specs.LogReading.{log_reading};
ghost use Rattle.set_json.specs.Bundles.{bundle_reading};
ghost use Rattle.waf_base.specs.Counts.{Rose};
ghost use Rattle.wafreview_run.specs.Answer.{HasCause};
ghost use Rattle.wafreview_run.specs.AnswerOf.{IsDueOrMemory};
ghost use Rattle.wafreview_run.specs.CommandLine.{impact};
ghost use Rattle.wafreview_run.specs.Due.{given_reading};
ghost use Rattle.wafreview_run.specs.ImpactDue.{ImpactDue};

use crate::answer::Answer;
use crate::impact_report::impact_report;
use crate::named_files::{FourFiles, NamedRole, ThreeFiles, read_four, read_three};
use crate::role::Role;
use crate::running::{answer_at, done};
use std::alloc::Global;
use waf_base::{Files, Memory};

/// The names of the files that are compared: two revisions, and a log.
#[derive(Clone, Copy, Debug)]
pub(crate) struct Compared<'a> {
    pub old: &'a str,
    pub new: &'a str,
    pub log: &'a str,
}

/// The work of `impact` without answers.
fn impact_answer(alloc: Global, read: &ThreeFiles) -> Answer
    ensures { IsDueOrMemory (ImpactDue (bundle_reading read.now.first.items) (bundle_reading read.now.second.items) (log_reading read.now.third.items) (given_reading None)) result }
{
    match impact_report(alloc, &read.first, &read.second, &read.third, None) {
        Ok(report) => done(report),
        Err(Memory) => Answer::NoMemory,
    }
}

/// The work of `impact` under the answers of a file.
fn impact_under(alloc: Global, read: &FourFiles) -> Answer
    ensures { IsDueOrMemory (ImpactDue (bundle_reading read.now.first.items) (bundle_reading read.now.second.items) (log_reading read.now.third.items) (given_reading (Some read.now.fourth.items))) result }
{
    match impact_report(
        alloc,
        &read.first,
        &read.second,
        &read.third,
        Some(read.fourth.as_slice()),
    ) {
        Ok(report) => done(report),
        Err(Memory) => Answer::NoMemory,
    }
}

/// The answer to `impact`.
pub(crate) fn impact_named<F: Files>(
    alloc: Global,
    files: &mut F,
    compared: Compared<'_>,
    answers: Option<&str>,
) -> Answer
    ensures { HasCause (F.tells files.old) (F.sure files.old) (Rose (F.faults files.old) (F.faults files.new)) (Rose (F.long_reads files.old) (F.long_reads files.new)) (Some (impact compared.entry.old.now compared.entry.new.now compared.entry.log.now (option_map (λ name. name.now) answers.entry))) result }
{
    match answers {
        None => impact_files(alloc, files, compared),
        Some(answers) => impact_with(alloc, files, compared, answers),
    }
}

/// The answer to `impact` without answers.
fn impact_files<F: Files>(alloc: Global, files: &mut F, compared: Compared<'_>) -> Answer
    ensures { HasCause (F.tells files.old) (F.sure files.old) (Rose (F.faults files.old) (F.faults files.new)) (Rose (F.long_reads files.old) (F.long_reads files.new)) (Some (impact compared.entry.old.now compared.entry.new.now compared.entry.log.now None)) result }
{
    let old = NamedRole {
        role: Role::Old,
        name: compared.old,
    };
    let new = NamedRole {
        role: Role::New,
        name: compared.new,
    };
    let log = NamedRole {
        role: Role::Log,
        name: compared.log,
    };
    match read_three(alloc, files, old, new, log) {
        Ok(read) => impact_answer(alloc, &read),
        Err(ended) => answer_at(ended),
    }
}

/// The answer to `impact` under the answers of a file.
fn impact_with<F: Files>(
    alloc: Global,
    files: &mut F,
    compared: Compared<'_>,
    answers: &str,
) -> Answer
    ensures { HasCause (F.tells files.old) (F.sure files.old) (Rose (F.faults files.old) (F.faults files.new)) (Rose (F.long_reads files.old) (F.long_reads files.new)) (Some (impact compared.entry.old.now compared.entry.new.now compared.entry.log.now (Some answers.now))) result }
{
    let old = NamedRole {
        role: Role::Old,
        name: compared.old,
    };
    let new = NamedRole {
        role: Role::New,
        name: compared.new,
    };
    let log = NamedRole {
        role: Role::Log,
        name: compared.log,
    };
    let answers = NamedRole {
        role: Role::Answers,
        name: answers,
    };
    match read_four(alloc, files, old, new, log, answers) {
        Ok(read) => impact_under(alloc, &read),
        Err(ended) => answer_at(ended),
    }
}
