//! A run of the program.

ghost use Rattle.std.specs.Prelude.{◌≡◌, ◌≤◌, [], ◌∷◌, ℕ, List, map, None, Some, IfOk, IfErr, option_map, string_bytes};
ghost use Rattle.waf_base.specs.Counts.{Rose};
ghost use Rattle.wafreview_run.specs.Answer.{HasCause};
ghost use Rattle.wafreview_run.specs.Answered.{IsAnswered, Written};
ghost use Rattle.wafreview_run.specs.AnswerOf.{IsDueOrMemory, ended_answer};
ghost use Rattle.wafreview_run.specs.CommandLine.{command_of as command_of_words, capacity, evaluate, keys, review};
ghost use Rattle.set_json.specs.Bundles.{bundle_reading};
ghost use Rattle.wafreview_run.specs.Due.{CapacityDue, EvaluateDue, KeysDue, ReviewDue, given_reading};
ghost use Rattle.request_parts.specs.RequestReading.{request_reading};
ghost use Rattle.wafreview_run.specs.declared.answer.Answer.TheVariants as answers;
ghost use Rattle.wafreview_run.specs.CommandView.{command_view};

use crate::answer::Answer;
use crate::command::{Command, command_of};
use crate::named_files::{Ended, NamedRole, ThreeFiles, TwoFiles, read_one, read_three, read_two};
use crate::replaying::{Compared, impact_named};
use crate::report::Report;
use crate::reports::{capacity_report, evaluation_report, keys_report, review_report};
use crate::role::Role;
use crate::status::Status;
use crate::writing::write_answer;
use std::alloc::Global;
use waf_base::{Files, Memory, Sink};

/// Runs the command that the words are (the program's name left out) on these files, writes its text to the sink, and
/// says how the run ends: with the answer that is due and its text written whole, or with the first cause of another
/// answer, in the order words, files, texts, work, writing. The whole text is made before its first byte is written.
pub fn run<F: Files, O: Sink>(alloc: Global, words: &[String], files: &mut F, out: &mut O) -> Status
    ensures answered { IsAnswered
        (HasCause (F.tells files.old) (F.sure files.old) (Rose (F.faults files.old) (F.faults files.new)) (Rose (F.long_reads files.old) (F.long_reads files.new)) (command_of_words (map string_bytes words.now)))
        (Written (O.taken out.old) (O.taken out.new) (O.faults out.old) (O.faults out.new)) result.code }
{
    let answer = answer_to(alloc, words, files);
    write_answer(&answer, out)
}

/// The answer to the words.
fn answer_to<F: Files>(alloc: Global, words: &[String], files: &mut F) -> Answer
    ensures { HasCause (F.tells files.old) (F.sure files.old) (Rose (F.faults files.old) (F.faults files.new)) (Rose (F.long_reads files.old) (F.long_reads files.new)) (command_of_words (map string_bytes words.now)) result }
{
    match command_of(words) {
        None => Answer::Usage,
        Some(command) => answer_of(alloc, command, files),
    }
}

/// The answer to a command.
fn answer_of<F: Files>(alloc: Global, command: Command<'_>, files: &mut F) -> Answer
    ensures { HasCause (F.tells files.old) (F.sure files.old) (Rose (F.faults files.old) (F.faults files.new)) (Rose (F.long_reads files.old) (F.long_reads files.new)) (Some (command_view command.entry)) result }
{
    match command {
        Command::Evaluate {
            bundle,
            request,
            answers,
        } => evaluate_named(alloc, files, bundle, request, answers),
        Command::Capacity { bundle } => capacity_file(alloc, files, bundle),
        Command::Keys { bundle } => keys_file(alloc, files, bundle),
        Command::Review { old, new } => review_files(alloc, files, old, new),
        Command::Impact {
            old,
            new,
            log,
            answers,
        } => impact_named(alloc, files, Compared { old, new, log }, answers),
    }
}

/// A report as an answer.
pub(crate) fn done(report: Report) -> Answer
    ensures { result ≡ answers.Done report.code report.text }
{
    let Report { code, text } = report;
    Answer::Done { code, text }
}

/// The work of `evaluate` without answers.
fn evaluation_answer(alloc: Global, read: &TwoFiles) -> Answer
    ensures { IsDueOrMemory (EvaluateDue (bundle_reading read.now.first.items) (request_reading read.now.second.items) (given_reading None)) result }
{
    match evaluation_report(alloc, &read.first, &read.second, None) {
        Ok(report) => done(report),
        Err(Memory) => Answer::NoMemory,
    }
}

/// The work of `evaluate` under the answers of a file.
fn evaluation_under(alloc: Global, read: &ThreeFiles) -> Answer
    ensures { IsDueOrMemory (EvaluateDue (bundle_reading read.now.first.items) (request_reading read.now.second.items) (given_reading (Some read.now.third.items))) result }
{
    match evaluation_report(
        alloc,
        &read.first,
        &read.second,
        Some(read.third.as_slice()),
    ) {
        Ok(report) => done(report),
        Err(Memory) => Answer::NoMemory,
    }
}

/// The work of `capacity`.
fn capacity_answer(alloc: Global, bundle: &[u8]) -> Answer
    ensures { IsDueOrMemory (CapacityDue (bundle_reading bundle.now)) result }
{
    match capacity_report(alloc, bundle) {
        Ok(report) => done(report),
        Err(Memory) => Answer::NoMemory,
    }
}

/// The work of `keys`.
fn keys_answer(alloc: Global, bundle: &[u8]) -> Answer
    ensures { IsDueOrMemory (KeysDue (bundle_reading bundle.now)) result }
{
    match keys_report(alloc, bundle) {
        Ok(report) => done(report),
        Err(Memory) => Answer::NoMemory,
    }
}

/// The work of `review`.
fn review_answer(alloc: Global, read: &TwoFiles) -> Answer
    ensures { IsDueOrMemory (ReviewDue (bundle_reading read.now.first.items) (bundle_reading read.now.second.items)) result }
{
    match review_report(alloc, &read.first, &read.second) {
        Ok(report) => done(report),
        Err(Memory) => Answer::NoMemory,
    }
}

/// The answer where the reading of files ended early.
pub(crate) fn answer_at(ended: Ended) -> Answer
    ensures { result ≡ ended_answer ended }
{
    match ended {
        Ended::Unread(role) => Answer::Unread(role),
        Ended::TooLong(role) => Answer::TooLong(role),
        Ended::Memory => Answer::NoMemory,
    }
}

/// The answer to `evaluate`.
fn evaluate_named<F: Files>(
    alloc: Global,
    files: &mut F,
    bundle: &str,
    request: &str,
    answers: Option<&str>,
) -> Answer
    ensures { HasCause (F.tells files.old) (F.sure files.old) (Rose (F.faults files.old) (F.faults files.new)) (Rose (F.long_reads files.old) (F.long_reads files.new)) (Some (evaluate bundle.now request.now (option_map (λ name. name.now) answers.entry))) result }
{
    match answers {
        None => evaluate_files(alloc, files, bundle, request),
        Some(answers) => evaluate_under(alloc, files, bundle, request, answers),
    }
}

/// The answer to `evaluate` without answers.
fn evaluate_files<F: Files>(alloc: Global, files: &mut F, bundle: &str, request: &str) -> Answer
    ensures { HasCause (F.tells files.old) (F.sure files.old) (Rose (F.faults files.old) (F.faults files.new)) (Rose (F.long_reads files.old) (F.long_reads files.new)) (Some (evaluate bundle.now request.now None)) result }
{
    let bundle = NamedRole {
        role: Role::Bundle,
        name: bundle,
    };
    let request = NamedRole {
        role: Role::Request,
        name: request,
    };
    match read_two(alloc, files, bundle, request) {
        Ok(read) => evaluation_answer(alloc, &read),
        Err(ended) => answer_at(ended),
    }
}

/// The answer to `evaluate` under the answers of a file.
fn evaluate_under<F: Files>(
    alloc: Global,
    files: &mut F,
    bundle: &str,
    request: &str,
    answers: &str,
) -> Answer
    ensures { HasCause (F.tells files.old) (F.sure files.old) (Rose (F.faults files.old) (F.faults files.new)) (Rose (F.long_reads files.old) (F.long_reads files.new)) (Some (evaluate bundle.now request.now (Some answers.now))) result }
{
    let bundle = NamedRole {
        role: Role::Bundle,
        name: bundle,
    };
    let request = NamedRole {
        role: Role::Request,
        name: request,
    };
    let answers = NamedRole {
        role: Role::Answers,
        name: answers,
    };
    match read_three(alloc, files, bundle, request, answers) {
        Ok(read) => evaluation_under(alloc, &read),
        Err(ended) => answer_at(ended),
    }
}

/// The answer to `capacity`.
fn capacity_file<F: Files>(alloc: Global, files: &mut F, bundle: &str) -> Answer
    ensures { HasCause (F.tells files.old) (F.sure files.old) (Rose (F.faults files.old) (F.faults files.new)) (Rose (F.long_reads files.old) (F.long_reads files.new)) (Some (capacity bundle.now)) result }
{
    let bundle = NamedRole {
        role: Role::Bundle,
        name: bundle,
    };
    match read_one(alloc, files, bundle) {
        Ok(read) => capacity_answer(alloc, &read),
        Err(ended) => answer_at(ended),
    }
}

/// The answer to `keys`.
fn keys_file<F: Files>(alloc: Global, files: &mut F, bundle: &str) -> Answer
    ensures { HasCause (F.tells files.old) (F.sure files.old) (Rose (F.faults files.old) (F.faults files.new)) (Rose (F.long_reads files.old) (F.long_reads files.new)) (Some (keys bundle.now)) result }
{
    let bundle = NamedRole {
        role: Role::Bundle,
        name: bundle,
    };
    match read_one(alloc, files, bundle) {
        Ok(read) => keys_answer(alloc, &read),
        Err(ended) => answer_at(ended),
    }
}

/// The answer to `review`.
fn review_files<F: Files>(alloc: Global, files: &mut F, old: &str, new: &str) -> Answer
    ensures { HasCause (F.tells files.old) (F.sure files.old) (Rose (F.faults files.old) (F.faults files.new)) (Rose (F.long_reads files.old) (F.long_reads files.new)) (Some (review old.now new.now)) result }
{
    let old = NamedRole {
        role: Role::Old,
        name: old,
    };
    let new = NamedRole {
        role: Role::New,
        name: new,
    };
    match read_two(alloc, files, old, new) {
        Ok(read) => review_answer(alloc, &read),
        Err(ended) => answer_at(ended),
    }
}
