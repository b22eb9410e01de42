//! The work of a command on the bytes of its files.

ghost use Rattle.std.specs.Prelude.{◌≡◌, ◌⊎◌, None, Ok, IfOk, option_map};
ghost use Rattle.parting_build.specs.Plain.{plain_form_of};
ghost use Rattle.set_json.specs.Bundles.{bundle_reading};
ghost use Rattle.waf_model.specs.Alike.{no_answers};
ghost use Rattle.waf_model.specs.Cost.{IsCounted, cost_of};
ghost use Rattle.waf_model.specs.Gives.{Gives};
ghost use Rattle.waf_model.specs.Printed.{capacity_line};
ghost use Rattle.waf_model.specs.WholeBundle.{IsWhole};
ghost use Rattle.waf_model.specs.declared.read_fault.ReadFault.TheVariants as read_faults;
ghost use Rattle.wafreview_run.specs.Due.{CapacityDue, EvaluateDue, KeysDue, PlainDue, ReviewDue, HasKeys, IsEvaluated, IsEqual, IsDifferent, given_reading};
ghost use Rattle.wafreview_run.specs.ReviewText.{review_text, review_code};
ghost use Rattle.request_parts.specs.RequestReading.{request_reading};

use crate::keys_text::write_keys;
use crate::letting_go::let_go;
use crate::refusal::{not_built, refusal};
use crate::report::Report;
use crate::review_text::write_review;
use crate::role::Role;
use acl_eval::{evaluate, write_capacity, write_outcome};
use answer_book::{keys_of, read_answers};
use parting_build::{Review, plain_form, review};
use request_parts::read_request;
use set_json::read_bundle;
use std::alloc::Global;
use waf_base::Meter;
use waf_model::{Answers, Bundle, Items, Memory, ReadFault, Request, Text};
use wcu_count::capacity;

/// No answer to any question.
pub(crate) fn none_answered(alloc: Global) -> Answers
    ensures { result ≡ no_answers }
{
    Answers {
        statements: Items::new(alloc),
        groups: Items::new(alloc),
        tokens: Items::new(alloc),
    }
}

/// The report of work that is done.
pub(crate) fn done(text: Text) -> Report
    ensures code { result.code ≡ 0 }
    ensures text { result.text ≡ text }
{
    Report { code: 0, text }
}

/// What the answers are read as, none where no file of answers is named.
pub(crate) fn given_answers(alloc: Global, answers: Option<&[u8]>) -> Result<Answers, ReadFault>
    ensures { Gives read_faults.Memory (λ answers. answers) result (given_reading (option_map (λ bytes. bytes.now) answers.entry)) }
{
    match answers {
        None => Ok(none_answered(alloc)),
        Some(bytes) => read_answers(alloc, bytes),
    }
}

/// The outcome and the capacity of a bundle on a request, under the answers.
fn evaluated(
    alloc: Global,
    bundle: &Bundle,
    request: &Request,
    answers: &Answers,
) -> Result<Report, Memory>
    requires whole { IsWhole bundle.now }
    ensures { IfOk result (λ report. IsEvaluated bundle.now request.now answers.now report.code report.text) }
{
    let outcome = evaluate(alloc, bundle, request, answers)?;
    let text = write_outcome(alloc, &outcome, &capacity(bundle));
    let_go(outcome);
    Ok(done(text?))
}

/// What is due for `evaluate` on a bundle, a request and the bytes of answers.
fn answered_report(
    alloc: Global,
    bundle: &Bundle,
    request: &Request,
    answers: Option<&[u8]>,
) -> Result<Report, Memory>
    requires whole { IsWhole bundle.now }
    ensures { IfOk result (λ report. EvaluateDue (Ok bundle.now) (Ok request.now) (given_reading (option_map (λ bytes. bytes.now) answers.entry)) report.code report.text) }
{
    let answers = match given_answers(alloc, answers) {
        Ok(answers) => answers,
        Err(fault) => return refusal(alloc, Role::Answers, fault),
    };
    let report = evaluated(alloc, bundle, request, &answers);
    let_go(answers);
    report
}

/// What is due for `evaluate` on a bundle and the bytes of a request and of answers.
fn requested_report(
    alloc: Global,
    bundle: &Bundle,
    request: &[u8],
    answers: Option<&[u8]>,
) -> Result<Report, Memory>
    requires whole { IsWhole bundle.now }
    ensures { IfOk result (λ report. EvaluateDue (Ok bundle.now) (request_reading request.now) (given_reading (option_map (λ bytes. bytes.now) answers.entry)) report.code report.text) }
{
    let request = match read_request(alloc, request) {
        Ok(request) => request,
        Err(fault) => return refusal(alloc, Role::Request, fault),
    };
    let report = answered_report(alloc, bundle, &request, answers);
    let_go(request);
    report
}

/// What is due for `evaluate` on the bytes of a bundle, of a request and of answers, where a file of them is named.
pub(crate) fn evaluation_report(
    alloc: Global,
    bundle: &[u8],
    request: &[u8],
    answers: Option<&[u8]>,
) -> Result<Report, Memory>
    ensures { IfOk result (λ report. EvaluateDue (bundle_reading bundle.now) (request_reading request.now) (given_reading (option_map (λ bytes. bytes.now) answers.entry)) report.code report.text) }
{
    let bundle = match read_bundle(alloc, bundle) {
        Ok(bundle) => bundle,
        Err(fault) => return refusal(alloc, Role::Bundle, fault),
    };
    let report = requested_report(alloc, &bundle, request, answers);
    let_go(bundle);
    report
}

/// The keys of the bundle's questions.
fn listed(alloc: Global, bundle: &Bundle) -> Result<Report, Memory>
    ensures { IfOk result (λ report. HasKeys bundle.now report.code report.text) }
{
    let keys = keys_of(alloc, bundle)?;
    let text = write_keys(alloc, &keys)?;
    Ok(done(text))
}

/// What is due for `keys` on the bytes of a bundle.
pub(crate) fn keys_report(alloc: Global, bundle: &[u8]) -> Result<Report, Memory>
    ensures { IfOk result (λ report. KeysDue (bundle_reading bundle.now) report.code report.text) }
{
    let bundle = match read_bundle(alloc, bundle) {
        Ok(bundle) => bundle,
        Err(fault) => return refusal(alloc, Role::Bundle, fault),
    };
    let report = listed(alloc, &bundle);
    let_go(bundle);
    report
}

/// What is due for `capacity` on the bytes of a bundle.
pub(crate) fn capacity_report(alloc: Global, bundle: &[u8]) -> Result<Report, Memory>
    ensures { IfOk result (λ report. CapacityDue (bundle_reading bundle.now) report.code report.text) }
{
    let bundle = match read_bundle(alloc, bundle) {
        Ok(bundle) => bundle,
        Err(fault) => return refusal(alloc, Role::Bundle, fault),
    };
    let text = capacity_text(alloc, &bundle);
    let_go(bundle);
    Ok(done(text?))
}

/// The capacity of the bundle's web ACL, as a line.
fn capacity_text(alloc: Global, bundle: &Bundle) -> Result<Text, Memory>
    requires { IsCounted bundle.now }
    ensures { IfOk result (λ text. text ≡ capacity_line (cost_of bundle.now)) }
{
    let mut text = Text::new(alloc);
    write_capacity(alloc, &mut text, &capacity(bundle))?;
    Ok(text)
}

/// The report of a review's answer.
fn answer_report(alloc: Global, answer: &Review) -> Result<Report, Memory>
    ensures { IfOk result (λ report. (report.code ≡ review_code answer.now) × (report.text ≡ review_text answer.now)) }
{
    let text = write_review(alloc, answer)?;
    let code = match answer {
        Review::Equal => 0,
        Review::Different(_) => 1,
        Review::Undecided { made: _ } => 5,
    };
    Ok(Report { code, text })
}

/// The report of a review of two bundles.
#[tactic(auto, using(crate::proofs::Reviewed::reviewed_due))]
fn reviewed(alloc: Global, old: &Bundle, new: &Bundle) -> Result<Report, Memory>
    requires old_whole { IsWhole old.now }
    requires new_whole { IsWhole new.now }
    requires old_plain { plain_form_of old.now ≡ None }
    requires new_plain { plain_form_of new.now ≡ None }
    ensures { IfOk result (λ report. IsEqual old.now new.now report.code report.text ⊎ IsDifferent old.now new.now report.code report.text) }
{
    let mut meter = Meter::new(0);
    match review(alloc, old, new, &mut meter) {
        Ok(answer) => {
            let report = answer_report(alloc, &answer);
            let_go(answer);
            report
        }
        Err(_) => Err(Memory),
    }
}

/// The same, or the first thing that can't be reviewed yet.
fn plain_report(alloc: Global, old: &Bundle, new: &Bundle) -> Result<Report, Memory>
    requires old_whole { IsWhole old.now }
    requires new_whole { IsWhole new.now }
    ensures { IfOk result (λ report. PlainDue (plain_form_of old.now) (plain_form_of new.now) old.now new.now report.code report.text) }
{
    if let Some(path) = plain_form(alloc, old)? {
        return not_built(alloc, Role::Old, path);
    }
    if let Some(path) = plain_form(alloc, new)? {
        return not_built(alloc, Role::New, path);
    }
    reviewed(alloc, old, new)
}

/// What is due for `review` on a bundle and the bytes of its next revision.
fn review_with(alloc: Global, old: &Bundle, new: &[u8]) -> Result<Report, Memory>
    requires whole { IsWhole old.now }
    ensures { IfOk result (λ report. ReviewDue (Ok old.now) (bundle_reading new.now) report.code report.text) }
{
    let new = match read_bundle(alloc, new) {
        Ok(bundle) => bundle,
        Err(fault) => return refusal(alloc, Role::New, fault),
    };
    let report = plain_report(alloc, old, &new);
    let_go(new);
    report
}

/// What is due for `review` on the bytes of two bundles.
pub(crate) fn review_report(alloc: Global, old: &[u8], new: &[u8]) -> Result<Report, Memory>
    ensures { IfOk result (λ report. ReviewDue (bundle_reading old.now) (bundle_reading new.now) report.code report.text) }
{
    let old = match read_bundle(alloc, old) {
        Ok(bundle) => bundle,
        Err(fault) => return refusal(alloc, Role::Old, fault),
    };
    let report = review_with(alloc, &old, new);
    let_go(old);
    report
}
