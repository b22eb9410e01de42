//! What an action ends the evaluation with.

ghost use Rattle.std.specs.Prelude.{◌≡◌};
ghost use Rattle.waf_model.specs.Answered.{token_answer as token_answer_of};
ghost use Rattle.waf_model.specs.Firing.{action_of as action_of_verdict, end_of as end_of_action, unless_valid as unless_valid_of};

use crate::case::Case;
use answer_book::token_answer;
use waf_model::{Action, Decision, TokenKey, TokenKind, Verdict};

/// The code that a verdict of a managed rule group blocks with.
const FORBIDDEN: u32 = 403;

/// What the action ends the evaluation with, where the rule has these immunity times, in seconds, of its own: Count ends
/// nothing, and a CAPTCHA or a challenge none where the token of its time is valid.
pub(crate) fn end_of(
    case: Case<'_>,
    captcha: Option<u32>,
    challenge: Option<u32>,
    action: Action,
) -> Option<Decision>
    ensures { result ≡ end_of_action case.entry.bundle.now case.entry.answers.now captcha challenge action }
{
    match action {
        Action::Allow => Some(Decision::Allow),
        Action::Block { code } => Some(Decision::Block { code }),
        Action::Count => None,
        Action::Captcha => {
            let immunity = captcha.unwrap_or(case.bundle.acl.captcha);
            unless_valid(case, Decision::Captcha, TokenKind::Captcha, immunity)
        }
        Action::Challenge => {
            let immunity = challenge.unwrap_or(case.bundle.acl.challenge);
            unless_valid(case, Decision::Challenge, TokenKind::Challenge, immunity)
        }
    }
}

/// The decision, unless the token of that kind and immunity time is valid.
fn unless_valid(
    case: Case<'_>,
    decision: Decision,
    kind: TokenKind,
    immunity: u32,
) -> Option<Decision>
    ensures { result ≡ unless_valid_of decision (token_answer_of case.entry.answers.now (record { kind = kind; immunity = immunity })) }
{
    if token_answer(case.answers, &TokenKey { kind, immunity }) {
        None
    } else {
        Some(decision)
    }
}

/// The action that a verdict acts as; a verdict of none acts as no match.
pub(crate) fn action_of(verdict: Verdict) -> Action
    ensures { result ≡ action_of_verdict verdict }
{
    match verdict {
        Verdict::Nothing => Action::Count,
        Verdict::Allow => Action::Allow,
        Verdict::Block => Action::Block { code: FORBIDDEN },
        Verdict::Captcha => Action::Captcha,
        Verdict::Challenge => Action::Challenge,
    }
}
