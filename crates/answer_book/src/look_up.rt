//! The answer to a key: the first entry that has it.

ghost use Rattle.std.specs.Prelude.{◌≡◌, ◌==◌, ◌&&◌, find, option_map};
ghost use Rattle.std.specs.Str.{bytes_eq};
ghost use Rattle.waf_model.specs.Answered.{group_answer as group_answer_of, same_kind, statement_answer as statement_answer_of, token_answer as token_answer_of};

use waf_model::{Answers, GroupAnswer, StatementAnswer, Text, TokenAnswer, TokenKey, TokenKind};

// The first answer of that key.
fn statement_with<'a>(answers: &'a [StatementAnswer], key: &Text) -> Option<&'a StatementAnswer>
    ensures { option_map (λ answer. answer.now) result ≡ find (λ answer. bytes_eq answer.key key.now) answers.now }
{
    answers
        .iter()
        .find(|answer| answer.key.bytes() == key.bytes())
}

/// Whether the statement of that key holds; false where no answer has the key. It takes no memory.
pub fn statement_answer(answers: &Answers, key: &Text) -> bool
    ensures { result ≡ statement_answer_of answers.now key.now }
{
    match statement_with(answers.statements.as_slice(), key) {
        Some(answer) => answer.holds,
        None => false,
    }
}

/// The answer of the managed rule group of that key; None exactly where no answer has the key. It takes no memory.
pub fn group_answer<'a>(answers: &'a Answers, key: &Text) -> Option<&'a GroupAnswer>
    ensures { option_map (λ answer. answer.now) result ≡ group_answer_of answers.now key.now }
{
    answers
        .groups
        .as_slice()
        .iter()
        .find(|answer| answer.key.bytes() == key.bytes())
}

// Whether the two kinds are the same.
fn is_same(one: TokenKind, other: TokenKind) -> bool
    ensures { result ≡ same_kind one other }
{
    match one {
        TokenKind::Captcha => matches!(other, TokenKind::Captcha),
        TokenKind::Challenge => matches!(other, TokenKind::Challenge),
    }
}

// The first answer of that kind and immunity time.
fn token_with<'a>(answers: &'a [TokenAnswer], key: &TokenKey) -> Option<&'a TokenAnswer>
    ensures { option_map (λ answer. answer.now) result ≡ find (λ answer. same_kind answer.kind key.now.kind && answer.immunity == key.now.immunity) answers.now }
{
    answers.iter().find(|answer| is_same(answer.kind, key.kind) && answer.immunity == key.immunity)
}

/// Whether the token of that kind and immunity time is valid; false where no answer has the key. It takes no memory.
pub fn token_answer(answers: &Answers, key: &TokenKey) -> bool
    ensures { result ≡ token_answer_of answers.now key.now }
{
    match token_with(answers.tokens.as_slice(), key) {
        Some(answer) => answer.valid,
        None => false,
    }
}
