//! Rows of answers, and of the keys that a bundle leaves to answers.

use crate::fault_line::fault_line;
use crate::given::{bytes, number, word};
use crate::line::Line;
use crate::row_fault::{RowFault, alone, answered};
use answer_book::{
    group_answer, keys_of, read_answers, statement_answer, token_answer, write_answers,
};
use set_json::read_bundle;
use std::alloc::Global;
use text_rows::Kind;
use waf_model::{Answers, Bundle, Memory, Text, TokenKey, TokenKind};

/// The kind of answers. Given are a call and the bytes of answers; `read` comes to their text, or to their fault. Behind them
/// stand the key that is looked up: of a `statement`, of a `group`, or the kind and the time of a `token`. `keys` is given a
/// bundle, and comes to its keys in one line.
pub(crate) struct AnswerRows;

// The verdict and the labels of the first answer of a managed group of that key, or that there is none.
fn group_line(alloc: Global, answers: &Answers, key: &Text) -> Result<Text, RowFault> {
    let mut line = Line::new(alloc);
    match group_answer(answers, key) {
        Some(answer) => {
            line.named(&answer.verdict)?;
            line.words(&answer.labels)?;
        }
        None => line.word(b"none")?,
    }
    Ok(line.into_text())
}

// Whether the token at that place is valid.
fn token_line(alloc: Global, answers: &Answers, given: &[Text]) -> Result<Text, RowFault> {
    let kind = match word(given, 2)? {
        "CAPTCHA" => TokenKind::Captcha,
        "CHALLENGE" => TokenKind::Challenge,
        _ => return Err(RowFault::Given),
    };
    let immunity = number(given, 3)?;
    truth(alloc, token_answer(answers, &TokenKey { kind, immunity }))
}

// Whether it is so, in a word.
fn truth(alloc: Global, holds: bool) -> Result<Text, RowFault> {
    let mut line = Line::new(alloc);
    line.named(&holds)?;
    Ok(line.into_text())
}

// What the call gives of the answers that were read.
fn looked_up(alloc: Global, answers: &Answers, given: &[Text]) -> Result<Text, RowFault> {
    match word(given, 0)? {
        "read" => Ok(write_answers(alloc, answers)?),
        "statement" => {
            let key = Text::of(alloc, bytes(given, 2)?)?;
            truth(alloc, statement_answer(answers, &key))
        }
        "group" => {
            let key = Text::of(alloc, bytes(given, 2)?)?;
            group_line(alloc, answers, &key)
        }
        "token" => token_line(alloc, answers, given),
        _ => Err(RowFault::Given),
    }
}

// The name of the action that asks for a token.
fn kind_name(kind: TokenKind) -> &'static [u8] {
    match kind {
        TokenKind::Captcha => b"CAPTCHA",
        TokenKind::Challenge => b"CHALLENGE",
    }
}

// The keys of a bundle in one line.
fn keys_line(alloc: Global, bundle: &Bundle) -> Result<Text, RowFault> {
    let keys = keys_of(alloc, bundle)?;
    let mut line = Line::new(alloc);
    line.word(b"statements")?;
    line.words(&keys.statements)?;
    line.word(b"groups")?;
    line.words(&keys.groups)?;
    line.word(b"tokens")?;
    for token in keys.tokens.as_slice() {
        line.word(kind_name(token.kind))?;
        line.number(u64::from(token.immunity))?;
    }
    Ok(line.into_text())
}

// The keys of the bundle of those bytes.
fn keys_told(alloc: Global, bundle: &[u8]) -> Result<Text, RowFault> {
    let bundle = read_bundle(alloc, bundle)?;
    keys_line(alloc, &bundle)
}

// What the call gives of the answers of those bytes.
fn answers_told(alloc: Global, answers: &[u8], given: &[Text]) -> Result<Text, RowFault> {
    let read = read_answers(alloc, answers);
    match &read {
        Ok(answers) => looked_up(alloc, answers, given),
        Err(fault) => Ok(fault_line(alloc, fault)?),
    }
}

// What the call gives.
fn called(alloc: Global, given: &[Text]) -> Result<Text, RowFault> {
    let text = bytes(given, 1)?;
    if word(given, 0)? == "keys" {
        return keys_told(alloc, text);
    }
    answers_told(alloc, text, given)
}

fn fields(alloc: Global, given: &[Text]) -> Result<Vec<Text>, RowFault> {
    alone(alloc, called(alloc, given)?)
}

impl Kind for AnswerRows {
    fn answer(&self, alloc: Global, given: &[Text]) -> Result<Vec<Text>, Memory> {
        answered(alloc, fields(alloc, given))
    }
}
