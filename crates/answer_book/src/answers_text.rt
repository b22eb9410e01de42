//! The text of answers to opaque questions, as it is printed.

ghost use Rattle.std.specs.Prelude.{◌≡◌, ◌++◌, IfOk, OnOk, decimal, map};
ghost use Rattle.waf_model.specs.AnswersText.{answers_text, group_answer_text, statement_answer_text, token_answer_text, verdict_name, kind_name};
ghost use Rattle.answer_book.specs.TextParts.{up_to_kind, up_to_statements};
ghost use Rattle.waf_model.specs.JsonText.{json_list, json_string, json_truth, with_commas};

use json_text::{push_separator, push_string, push_text};
use std::alloc::Global;
use waf_model::{
    Answers, GroupAnswer, Items, Memory, StatementAnswer, Text, TokenAnswer, TokenKind, Verdict,
};

fn verdict_word(verdict: Verdict) -> &'static str
    ensures { result.now ≡ verdict_name verdict }
{
    match verdict {
        Verdict::Nothing => "NONE",
        Verdict::Allow => "ALLOW",
        Verdict::Block => "BLOCK",
        Verdict::Captcha => "CAPTCHA",
        Verdict::Challenge => "CHALLENGE",
    }
}

fn kind_word(kind: TokenKind) -> &'static str
    ensures { result.now ≡ kind_name kind }
{
    match kind {
        TokenKind::Captcha => "CAPTCHA",
        TokenKind::Challenge => "CHALLENGE",
    }
}

fn push_verdict(text: &mut Text, verdict: Verdict) -> Result<(), Memory>
    ensures { OnOk result (text.new ≡ text.old ++ json_string (verdict_name verdict)) }
{
    push_string(text, verdict_word(verdict).as_bytes())
}

fn push_kind(text: &mut Text, kind: TokenKind) -> Result<(), Memory>
    ensures { OnOk result (text.new ≡ text.old ++ json_string (kind_name kind)) }
{
    push_string(text, kind_word(kind).as_bytes())
}

/// Writes `true` or `false`.
fn push_truth(text: &mut Text, truth: bool) -> Result<(), Memory>
    ensures { OnOk result (text.new ≡ text.old ++ json_truth truth) }
{
    if truth {
        text.push(b"true")
    } else {
        text.push(b"false")
    }
}

fn push_label_elements(text: &mut Text, labels: &[Text]) -> Result<(), Memory>
    ensures { OnOk result (text.new ≡ text.old ++ with_commas (map json_string labels.now)) }
{
    for (place, label) in labels.iter().enumerate() {
        push_separator(text, place)?;
        push_text(text, label)?;
    }
    Ok(())
}

fn push_labels(text: &mut Text, labels: &Items<Text>) -> Result<(), Memory>
    ensures { OnOk result (text.new ≡ text.old ++ json_list (map json_string labels.now)) }
{
    text.push(b"[")?;
    push_label_elements(text, labels.as_slice())?;
    text.push(b"]")?;
    Ok(())
}

fn push_group(text: &mut Text, group: &GroupAnswer) -> Result<(), Memory>
    ensures { OnOk result (text.new ≡ text.old ++ group_answer_text group.now) }
{
    text.push(b"{\"Key\":")?;
    push_text(text, &group.key)?;
    text.push(b",\"Labels\":")?;
    push_labels(text, &group.labels)?;
    text.push(b",\"Verdict\":")?;
    push_verdict(text, group.verdict)?;
    text.push(b"}")?;
    Ok(())
}

fn push_group_elements(text: &mut Text, groups: &[GroupAnswer]) -> Result<(), Memory>
    ensures { OnOk result (text.new ≡ text.old ++ with_commas (map group_answer_text groups.now)) }
{
    for (place, group) in groups.iter().enumerate() {
        push_separator(text, place)?;
        push_group(text, group)?;
    }
    Ok(())
}

fn push_groups(text: &mut Text, groups: &Items<GroupAnswer>) -> Result<(), Memory>
    ensures { OnOk result (text.new ≡ text.old ++ json_list (map group_answer_text groups.now)) }
{
    text.push(b"[")?;
    push_group_elements(text, groups.as_slice())?;
    text.push(b"]")?;
    Ok(())
}

fn push_statement(text: &mut Text, answer: &StatementAnswer) -> Result<(), Memory>
    ensures { OnOk result (text.new ≡ text.old ++ statement_answer_text answer.now) }
{
    text.push(b"{\"Key\":")?;
    push_text(text, &answer.key)?;
    text.push(b",\"Match\":")?;
    push_truth(text, answer.holds)?;
    text.push(b"}")?;
    Ok(())
}

fn push_statement_elements(text: &mut Text, answers: &[StatementAnswer]) -> Result<(), Memory>
    ensures { OnOk result (text.new ≡ text.old ++ with_commas (map statement_answer_text answers.now)) }
{
    for (place, answer) in answers.iter().enumerate() {
        push_separator(text, place)?;
        push_statement(text, answer)?;
    }
    Ok(())
}

fn push_statements(text: &mut Text, answers: &Items<StatementAnswer>) -> Result<(), Memory>
    ensures { OnOk result (text.new ≡ text.old ++ json_list (map statement_answer_text answers.now)) }
{
    text.push(b"[")?;
    push_statement_elements(text, answers.as_slice())?;
    text.push(b"]")?;
    Ok(())
}

// Writes a number in decimal digits.
fn push_decimal(alloc: Global, text: &mut Text, number: u32) -> Result<(), Memory>
    ensures { OnOk result (text.new ≡ text.old ++ decimal number) }
{
    text.push_number(alloc, u64::from(number))
}

/// Writes the members up to the kind.
fn push_to_kind(alloc: Global, text: &mut Text, token: &TokenAnswer) -> Result<(), Memory>
    ensures { OnOk result (text.new ≡ text.old ++ up_to_kind token.now) }
{
    text.push(b"{\"ImmunityTime\":")?;
    push_decimal(alloc, text, token.immunity)?;
    text.push(b",\"Kind\":")?;
    push_kind(text, token.kind)?;
    Ok(())
}

fn push_token(alloc: Global, text: &mut Text, token: &TokenAnswer) -> Result<(), Memory>
    ensures { OnOk result (text.new ≡ text.old ++ token_answer_text token.now) }
{
    push_to_kind(alloc, text, token)?;
    text.push(b",\"Valid\":")?;
    push_truth(text, token.valid)?;
    text.push(b"}")?;
    Ok(())
}

fn push_token_elements(alloc: Global, text: &mut Text, tokens: &[TokenAnswer]) -> Result<(), Memory>
    ensures { OnOk result (text.new ≡ text.old ++ with_commas (map token_answer_text tokens.now)) }
{
    for (place, token) in tokens.iter().enumerate() {
        push_separator(text, place)?;
        push_token(alloc, text, token)?;
    }
    Ok(())
}

fn push_tokens(alloc: Global, text: &mut Text, tokens: &Items<TokenAnswer>) -> Result<(), Memory>
    ensures { OnOk result (text.new ≡ text.old ++ json_list (map token_answer_text tokens.now)) }
{
    text.push(b"[")?;
    push_token_elements(alloc, text, tokens.as_slice())?;
    text.push(b"]")?;
    Ok(())
}

/// Writes the members up to the answers of statements.
fn push_to_statements(text: &mut Text, answers: &Answers) -> Result<(), Memory>
    ensures { OnOk result (text.new ≡ text.old ++ up_to_statements answers.now) }
{
    text.push(b"{\"Groups\":")?;
    push_groups(text, &answers.groups)?;
    text.push(b",\"Statements\":")?;
    push_statements(text, &answers.statements)?;
    Ok(())
}

/// The answers as a compact JSON object with the members `Groups`, `Statements` and `Tokens`, each member in the order of
/// its names. It is JSON where keys and labels are UTF-8. It fails only for want of memory.
pub fn write_answers(alloc: Global, answers: &Answers) -> Result<Text, Memory>
    ensures { IfOk result (λ text. text ≡ answers_text answers.now) }
{
    let mut text = Text::new(alloc);
    push_to_statements(&mut text, answers)?;
    text.push(b",\"Tokens\":")?;
    push_tokens(alloc, &mut text, &answers.tokens)?;
    text.push(b"}")?;
    Ok(text)
}
