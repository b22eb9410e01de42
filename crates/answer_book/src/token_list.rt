//! The answers of tokens.

ghost use Rattle.answer_book.specs.AnswersReading.{kind_at, kind_words, token_answer_at, tokens_at};
ghost use Rattle.json_view.specs.Words.{each_from, meaning};
ghost use Rattle.serde_json.specs.View.{view};
ghost use Rattle.std.specs.Prelude.{◌≡◌, map};
ghost use Rattle.waf_model.specs.Gives.{Gives};
ghost use Rattle.waf_model.specs.declared.read_fault.ReadFault.TheVariants as read_faults;

use crate::truths::truth_member;
use json_view::{index_path, member_path, optional_list, text_member, whole_member};
use serde_json::Value;
use std::alloc::Global;
use waf_model::{Items, ReadFault, Text, TokenAnswer, TokenKind};

// The longest immunity time, in seconds.
const LONGEST_IMMUNITY: u64 = 1_000_000_000;

/// The answers of tokens, none where they are absent.
#[tactic(auto, unfolding(crate::specs::AnswersReading::tokens_at))]
pub(crate) fn tokens(alloc: Global, v: &Value, path: &Text) -> Result<Items<TokenAnswer>, ReadFault>
    ensures { Gives read_faults.Memory (λ answers. answers) result (tokens_at (view v.now) path.now) }
{
    let all = optional_list(alloc, v, "Tokens", path)?;
    let at = member_path(alloc, path, "Tokens")?;
    let answers = each_token(alloc, all, &at)?;
    Ok(answers)
}

fn each_token(alloc: Global, all: &[Value], path: &Text) -> Result<Items<TokenAnswer>, ReadFault>
    ensures { Gives read_faults.Memory (λ answers. answers) result (each_from token_answer_at 0 (map view all.now) path.now) }
{
    let mut answers = Items::new(alloc);
    let mut index: u64 = 0;
    for found in all {
        let at = index_path(alloc, path, index)?;
        answers.push(answered_token(alloc, found, &at)?)?;
        index += 1;
    }
    Ok(answers)
}

// The answer of a token.
#[tactic(auto, unfolding(crate::specs::AnswersReading::token_answer_at))]
fn answered_token(alloc: Global, v: &Value, path: &Text) -> Result<TokenAnswer, ReadFault>
    ensures { Gives read_faults.Memory (λ answer. answer) result (token_answer_at (view v.now) path.now) }
{
    let kind = kind(alloc, v, path)?;
    let immunity = whole_member(alloc, v, "ImmunityTime", path, 1, LONGEST_IMMUNITY)?;
    let valid = truth_member(alloc, v, "Valid", path)?;
    Ok(TokenAnswer {
        kind,
        immunity: immunity as u32,
        valid,
    })
}

// The kind of a token.
#[tactic(auto, unfolding(crate::specs::AnswersReading::kind_at))]
fn kind(alloc: Global, v: &Value, path: &Text) -> Result<TokenKind, ReadFault>
    ensures { Gives read_faults.Memory (λ kind. kind) result (kind_at (view v.now) path.now) }
{
    let word = text_member(alloc, v, "Kind", path)?;
    match kind_of(word) {
        Some(kind) => Ok(kind),
        None => Err(ReadFault::Name(member_path(alloc, path, "Kind")?)),
    }
}

// What the word for a kind means.
fn kind_of(word: &str) -> Option<TokenKind>
    ensures { result ≡ meaning kind_words word.now }
{
    if word == "CAPTCHA" {
        Some(TokenKind::Captcha)
    } else if word == "CHALLENGE" {
        Some(TokenKind::Challenge)
    } else {
        None
    }
}
