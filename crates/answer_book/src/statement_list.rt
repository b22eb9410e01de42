//! The answers of statements.

ghost use Rattle.answer_book.specs.AnswersReading.{statement_answer_at, statements_at};
ghost use Rattle.json_view.specs.Words.{each_from};
ghost use Rattle.serde_json.specs.View.{view};
ghost use Rattle.std.specs.Prelude.{map};
ghost use Rattle.waf_model.specs.Gives.{Gives};
ghost use Rattle.waf_model.specs.declared.read_fault.ReadFault.TheVariants as read_faults;

use crate::truths::truth_member;
use json_view::{index_path, member_path, optional_list, text_member};
use serde_json::Value;
use std::alloc::Global;
use waf_model::{Items, ReadFault, StatementAnswer, Text};

/// The answers of statements, none where they are absent.
#[tactic(auto, unfolding(crate::specs::AnswersReading::statements_at))]
pub(crate) fn statements(
    alloc: Global,
    v: &Value,
    path: &Text,
) -> Result<Items<StatementAnswer>, ReadFault>
    ensures { Gives read_faults.Memory (λ answers. answers) result (statements_at (view v.now) path.now) }
{
    let all = optional_list(alloc, v, "Statements", path)?;
    let at = member_path(alloc, path, "Statements")?;
    let answers = each_statement(alloc, all, &at)?;
    Ok(answers)
}

fn each_statement(
    alloc: Global,
    all: &[Value],
    path: &Text,
) -> Result<Items<StatementAnswer>, ReadFault>
    ensures { Gives read_faults.Memory (λ answers. answers) result (each_from statement_answer_at 0 (map view all.now) path.now) }
{
    let mut answers = Items::new(alloc);
    let mut index: u64 = 0;
    for found in all {
        let at = index_path(alloc, path, index)?;
        answers.push(answered_statement(alloc, found, &at)?)?;
        index += 1;
    }
    Ok(answers)
}

// The answer of a statement.
#[tactic(auto, unfolding(crate::specs::AnswersReading::statement_answer_at))]
fn answered_statement(alloc: Global, v: &Value, path: &Text) -> Result<StatementAnswer, ReadFault>
    ensures { Gives read_faults.Memory (λ answer. answer) result (statement_answer_at (view v.now) path.now) }
{
    let key = Text::of(alloc, text_member(alloc, v, "Key", path)?.as_bytes())?;
    let holds = truth_member(alloc, v, "Match", path)?;
    Ok(StatementAnswer { key, holds })
}
