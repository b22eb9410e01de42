//! The answers that bytes are read as.

ghost use Rattle.answer_book.specs.AnswersReading.{answers_at, answers_of, answers_reading};
ghost use Rattle.serde_json.specs.View.{view};
ghost use Rattle.std.specs.Prelude.{Some};
ghost use Rattle.waf_model.specs.Gives.{Gives};
ghost use Rattle.waf_model.specs.declared.read_fault.ReadFault.TheVariants as read_faults;

use crate::group_list::groups;
use crate::statement_list::statements;
use crate::token_list::tokens;
use json_view::parse;
use serde_json::Value;
use std::alloc::Global;
use waf_model::{Answers, ReadFault, Text};

/// The answers that the bytes are read as. It fails where memory was wanting, with `Json` where the bytes are no JSON
/// text, and else with the first fault: `Shape` of a member that is absent or of another JSON kind, `Name` of a verdict
/// or token kind that is none of the names, or of a label that doesn't begin `awswaf:managed:` or has a byte that no
/// label has, `Number` of an immunity time that isn't whole, or not from 1 to 1,000,000,000.
#[tactic(auto, unfolding(crate::specs::AnswersReading::answers_reading))]
pub fn read_answers(alloc: Global, bytes: &[u8]) -> Result<Answers, ReadFault>
    ensures { Gives read_faults.Memory (λ answers. answers) result (answers_reading bytes.now) }
{
    match parse(alloc, bytes)? {
        Some(top) => answers_in(alloc, &top),
        None => Err(ReadFault::Json),
    }
}

// The answers of a text that was parsed.
fn answers_in(alloc: Global, v: &Value) -> Result<Answers, ReadFault>
    ensures { Gives read_faults.Memory (λ answers. answers) result (answers_of (Some (view v.now))) }
{
    let top = Text::of(alloc, b"$")?;
    let answers = answers(alloc, v, &top)?;
    Ok(answers)
}

// The members of answers.
#[tactic(auto, unfolding(crate::specs::AnswersReading::answers_at))]
fn answers(alloc: Global, v: &Value, path: &Text) -> Result<Answers, ReadFault>
    ensures { Gives read_faults.Memory (λ answers. answers) result (answers_at (view v.now) path.now) }
{
    let statements = statements(alloc, v, path)?;
    let groups = groups(alloc, v, path)?;
    let tokens = tokens(alloc, v, path)?;
    Ok(Answers {
        statements,
        groups,
        tokens,
    })
}
