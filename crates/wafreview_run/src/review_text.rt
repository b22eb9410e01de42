//! The text of a review's answer.

ghost use Rattle.std.specs.Prelude.{◌≡◌, ◌++◌, codes, decimal, OnOk, IfOk};
ghost use Rattle.waf_model.specs.AnswersText.{answers_text};
ghost use Rattle.waf_model.specs.Printed.{decision_name, different_text};
ghost use Rattle.wafreview_run.specs.ReviewText.{review_text};
ghost use Rattle.wafreview_run.specs.DifferentParts.{old_text, decisions_text, up_to_request};

use crate::decimal::push_decimal;
use acl_eval::write_decision;
use answer_book::write_answers;
use parting_build::{Parting, Review};
use request_parts::write_request;
use std::alloc::Global;
use waf_model::{Answers, Decision, Memory, Text};

/// The lines of a review's answer, each of which ends in one newline byte. It fails only for want of memory.
pub fn write_review(alloc: Global, review: &Review) -> Result<Text, Memory>
    ensures { IfOk result (λ text. text ≡ review_text review.now) }
{
    let mut text = Text::new(alloc);
    match review {
        Review::Equal => text.push(b"review EQUAL\n")?,
        Review::Different(parting) => push_parting(alloc, &mut text, parting)?,
        Review::Undecided { made } => push_undecided(alloc, &mut text, *made)?,
    }
    Ok(text)
}

fn push_undecided(alloc: Global, text: &mut Text, made: u32) -> Result<(), Memory>
    ensures { OnOk result (text.new ≡ text.old ++ (codes "review UNDECIDED " ++ decimal made ++ codes "\n")) }
{
    text.push(b"review UNDECIDED ")?;
    push_decimal(alloc, text, made)?;
    text.push(b"\n")?;
    Ok(())
}

/// Writes the first three lines of DIFFERENT.
fn push_decisions(alloc: Global, text: &mut Text, parting: &Parting) -> Result<(), Memory>
    ensures { OnOk result (text.new ≡ text.old ++ decisions_text parting.now.old parting.now.new) }
{
    push_old(alloc, text, parting.old)?;
    text.push(b"\n")?;
    text.push(b"new ")?;
    write_decision(alloc, text, parting.new)?;
    text.push(b"\n")?;
    Ok(())
}

/// Writes DIFFERENT and the old decision.
fn push_old(alloc: Global, text: &mut Text, old: Decision) -> Result<(), Memory>
    ensures { OnOk result (text.new ≡ text.old ++ old_text old) }
{
    text.push(b"review DIFFERENT\n")?;
    text.push(b"old ")?;
    write_decision(alloc, text, old)?;
    Ok(())
}

/// Writes the lines of DIFFERENT up to the request.
fn push_to_request(alloc: Global, text: &mut Text, parting: &Parting) -> Result<(), Memory>
    ensures { OnOk result (text.new ≡ text.old ++ up_to_request parting.now.old parting.now.new parting.now.request) }
{
    push_decisions(alloc, text, parting)?;
    text.push(b"request ")?;
    text.push(write_request(alloc, &parting.request)?.bytes())?;
    text.push(b"\n")?;
    Ok(())
}

/// Writes the answers as a JSON object.
fn push_answers(alloc: Global, text: &mut Text, answers: &Answers) -> Result<(), Memory>
    ensures { OnOk result (text.new ≡ text.old ++ answers_text answers.now) }
{
    let written = write_answers(alloc, answers)?;
    text.push(written.bytes())
}

/// Writes all lines of DIFFERENT.
fn push_parting(alloc: Global, text: &mut Text, parting: &Parting) -> Result<(), Memory>
    ensures { OnOk result (text.new ≡ text.old ++ different_text parting.now.old parting.now.new parting.now.request parting.now.answers) }
{
    push_to_request(alloc, text, parting)?;
    text.push(b"answers ")?;
    push_answers(alloc, text, &parting.answers)?;
    text.push(b"\n")?;
    Ok(())
}
