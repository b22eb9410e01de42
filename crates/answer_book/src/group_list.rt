//! The answers of managed rule groups.

ghost use Rattle.answer_book.specs.AnswersReading.{group_answer_at, groups_at, is_managed_label as is_managed_text, label_at, labels_at, verdict_at, verdict_words};
ghost use Rattle.json_view.specs.Words.{each_from, meaning};
ghost use Rattle.serde_json.specs.View.{view};
ghost use Rattle.std.specs.List.{list_all};
ghost use Rattle.std.specs.Prelude.{◌≡◌, map};
ghost use Rattle.waf_model.specs.Gives.{Gives};
ghost use Rattle.waf_model.specs.Letters.{is_label_byte as is_label_letter};
ghost use Rattle.waf_model.specs.declared.read_fault.ReadFault.TheVariants as read_faults;

use json_view::{copy_of, index_path, member_path, optional_list, text, text_member};
use serde_json::Value;
use std::alloc::Global;
use waf_model::{GroupAnswer, Items, ReadFault, Text, Verdict};

/// The answers of managed rule groups, none where they are absent.
#[tactic(auto, unfolding(crate::specs::AnswersReading::groups_at))]
pub(crate) fn groups(alloc: Global, v: &Value, path: &Text) -> Result<Items<GroupAnswer>, ReadFault>
    ensures { Gives read_faults.Memory (λ answers. answers) result (groups_at (view v.now) path.now) }
{
    let all = optional_list(alloc, v, "Groups", path)?;
    let at = member_path(alloc, path, "Groups")?;
    let answers = each_group(alloc, all, &at)?;
    Ok(answers)
}

fn each_group(alloc: Global, all: &[Value], path: &Text) -> Result<Items<GroupAnswer>, ReadFault>
    ensures { Gives read_faults.Memory (λ answers. answers) result (each_from group_answer_at 0 (map view all.now) path.now) }
{
    let mut answers = Items::new(alloc);
    let mut index: u64 = 0;
    for found in all {
        let at = index_path(alloc, path, index)?;
        answers.push(answered_group(alloc, found, &at)?)?;
        index += 1;
    }
    Ok(answers)
}

// The answer of a managed rule group.
#[tactic(auto, unfolding(crate::specs::AnswersReading::group_answer_at))]
fn answered_group(alloc: Global, v: &Value, path: &Text) -> Result<GroupAnswer, ReadFault>
    ensures { Gives read_faults.Memory (λ answer. answer) result (group_answer_at (view v.now) path.now) }
{
    let key = Text::of(alloc, text_member(alloc, v, "Key", path)?.as_bytes())?;
    let verdict = verdict(alloc, v, path)?;
    let labels = labels(alloc, v, path)?;
    Ok(GroupAnswer {
        key,
        verdict,
        labels,
    })
}

// The verdict of a managed rule group.
#[tactic(auto, unfolding(crate::specs::AnswersReading::verdict_at))]
fn verdict(alloc: Global, v: &Value, path: &Text) -> Result<Verdict, ReadFault>
    ensures { Gives read_faults.Memory (λ verdict. verdict) result (verdict_at (view v.now) path.now) }
{
    let word = text_member(alloc, v, "Verdict", path)?;
    match verdict_of(word) {
        Some(verdict) => Ok(verdict),
        None => Err(ReadFault::Name(member_path(alloc, path, "Verdict")?)),
    }
}

// What the word for a verdict means.
fn verdict_of(word: &str) -> Option<Verdict>
    ensures { result ≡ meaning verdict_words word.now }
{
    if word == "NONE" {
        Some(Verdict::Nothing)
    } else if word == "ALLOW" {
        Some(Verdict::Allow)
    } else if word == "BLOCK" {
        Some(Verdict::Block)
    } else if word == "CAPTCHA" {
        Some(Verdict::Captcha)
    } else if word == "CHALLENGE" {
        Some(Verdict::Challenge)
    } else {
        None
    }
}

// The labels that a managed rule group adds.
#[tactic(auto, unfolding(crate::specs::AnswersReading::labels_at))]
fn labels(alloc: Global, v: &Value, path: &Text) -> Result<Items<Text>, ReadFault>
    ensures { Gives read_faults.Memory (λ labels. labels) result (labels_at (view v.now) path.now) }
{
    let all = optional_list(alloc, v, "Labels", path)?;
    let at = member_path(alloc, path, "Labels")?;
    let labels = each_label(alloc, all, &at)?;
    Ok(labels)
}

fn each_label(alloc: Global, all: &[Value], path: &Text) -> Result<Items<Text>, ReadFault>
    ensures { Gives read_faults.Memory (λ labels. labels) result (each_from label_at 0 (map view all.now) path.now) }
{
    let mut labels = Items::new(alloc);
    let mut index: u64 = 0;
    for found in all {
        let at = index_path(alloc, path, index)?;
        labels.push(label(alloc, found, &at)?)?;
        index += 1;
    }
    Ok(labels)
}

// A label that a managed rule group may add.
#[tactic(auto, unfolding(crate::specs::AnswersReading::label_at))]
fn label(alloc: Global, v: &Value, path: &Text) -> Result<Text, ReadFault>
    ensures { Gives read_faults.Memory (λ label. label) result (label_at (view v.now) path.now) }
{
    let found = text(alloc, v, path)?;
    if !is_managed_label(found.as_bytes()) {
        return Err(ReadFault::Name(copy_of(alloc, path)?));
    }
    Ok(Text::of(alloc, found.as_bytes())?)
}

// Whether a managed rule group may add this label.
fn is_managed_label(text: &[u8]) -> bool
    ensures { result ≡ is_managed_text text.now }
{
    text.starts_with(b"awswaf:managed:") && has_label_bytes(text)
}

// Whether each byte may stand in a label.
fn has_label_bytes(text: &[u8]) -> bool
    ensures { result ≡ list_all is_label_letter text.now }
{
    text.iter().all(|byte| is_label_byte(*byte))
}

fn is_label_byte(byte: u8) -> bool
    ensures { result ≡ is_label_letter byte }
{
    (b'A' <= byte && byte <= b'Z')
        || (b'a' <= byte && byte <= b'z')
        || (b'0' <= byte && byte <= b'9')
        || byte == b'_'
        || byte == b'-'
        || byte == b':'
}
