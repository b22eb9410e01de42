//! Pattern sets.

ghost use Rattle.json_view.specs.Words.{each_from};
ghost use Rattle.serde_json.specs.View.{view};
ghost use Rattle.set_json.specs.Sets.{regex_set_of, set_of_texts as set_in, texts_at, texts_of as texts_in};
ghost use Rattle.statement_json.specs.Matches.{regex_at};
ghost use Rattle.pattern_read.specs.Spelled.{pattern_spelled};
ghost use Rattle.std.specs.List.{list_any};
ghost use Rattle.std.specs.Prelude.{◌≡◌, IfOk, filter_map, is_some, map, not};
ghost use Rattle.waf_model.specs.Gives.{Gives};
ghost use Rattle.waf_model.specs.declared.read_fault.ReadFault.TheVariants as read_faults;

use json_view::{index_path, list_member, member_path, within_limit};
use pattern_read::read_pattern;
use serde_json::Value;
use statement_json::{arn, regex};
use std::alloc::Global;
use waf_model::{Items, Memory, Pattern, ReadFault, RegexSet, Text};

// A pattern set has at most so many patterns.
const MOST_PATTERNS: u32 = 100;

/// The pattern set of that value (API type `RegexPatternSet`).
#[tactic(auto, unfolding(crate::specs::Sets::regex_set_of))]
pub(crate) fn regex_set(alloc: Global, v: &Value, path: &Text) -> Result<RegexSet, ReadFault>
    ensures { Gives read_faults.Memory (λ set. set) result (regex_set_of (view v.now) path.now) }
{
    let arn = arn(alloc, v, path)?;
    let texts = texts(alloc, v, path)?;
    let set = set_of_texts(alloc, arn, texts)?;
    Ok(set)
}

// The texts of the patterns.
#[tactic(auto, unfolding(crate::specs::Sets::texts_at))]
fn texts(alloc: Global, v: &Value, path: &Text) -> Result<Items<Text>, ReadFault>
    ensures { Gives read_faults.Memory (λ texts. texts) result (texts_at (view v.now) path.now) }
{
    let all = list_member(alloc, v, "RegularExpressionList", path)?;
    let at = member_path(alloc, path, "RegularExpressionList")?;
    let texts = texts_of(alloc, all, &at)?;
    Ok(texts)
}

// The texts of a list that isn't too long.
fn texts_of(alloc: Global, all: &[Value], path: &Text) -> Result<Items<Text>, ReadFault>
    ensures { Gives read_faults.Memory (λ texts. texts) result (texts_in (map view all.now) path.now) }
{
    within_limit(alloc, all, MOST_PATTERNS, path)?;
    let texts = each_text(alloc, all, path)?;
    Ok(texts)
}

fn each_text(alloc: Global, all: &[Value], path: &Text) -> Result<Items<Text>, ReadFault>
    ensures { Gives read_faults.Memory (λ texts. texts) result (each_from regex_at 0 (map view all.now) path.now) }
{
    let mut texts = Items::new(alloc);
    let mut index: u64 = 0;
    for found in all {
        let at = index_path(alloc, path, index)?;
        texts.push(Text::of(alloc, regex(alloc, found, &at)?.as_bytes())?)?;
        index += 1;
    }
    Ok(texts)
}

// The pattern set of that ARN and these texts. It fails only for want of memory.
fn set_of_texts(alloc: Global, arn: Text, texts: Items<Text>) -> Result<RegexSet, Memory>
    ensures { IfOk result (λ set. set ≡ set_in arn texts) }
{
    let (patterns, outside) = patterns_of(alloc, texts.as_slice())?;
    Ok(RegexSet {
        arn,
        texts,
        patterns,
        outside,
    })
}

// The patterns of the texts that are of the subset, and whether some text is not. It fails only for want of memory.
fn patterns_of(alloc: Global, texts: &[Text]) -> Result<(Items<Pattern>, bool), Memory>
    ensures { IfOk result (λ found. (found.0 ≡ filter_map pattern_spelled texts.now) × (found.1 ≡ list_any (λ text. not (is_some (pattern_spelled text))) texts.now)) }
{
    let mut patterns = Items::new(alloc);
    let mut outside = false;
    for text in texts {
        match read_pattern(alloc, text.bytes())? {
            Some(pattern) => patterns.push(pattern)?,
            None => outside = true,
        }
    }
    Ok((patterns, outside))
}
