//! Statements that test a part of a request.

ghost use Rattle.json_view.specs.Words.{meaning};
ghost use Rattle.serde_json.specs.View.{view};
ghost use Rattle.statement_json.specs.Matches.{arn_at, byte_match_of, compare_at, compare_words, regex_at, regex_of, regex_on as regex_with, size_at, size_of};
ghost use Rattle.std.specs.Prelude.{◌≡◌, ◌≤◌};
ghost use Rattle.waf_model.specs.Cost.{match_base as base_of};
ghost use Rattle.waf_model.specs.Gives.{Gives};
ghost use Rattle.waf_model.specs.declared.read_fault.ReadFault.TheVariants as read_faults;

use crate::encoding::Encoding;
use crate::field::field;
use crate::opaque::{opaque, opaque_match};
use crate::pairing::beside;
use crate::search::{position, search};
use crate::target::{Target, cost_of, target_of};
use crate::transforms::transforms;
use json_view::{member_path, text_member, whole_member};
use pattern_read::read_pattern;
use serde_json::Value;
use std::alloc::Global;
use waf_model::{Compare, Pattern, Position, ReadFault, Statement, Text};

// What the tests cost in web ACL capacity units, before their fields and transformations.
const SIZE_BASE: u64 = 1;

const REGEX_BASE: u64 = 3;

// The greatest length that a text is compared with, in bytes.
const GREATEST_SIZE: u64 = 9_223_372_036_854_775_807;

// The greatest length of a pattern's text, in bytes.
const LONGEST_PATTERN: u32 = 4096;

// A byte match, of the statement at `path`; its value `found` stands at `at`.
#[tactic(auto, unfolding(crate::specs::Matches::byte_match_of))]
pub(crate) fn byte_match(
    alloc: Global,
    encoding: Encoding,
    statement: &Value,
    found: &Value,
    path: &Text,
    at: &Text,
) -> Result<Statement, ReadFault>
    ensures { Gives read_faults.Memory (λ statement. statement) result (byte_match_of encoding (view statement.now) (view found.now) path.now at.now) }
{
    let search = search(alloc, encoding, found, at)?;
    let search_in = beside(search, field(alloc, found, at))?;
    let changed = beside(search_in, transforms(alloc, found, at))?;
    let (((search, field), listed), position) = beside(changed, position(alloc, found, at))?;
    let cost = cost_of(match_base(position), &field, &listed);
    let target = target_of(alloc, field, &listed)?;
    match target {
        Some(target) => Ok(Statement::ByteMatch {
            search,
            field: target.field,
            transforms: target.transforms,
            position,
        }),
        None => opaque_match(alloc, encoding, &search, found, statement, Some(cost), path),
    }
}

// What a byte match costs by where its search string must stand.
fn match_base(position: Position) -> u64
    ensures value { result ≡ base_of position }
    ensures small { result ≤ 40 }
{
    match position {
        Position::Exactly | Position::Starts | Position::Ends => 2,
        Position::Contains | Position::Word => 10,
    }
}

// A test of a length.
#[tactic(auto, unfolding(crate::specs::Matches::size_of))]
pub(crate) fn size_constraint(
    alloc: Global,
    statement: &Value,
    found: &Value,
    path: &Text,
    at: &Text,
) -> Result<Statement, ReadFault>
    ensures { Gives read_faults.Memory (λ statement. statement) result (size_of (view statement.now) (view found.now) path.now at.now) }
{
    let field = field(alloc, found, at)?;
    let compared = beside(field, compare(alloc, found, at))?;
    let sized = beside(compared, size(alloc, found, at))?;
    let (((field, op), size), listed) = beside(sized, transforms(alloc, found, at))?;
    let cost = cost_of(SIZE_BASE, &field, &listed);
    let target = target_of(alloc, field, &listed)?;
    match target {
        Some(target) => Ok(Statement::Size {
            op,
            size,
            field: target.field,
            transforms: target.transforms,
        }),
        None => opaque(alloc, statement, Some(cost), None, path),
    }
}

// How a length is compared.
#[tactic(auto, unfolding(crate::specs::Matches::compare_at))]
fn compare(alloc: Global, v: &Value, path: &Text) -> Result<Compare, ReadFault>
    ensures { Gives read_faults.Memory (λ op. op) result (compare_at (view v.now) path.now) }
{
    let word = text_member(alloc, v, "ComparisonOperator", path)?;
    match compare_of(word) {
        Some(op) => Ok(op),
        None => Err(ReadFault::Name(member_path(alloc, path, "ComparisonOperator")?)),
    }
}

// What the word for a comparison means.
fn compare_of(word: &str) -> Option<Compare>
    ensures { result ≡ meaning compare_words word.now }
{
    if word == "EQ" {
        Some(Compare::Eq)
    } else if word == "NE" {
        Some(Compare::Ne)
    } else if word == "LE" {
        Some(Compare::Le)
    } else if word == "LT" {
        Some(Compare::Lt)
    } else if word == "GE" {
        Some(Compare::Ge)
    } else if word == "GT" {
        Some(Compare::Gt)
    } else {
        None
    }
}

// The length that a text is compared with, in bytes.
#[tactic(auto, unfolding(crate::specs::Matches::size_at))]
fn size(alloc: Global, v: &Value, path: &Text) -> Result<u64, ReadFault>
    ensures { Gives read_faults.Memory (λ size. size) result (size_at (view v.now) path.now) }
{
    let size = whole_member(alloc, v, "Size", path, 0, GREATEST_SIZE)?;
    Ok(size)
}

// A search for a pattern.
#[tactic(auto, unfolding(crate::specs::Matches::regex_of))]
pub(crate) fn regex_match(
    alloc: Global,
    statement: &Value,
    found: &Value,
    path: &Text,
    at: &Text,
) -> Result<Statement, ReadFault>
    ensures { Gives read_faults.Memory (λ statement. statement) result (regex_of (view statement.now) (view found.now) path.now at.now) }
{
    let text = regex(alloc, found, at)?;
    let field = field(alloc, found, at)?;
    let (field, listed) = beside(field, transforms(alloc, found, at))?;
    let cost = cost_of(REGEX_BASE, &field, &listed);
    let target = target_of(alloc, field, &listed)?;
    let (target, pattern) = beside(target, read_pattern(alloc, text.as_bytes()))?;
    regex_on(alloc, target, pattern, statement, cost, path)
}

// A search for a pattern, unless something of it isn't evaluated.
fn regex_on(
    alloc: Global,
    target: Option<Target>,
    pattern: Option<Pattern>,
    statement: &Value,
    cost: u64,
    path: &Text,
) -> Result<Statement, ReadFault>
    ensures { Gives read_faults.Memory (λ statement. statement) result (regex_with target pattern (view statement.now) cost path.now) }
{
    let Some(target) = target else {
        return opaque(alloc, statement, Some(cost), None, path);
    };
    let Some(pattern) = pattern else {
        return opaque(alloc, statement, Some(cost), None, path);
    };
    Ok(Statement::Regex {
        pattern,
        field: target.field,
        transforms: target.transforms,
    })
}

/// The text of a pattern in the member `RegexString`, of at most 4,096 bytes (API type `Regex`). It fails with Shape at the
/// member's path where there is no text, with Limit where it is longer, and for want of memory.
#[tactic(auto, unfolding(crate::specs::Matches::regex_at))]
pub fn regex<'a>(alloc: Global, v: &'a Value, path: &Text) -> Result<&'a str, ReadFault>
    ensures { Gives read_faults.Memory (λ text. text.now) result (regex_at (view v.now) path.now) }
{
    let text = text_member(alloc, v, "RegexString", path)?;
    if text.len() > LONGEST_PATTERN as usize {
        return Err(ReadFault::Limit(member_path(alloc, path, "RegexString")?, LONGEST_PATTERN));
    }
    Ok(text)
}

/// The text of the member `ARN`. It fails with Shape at the member's path where there is none, and for want of memory.
#[tactic(auto, unfolding(crate::specs::Matches::arn_at))]
pub fn arn(alloc: Global, v: &Value, path: &Text) -> Result<Text, ReadFault>
    ensures { Gives read_faults.Memory (λ arn. arn) result (arn_at (view v.now) path.now) }
{
    let arn = text_member(alloc, v, "ARN", path)?;
    Ok(Text::of(alloc, arn.as_bytes())?)
}
