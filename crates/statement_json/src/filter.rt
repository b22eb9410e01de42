//! Which headers or cookies are looked at.

ghost use Rattle.json_view.specs.Words.{each_from, meaning, word_at};
ghost use Rattle.serde_json.specs.Find.{get};
ghost use Rattle.serde_json.specs.View.{view};
ghost use Rattle.statement_json.specs.Fields.{excluded_of, filter_at, filter_of as filter_in, has_tokens as has_token_names, names_of as names_in, part_words};
ghost use Rattle.std.specs.List.{list_all};
ghost use Rattle.std.specs.Prelude.{◌≡◌, codes, map};
ghost use Rattle.waf_model.specs.Gives.{Gives};
ghost use Rattle.waf_model.specs.Json.{present, text_at};
ghost use Rattle.waf_model.specs.Within.{is_token as is_token_text};
ghost use Rattle.waf_model.specs.declared.read_fault.ReadFault.TheVariants as read_faults;

use crate::token::is_token;
use json_view::{
    copy_of, ensured, index_path, is_there, list, member, member_count, member_path,
    present_member, text, text_member,
};
use serde_json::Value;
use std::alloc::Global;
use waf_model::{Filter, Items, Part, ReadFault, Text};

// The match pattern, with these names of its lists.
pub(crate) fn filter(
    alloc: Global,
    included: &str,
    excluded: &str,
    v: &Value,
    path: &Text,
) -> Result<Filter, ReadFault>
    ensures { Gives read_faults.Memory (λ filter. filter) result (filter_at included.now excluded.now (view v.now) path.now) }
{
    let found = member(alloc, v, "MatchPattern", path)?;
    let at = member_path(alloc, path, "MatchPattern")?;
    filter_of(alloc, included, excluded, found, &at)
}

// A match pattern, which has exactly one member.
fn filter_of(
    alloc: Global,
    included: &str,
    excluded: &str,
    v: &Value,
    path: &Text,
) -> Result<Filter, ReadFault>
    ensures { Gives read_faults.Memory (λ filter. filter) result (filter_in included.now excluded.now (view v.now) path.now) }
{
    if member_count(v) != 1 {
        return Err(ReadFault::Shape(copy_of(alloc, path)?));
    }
    if is_there(v, "All") {
        return Ok(Filter::All);
    }
    match present_member(v, included) {
        Some(found) => {
            let names = names(alloc, found, &member_path(alloc, path, included)?)?;
            Ok(Filter::Included(names))
        }
        None => excluded_names(alloc, v, excluded, path),
    }
}

// The names that are excluded, which must be there.
fn excluded_names(
    alloc: Global,
    v: &Value,
    excluded: &str,
    path: &Text,
) -> Result<Filter, ReadFault>
    ensures { Gives read_faults.Memory (λ filter. filter) result (excluded_of (present (get excluded.now (view v.now))) excluded.now path.now) }
{
    match present_member(v, excluded) {
        Some(found) => {
            let names = names(alloc, found, &member_path(alloc, path, excluded)?)?;
            Ok(Filter::Excluded(names))
        }
        None => Err(ReadFault::Shape(copy_of(alloc, path)?)),
    }
}

// A list of names.
fn names(alloc: Global, v: &Value, path: &Text) -> Result<Items<Text>, ReadFault>
    ensures { Gives read_faults.Memory (λ names. names) result (names_in (view v.now) path.now) }
{
    names_of(alloc, list(alloc, v, path)?, path)
}

// The texts of a list.
fn names_of(alloc: Global, all: &[Value], path: &Text) -> Result<Items<Text>, ReadFault>
    ensures { Gives read_faults.Memory (λ names. names) result (each_from text_at 0 (map view all.now) path.now) }
{
    let mut names = Items::new(alloc);
    let mut index: u64 = 0;
    for found in all {
        let at = index_path(alloc, path, index)?;
        names.push(Text::of(alloc, text(alloc, found, &at)?.as_bytes())?)?;
        index += 1;
    }
    Ok(names)
}

// Whether all names of the filter are tokens.
pub(crate) fn has_tokens(filter: &Filter) -> bool
    ensures { result ≡ has_token_names filter.now }
{
    match filter {
        Filter::All => true,
        Filter::Included(names) => are_tokens(names),
        Filter::Excluded(names) => are_tokens(names),
    }
}

fn are_tokens(names: &Items<Text>) -> bool
    ensures { result ≡ list_all is_token_text names.now }
{
    names.as_slice().iter().all(|name| is_token(name.bytes()))
}

// What of a header or cookie is looked at.
pub(crate) fn part(alloc: Global, v: &Value, path: &Text) -> Result<Part, ReadFault>
    ensures { Gives read_faults.Memory (λ part. part) result (word_at (view v.now) (codes "MatchScope") part_words path.now) }
{
    let word = text_member(alloc, v, "MatchScope", path)?;
    match part_of(word) {
        Some(part) => Ok(part),
        None => Err(ReadFault::Name(member_path(alloc, path, "MatchScope")?)),
    }
}

// What the word for the parts of headers or cookies means.
fn part_of(word: &str) -> Option<Part>
    ensures { result ≡ meaning part_words word.now }
{
    if word == "ALL" {
        Some(Part::Both)
    } else if word == "KEY" {
        Some(Part::Key)
    } else if word == "VALUE" {
        Some(Part::Value)
    } else {
        None
    }
}
