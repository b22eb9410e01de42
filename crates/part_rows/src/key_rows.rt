//! Rows of keys.

use crate::given::{bytes, json, word};
use crate::row_fault::{RowFault, alone, answered};
use key_text::{
    holds_float, patterns_key, rate_key, search_holds_float, search_key, statement_key,
    unscoped_holds_float, unscoped_key,
};
use serde_json::Value;
use std::alloc::Global;
use text_rows::Kind;
use waf_model::{Memory, Text};

const RATE_BASED: &str = "RateBasedStatement";

const BYTE_MATCH: &str = "ByteMatchStatement";

/// The kind of keys. Given are a call, a statement's JSON text, and what else the call takes: the member of the statement
/// that it is about, a search string, names, or patterns.
pub(crate) struct KeyRows;

// The value of the statement's member of that name, or the whole where there is none.
fn found_in<'a>(statement: &'a Value, name: &str) -> &'a Value {
    statement.get(name).unwrap_or(statement)
}

// The key of a reference to a pattern set of the texts behind the statement.
fn key_with_patterns(alloc: Global, statement: &Value, given: &[Text]) -> Result<Text, RowFault> {
    let mut texts = Vec::new(alloc);
    for place in 2..given.len() {
        texts.push(Text::of(alloc, bytes(given, place)?)?)?;
    }
    Ok(patterns_key(alloc, texts.as_slice(), statement)?)
}

// The key of a rate-based statement of the rule and group behind it.
fn key_of_rate(alloc: Global, statement: &Value, given: &[Text]) -> Result<Text, RowFault> {
    let group = Text::of(alloc, bytes(given, 2)?)?;
    let rule = Text::of(alloc, bytes(given, 3)?)?;
    let found = found_in(statement, RATE_BASED);
    Ok(rate_key(alloc, &group, &rule, found, statement)?)
}

// Whether it holds, in a word.
fn truth(alloc: Global, holds: bool) -> Result<Text, RowFault> {
    let word: &[u8] = if holds { b"true" } else { b"false" };
    Ok(Text::of(alloc, word)?)
}

// What the call gives of the statement.
fn called_on(alloc: Global, statement: &Value, given: &[Text]) -> Result<Text, RowFault> {
    match word(given, 0)? {
        "statement" => Ok(statement_key(alloc, statement)?),
        "search" => {
            let found = found_in(statement, BYTE_MATCH);
            Ok(search_key(alloc, word(given, 2)?, found, statement)?)
        }
        "unscoped" => {
            let kind = word(given, 2)?;
            Ok(unscoped_key(alloc, kind, found_in(statement, kind), statement)?)
        }
        "rate" => key_of_rate(alloc, statement, given),
        "patterns" => key_with_patterns(alloc, statement, given),
        _ => float_on(alloc, statement, given),
    }
}

// Whether the call finds a float.
fn float_on(alloc: Global, statement: &Value, given: &[Text]) -> Result<Text, RowFault> {
    match word(given, 0)? {
        "holds_float" => truth(alloc, holds_float(statement)),
        "search_holds_float" => {
            let found = found_in(statement, BYTE_MATCH);
            truth(alloc, search_holds_float(found, statement))
        }
        "unscoped_holds_float" => {
            let kind = word(given, 2)?;
            let found = found_in(statement, kind);
            truth(alloc, unscoped_holds_float(kind, found, statement))
        }
        _ => Err(RowFault::Given),
    }
}

// What the call gives.
fn called(alloc: Global, given: &[Text]) -> Result<Text, RowFault> {
    let statement = json(alloc, given, 1)?;
    called_on(alloc, &statement, given)
}

fn fields(alloc: Global, given: &[Text]) -> Result<Vec<Text>, RowFault> {
    alone(alloc, called(alloc, given)?)
}

impl Kind for KeyRows {
    fn answer(&self, alloc: Global, given: &[Text]) -> Result<Vec<Text>, Memory> {
        answered(alloc, fields(alloc, given))
    }
}
