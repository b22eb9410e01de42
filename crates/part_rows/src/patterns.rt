//! Rows of patterns: a pattern and texts; `outside` where the pattern is none of the grammar, and else for each text
//! whether the pattern is found in it.

use crate::answers::one;
use pattern_match::{Search, hits};
use pattern_read::read_pattern;
use std::alloc::Global;
use text_rows::{Kind, unknown};
use waf_model::{Memory, Pattern, Text};

/// Patterns, each of which is searched for in each text by a search of its own.
pub(crate) struct Hits;

/// Patterns, each of which is searched for in all its texts, in their order, by one search.
pub(crate) struct Searches;

/// The word for what is found, or for what isn't.
fn outcome(found: bool) -> &'static [u8] {
    if found { b"found" } else { b"missed" }
}

/// Whether the pattern is found in each text, each time anew.
fn found_each_time(alloc: Global, pattern: &Pattern, texts: &[Text]) -> Result<Vec<Text>, Memory> {
    let mut fields = Vec::new(alloc);
    for text in texts {
        let found = hits(alloc, pattern, text.bytes())?;
        fields.push(Text::of(alloc, outcome(found))?)?;
    }
    Ok(fields)
}

/// Whether the pattern is found in each text, by one search.
fn found_by_one(alloc: Global, pattern: &Pattern, texts: &[Text]) -> Result<Vec<Text>, Memory> {
    let search = Search::of(alloc, pattern)?;
    let mut fields = Vec::new(alloc);
    for text in texts {
        let found = search.found_in(alloc, text.bytes())?;
        fields.push(Text::of(alloc, outcome(found))?)?;
    }
    Ok(fields)
}

impl Kind for Hits {
    fn answer(&self, alloc: Global, given: &[Text]) -> Result<Vec<Text>, Memory> {
        let Some((pattern, texts)) = given.split_first() else {
            return unknown(alloc);
        };
        match read_pattern(alloc, pattern.bytes())? {
            Some(read) => found_each_time(alloc, &read, texts),
            None => one(alloc, b"outside"),
        }
    }
}

impl Kind for Searches {
    fn answer(&self, alloc: Global, given: &[Text]) -> Result<Vec<Text>, Memory> {
        let Some((pattern, texts)) = given.split_first() else {
            return unknown(alloc);
        };
        match read_pattern(alloc, pattern.bytes())? {
            Some(read) => found_by_one(alloc, &read, texts),
            None => one(alloc, b"outside"),
        }
    }
}
