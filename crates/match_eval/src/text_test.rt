//! The test of texts.

ghost use Rattle.match_eval.specs.Asked.{test_of};
ghost use Rattle.std.specs.Prelude.{◌↔◌, Any, IfOk, IsTrue, length};
ghost use Rattle.waf_model.specs.Passes.{Compares, Passes, Stands};
ghost use Rattle.waf_model.specs.Pattern.{Found};

use crate::comparing::compares;
use crate::pattern_search::PatternSearch;
use crate::standing::stands;
use std::alloc::Global;
use waf_model::{Compare, Memory, Position, Text};

/// What is asked of a text.
#[derive(Drop)]
pub(crate) enum Asked<'a> {
    /// That the search string stands in it so.
    Search(Position, &'a [u8]),
    /// That its length compares so with this one, both in bytes.
    Size(Compare, u64),
    /// That the pattern is found in it.
    Pattern(PatternSearch<'a>),
    /// That some pattern is found in it.
    Patterns(&'a [PatternSearch<'a>]),
}

/// Whether some of the texts passes. It fails only for want of memory.
pub(crate) fn some_passes(alloc: Global, asked: &Asked<'_>, texts: &[Text]) -> Result<bool, Memory>
    ensures { IfOk result (λ passed. IsTrue passed ↔ Any (Passes (test_of asked.now)) texts.now) }
{
    match *asked {
        Asked::Search(position, search) => Ok(some_stands(position, search, texts)),
        Asked::Size(op, size) => Ok(some_compares(op, size, texts)),
        Asked::Pattern(ref pattern) => pattern.is_found(alloc, texts),
        Asked::Patterns(patterns) => some_found(alloc, patterns, texts),
    }
}

/// Whether the search string stands so in some of the texts.
fn some_stands(position: Position, search: &[u8], texts: &[Text]) -> bool
    ensures { IsTrue result ↔ Any (Stands position search.now) texts.now }
{
    texts
        .iter()
        .any(|text| stands(position, search, text.bytes()))
}

/// Whether the length of some of the texts compares so with the size, both in bytes.
fn some_compares(op: Compare, size: u64, texts: &[Text]) -> bool
    ensures { IsTrue result ↔ Any (λ text. Compares op (length text) size) texts.now }
{
    texts
        .iter()
        .any(|text| compares(op, text.bytes().len() as u64, size))
}

/// Whether some of the patterns is found in some of the texts. It fails only for want of memory.
fn some_found(alloc: Global, patterns: &[PatternSearch<'_>], texts: &[Text]) -> Result<bool, Memory>
    ensures { IfOk result (λ found. IsTrue found ↔ Any (λ text. Any (λ pattern. Found pattern text) patterns.now) texts.now) }
{
    for pattern in patterns {
        if pattern.is_found(alloc, texts)? {
            return Ok(true);
        }
    }
    Ok(false)
}
