//! Patterns that are prepared for searching.

ghost use Rattle.std.specs.Prelude.{◌≡◌, ◌↔◌, Any, IfOk, IsTrue};
ghost use Rattle.waf_model.specs.Pattern.{Found};

use pattern_match::Search;
use std::alloc::Global;
use std::marker::Model;
use waf_model::{Memory, Pattern, Text};

/// A pattern, and the search for it. Contracts see it as the pattern.
#[derive(Drop)]
pub(crate) struct PatternSearch<'a> {
    pattern: &'a Pattern,
    search: Search,
}

impl<'a> Model for PatternSearch<'a> {
    ghost use Rattle.pattern_match.specs.Searches.{IsSearchOf};
    ghost use Rattle.waf_model.specs.contracts.pattern.Pattern as patterns;
    ghost use Rattle.waf_model.specs.declared.pattern.Pattern.{Pattern};

    ghost Value = { Pattern };

    ghost coded = { patterns.the_row.coded };

    ghost view = { λ s. s.pattern.now };

    ghost invariant = { λ s. IsSearchOf s.pattern.now s.search };
}

impl<'a> PatternSearch<'a> {
    /// The search for the pattern. It fails only for want of memory.
    pub(crate) fn of(alloc: Global, pattern: &'a Pattern) -> Result<PatternSearch<'a>, Memory>
        ensures { IfOk result (λ prepared. prepared ≡ pattern.now) }
    {
        let search = Search::of(alloc, pattern)?;
        Ok(PatternSearch { pattern, search })
    }

    /// Whether the pattern is found in some of the texts. It fails only for want of memory.
    pub(crate) fn is_found(&self, alloc: Global, texts: &[Text]) -> Result<bool, Memory>
        ensures { IfOk result (λ found. IsTrue found ↔ Any (Found self.now) texts.now) }
    {
        for text in texts {
            if self.search.found_in(alloc, text.bytes())? {
                return Ok(true);
            }
        }
        Ok(false)
    }
}
