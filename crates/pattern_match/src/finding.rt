//! Whether a pattern is found in a text.

ghost use Rattle.std.specs.Prelude.{◌↔◌, IfOk, IsTrue};
ghost use Rattle.waf_model.specs.Pattern.{Found};
ghost use Rattle.waf_model.specs.declared.pattern.Pattern.{Pattern};
ghost use Rattle.pattern_match.specs.Searches.{IsSearchOf};

use crate::builder::matcher_of;
use crate::matcher::Matcher;
use crate::place::{Place, Step};
use crate::trace::Trace;
use std::alloc::Global;
use waf_model::{Memory, Pattern};

/// A pattern prepared for searching in any number of texts.
#[derive(Drop)]
pub struct Search {
    pub(crate) matcher: Matcher,
}

impl Search {
    /// The search for the pattern. A repetition whose `most` is less than its `least` matches nowhere. Time and memory
    /// are in proportion to the places of the pattern with its repetitions written out. It fails only for want of
    /// memory.
    pub fn of(alloc: Global, p: &Pattern) -> Result<Search, Memory>
        ensures { IfOk result (IsSearchOf p.now) }
    {
        Ok(Search {
            matcher: matcher_of(alloc, p)?,
        })
    }

    /// Whether the pattern is found in the bytes: whether it matches them from some place to some place. It takes time
    /// in proportion to the bytes and to the places of the pattern with its repetitions written out, and mostly less: a
    /// byte that no match begins with costs the same for each pattern where none is under way. It fails only for want of
    /// memory.
    pub fn found_in(&self, alloc: Global, text: &[u8]) -> Result<bool, Memory>
        ensures { IfOk result (λ found. (p : Pattern) → IsSearchOf p self.now → IsTrue found ↔ Found p text.now) }
    {
        let mut trace = Trace::Between(false);
        let mut before = Place::of(text, 0);
        let start = Step {
            before,
            byte: 0,
            place: before,
        };
        let through = self.matcher.advance(alloc, &mut trace, false, &start)?;
        if self.matcher.ends_at(through, true, start.place) {
            return Ok(true);
        }
        for (at, byte) in text.iter().enumerate() {
            let place = Place::of(text, at + 1);
            let step = Step {
                before,
                byte: *byte,
                place,
            };
            let through = self.matcher.advance(alloc, &mut trace, true, &step)?;
            if self.matcher.ends_at(through, true, place) {
                return Ok(true);
            }
            before = place;
        }
        Ok(false)
    }
}

/// Whether the pattern is found in the bytes, where they are the only text that is searched. It fails only for want of
/// memory.
pub fn hits(alloc: Global, p: &Pattern, w: &[u8]) -> Result<bool, Memory>
    ensures { IfOk result (λ found. IsTrue found ↔ Found p.now w.now) }
{
    let search = Search::of(alloc, p)?;
    search.found_in(alloc, w)
}
