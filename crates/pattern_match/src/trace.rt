//! What is under way in a matcher.

ghost use Rattle.std.specs.Prelude.{◌≡◌, ◌↔◌, IfOk, IfSome, IsTrue, false};
ghost use Rattle.pattern_match.specs.Traces.{Parts, parts};

use std::alloc::Global;
use waf_model::Memory;

/// What is under way in a matcher at a place of one text. A trace of most parts at most places is `Between(false)`,
/// which takes no memory.
#[derive(Drop)]
pub(crate) enum Trace {
    /// Nothing is under way inside its parts. True where a match of the first part, or one time of a repetition, that was
    /// entered at an earlier place ended.
    Between(bool),
    /// The same test, with the traces of both parts; that of a repetition is the first.
    Within(bool, Box<Trace>, Box<Trace>),
}

impl Trace {
    /// Whether nothing is under way. A trace that keeps those of its parts says no.
    #[inline(always)]
    pub(crate) fn is_still(&self) -> bool
        ensures { IsTrue result ↔ (self.now ≡ Trace.Between false) }
    {
        match self {
            Trace::Between(ended) => !*ended,
            Trace::Within(_, _, _) => false,
        }
    }

    /// The trace with these parts. It fails only for want of memory, which it takes only where something is under way in
    /// a part.
    pub(crate) fn of(
        alloc: Global,
        ended: bool,
        first: Trace,
        second: Trace,
    ) -> Result<Trace, Memory>
        ensures { IfOk result (λ trace. parts trace ≡ record { ended = ended; first = first; second = second }) }
    {
        if first.is_still() && second.is_still() {
            return Ok(Trace::Between(ended));
        }
        Ok(Trace::Within(ended, Box::new(alloc, first)?, Box::new(alloc, second)?))
    }

    /// Gives back the memory of parts in which nothing is under way.
    pub(crate) fn settle(&mut self)
        ensures { parts self.new ≡ parts self.old }
    {
        if let Some(ended) = self.rests() {
            *self = Trace::Between(ended);
        }
    }

    /// Whether nothing is under way inside its parts; then the test that it keeps.
    fn rests(&self) -> Option<bool>
        ensures { IfSome result (λ ended. parts self.now ≡ parts (Trace.Between ended)) }
    {
        match self {
            Trace::Between(_) => None,
            Trace::Within(ended, first, second) => {
                if first.is_still() && second.is_still() {
                    Some(*ended)
                } else {
                    None
                }
            }
        }
    }
}
