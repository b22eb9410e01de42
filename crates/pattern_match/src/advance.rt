//! How one byte of the text moves the set of the places of a pattern that are reached.

ghost use Rattle.std.specs.Prelude.{◌≡◌, ◌&&◌, ◌||◌, IfOk, false, true};
ghost use Rattle.pattern_match.specs.Moves.{IsIdle, IsMoved, takes};
ghost use Rattle.pattern_match.specs.Openings.{IsSound, empty_at};
ghost use Rattle.pattern_match.specs.Traces.{parts};

use crate::byte_sets::has;
use crate::matcher::Matcher;
use crate::place::{Place, Step};
use crate::trace::Trace;
use std::alloc::Global;
use waf_model::Memory;

impl Matcher {
    /// Whether a step over the byte changes nothing: nothing is under way, and no match begins with the byte where the
    /// matcher is entered.
    #[inline(always)]
    fn is_idle(&self, trace: &Trace, entered: bool, byte: u8) -> bool
        ensures { result ≡ true → IsSound self.now → IsIdle self.now trace.now entered byte }
    {
        if !trace.is_still() {
            return false;
        }
        !entered || !self.may_begin(byte)
    }

    /// Whether a match ends at the place: one that was entered before, as is said, or one of the empty text, where the
    /// matcher is entered there.
    pub(crate) fn ends_at(&self, through: bool, entered: bool, place: Place) -> bool
        ensures { IsSound self.now → result ≡ (through || (entered && empty_at self.now place)) }
    {
        if through {
            return true;
        }
        entered && self.empty_at(place)
    }

    /// Whether a match of one byte ends behind the byte, of a matcher that has no parts.
    fn takes(&self, entered: bool, byte: u8) -> bool
        ensures { result ≡ (entered && takes self.now byte) }
    {
        match self {
            Matcher::OneOf(set) => entered && has(set, byte),
            _ => false,
        }
    }

    /// Moves on to the next place: the matcher was entered at the place before or not. It answers whether a match that was
    /// entered at an earlier place ends at the new one. Where nothing is under way in a part, and none begins with the
    /// byte, its parts are not looked at. It fails only for want of memory, and then the trace is of no use.
    #[cycle(advance)]
    #[inline(always)]
    pub(crate) fn advance(
        &self,
        alloc: Global,
        trace: &mut Trace,
        entered: bool,
        step: &Step,
    ) -> Result<bool, Memory>
        ensures { IsSound self.now → IfOk result (IsMoved self.now (parts trace.old) (parts trace.new) entered step.now) }
    {
        if self.is_idle(trace, entered, step.byte) {
            return Ok(false);
        }
        match self {
            Matcher::Both(_, _, _) => self.advance_parts(alloc, trace, entered, step),
            Matcher::Either(_, _, _) => self.advance_parts(alloc, trace, entered, step),
            Matcher::Star(_, _) => self.advance_parts(alloc, trace, entered, step),
            _ => Ok(self.takes(entered, step.byte)),
        }
    }

    /// The same of a matcher that may have parts.
    #[cycle(advance)]
    #[inline(never)]
    fn advance_parts(
        &self,
        alloc: Global,
        trace: &mut Trace,
        entered: bool,
        step: &Step,
    ) -> Result<bool, Memory>
        ensures { IsSound self.now → IfOk result (IsMoved self.now (parts trace.old) (parts trace.new) entered step.now) }
    {
        match trace {
            Trace::Between(ended) => {
                let ended = *ended;
                self.set_out(alloc, trace, ended, entered, step)
            }
            Trace::Within(ended, first, second) => {
                let through = self.step(alloc, ended, first, second, entered, step)?;
                trace.settle();
                Ok(through)
            }
        }
    }

    /// The same from a place where nothing is under way inside its parts: the trace is made anew.
    #[cycle(advance)]
    #[inline(never)]
    fn set_out(
        &self,
        alloc: Global,
        trace: &mut Trace,
        ended: bool,
        entered: bool,
        step: &Step,
    ) -> Result<bool, Memory>
        ensures { IsSound self.now → IfOk result (IsMoved self.now (parts (Trace.Between ended)) (parts trace.new) entered step.now) }
    {
        let mut ended = ended;
        let mut first = Trace::Between(false);
        let mut second = Trace::Between(false);
        let through = self.step(alloc, &mut ended, &mut first, &mut second, entered, step)?;
        *trace = Trace::of(alloc, ended, first, second)?;
        Ok(through)
    }

    /// The same with the traces of the parts at hand.
    #[cycle(advance)]
    #[tactic(auto, using(crate::proofs::Marking::empty_after))]
    fn step(
        &self,
        alloc: Global,
        ended: &mut bool,
        first: &mut Trace,
        second: &mut Trace,
        entered: bool,
        step: &Step,
    ) -> Result<bool, Memory>
        ensures { IsSound self.now → IfOk result (IsMoved self.now (record { ended = ended.old; first = first.old; second = second.old }) (record { ended = ended.new; first = first.new; second = second.new }) entered step.now) }
    {
        match self {
            Matcher::Both(one, other, _) => {
                let goes_on = one.ends_at(*ended, entered, step.before);
                let front = one.advance(alloc, first, entered, step)?;
                let back = other.advance(alloc, second, goes_on, step)?;
                *ended = front;
                Ok(other.ends_at(back, front, step.place))
            }
            Matcher::Either(one, other, _) => {
                let front = one.advance(alloc, first, entered, step)?;
                let back = other.advance(alloc, second, entered, step)?;
                Ok(front || back)
            }
            Matcher::Star(inner, _) => {
                let through = inner.advance(alloc, first, entered || *ended, step)?;
                *ended = through;
                Ok(through)
            }
            _ => Ok(self.takes(entered, step.byte)),
        }
    }
}
