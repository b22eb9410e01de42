//! What texts of bytes tell of automata.

ghost use Rattle.std.specs.Prelude.{◌≡◌, ◌↔◌, ℕ, List, Result, length};
ghost use Rattle.byte_automata.specs.Automaton.{Automaton, accepts, ends};
ghost use Rattle.byte_automata.specs.Least.{IsLeast, SameLanguage};
ghost use Rattle.waf_base.specs.Makes.{Makes};
ghost use Rattle.byte_automata.specs.Texts.{IsText, SameOnTexts, SameAfter};
ghost use Rattle.byte_automata.specs.Walk.{IsReached, LedAlike};
ghost use Rattle.waf_base.specs.Members.{Exactly};
ghost use Rattle.waf_base.specs.declared.meter.Meter.{Meter};
ghost use Rattle.waf_base.specs.declared.refusal.Stop.{Stop};

use crate::dfa::Dfa;
use crate::walk::Walk;

/// A law: automata that accept the same texts of bytes accept the same lists of numbers, since a number above 255 leads
/// where 255 leads. Least ones are equal then.
pub fn same_on_texts(one: &Dfa, other: &Dfa)
    requires { SameOnTexts one.now other.now }
    ensures language { SameLanguage one.now other.now }
    ensures least { IsLeast one.now → IsLeast other.now → one.now ≡ other.now }
{
    let _ = one.states();
    let _ = other.states();
}

/// A law: the states of a least automaton are the residuals of its language, one each. Two texts end in one state exactly
/// where the same texts are accepted after both, and there are just as many such residuals as states.
pub fn states_are_residuals(dfa: &Dfa)
    requires { IsLeast dfa.now }
    ensures ends { (u v : List ℕ) → IsText u → IsText v →
        (ends dfa.now dfa.now.start u ≡ ends dfa.now dfa.now.start v) ↔ SameAfter (accepts dfa.now) u v }
    ensures count { Exactly (SameAfter (accepts dfa.now)) (length dfa.now.states) IsText }
{}

/// A law: what texts of bytes lead to, counted by texts, is the places that some text leads to, counted themselves. So a
/// call makes one node for each of the one exactly where it makes one for each of the other.
pub fn texts_count_places<P, W: Walk<P>>(walk: &W)
    ensures { (result : Result Automaton Stop) (old new : Meter) →
        Makes (LedAlike (W.start walk.now) (W.after walk.now)) IsText result old new
        ↔ Makes ◌≡◌ (IsReached (W.start walk.now) (W.after walk.now)) result old new }
{}
